//! Why no room is reserved.

ghost use Rattle.std.specs.Prelude.{◌≡◌};
ghost use Rattle.broker_locks.specs.Faults.{no_room_number, no_room_title};

use mcast_txn::Topic;
use thiserror::Error;

/// Why no room is reserved at a topic.
#[derive(Clone, Copy, Debug, PartialEq, Eq, Error)]
pub enum NoRoom {
    /// 104: this topic has none. `sub` is the first of the subscriptions that are waited for there whose queue lacks
    /// room for the part; none, where so many parts are pending and reserved that no queue has it.
    #[error("104 Full: no room at the topic; wait until a queue is taken from, or the topic is turned")]
    Full { topic: Topic, sub: Option<u64> },
    /// 105: out of memory for the list of the topics.
    #[error("105 NoMemory: out of memory for a reservation; try it again")]
    NoMemory,
}

impl NoRoom {
    /// Its number, 104 or 105.
    pub fn number(self) -> u32
        ensures { result ≡ no_room_number self }
    {
        match self {
            NoRoom::Full { topic: _, sub: _ } => 104,
            NoRoom::NoMemory => 105,
        }
    }

    /// Its number, a space and its name.
    pub fn title(self) -> &'static [u8]
        ensures { result.now ≡ no_room_title self }
    {
        match self {
            NoRoom::Full { topic: _, sub: _ } => b"104 Full".as_slice(),
            NoRoom::NoMemory => b"105 NoMemory".as_slice(),
        }
    }
}
