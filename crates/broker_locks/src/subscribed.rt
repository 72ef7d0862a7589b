//! A subscription that began.

ghost use Rattle.std.specs.Prelude.{◌≡◌};

use mcast_txn::Stamp;
use sub_queue::Taker;

/// A subscription that began: its number, the frontier then, and the end of its queue that takes.
#[derive(Drop)]
pub struct Subscribed {
    pub sub: u64,
    pub start: Stamp,
    pub taker: Taker,
}

impl Subscribed {
    /// Its number, the frontier then, and the end of its queue that takes.
    pub fn into_parts(self) -> (u64, Stamp, Taker)
        ensures { result ≡ (self.sub, self.start, self.taker) }
    {
        let Subscribed { sub, start, taker } = self;
        (sub, start, taker)
    }
}
