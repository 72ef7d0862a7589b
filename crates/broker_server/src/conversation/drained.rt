//! What the taking of queues came to.

ghost use Rattle.std.specs.Prelude.{◌≡◌};
ghost use Rattle.broker_server.specs.declared.conversation.extent.Extent.TheVariants.{All};
ghost use Rattle.broker_server.specs.Delivering.{flags_left, is_halfway, is_stopped};

use crate::conversation::conversation_fault::ConversationFault;
use crate::conversation::extent::Extent;

/// How the taking of queues ended.
#[derive(Clone, Copy)]
pub(crate) enum Taking {
    /// Nothing is left of them.
    Emptied,
    /// Too many octets wait, or another queue is taken.
    Stopped,
    /// Too many octets wait, and an item is half out: nothing else is taken before the rest of it is written.
    Halfway,
    /// The connection is to end by this fault.
    Failed(ConversationFault),
}

impl Taking {
    /// Whether items, or MESSAGEs of one, may be left.
    pub(crate) fn is_stopped(self) -> bool
        ensures { result ≡ is_stopped self }
    {
        matches!(self, Taking::Stopped | Taking::Halfway)
    }

    /// Whether an item is half out.
    pub(crate) fn is_halfway(self) -> bool
        ensures { result ≡ is_halfway self }
    {
        matches!(self, Taking::Halfway)
    }

    /// Which of these flags are kept, where so much was to be taken: none where nothing is left, and each lag was told.
    pub(crate) fn flags_left(self, extent: Extent, flags: u64) -> u64
        ensures { result ≡ flags_left extent self flags }
    {
        match extent {
            Extent::All => self.flags_left_of_all(flags),
            Extent::ButLags => flags,
            Extent::Rest => flags,
        }
    }

    /// The same, where all was to be taken.
    fn flags_left_of_all(self, flags: u64) -> u64
        ensures { result ≡ flags_left All self flags }
    {
        match self {
            Taking::Emptied => 0,
            Taking::Stopped => flags,
            Taking::Halfway => flags,
            Taking::Failed(_) => flags,
        }
    }
}

/// What the taking of queues came to.
#[derive(Clone, Copy)]
pub(crate) struct Drained {
    /// Whether an item was taken.
    pub(crate) any: bool,
    pub(crate) end: Taking,
}
