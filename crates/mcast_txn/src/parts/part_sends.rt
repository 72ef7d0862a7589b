//! The SENDs of a part.

ghost use Rattle.std.specs.Prelude.{◌≡◌, ◌<◌, ◌↔◌, ◌∷◌, [], IsTrue, length, Some, slice_get};

use crate::parts::PartMessage;
use crate::parts::shared_sends::SharedSends;
use crate::parts::stored_sends::StoredSends;
use std::alloc::Global;
use std::marker::Model;

/// The SENDs of a transaction to one topic. In contracts it is their list, in order.
#[derive(Drop)]
pub struct PartSends {
    stored: StoredSends,
}

impl Model for PartSends {
    ghost use Rattle.std.specs.Prelude.{List};
    ghost use Rattle.mcast_txn.specs.Inner.StoredSends.{stored_sends};
    ghost use Rattle.mcast_txn.specs.declared.parts.part_message.PartMessage.{PartMessage};

    ghost Value = { List PartMessage };

    ghost view = { λ p. stored_sends p.stored };
}

impl PartSends {
    /// None.
    pub(crate) fn new(alloc: Global) -> PartSends
        ensures { result ≡ [] }
    {
        PartSends::shared(SharedSends::new(alloc))
    }

    /// This one alone.
    pub(crate) fn one(send: PartMessage) -> PartSends
        ensures { result ≡ send ∷ [] }
    {
        PartSends {
            stored: StoredSends::One(send),
        }
    }

    /// These, which their transaction has, too.
    pub(crate) fn shared(sends: SharedSends) -> PartSends
        ensures { result ≡ sends }
    {
        PartSends {
            stored: StoredSends::Shared(sends),
        }
    }

    /// How many there are.
    pub fn len(&self) -> usize
        ensures { result ≡ length self.now }
    {
        match &self.stored {
            StoredSends::One(_) => 1,
            StoredSends::Shared(sends) => sends.len(),
        }
    }

    /// Whether there is none.
    pub fn is_empty(&self) -> bool
        ensures { IsTrue result ↔ (self.now ≡ []) }
    {
        self.len() == 0
    }

    /// The SEND at index `i` of the part, from 0.
    pub fn get(&self, i: usize) -> &PartMessage
        requires { i < length self.now }
        ensures { slice_get self.now i ≡ Some result.now }
    {
        match &self.stored {
            StoredSends::One(send) => send,
            StoredSends::Shared(sends) => sends.get(i),
        }
    }
}
