//! Lists by topics.

ghost use Rattle.std.specs.Prelude.{IfNone, IfSome};
ghost use Rattle.mcast_txn.specs.Inner.SlotIndex.{IsIndexOf, HasNone};
ghost use Rattle.mcast_txn.specs.Lists.{RisesBy};

use crate::id::Topic;
use std::alloc::Global;
use std::default::MadeWith;

/// A topic, and the value stored for it, if any.
#[derive(Drop)]
pub(crate) struct Slot<T> {
    pub(crate) topic: Topic,
    pub(crate) held: Option<T>,
}

impl<T> MadeWith<Global> for Slot<T> {
    /// What lies in a place of a list that isn't used.
    fn made_with(_alloc: Global) -> Self {
        Slot {
            topic: Topic(0),
            held: None,
        }
    }
}

/// Where a topic's slot is.
pub(crate) fn index_of<T>(slots: &[Slot<T>], topic: Topic) -> Option<usize>
    requires { RisesBy (λ slot. slot.topic.0) slots.now }
    ensures found { IfSome result (IsIndexOf topic slots.now) }
    ensures absent { IfNone result (HasNone topic slots.now) }
{
    slots
        .binary_search_by_key(&topic.0, |slot| slot.topic.0)
        .ok()
}
