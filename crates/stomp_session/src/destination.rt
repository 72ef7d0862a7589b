//! What a destination names.

use mcast_txn::Topic;

/// What a destination names: a topic that is there, or one to make, with the number that it gets.
#[derive(Clone, Copy)]
pub(crate) struct Destination {
    pub topic: Topic,
    pub is_new: bool,
}
