//! Where a SEND goes.

use mcast_txn::Topic;

/// Where an accepted SEND goes: to this topic, which may be new, and into the open transaction at this index, if it
/// names one.
#[derive(Clone, Copy)]
pub(crate) struct Route {
    pub topic: Topic,
    pub is_new: bool,
    pub transaction: Option<usize>,
}
