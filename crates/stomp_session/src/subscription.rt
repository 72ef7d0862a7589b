//! What is kept of an open subscription.

use mcast_txn::Topic;

/// What is kept of an open subscription: its topic, and whether it asked for parts.
#[derive(Clone, Copy)]
pub(crate) struct Subscription {
    pub topic: Topic,
    pub parts: bool,
}
