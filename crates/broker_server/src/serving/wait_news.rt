//! What the log says of those whom senders wait for.

use mcast_txn::Topic;

/// Whom a topic's senders wait for, and how many they have passed over since that was said last.
#[derive(Clone, Copy)]
pub(crate) struct WaitNews {
    pub(crate) topic: Topic,
    /// The number of the connection for which waiting costs the most, if there is one.
    pub(crate) connection: Option<u64>,
    pub(crate) passed_over: u64,
}
