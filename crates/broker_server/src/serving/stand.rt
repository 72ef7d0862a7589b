//! Where a transaction stands that waits for room.

use mcast_txn::Topic;

/// Where a transaction stands that waits for room.
#[derive(Clone, Copy)]
pub(crate) enum Stand {
    /// Nowhere: it asks.
    Nowhere,
    /// In the line of this topic, for room there.
    InLine(Topic),
    /// In the second line of this topic, for a place to keep room there.
    ForPlace(Topic),
}
