//! What is stored of a subscription for a trace.

use mcast_txn::Stamp;

/// A subscription that began at a place: its number, the frontier then, and its last stamp, once it was ended.
#[derive(Clone, Copy, Debug, PartialEq, Eq)]
pub(crate) struct KeptSpan {
    pub(crate) number: u64,
    pub(crate) from: Stamp,
    pub(crate) to: Option<Stamp>,
}
