//! Marks: whose transaction, and at which stamp.

use crate::id::TxnId;
use crate::stamp::Stamp;

/// A transaction's id and its stamp: what a row of a log and an item of a queue have in common.
#[derive(Clone, Copy, PartialEq, Eq)]
pub struct Mark {
    /// Whose it is.
    pub id: TxnId,
    /// Where it stands in the order.
    pub stamp: Stamp,
}
