//! A field of a line.

use mcast_txn::{Stamp, Topic, TxnId};

/// A field of a line.
#[derive(Clone, Copy)]
pub enum Field<'a> {
    /// These octets, as they are.
    Word(&'a [u8]),
    /// A number, by its decimal digits.
    Number(u64),
    /// A topic, by its number.
    Topic(Topic),
    /// A transaction: its sender and its seq, as `0 1`.
    Id(TxnId),
    /// A stamp: its number and its topic, as `2.1`.
    Stamp(Stamp),
    /// The end of a span: its stamp, or `-` where it is open.
    End(Option<Stamp>),
    /// Topics by their numbers, as `0,1`.
    Topics(&'a [Topic]),
}
