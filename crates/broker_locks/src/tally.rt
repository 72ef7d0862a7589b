//! The counts of all topics.

/// How many tickets all topics of a broker gave, and what became of their parts: each was cancelled, was released, or is
/// pending.
#[derive(Clone, Copy, Debug, PartialEq, Eq)]
pub struct Tally {
    pub tickets: u128,
    pub cancelled: u128,
    pub released: u128,
    pub pending: u128,
}
