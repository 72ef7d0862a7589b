//! How much was done at a topic.

/// How many tickets a topic gave, and what became of their parts: each was released, was cancelled, or is pending.
#[derive(Clone, Copy, Debug, PartialEq, Eq)]
pub struct Counts {
    pub tickets: u64,
    pub released: u64,
    pub cancelled: u64,
    pub pending: u64,
}
