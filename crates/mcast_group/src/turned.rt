//! What a turn did.

/// What a turn of a topic did.
#[derive(Clone, Copy, Debug, PartialEq, Eq)]
pub struct Turned {
    /// How many parts it released.
    pub released: u64,
    /// Whether a subscription that was open has lagged in it.
    pub lagged: bool,
}
