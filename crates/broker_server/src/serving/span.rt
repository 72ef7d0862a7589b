//! Lengths of time.

/// A length of time, in nanoseconds.
#[derive(Clone, Copy)]
pub(crate) struct Span(pub(crate) u64);
