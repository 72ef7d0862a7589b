//! What waiting costs.

/// What waiting costs, in six-hundredths of a nanosecond, so that a sixtieth of a nanosecond and what comes back in one
/// are whole numbers.
#[derive(Clone, Copy)]
pub(crate) struct Cost(pub(crate) u64);
