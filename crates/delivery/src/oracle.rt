//! The plain, slow programs that runs of the core are compared with. The core doesn't call them.

pub(crate) mod agreed;
pub(crate) mod due;
