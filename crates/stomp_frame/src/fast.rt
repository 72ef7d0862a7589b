//! What makes reading and writing fast: octets that are looked at 16 at once, and the kinds of names.

pub(crate) mod front_without;
pub(crate) mod lanes;
pub(crate) mod name_kinds;
pub(crate) mod usual_run;
