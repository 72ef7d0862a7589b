//! Scripts, each with its output, its trace and the audit of that trace: those of `examples/scripts`, each under the name of
//! its file in capitals. `bench/check` compares them with the files.

mod frames;
mod order;
mod senders;
mod spans;
mod uses;

pub(crate) use frames::FRAMES;
pub(crate) use order::{CROSSING, FOUR_TICKETS, ORDER};
pub(crate) use senders::SENDERS;
pub(crate) use spans::SPANS;
pub(crate) use uses::USES;

/// A script, and what it gives.
#[derive(Clone, Copy, Drop)]
pub(crate) struct Row {
    pub(crate) script: &'static [u8],
    /// What `script` writes.
    pub(crate) output: &'static [u8],
    /// What `trace` writes.
    pub(crate) trace: &'static [u8],
    /// What `audit` writes of that trace.
    pub(crate) answer: &'static [u8],
}
