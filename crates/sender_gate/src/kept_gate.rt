//! What is kept of a sender.

use crate::gate::Gate;
use mcast_txn::Sender;

/// A kept sender: its number, and its gate while it isn't in use.
#[derive(Drop)]
pub(crate) struct KeptGate {
    pub(crate) sender: Sender,
    pub(crate) gate: Option<Gate>,
}
