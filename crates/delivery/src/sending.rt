//! What a sender does with its transaction.

use crate::in_flight::InFlight;
use crate::shared_topics::SharedTopics;
use mcast_group::ProposeFault;
use mcast_txn::Tickets;
use sender_gate::Gate;

/// What a sender does with its transaction, if one is undecided.
#[derive(Drop)]
pub(crate) enum Sending {
    /// None is undecided, and the sender has its gate.
    Idle(Gate),
    /// None is undecided, and the sender's gate isn't here: it was given back, and no connection speaks for the sender.
    /// While a call changes a sender, it stands for what the call took out.
    Resting,
    /// One is on its way. With it are its topics, as the row of the commit list is to have them.
    Flying(InFlight, SharedTopics),
    /// A topic refused it, and why: its tickets are to be cancelled.
    Marked(Gate, Tickets, ProposeFault),
}
