//! What a connection has to do for a frame.

use mcast_txn::{Topic, Txn};
use stomp_frame::Octets;

/// What a connection has to do for an accepted frame.
#[derive(Drop)]
pub enum Action {
    /// Write CONNECTED (STOMP 1.2, "CONNECTED Frame"), for the client of this `client-id`, if the frame has one (our
    /// own header, not the standard's).
    Connected(Option<Octets>),
    /// Nothing but the receipt.
    Nothing,
    /// Open a subscription of this id at this topic (STOMP 1.2, "SUBSCRIBE").
    Subscribe(Octets, Topic),
    /// End the subscription of this id (STOMP 1.2, "UNSUBSCRIBE").
    Unsubscribe(Octets),
    /// Send this transaction: that of a COMMIT (STOMP 1.2, "COMMIT"), or a SEND outside a transaction, which is one by
    /// itself (our choice, not the standard's).
    Commit(Txn),
    /// End the connection once its receipt is written (STOMP 1.2, "DISCONNECT").
    Disconnect,
}

/// An accepted frame's action, and the receipt that the frame asks for.
#[derive(Drop)]
pub struct Step {
    pub action: Action,
    pub receipt: Option<Octets>,
}
