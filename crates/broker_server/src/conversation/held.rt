//! What a connection goes on with later.

use crate::conversation::conversation_fault::ConversationFault;
use mcast_txn::Txn;
use stomp_frame::Octets;

/// What a connection goes on with later; the frames behind it are heard then.
#[derive(Drop)]
pub(crate) enum Held {
    /// A COMMIT, or a SEND outside a transaction, that waits for room, and the receipt that it asks for.
    Waits(Txn, Option<Octets>),
    /// What such a one came to while an item was half out, and the receipt that it asks for: the answer that is owed, which
    /// comes behind the item.
    Owes(Result<(), ConversationFault>, Option<Octets>),
}
