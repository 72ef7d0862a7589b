//! Why a connection leaves.

use crate::conversation::conversation_fault::ConversationFault;

/// Why a connection leaves.
#[derive(Clone, Copy, Debug, PartialEq, Eq)]
pub enum Exit {
    /// It sent a DISCONNECT.
    Disconnect,
    /// It was sent an ERROR of this fault, unless there was no memory for that.
    Error(ConversationFault),
    /// It was lost.
    Lost,
}
