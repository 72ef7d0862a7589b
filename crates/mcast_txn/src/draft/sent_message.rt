//! SEND frames within a transaction.

use crate::id::Topic;
use stomp_frame::{Headers, Octets};

/// A SEND of a transaction (STOMP 1.2, "SEND"): the topic of its destination, its headers and its body.
#[derive(Drop)]
pub struct SentMessage {
    pub topic: Topic,
    pub headers: Headers,
    pub body: Octets,
}
