//! SEND frames within a part.

use stomp_frame::{Headers, Octets};

/// A SEND as it is in the part that goes to its topic.
#[derive(Drop)]
pub struct PartMessage {
    /// Its index in the whole transaction, from 0.
    pub index: u32,
    pub headers: Headers,
    pub body: Octets,
}
