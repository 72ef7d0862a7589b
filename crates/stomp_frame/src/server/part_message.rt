//! A MESSAGE that says which of its transaction's it is.

use crate::headers::Headers;

/// A SEND as a subscriber gets it that asked for parts (our choice, not the standard's): a MESSAGE that says which of
/// its transaction's MESSAGEs at its topic it is. It borrows what it is made of, as a `ServerFrame` does.
#[derive(Clone, Copy)]
pub struct PartMessage<'a> {
    /// The subscription's id.
    pub subscription: &'a [u8],
    /// The number of the message's stamp.
    pub n: u64,
    /// The topic of the message's stamp.
    pub topic: u32,
    /// The SEND's index in its transaction, from 0.
    pub index: u32,
    /// The headers of the SEND.
    pub headers: &'a Headers,
    /// The body of the SEND.
    pub body: &'a [u8],
    /// Which of those MESSAGEs it is, from 1.
    pub at: u64,
    /// How many those MESSAGEs are.
    pub count: u64,
}
