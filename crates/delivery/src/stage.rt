//! How far a connection is.

use crate::open_endpoint::OpenEndpoint;
use stomp_frame::Octets;

/// How far a connection is.
#[derive(Drop)]
pub(crate) enum Stage {
    /// Its frames are read.
    Open(OpenEndpoint),
    /// Its transaction and its subscriptions end. With it is the receipt that its DISCONNECT asked for.
    Leaving(Option<Octets>),
    /// Nothing is asked of it.
    Gone,
}
