//! Whose connection it is.

use std::fmt;
use std::fmt::{Display, Formatter};
use std::net::SocketAddr;

/// A connection's number, in the order in which they came, from 0, the number of its desk, and its peer's address.
#[derive(Clone, Copy)]
pub(crate) struct Peer {
    pub(crate) number: u64,
    pub(crate) desk: usize,
    pub(crate) addr: SocketAddr,
}

impl Display for Peer {
    fn fmt<W: fmt::Write>(&self, f: &mut Formatter<W>) -> fmt::Result {
        write!(f, "connection {} of {}", self.number, self.addr)
    }
}
