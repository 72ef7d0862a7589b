//! Connections to a server.

use mio::net::TcpStream;
use std::alloc::Global;
use std::collections::VecDeque;
use std::net;
use std::net::{Net, SocketAddr};

/// Connections to a server, in the order in which it accepts them. They are made before it begins, by the thread that has the
/// machine's network: the thread of those who talk over them has it not.
#[derive(Drop)]
pub(super) struct Lines {
    made: VecDeque<net::TcpStream>,
}

impl Lines {
    /// So many connections to the listener at this address.
    pub(super) fn new<R: Net>(
        rt: &R,
        alloc: Global,
        addr: SocketAddr,
        count: u64,
    ) -> Option<Lines> {
        let mut made = VecDeque::new(alloc);
        for _ in 0..count {
            let stream = TcpStream::connect(rt, addr).ok()?;
            made.push_back(net::TcpStream::from(stream)).ok()?;
        }
        Some(Lines { made })
    }

    /// The next of them.
    pub(super) fn next(&mut self) -> Option<net::TcpStream> {
        self.made.pop_front()
    }
}
