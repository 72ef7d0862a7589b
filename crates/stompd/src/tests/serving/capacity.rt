//! How many items the program's server keeps for one that doesn't read.

use super::client::Client;
use super::ending::ends;
use super::large::{send, sends};
use super::lines::Lines;
use super::served::quiet;
use log::Log;
use mio::net::TcpListener;
use std::alloc::Global;
use std::io::Write;
use std::net::{Ipv4Addr, Net, SocketAddr};
use std::sync::Wait;
use std::thread::{JoinHandle, Threads};
use std::time::Clock;
use std::{io, thread};

/// How many small SENDs come: more than one beyond the 64 that wait.
const SMALL: u32 = 84;

/// A SEND to B that asks for a receipt, and its RECEIPT.
const TO_B: (&str, &str) = (
    "SEND\ndestination:B\nreceipt:r\n\nhi\0",
    "RECEIPT\nreceipt-id:r\n\n\0\n",
);

/// Whether a client sends the small ones to A, and is answered behind the last.
fn sends_small(sender: &mut Client) -> bool {
    for _ in 0..SMALL {
        if !sender.sends("SEND\ndestination:A\n\nhi\0") {
            return false;
        }
    }
    sender.asks(TO_B.0, TO_B.1)
}

/// What one that lagged is told last: the MESSAGE of the 64th of them, which is the 65th transaction, and that it lagged.
const LAST: &[u8] =
    b"MESSAGE\nsubscription:s\nmessage-id:65.0.0\ndestination:A\ncontent-length:2\n\nhi\0\n\
    ERROR\nmessage:74 Lagged\ncontent-length:0\n\n\0\n";

/// Whether just 64 items are kept for one that subscribes, and reads only the front of a transaction before all was sent
/// that has more octets than the systems on the way take.
fn keeps_64(alloc: Global, lines: &mut Lines) -> Option<bool> {
    let text = send(alloc)?;
    let mut slow = Client::subscribed(alloc, lines)?;
    let mut sender = Client::connected(alloc, lines)?;
    let sent = sends(&mut sender, text.as_str()) && slow.hears("MESSAGE\n");
    let small = sent && sends_small(&mut sender);
    let came = slow.rest()?;
    Some(small && came.as_slice().ends_with(LAST))
}

/// The thread of those clients, who talk to the server at this address.
fn start<R: Threads + Net>(rt: &R, alloc: Global, addr: SocketAddr) -> Option<JoinHandle<bool>> {
    let mut lines = Lines::new(rt, alloc, addr, 2)?;
    thread::spawn(rt, move || keeps_64(alloc, &mut lines) == Some(true)).ok()
}

/// A writer that starts them when the server has said that it listens.
#[derive(Drop)]
struct Opener<'a, R: Threads + Net> {
    rt: &'a R,
    alloc: Global,
    addr: SocketAddr,
    clients: Option<JoinHandle<bool>>,
}

impl<R: Threads + Net> Write for Opener<'_, R> {
    fn write(&mut self, buf: &[u8]) -> io::Result<usize> {
        Ok(buf.len())
    }

    fn flush(&mut self) -> io::Result<()> {
        self.clients = start(self.rt, self.alloc, self.addr);
        Ok(())
    }
}

/// An address at which nobody listens.
fn free_address<R: Net>(rt: &R) -> Option<SocketAddr> {
    let listener = TcpListener::bind(rt, SocketAddr::from((Ipv4Addr::LOCALHOST, 0))).ok()?;
    listener.local_addr().ok()
}

/// Whether the program's server keeps as many for them, and ends well.
fn serves_so<R>(rt: &R, alloc: Global) -> Option<bool>
where
    R: Threads + Wait + Net + Clock + Log + Send + Sync,
{
    let addr = free_address(rt)?;
    let mut opener = Opener {
        rt,
        alloc,
        addr,
        clients: None,
    };
    let (status, _) = ends(rt, alloc, addr.port(), Some(2), &mut opener)?;
    let clients = opener.clients.take()?;
    Some(clients.join(rt) && status == 0)
}

#[test]
fn sixty_four_items_wait_for_one_that_does_not_read(rt: HostRuntime) {
    assert!(rt; serves_so(&quiet(rt), rt.alloc()) == Some(true));
}
