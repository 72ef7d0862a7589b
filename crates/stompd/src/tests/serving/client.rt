//! A client of the server.

use super::lines::Lines;
use std::alloc::Global;
use std::io::{ErrorKind, Read, Write};
use std::net;
use std::time::Duration;

/// A CONNECT.
pub(super) const CONNECT: &str = "CONNECT\naccept-version:1.2\nhost:h\n\n\0";

/// A SUBSCRIBE `s` to A that asks for a receipt.
pub(super) const SUBSCRIBE: &str = "SUBSCRIBE\nid:s\ndestination:A\nreceipt:s\n\n\0";

/// What a connection is written first.
pub(super) const CONNECTED: &str = "CONNECTED\nversion:1.2\nheart-beat:0,0\n\n\0\n";

/// The RECEIPT of `SUBSCRIBE`.
pub(super) const SUBSCRIBED: &str = "RECEIPT\nreceipt-id:s\n\n\0\n";

/// So many octets a frame has at most that a client looks at octet by octet.
const FRAME: u32 = 4_096;

/// So many octets come at most before what a client waits for.
const MOST: u32 = 1_000_000;

/// What came of what a client waits for.
#[derive(Clone, Copy, PartialEq, Eq)]
pub(super) enum Came {
    /// It came.
    Wanted,
    /// The server closed the connection before.
    End,
    /// It didn't come, and for twenty seconds nothing else did.
    Nothing,
}

/// How many octets of what is wanted have come with this one, where so many had come.
fn count_with(wanted: &[u8], count: usize, octet: u8) -> usize {
    if wanted.get(count) == Some(&octet) {
        count.saturating_add(1)
    } else if wanted.first() == Some(&octet) {
        1
    } else {
        0
    }
}

/// A client, whose reads and writes wait for twenty seconds at most.
#[derive(Drop)]
pub(super) struct Client {
    alloc: Global,
    stream: net::TcpStream,
}

impl Client {
    /// A client on the next connection, that has said nothing.
    pub(super) fn new(alloc: Global, lines: &mut Lines) -> Option<Client> {
        let stream = lines.next()?;
        let time = Some(Duration::from_secs(20));
        stream.set_nonblocking(false).ok()?;
        stream.set_read_timeout(time).ok()?;
        stream.set_write_timeout(time).ok()?;
        Some(Client { alloc, stream })
    }

    /// A client to which the server answered this when it sent that first.
    pub(super) fn told(
        alloc: Global,
        lines: &mut Lines,
        text: &str,
        wanted: &str,
    ) -> Option<Client> {
        let mut client = Client::new(alloc, lines)?;
        if client.asks(text, wanted) {
            Some(client)
        } else {
            None
        }
    }

    /// A client that is connected as the standard says it.
    pub(super) fn connected(alloc: Global, lines: &mut Lines) -> Option<Client> {
        Client::told(alloc, lines, CONNECT, CONNECTED)
    }

    /// A client with a subscription `s` to A.
    pub(super) fn subscribed(alloc: Global, lines: &mut Lines) -> Option<Client> {
        let mut client = Client::connected(alloc, lines)?;
        if client.asks(SUBSCRIBE, SUBSCRIBED) {
            Some(client)
        } else {
            None
        }
    }

    /// Sends a text; whether it went out.
    pub(super) fn sends(&mut self, text: &str) -> bool {
        self.stream.write_all(text.as_bytes()).is_ok()
    }

    /// Sends a text by a write for each of its octets; whether it went out.
    pub(super) fn drips(&mut self, text: &str) -> bool {
        for octet in text.as_bytes().chunks(1) {
            if self.stream.write_all(octet).is_err() {
                return false;
            }
        }
        true
    }

    /// The next octets that come, so many of them.
    pub(super) fn next(&mut self, count: usize) -> Option<Vec<u8>> {
        let mut room = vec![in self.alloc; 0u8; count].ok()?;
        self.stream.read_exact(room.as_mut_slice()).ok()?;
        Some(room)
    }

    /// The next octet that comes.
    fn octet(&mut self) -> Option<u8> {
        self.next(1)?.first().copied()
    }

    /// The next frame that comes, without its NULL and the LF behind that.
    pub(super) fn frame(&mut self) -> Option<Vec<u8>> {
        let frame = self.up_to_null()?;
        if self.octet()? == b'\n' {
            Some(frame)
        } else {
            None
        }
    }

    /// What comes before the next NULL.
    fn up_to_null(&mut self) -> Option<Vec<u8>> {
        let mut frame = Vec::new(self.alloc);
        for _ in 0..FRAME {
            match self.octet()? {
                0 => return Some(frame),
                octet => frame.push(octet).ok()?,
            }
        }
        None
    }

    /// Whether this is what comes next.
    pub(super) fn hears(&mut self, text: &str) -> bool {
        match self.next(text.len()) {
            Some(came) => came.as_slice() == text.as_bytes(),
            None => false,
        }
    }

    /// Sends a text; whether this is what comes next.
    pub(super) fn asks(&mut self, text: &str, wanted: &str) -> bool {
        self.sends(text) && self.hears(wanted)
    }

    /// Sends a text, and reads until this comes, behind others or at once. Its first letter is in it once. It takes no memory.
    pub(super) fn brings(&mut self, text: &str, wanted: &str) -> Came {
        if self.sends(text) {
            self.comes_to(wanted.as_bytes())
        } else {
            Came::End
        }
    }

    /// Reads until this comes.
    fn comes_to(&mut self, wanted: &[u8]) -> Came {
        let mut octet = [0u8; 1];
        let mut count = 0usize;
        for _ in 0..MOST {
            match self.stream.read(&mut octet) {
                Ok(0) => return Came::End,
                Ok(_) => count = count_with(wanted, count, octet[0]),
                Err(error) if error.kind() == ErrorKind::WouldBlock => return Came::Nothing,
                Err(_) => return Came::End,
            }
            if count >= wanted.len() {
                return Came::Wanted;
            }
        }
        Came::End
    }

    /// All that comes until the server closes the connection.
    pub(super) fn rest(&mut self) -> Option<Vec<u8>> {
        let mut came = Vec::new(self.alloc);
        self.stream.read_to_end(&mut came).ok()?;
        Some(came)
    }

    /// Whether the server closes the connection, and nothing comes before.
    pub(super) fn is_closed(&mut self) -> bool {
        self.rest().is_some_and(|came| came.is_empty())
    }

    /// Whether the server answers this to a text, and closes the connection.
    pub(super) fn ends_with(&mut self, text: &str, wanted: &str) -> bool {
        self.asks(text, wanted) && self.is_closed()
    }
}
