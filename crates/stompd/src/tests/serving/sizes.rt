//! Frames octet by octet, and a long one.

use super::client::Client;
use super::lines::Lines;
use super::served::{Peers, quiet, serves};
use std::alloc::Global;

/// What one sends octet by octet: a CONNECT, a SUBSCRIBE, and a transaction of two SENDs.
const TEXT: &str = "CONNECT\naccept-version:1.2\nhost:h\n\n\0\n\
    SUBSCRIBE\nid:s\ndestination:A\nreceipt:1\n\n\0\
    BEGIN\ntransaction:x\n\n\0SEND\ndestination:A\ntransaction:x\n\nhi\0\
    SEND\ndestination:A\ntransaction:x\ncontent-length:3\n\na\0b\0COMMIT\ntransaction:x\nreceipt:2\n\n\0";

/// What it is told.
const TOLD: &str =
    "CONNECTED\nversion:1.2\nheart-beat:0,0\n\n\0\nRECEIPT\nreceipt-id:1\n\n\0\nRECEIPT\nreceipt-id:2\n\n\0\n\
    MESSAGE\nsubscription:s\nmessage-id:1.0.0\ndestination:A\ncontent-length:2\n\nhi\0\n\
    MESSAGE\nsubscription:s\nmessage-id:1.0.1\ndestination:A\ncontent-length:3\n\na\0b\0\n";

/// One sends octet by octet.
#[derive(Drop)]
struct Dripping;

impl Peers for Dripping {
    fn count(&self) -> u64 {
        1
    }

    fn meet(&self, alloc: Global, lines: &mut Lines) -> bool {
        match Client::new(alloc, lines) {
            Some(mut client) => client.drips(TEXT) && client.hears(TOLD),
            None => false,
        }
    }
}

#[test]
fn one_octet_at_a_time(rt: HostRuntime) {
    assert!(rt; serves(&quiet(rt), rt.alloc(), &Dripping, 1));
}

/// How many octets a frame's body has at most.
const LONGEST: usize = 1_048_576;

/// A SEND to A of so many octets.
fn send_of(alloc: Global, count: usize) -> Option<String> {
    let mut text = String::from_str(alloc, "SEND\ndestination:A\n\n").ok()?;
    for _ in 0..count {
        text.push('x').ok()?;
    }
    text.push('\0').ok()?;
    Some(text)
}

/// What comes before the body of its MESSAGE.
const HEAD: &str =
    "MESSAGE\nsubscription:s\nmessage-id:1.0.0\ndestination:A\ncontent-length:1048576\n\n";

/// Whether the next that comes is this.
fn hears_body(client: &mut Client, body: &[u8]) -> bool {
    client
        .next(body.len())
        .is_some_and(|came| came.as_slice() == body)
}

/// Whether the MESSAGE of this SEND, which is the longest, comes back.
fn hears_back(client: &mut Client, text: &str) -> bool {
    match text
        .as_bytes()
        .strip_prefix(b"SEND\ndestination:A\n\n".as_slice())
    {
        Some(body) => {
            client.sends(text)
                && client.hears(HEAD)
                && hears_body(client, body)
                && client.hears("\n")
        }
        None => false,
    }
}

/// Whether the MESSAGE of the longest SEND comes back.
fn returns(client: &mut Client, alloc: Global) -> bool {
    match send_of(alloc, LONGEST) {
        Some(text) => hears_back(client, text.as_str()),
        None => false,
    }
}

/// Whether one octet more is refused.
fn refuses_longer(client: &mut Client, alloc: Global) -> bool {
    let told = "ERROR\nmessage:10 BodyTooLong\ncontent-length:0\n\n\0\n";
    match send_of(alloc, LONGEST.saturating_add(1)) {
        Some(text) => client.ends_with(text.as_str(), told),
        None => false,
    }
}

/// One sends the longest frame to itself, and then a longer one.
#[derive(Drop)]
struct Long;

impl Peers for Long {
    fn count(&self) -> u64 {
        1
    }

    fn meet(&self, alloc: Global, lines: &mut Lines) -> bool {
        match Client::subscribed(alloc, lines) {
            Some(mut client) => returns(&mut client, alloc) && refuses_longer(&mut client, alloc),
            None => false,
        }
    }
}

#[test]
fn a_body_of_a_mebibyte_and_one_octet_more(rt: HostRuntime) {
    assert!(rt; serves(&quiet(rt), rt.alloc(), &Long, 1));
}
