//! Connections that never say CONNECT.

use super::client::{Client, SUBSCRIBE, SUBSCRIBED};
use super::lines::Lines;
use super::logged::Kept;
use super::served::{Peers, serves};
use super::slow::send_of;
use log::{LevelFilter, Logged};
use std::alloc::Global;
use std::sync::Mutex;

/// What each of them says at once, and what the log says of it when it left.
const UNCONNECTED: [(&str, &str); 4] = [
    ("", " left: no CONNECT within ten seconds"),
    (
        "CONNECT\naccept-version:1.2\nhost:h\n\n",
        " left: no CONNECT within ten seconds",
    ),
    ("\n\r\n", " left: no CONNECT within ten seconds"),
    (
        "\x16\x03\x01\x02",
        " left: no CONNECT within ten seconds, not STOMP: TLS?",
    ),
];

/// One that has connected, then those, and another that has connected.
#[derive(Drop)]
struct Unconnected;

/// Those clients, each of which has said its text.
fn silent_clients(alloc: Global, lines: &mut Lines) -> Option<Vec<Client>> {
    let mut clients = Vec::new(alloc);
    for (text, _) in UNCONNECTED {
        let mut client = Client::new(alloc, lines)?;
        if !client.sends(text) {
            return None;
        }
        clients.push(client).ok()?;
    }
    Some(clients)
}

/// Whether the server closes the connections of all of these, who are told nothing.
fn all_are_closed(clients: &mut [Client]) -> bool {
    for client in clients {
        if !client.is_closed() {
            return false;
        }
    }
    true
}

/// How many SENDs one sends to itself: fewer than a queue holds.
const SENDS: u32 = 60;

/// How many octets each has in its body. Together these are twice what the systems on the way take for one that reads nothing.
const BODY: usize = 150_000;

/// A DISCONNECT, and its RECEIPT.
const LAST: (&str, &[u8]) = (
    "DISCONNECT\nreceipt:bye\n\n\0",
    b"RECEIPT\nreceipt-id:bye\n\n\0\n",
);

/// What another asks for meanwhile, so that the server has heard the one by then, and what it is told.
const MEANWHILE: (&str, &str) = (
    "BEGIN\ntransaction:x\nreceipt:b\n\n\0ABORT\ntransaction:x\n\n\0",
    "RECEIPT\nreceipt-id:b\n\n\0\n",
);

/// How often.
const ASKS: u32 = 2_000;

/// Whether the one sends so much to itself, of which it reads nothing, and its DISCONNECT.
fn sends_all(client: &mut Client, alloc: Global) -> bool {
    let Some(text) = send_of(alloc, BODY) else {
        return false;
    };
    for _ in 0..SENDS {
        if !client.sends(text.as_str()) {
            return false;
        }
    }
    client.sends(LAST.0)
}

/// Whether the other is answered all that time.
fn asks_meanwhile(other: &mut Client) -> bool {
    for _ in 0..ASKS {
        if !other.asks(MEANWHILE.0, MEANWHILE.1) {
            return false;
        }
    }
    true
}

/// Whether one that was connected for long, and of whose octets the system takes nothing when it leaves, is told its last words.
fn leaves_late(client: &mut Client, other: &mut Client, alloc: Global) -> bool {
    client.asks(SUBSCRIBE, SUBSCRIBED)
        && sends_all(client, alloc)
        && asks_meanwhile(other)
        && client
            .rest()
            .is_some_and(|came| came.as_slice().ends_with(LAST.1))
}

impl Peers for Unconnected {
    fn count(&self) -> u64 {
        6
    }

    fn meet(&self, alloc: Global, lines: &mut Lines) -> bool {
        let Some(mut connected) = Client::connected(alloc, lines) else {
            return false;
        };
        let Some(mut clients) = silent_clients(alloc, lines) else {
            return false;
        };
        match Client::connected(alloc, lines) {
            Some(mut other) => {
                all_are_closed(clients.as_mut_slice())
                    && leaves_late(&mut connected, &mut other, alloc)
            }
            None => false,
        }
    }
}

/// Whether one line, and no other, is of the connection of this number and ends so.
fn is_said_once(alloc: Global, lines: &[String], number: usize, back: &str) -> bool {
    let Ok(front) = format!(in alloc; "[INFO  serve] connection {number} of 127.0.0.1:") else {
        return false;
    };
    let found = lines.iter().filter(|line| line.as_str().starts_with(front.as_str())
        && line.as_str().ends_with(back));
    found.count() == 1
}

/// Whether the lines say why each of them left, and the last of them how many that were.
fn say_why(alloc: Global, lines: &[String]) -> bool {
    for (before, (_, left)) in UNCONNECTED.iter().enumerate() {
        if !is_said_once(alloc, lines, before.saturating_add(1), left) {
            return false;
        }
    }
    lines
        .last()
        .is_some_and(|line| line.as_str().contains(" ended_unconnected=4 "))
}

#[test]
fn who_never_says_connect_is_closed_and_others_stay(rt: HostRuntime) {
    let lines = Mutex::new(Vec::new(rt.alloc()));
    let kept = Kept::here(&rt, rt.alloc(), &lines);
    let logged = Logged::new(rt, LevelFilter::Info, kept);
    assert!(rt; serves(&logged, rt.alloc(), &Unconnected, 60));
    assert!(rt; say_why(rt.alloc(), lines.lock(&rt).as_slice()));
}
