//! Connections that end with as many subscriptions as one may have: at one topic, and at as many topics.

use super::client::{CONNECT, CONNECTED, Client, SUBSCRIBED};
use super::lines::Lines;
use super::served::{Peers, met, quiet};
use log::Log;
use std::alloc::Global;
use std::net::Net;
use std::sync::Wait;
use std::thread::Threads;
use std::time::Clock;

/// How many subscriptions a connection may have.
const MOST_OPEN: u32 = 64;

/// A SEND to A that asks for a receipt, one to B, and their RECEIPT.
const SENDS: (&str, &str) = (
    "SEND\ndestination:A\nreceipt:r\n\nhi\0",
    "SEND\ndestination:B\nreceipt:r\n\nhi\0",
);

const SENT: &str = "RECEIPT\nreceipt-id:r\n\n\0\n";

/// How a connection ends.
#[derive(Clone, Copy)]
enum End {
    /// By a DISCONNECT, whose receipt it reads.
    Disconnect,
    /// By a wrong frame, whose ERROR it reads.
    Refused,
    /// It is closed without a word.
    Closed,
    /// Its system resets it: it is closed when part of a RECEIPT came that isn't read.
    Reset,
}

const ENDS: [End; 4] = [End::Disconnect, End::Refused, End::Closed, End::Reset];

/// The topic of a connection's subscription of this number.
fn name_of(alloc: Global, number: u32, is_one_topic: bool) -> Option<String> {
    if is_one_topic {
        return format!(in alloc; "A").ok();
    }
    format!(in alloc; "T{number}").ok()
}

/// As many SUBSCRIBEs as a connection may have, of which the last asks for a receipt.
fn subscribes(alloc: Global, is_one_topic: bool) -> Option<String> {
    let mut text = String::new(alloc);
    for number in 0..MOST_OPEN {
        let name = name_of(alloc, number, is_one_topic)?;
        let receipt = if number.saturating_add(1) == MOST_OPEN {
            "receipt:s\n"
        } else {
            ""
        };
        let frame = format!(in alloc;
            "SUBSCRIBE\nid:{number}\ndestination:{name}\n{receipt}\n\0"
        ).ok()?;
        text.push_str(frame.as_str()).ok()?;
    }
    Some(text)
}

/// Whether a new client subscribes so, ends so, and then is gone.
fn one_ends(alloc: Global, lines: &mut Lines, text: &str, end: End) -> bool {
    let Some(mut client) = Client::told(alloc, lines, CONNECT, CONNECTED) else {
        return false;
    };
    if !client.asks(text, SUBSCRIBED) {
        return false;
    }
    match end {
        End::Disconnect => client.ends_with(
            "DISCONNECT\nreceipt:bye\n\n\0",
            "RECEIPT\nreceipt-id:bye\n\n\0\n",
        ),
        End::Refused => client.ends_with(
            "ACK\n\n\0",
            "ERROR\nmessage:21 Unsupported\ncontent-length:0\n\n\0\n",
        ),
        End::Closed => true,
        End::Reset => client.asks(SENDS.1, "RECEIPT\n"),
    }
}

/// Whether a new client sends to A, and this one, which has a subscription there, hears the MESSAGE of this number.
fn one_sends(alloc: Global, lines: &mut Lines, listener: &mut Client, number: u64) -> Option<bool> {
    let mut client = Client::connected(alloc, lines)?;
    let message = format!(in alloc;
        "MESSAGE\nsubscription:s\nmessage-id:{number}.0.0\ndestination:A\ncontent-length:2\n\nhi\0\n"
    ).ok()?;
    Some(client.asks(SENDS.0, SENT) && listener.hears(message.as_str()))
}

/// Whether one ends in each way, at one topic and at as many topics; behind each, somebody sends to A.
fn all_end(alloc: Global, lines: &mut Lines, listener: &mut Client) -> Option<bool> {
    let mut number = 0u64;
    for is_one_topic in [true, false] {
        let text = subscribes(alloc, is_one_topic)?;
        for end in ENDS {
            number = number.saturating_add(1);
            if !one_ends(alloc, lines, text.as_str(), end)
                || !one_sends(alloc, lines, listener, number)?
            {
                return Some(false);
            }
        }
    }
    Some(true)
}

/// One is there all the time, and has a subscription to A; eight come and end, and behind each one sends.
#[derive(Drop)]
struct Ending;

impl Peers for Ending {
    fn count(&self) -> u64 {
        17
    }

    fn meet(&self, alloc: Global, lines: &mut Lines) -> bool {
        match Client::subscribed(alloc, lines) {
            Some(mut listener) => all_end(alloc, lines, &mut listener) == Some(true),
            None => false,
        }
    }
}

/// How many of these lines are a span, and how many of those have no end.
fn spans(text: &[u8]) -> (u64, u64) {
    let (mut count, mut open) = (0u64, 0u64);
    for line in text.split(|octet| *octet == b'\n') {
        if line.starts_with(b"span ") {
            count = count.saturating_add(1);
            if line.ends_with(b" -") {
                open = open.saturating_add(1);
            }
        }
    }
    (count, open)
}

/// Whether the server answered as it should, and how many spans its trace has, and how many of these have no end.
fn ended<R>(rt: &R, alloc: Global) -> Option<(bool, (u64, u64))>
where
    R: Threads + Wait + Net + Clock + Log + Send + Sync,
{
    let (is_met, trace) = met(rt, alloc, &Ending)?;
    let printed = trace.ok()?.print(alloc).ok()?;
    Some((is_met, spans(printed.as_slice())))
}

/// In the end each of the 64 subscriptions of eight connections, and the listener's, has ended at its topic.
#[test]
fn whichever_way_connections_end_all_their_subscriptions_do(rt: HostRuntime) {
    let found = ended(&quiet(rt), rt.alloc());
    assert!(rt; found == Some((true, (513, 0))));
}
