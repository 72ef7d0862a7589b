//! Transactions of two connections that cross.

use super::client::Client;
use super::lines::Lines;
use super::served::{Peers, quiet, serves};
use std::alloc::Global;

/// How often both connections send.
const ROUNDS: u32 = 25;

/// How many transactions each of them sends in a round. Both together are fewer than a queue has room for.
const TIMES: u32 = 20;

/// A transaction of the first connection: a SEND to A and one to B.
const FIRST: &str = "BEGIN\ntransaction:x\n\n\0SEND\ndestination:A\ntransaction:x\n\np\0\
    SEND\ndestination:B\ntransaction:x\n\np\0COMMIT\ntransaction:x\n\n\0";

/// A transaction of the second: a SEND to B and one to A.
const SECOND: &str = "BEGIN\ntransaction:y\n\n\0SEND\ndestination:B\ntransaction:y\n\nq\0\
    SEND\ndestination:A\ntransaction:y\n\nq\0COMMIT\ntransaction:y\n\n\0";

/// A subscription to B, and what is written first then.
const TO_B: (&str, &str) = (
    "CONNECT\naccept-version:1.2\nhost:h\n\n\0SUBSCRIBE\nid:s\ndestination:B\nreceipt:r\n\n\0",
    "CONNECTED\nversion:1.2\nheart-beat:0,0\n\n\0\nRECEIPT\nreceipt-id:r\n\n\0\n",
);

/// Sends the transaction as often as a connection does in a round, without a look at what comes.
fn sends_round(client: &mut Client, text: &str) -> bool {
    for _ in 0..TIMES {
        if !client.sends(text) {
            return false;
        }
    }
    true
}

/// The stamp of a MESSAGE, its number and its topic: its id has the index of the SEND behind them.
fn stamp_of(frame: &[u8]) -> Option<(&[u8], &[u8])> {
    let id = frame.strip_prefix(b"MESSAGE\nsubscription:s\nmessage-id:".as_slice())?;
    let mut parts = id.split(|octet| *octet == b'.');
    Some((parts.next()?, parts.next()?))
}

/// Whether two MESSAGEs are of one transaction: they have one stamp and one body.
fn are_of_one(at_a: &[u8], at_b: &[u8]) -> bool {
    stamp_of(at_a).is_some() && stamp_of(at_a) == stamp_of(at_b) && at_a.last() == at_b.last()
}

/// The body of two MESSAGEs, where they are of one transaction.
fn body_of_both(at_a: &[u8], at_b: &[u8]) -> Option<u8> {
    if are_of_one(at_a, at_b) {
        at_a.last().copied()
    } else {
        None
    }
}

/// Whether the next MESSAGEs of both are of one transaction. Its body.
fn next_of_both(first: &mut Client, second: &mut Client) -> Option<u8> {
    let at_a = first.frame()?;
    let at_b = second.frame()?;
    body_of_both(at_a.as_slice(), at_b.as_slice())
}

/// Whether both hear the transactions of a round, in one order, and as many of each connection as it sent.
fn hear_round(first: &mut Client, second: &mut Client) -> bool {
    let mut of_first = 0u32;
    for _ in 0..TIMES.saturating_mul(2) {
        match next_of_both(first, second) {
            Some(b'p') => of_first = of_first.saturating_add(1),
            Some(b'q') => {}
            _ => return false,
        }
    }
    of_first == TIMES
}

/// Whether what two send is heard in one order at both topics, round after round.
fn are_heard(
    first: &mut Client,
    second: &mut Client,
    at_a: &mut Client,
    at_b: &mut Client,
) -> bool {
    for _ in 0..ROUNDS {
        let sent = sends_round(first, FIRST) && sends_round(second, SECOND);
        if !sent || !hear_round(at_a, at_b) {
            return false;
        }
    }
    true
}

/// Whether it is so with two new clients, where these have subscribed.
fn cross(alloc: Global, lines: &mut Lines, at_a: &mut Client, at_b: &mut Client) -> bool {
    let Some(mut first) = Client::connected(alloc, lines) else {
        return false;
    };
    match Client::connected(alloc, lines) {
        Some(mut second) => are_heard(&mut first, &mut second, at_a, at_b),
        None => false,
    }
}

/// Two send transactions to two topics, and one subscribes to each topic.
#[derive(Drop)]
struct Crossing;

impl Peers for Crossing {
    fn count(&self) -> u64 {
        4
    }

    fn meet(&self, alloc: Global, lines: &mut Lines) -> bool {
        let Some(mut at_a) = Client::subscribed(alloc, lines) else {
            return false;
        };
        match Client::told(alloc, lines, TO_B.0, TO_B.1) {
            Some(mut at_b) => cross(alloc, lines, &mut at_a, &mut at_b),
            None => false,
        }
    }
}

#[test]
fn crossing_transactions_come_in_one_order(rt: HostRuntime) {
    assert!(rt; serves(&quiet(rt), rt.alloc(), &Crossing, 1_000));
}
