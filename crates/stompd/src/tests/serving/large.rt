//! Large transactions to one that reads late: each waits until the one before it was taken.

use super::client::Client;
use super::lines::Lines;
use super::served::{Peers, quiet, serves};
use std::alloc::Global;

/// How many senders there are, each of which sends one transaction.
const SENDERS: u64 = 3;

/// How many SENDs each has: it has more than half of 17 MiB then, so that no other comes beside it.
const SENDS: usize = 9;

/// How many octets each has in its body: as many as a frame may have.
const BODY: usize = 1_048_576;

/// What stands before the body of each SEND.
const HEAD: &str = "SEND\ndestination:A\ntransaction:x\n\n";

/// A SEND of the transaction.
pub(super) fn send(alloc: Global) -> Option<String> {
    let mut text = String::from_str(alloc, HEAD).ok()?;
    for _ in 0..BODY {
        text.push('x').ok()?;
    }
    text.push('\0').ok()?;
    Some(text)
}

/// Whether a client sends the transaction, whose SENDs are these.
pub(super) fn sends(client: &mut Client, send: &str) -> bool {
    if !client.sends("BEGIN\ntransaction:x\n\n\0") {
        return false;
    }
    for _ in 0..SENDS {
        if !client.sends(send) {
            return false;
        }
    }
    client.sends("COMMIT\ntransaction:x\n\n\0")
}

/// Clients that have each sent it.
fn senders(alloc: Global, lines: &mut Lines, send: &str) -> Option<Vec<Client>> {
    let mut senders = Vec::new(alloc);
    for _ in 0..SENDERS {
        let mut sender = Client::connected(alloc, lines)?;
        if !sends(&mut sender, send) {
            return None;
        }
        senders.push(sender).ok()?;
    }
    Some(senders)
}

/// Whether the MESSAGE of this index of the transaction of this number comes next, with this body and its NULL.
fn hears_one(reader: &mut Client, alloc: Global, number: u64, index: usize, body: &[u8]) -> bool {
    let head = format!(in alloc;
        "MESSAGE\nsubscription:s\nmessage-id:{number}.0.{index}\ndestination:A\ncontent-length:{BODY}\n\n"
    );
    match head {
        Ok(head) => {
            reader.hears(head.as_str())
                && reader
                    .next(body.len())
                    .is_some_and(|came| came.as_slice() == body)
                && reader.hears("\n")
        }
        Err(_) => false,
    }
}

/// Whether all MESSAGEs come, those of each transaction together.
fn hears_all(reader: &mut Client, alloc: Global, body: &[u8]) -> bool {
    for number in 1..=SENDERS {
        for index in 0..SENDS {
            if !hears_one(reader, alloc, number, index, body) {
                return false;
            }
        }
    }
    true
}

/// Whether each is answered at B.
fn all_ask_at_b(clients: &mut [Client]) -> bool {
    for client in clients {
        if !client.asks(
            "SEND\ndestination:B\nreceipt:r\n\nhi\0",
            "RECEIPT\nreceipt-id:r\n\n\0\n",
        ) {
            return false;
        }
    }
    true
}

/// One subscribes to A, and reads once all have sent.
#[derive(Drop)]
struct Large;

impl Large {
    /// Whether all comes, and nobody lags or ends.
    fn comes(&self, alloc: Global, lines: &mut Lines, reader: &mut Client) -> bool {
        let Some(send) = send(alloc) else {
            return false;
        };
        let Some(body) = send.as_bytes().get(HEAD.len()..) else {
            return false;
        };
        match senders(alloc, lines, send.as_str()) {
            Some(mut senders) => {
                hears_all(reader, alloc, body) && all_ask_at_b(senders.as_mut_slice())
            }
            None => false,
        }
    }
}

impl Peers for Large {
    fn count(&self) -> u64 {
        SENDERS.saturating_add(1)
    }

    fn meet(&self, alloc: Global, lines: &mut Lines) -> bool {
        match Client::subscribed(alloc, lines) {
            Some(mut reader) => self.comes(alloc, lines, &mut reader),
            None => false,
        }
    }
}

#[test]
fn large_transactions_come_one_after_the_other(rt: HostRuntime) {
    let rows = SENDERS as usize * 2;
    assert!(rt; serves(&quiet(rt), rt.alloc(), &Large, rows));
}
