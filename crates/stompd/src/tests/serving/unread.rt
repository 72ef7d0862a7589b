//! Subscribers that don't read while a large transaction comes.

use super::client::Client;
use super::lines::Lines;
use super::served::{Peers, quiet, serves};
use std::alloc::{AllocError, Global};

/// How many subscribers there are.
const SUBSCRIBERS: u32 = 2;

/// How many SENDs the transaction has.
const SENDS: u32 = 8;

/// How many octets each has in its body.
const BODY: usize = 1_048_576;

/// Appends the body of a SEND.
fn push_body(text: &mut String) -> Result<(), AllocError> {
    for _ in 0..BODY {
        text.push('x')?;
    }
    Ok(())
}

/// The SEND.
fn send(alloc: Global) -> Result<String, AllocError> {
    let mut text = String::from_str(alloc, "SEND\ndestination:A\ntransaction:x\n\n")?;
    push_body(&mut text)?;
    text.push('\0')?;
    Ok(text)
}

/// The MESSAGE of the SEND of this index.
fn message(alloc: Global, index: u32) -> Result<String, AllocError> {
    let mut text = format!(in alloc;
        "MESSAGE\nsubscription:s\nmessage-id:1.0.{index}\ndestination:A\ncontent-length:{BODY}\n\n"
    )?;
    push_body(&mut text)?;
    text.push_str("\0\n")?;
    Ok(text)
}

/// Whether the transaction is committed.
fn commits(sender: &mut Client, text: &str) -> bool {
    if !sender.sends("BEGIN\ntransaction:x\n\n\0") {
        return false;
    }
    for _ in 0..SENDS {
        if !sender.sends(text) {
            return false;
        }
    }
    sender.asks(
        "COMMIT\ntransaction:x\nreceipt:c\n\n\0",
        "RECEIPT\nreceipt-id:c\n\n\0\n",
    )
}

/// Whether each of these reads this next.
pub(super) fn all_hear(clients: &mut Vec<Client>, text: &str) -> bool {
    for client in clients.iter_mut() {
        if !client.hears(text) {
            return false;
        }
    }
    true
}

/// Whether all of them are read, one after the other, by all.
fn all_read(alloc: Global, clients: &mut Vec<Client>) -> bool {
    for index in 0..SENDS {
        match message(alloc, index) {
            Ok(text) if all_hear(clients, text.as_str()) => {}
            _ => return false,
        }
    }
    true
}

/// Whether each is answered behind the transaction.
fn all_answer(clients: &mut Vec<Client>) -> bool {
    for client in clients.iter_mut() {
        if !client.asks(
            "UNSUBSCRIBE\nid:s\nreceipt:u\n\n\0",
            "RECEIPT\nreceipt-id:u\n\n\0\n",
        ) {
            return false;
        }
    }
    true
}

/// Those who subscribe.
fn subscribers(alloc: Global, lines: &mut Lines) -> Option<Vec<Client>> {
    let mut clients = Vec::new(alloc);
    for _ in 0..SUBSCRIBERS {
        clients.push(Client::subscribed(alloc, lines)?).ok()?;
    }
    Some(clients)
}

/// Two subscribe, and read nothing before a transaction of 8 MiB was committed.
#[derive(Drop)]
struct Unread;

impl Peers for Unread {
    fn count(&self) -> u64 {
        3
    }

    fn meet(&self, alloc: Global, lines: &mut Lines) -> bool {
        let Some(mut clients) = subscribers(alloc, lines) else {
            return false;
        };
        let Some(mut sender) = Client::connected(alloc, lines) else {
            return false;
        };
        match send(alloc) {
            Ok(text) => {
                commits(&mut sender, text.as_str())
                    && all_read(alloc, &mut clients)
                    && all_answer(&mut clients)
            }
            Err(_) => false,
        }
    }
}

#[test]
fn all_read_a_large_transaction_later(rt: HostRuntime) {
    assert!(rt; serves(&quiet(rt), rt.alloc(), &Unread, 1));
}
