//! Many messages of many connections.

use super::client::Client;
use super::lines::Lines;
use super::served::{Peers, quiet, serves};
use crate::tests::draws::Draws;
use std::alloc::Global;

/// How many connections send.
const SENDERS: u32 = 8;

/// How many transactions they send together in each of four runs, before each sends its last.
const DRAWN: u32 = 25_000;

/// What is drawn: a SEND to one of three topics, the last of which is made by it, or a transaction to two of them.
const TEXTS: &[&str] = &[
    "SEND\ndestination:A\n\nhi\0",
    "SEND\ndestination:B\n\nhi\0",
    "SEND\ndestination:C\n\nhi\0",
    "BEGIN\ntransaction:x\n\n\0SEND\ndestination:A\ntransaction:x\n\np\0\
    SEND\ndestination:B\ntransaction:x\n\np\0COMMIT\ntransaction:x\n\n\0",
    "BEGIN\ntransaction:x\n\n\0SEND\ndestination:C\ntransaction:x\n\np\0\
    SEND\ndestination:B\ntransaction:x\n\np\0COMMIT\ntransaction:x\n\n\0",
];

/// What each sends last, and what it is told.
const LAST: (&str, &str) = (
    "SEND\ndestination:A\nreceipt:r\n\nbye\0",
    "RECEIPT\nreceipt-id:r\n\n\0\n",
);

/// So many clients that were told CONNECTED.
fn clients(alloc: Global, lines: &mut Lines) -> Option<Vec<Client>> {
    let mut clients = Vec::new(alloc);
    for _ in 0..SENDERS {
        clients.push(Client::connected(alloc, lines)?).ok()?;
    }
    Some(clients)
}

/// Whether a drawn one of them sends what is drawn.
fn one_sends(clients: &mut [Client], draws: &mut Draws) -> bool {
    let sender = draws.below(SENDERS) as usize;
    let text = TEXTS.get(draws.below(5) as usize);
    match (clients.get_mut(sender), text) {
        (Some(client), Some(text)) => client.sends(text),
        _ => false,
    }
}

/// Whether each sends its last, and is told.
fn all_end(clients: &mut [Client]) -> bool {
    for client in clients {
        if !client.asks(LAST.0, LAST.1) {
            return false;
        }
    }
    true
}

/// Eight send transactions in an order that is drawn.
#[derive(Drop)]
struct Drawn {
    /// What the order is drawn by.
    run: u32,
}

impl Peers for Drawn {
    fn count(&self) -> u64 {
        u64::from(SENDERS)
    }

    fn meet(&self, alloc: Global, lines: &mut Lines) -> bool {
        let Some(mut clients) = clients(alloc, lines) else {
            return false;
        };
        let mut draws = Draws::of(self.run);
        for _ in 0..DRAWN {
            if !one_sends(clients.as_mut_slice(), &mut draws) {
                return false;
            }
        }
        all_end(clients.as_mut_slice())
    }
}

#[test]
fn the_first_run_is_complete(rt: HostRuntime) {
    assert!(rt; serves(&quiet(rt), rt.alloc(), &Drawn { run: 1 }, 25_008));
}

#[test]
fn the_second_run_is_complete(rt: HostRuntime) {
    assert!(rt; serves(&quiet(rt), rt.alloc(), &Drawn { run: 2 }, 25_008));
}

#[test]
fn the_third_run_is_complete(rt: HostRuntime) {
    assert!(rt; serves(&quiet(rt), rt.alloc(), &Drawn { run: 3 }, 25_008));
}

#[test]
fn the_fourth_run_is_complete(rt: HostRuntime) {
    assert!(rt; serves(&quiet(rt), rt.alloc(), &Drawn { run: 4 }, 25_008));
}
