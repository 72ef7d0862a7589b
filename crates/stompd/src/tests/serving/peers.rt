//! Peers that send, and peers that end early.

use super::client::Client;
use super::lines::Lines;
use super::served::{Peers, quiet, serves};
use std::alloc::Global;

/// A SEND to A that asks for a receipt.
const SEND: &str = "SEND\ndestination:A\nreceipt:r\n\nhi\0";

/// Its RECEIPT.
const SENT: &str = "RECEIPT\nreceipt-id:r\n\n\0\n";

/// The MESSAGE of the first SEND.
const FIRST: &str =
    "MESSAGE\nsubscription:s\nmessage-id:1.0.0\ndestination:A\ncontent-length:2\n\nhi\0\n";

/// The MESSAGE of the second SEND.
const SECOND: &str =
    "MESSAGE\nsubscription:s\nmessage-id:2.0.0\ndestination:A\ncontent-length:2\n\nhi\0\n";

/// Whether a new client sends to A, and reads its RECEIPT.
fn one_sends(alloc: Global, lines: &mut Lines) -> bool {
    match Client::connected(alloc, lines) {
        Some(mut client) => client.asks(SEND, SENT),
        None => false,
    }
}

/// One subscribes, and another sends.
#[derive(Drop)]
struct Two;

impl Peers for Two {
    fn count(&self) -> u64 {
        2
    }

    fn meet(&self, alloc: Global, lines: &mut Lines) -> bool {
        match Client::subscribed(alloc, lines) {
            Some(mut client) => one_sends(alloc, lines) && client.hears(FIRST),
            None => false,
        }
    }
}

#[test]
fn a_message_goes_from_one_to_another(rt: HostRuntime) {
    assert!(rt; serves(&quiet(rt), rt.alloc(), &Two, 1));
}

/// What comes behind BEGIN and SEND within the transaction that they begin.
const WITHIN: &str = "BEGIN\ntransaction:x\n\n\0SEND\ndestination:A\ntransaction:x\n\nno\0";

/// What each of these sends behind `WITHIN`, and what it is told then.
const UNDONE: &[(&str, &str)] = &[
    (
        "ABORT\ntransaction:x\nreceipt:r\n\n\0",
        "RECEIPT\nreceipt-id:r\n\n\0\n",
    ),
    (
        "BEGIN\ntransaction:y\nreceipt:r\n\n\0",
        "RECEIPT\nreceipt-id:r\n\n\0\n",
    ),
    (
        "DISCONNECT\nreceipt:r\n\n\0",
        "RECEIPT\nreceipt-id:r\n\n\0\n",
    ),
    (
        "COMMIT\ntransaction:y\nreceipt:r\n\n\0",
        "ERROR\nmessage:66 NoSuchTxn\nreceipt-id:r\ncontent-length:0\n\n\0\n",
    ),
];

/// Whether a new client begins a transaction, sends this, is told that, and goes without a COMMIT.
fn one_goes(alloc: Global, lines: &mut Lines, text: &str, told: &str) -> bool {
    match Client::connected(alloc, lines) {
        Some(mut client) => client.sends(WITHIN) && client.asks(text, told),
        None => false,
    }
}

/// Whether each of them goes without a COMMIT.
fn all_go(alloc: Global, lines: &mut Lines) -> bool {
    for &(text, told) in UNDONE {
        if !one_goes(alloc, lines, text, told) {
            return false;
        }
    }
    true
}

/// One subscribes; four begin a transaction and end it by ABORT, by closing, by DISCONNECT, and by an ERROR; then one
/// sends.
#[derive(Drop)]
struct Undone;

impl Peers for Undone {
    fn count(&self) -> u64 {
        6
    }

    fn meet(&self, alloc: Global, lines: &mut Lines) -> bool {
        match Client::subscribed(alloc, lines) {
            Some(mut client) => {
                all_go(alloc, lines) && one_sends(alloc, lines) && client.hears(FIRST)
            }
            None => false,
        }
    }
}

#[test]
fn a_transaction_without_its_commit_leaves_no_row(rt: HostRuntime) {
    assert!(rt; serves(&quiet(rt), rt.alloc(), &Undone, 1));
}

/// Whether a new client has subscribed, and goes when something was sent to it that it didn't read: so its system resets
/// the connection.
fn one_resets(alloc: Global, lines: &mut Lines) -> bool {
    match Client::subscribed(alloc, lines) {
        Some(mut client) => client.asks(SEND, SENT) && one_sends(alloc, lines),
        None => false,
    }
}

/// One subscribes; another resets its connection; then one sends.
#[derive(Drop)]
pub(super) struct Reset;

impl Peers for Reset {
    fn count(&self) -> u64 {
        4
    }

    fn meet(&self, alloc: Global, lines: &mut Lines) -> bool {
        match Client::subscribed(alloc, lines) {
            Some(mut client) => {
                one_resets(alloc, lines)
                    && one_sends(alloc, lines)
                    && client.hears(FIRST)
                    && client.hears(SECOND)
            }
            None => false,
        }
    }
}

#[test]
fn one_that_resets_ends_alone(rt: HostRuntime) {
    assert!(rt; serves(&quiet(rt), rt.alloc(), &Reset, 3));
}

/// A SEND to A and a DISCONNECT, which come together.
const SEND_AND_GO: &str = "SEND\ndestination:A\n\nhi\0DISCONNECT\nreceipt:bye\n\n\0";

/// The RECEIPT of that DISCONNECT.
const GONE: &str = "RECEIPT\nreceipt-id:bye\n\n\0\n";

/// Whether a new client has subscribed, sends to itself and leaves at once, and gets nothing but its RECEIPT: its item isn't
/// taken.
fn one_leaves(alloc: Global, lines: &mut Lines) -> bool {
    match Client::subscribed(alloc, lines) {
        Some(mut client) => client.ends_with(SEND_AND_GO, GONE),
        None => false,
    }
}

/// One subscribes; another sends to both, and leaves before it has taken what it sent; then one sends.
#[derive(Drop)]
struct Leaving;

impl Peers for Leaving {
    fn count(&self) -> u64 {
        3
    }

    fn meet(&self, alloc: Global, lines: &mut Lines) -> bool {
        match Client::subscribed(alloc, lines) {
            Some(mut client) => {
                one_leaves(alloc, lines)
                    && client.hears(FIRST)
                    && one_sends(alloc, lines)
                    && client.hears(SECOND)
            }
            None => false,
        }
    }
}

#[test]
fn one_that_disconnects_leaves_an_item_that_it_did_not_take(rt: HostRuntime) {
    assert!(rt; serves(&quiet(rt), rt.alloc(), &Leaving, 2));
}
