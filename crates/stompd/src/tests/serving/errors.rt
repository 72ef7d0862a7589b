//! Connections that end by an ERROR, and one `client-id` on two connections.

use super::client::{CONNECTED, Client};
use super::lines::Lines;
use super::served::{Peers, quiet, serves};
use std::alloc::Global;

/// What comes first on a connection, and all that is written to it: a fault of the reader, of the case table, of the
/// session twice, and of a topic whose clock is full.
const FAULTS: &[(&str, &str)] = &[
    (
        "SEN\n",
        "ERROR\nmessage:1 BadCommand\ncontent-length:0\n\n\0\n",
    ),
    (
        "CONNECT\naccept-version:1.2\nhost:h\n\n\0NACK\nid:1\nreceipt:r\n\n\0",
        "CONNECTED\nversion:1.2\nheart-beat:0,0\n\n\0\n\
        ERROR\nmessage:21 Unsupported\nreceipt-id:r\ncontent-length:0\n\n\0\n",
    ),
    (
        "CONNECT\naccept-version:1.0,1.1\nhost:h\n\n\0",
        "ERROR\nmessage:62 NoVersion\nversion:1.2\ncontent-length:0\n\n\0\n",
    ),
    (
        "CONNECT\naccept-version:1.2\nhost:h\n\n\0ABORT\ntransaction:x\n\n\0BEGIN\ntransaction:y\nreceipt:r\n\n\0",
        "CONNECTED\nversion:1.2\nheart-beat:0,0\n\n\0\nERROR\nmessage:66 NoSuchTxn\ncontent-length:0\n\n\0\n",
    ),
    (
        "CONNECT\naccept-version:1.2\nhost:h\n\n\0SEND\ndestination:full\nreceipt:r\n\nhi\0",
        "CONNECTED\nversion:1.2\nheart-beat:0,0\n\n\0\n\
        ERROR\nmessage:40 ClockFull\nreceipt-id:r\ncontent-length:0\n\n\0\n",
    ),
];

/// Whether a new client that sends this is told that, and nothing more.
fn one_fails(alloc: Global, lines: &mut Lines, text: &str, told: &str) -> bool {
    match Client::new(alloc, lines) {
        Some(mut client) => client.ends_with(text, told),
        None => false,
    }
}

/// One for each fault.
#[derive(Drop)]
struct Failing;

impl Peers for Failing {
    fn count(&self) -> u64 {
        FAULTS.len() as u64
    }

    fn meet(&self, alloc: Global, lines: &mut Lines) -> bool {
        for &(text, told) in FAULTS {
            if !one_fails(alloc, lines, text, told) {
                return false;
            }
        }
        true
    }
}

#[test]
fn an_error_is_the_last_that_comes(rt: HostRuntime) {
    assert!(rt; serves(&quiet(rt), rt.alloc(), &Failing, 0));
}

/// A CONNECT as the client `p`.
const CONNECT_P: &str = "CONNECT\naccept-version:1.2\nhost:h\nclient-id:p\n\n\0";

/// The ERROR of a CONNECT whose sender is in use.
const IN_USE: &str = "ERROR\nmessage:77 SenderInUse\ncontent-length:0\n\n\0\n";

/// Whether the client leaves, and reads its RECEIPT.
fn leaves(client: &mut Client) -> bool {
    client.asks(
        "DISCONNECT\nreceipt:bye\n\n\0",
        "RECEIPT\nreceipt-id:bye\n\n\0\n",
    )
}

/// Whether the client is told an ERROR.
fn fails(client: &mut Client) -> bool {
    client.asks(
        "ACK\n\n\0",
        "ERROR\nmessage:21 Unsupported\ncontent-length:0\n\n\0\n",
    )
}

/// Whether a new client `p` connects, and ends by a RECEIPT or by an ERROR.
fn one_comes(alloc: Global, lines: &mut Lines, by_error: bool) -> bool {
    match Client::told(alloc, lines, CONNECT_P, CONNECTED) {
        Some(mut client) if by_error => fails(&mut client),
        Some(mut client) => leaves(&mut client),
        None => false,
    }
}

/// While one client `p` is there, another is refused; once it has read its RECEIPT or its ERROR, the next comes at once.
#[derive(Drop)]
struct OneId {
    /// How often the next comes.
    times: u64,
}

impl Peers for OneId {
    fn count(&self) -> u64 {
        self.times.saturating_add(2)
    }

    fn meet(&self, alloc: Global, lines: &mut Lines) -> bool {
        let Some(mut first) = Client::told(alloc, lines, CONNECT_P, CONNECTED) else {
            return false;
        };
        if !one_fails(alloc, lines, CONNECT_P, IN_USE) || !leaves(&mut first) {
            return false;
        }
        for time in 0..self.times {
            if !one_comes(alloc, lines, time % 2 == 1) {
                return false;
            }
        }
        true
    }
}

#[test]
fn a_client_id_is_used_by_one_at_once(rt: HostRuntime) {
    for _ in 0..4u8 {
        assert!(rt; serves(&quiet(rt), rt.alloc(), &OneId { times: 250 }, 0));
    }
}
