//! More connections than there are places.

use super::client::Client;
use super::lines::Lines;
use super::served::{Peers, quiet, serves};
use std::alloc::Global;

/// How many connections are there at once.
const PLACES: u64 = 256;

/// So many clients that were told CONNECTED.
fn clients(alloc: Global, lines: &mut Lines, count: u64) -> Option<Vec<Client>> {
    let mut clients = Vec::new(alloc);
    for _ in 0..count {
        clients.push(Client::connected(alloc, lines)?).ok()?;
    }
    Some(clients)
}

/// Whether each of them sends, and reads its RECEIPT.
fn all_send(clients: &mut [Client]) -> bool {
    for client in clients {
        let text = "SEND\ndestination:A\nreceipt:r\n\nhi\0";
        if !client.asks(text, "RECEIPT\nreceipt-id:r\n\n\0\n") {
            return false;
        }
    }
    true
}

/// Whether a new connection is closed at once.
fn one_is_closed(alloc: Global, lines: &mut Lines) -> bool {
    match Client::new(alloc, lines) {
        Some(mut client) => client.is_closed(),
        None => false,
    }
}

/// 256 connect, one more comes, and then the 256 send.
#[derive(Drop)]
pub(super) struct Many;

impl Peers for Many {
    fn count(&self) -> u64 {
        PLACES.saturating_add(1)
    }

    fn meet(&self, alloc: Global, lines: &mut Lines) -> bool {
        match clients(alloc, lines, PLACES) {
            Some(mut clients) => { one_is_closed(alloc, lines) && all_send(clients.as_mut_slice()) }
            None => false,
        }
    }
}

#[test]
fn the_257th_connection_is_closed_and_256_work_on(rt: HostRuntime) {
    assert!(rt; serves(&quiet(rt), rt.alloc(), &Many, 256));
}
