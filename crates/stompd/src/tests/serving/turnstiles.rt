//! Who subscribes at the same time as others: each gets through, also where others are gone, or come to other topics. Some
//! connections are there from the beginning, and say nothing before the end: these are closed where all took ten seconds.

use super::client::{Client, SUBSCRIBE, SUBSCRIBED};
use super::lines::Lines;
use super::served::{Peers, quiet, serves};
use super::unread::all_hear;
use super::waiting::{all_send, clients};
use std::alloc::Global;

/// How many subscribe at once, how many of them stay, and how many come then, one after another. Each of these waits for five
/// seconds in front of a turnstile that stays shut.
const AT_ONCE: u64 = 24;

const STAYING: usize = 12;

const LATER: u64 = 4;

/// A SEND to A.
const SEND: &str = "SEND\ndestination:A\n\nhi\0";

/// Its MESSAGE.
const MESSAGE: &str =
    "MESSAGE\nsubscription:s\nmessage-id:1.0.0\ndestination:A\ncontent-length:2\n\nhi\0\n";

/// Whether the first of these sends to A.
fn first_sends(clients: &mut [Client]) -> bool {
    match clients.first_mut() {
        Some(client) => client.sends(SEND),
        None => false,
    }
}

/// Whether all of these subscribe to A at once, and, where half of them are gone at once, each of the others hears so, and of
/// a SEND then.
fn get_through(clients: &mut Vec<Client>) -> bool {
    let said = all_send(clients.as_mut_slice(), SUBSCRIBE);
    clients.truncate(STAYING);
    said && all_hear(clients, SUBSCRIBED)
        && first_sends(clients.as_mut_slice())
        && all_hear(clients, MESSAGE)
}

/// Whether those who come then subscribe to A, one after another.
fn others_come(alloc: Global, lines: &mut Lines) -> bool {
    for _ in 0..LATER {
        if Client::subscribed(alloc, lines).is_none() {
            return false;
        }
    }
    true
}

/// Those.
#[derive(Drop)]
struct Together;

impl Peers for Together {
    fn count(&self) -> u64 {
        AT_ONCE + LATER
    }

    fn meet(&self, alloc: Global, lines: &mut Lines) -> bool {
        match clients(alloc, lines, AT_ONCE) {
            Some(mut clients) => get_through(&mut clients) && others_come(alloc, lines),
            None => false,
        }
    }
}

#[test]
fn all_who_subscribe_at_once_get_through(rt: HostRuntime) {
    assert!(rt; serves(&quiet(rt), rt.alloc(), &Together, 1));
}

/// SUBSCRIBEs to A and B and their UNSUBSCRIBEs, of which the last asks for a receipt; the same in the other order; and the
/// RECEIPT.
const A_AND_B: &str = "SUBSCRIBE\nid:a\ndestination:A\n\n\0SUBSCRIBE\nid:b\ndestination:B\n\n\0\
    UNSUBSCRIBE\nid:a\n\n\0UNSUBSCRIBE\nid:b\nreceipt:u\n\n\0";

const B_AND_A: &str = "SUBSCRIBE\nid:b\ndestination:B\n\n\0SUBSCRIBE\nid:a\ndestination:A\n\n\0\
    UNSUBSCRIBE\nid:b\n\n\0UNSUBSCRIBE\nid:a\nreceipt:u\n\n\0";

const ENDED: &str = "RECEIPT\nreceipt-id:u\n\n\0\n";

/// How often two come to both topics. Where each is within one turnstile and in front of the other's, both wait for 0.9 s.
const TURNS: u32 = 64;

/// Whether both get through, the one to A first and the other to B.
fn cross(one: &mut Client, other: &mut Client) -> bool {
    for _ in 0..TURNS {
        let said = one.sends(A_AND_B) && other.sends(B_AND_A);
        if !said || !one.hears(ENDED) || !other.hears(ENDED) {
            return false;
        }
    }
    true
}

/// Two that go from one topic to another, each in its order, and one that comes then.
#[derive(Drop)]
struct Crossing;

impl Peers for Crossing {
    fn count(&self) -> u64 {
        3
    }

    fn meet(&self, alloc: Global, lines: &mut Lines) -> bool {
        let Some(mut one) = Client::connected(alloc, lines) else {
            return false;
        };
        match Client::connected(alloc, lines) {
            Some(mut other) => {
                cross(&mut one, &mut other) && Client::connected(alloc, lines).is_some()
            }
            None => false,
        }
    }
}

#[test]
fn two_that_cross_get_through(rt: HostRuntime) {
    assert!(rt; serves(&quiet(rt), rt.alloc(), &Crossing, 0));
}
