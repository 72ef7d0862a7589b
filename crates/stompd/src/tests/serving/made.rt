//! Topics that are made on first use.

use super::client::Client;
use super::lines::Lines;
use super::served::{Peers, quiet, serves};
use std::alloc::Global;

/// How many topics are there when a server begins.
const OPENING: u32 = 3;

/// How many topics two connections name at once.
const NAMES: u32 = 1_000;

/// How many topics there are at most.
const MOST: u32 = 1_024;

/// A SEND to the topic of this name, if it finds memory, that asks for a receipt.
fn send_to(alloc: Global, name: u32) -> Option<String> {
    format!(in alloc; "SEND\ndestination:new.{name}\nreceipt:r\n\nhi\0").ok()
}

/// A SUBSCRIBE to it.
fn subscribe_to(alloc: Global, name: u32) -> Option<String> {
    format!(in alloc; "SUBSCRIBE\nid:s\ndestination:new.{name}\nreceipt:s\n\n\0").ok()
}

/// The MESSAGE of its first or its second SEND there, where its sender sent twice to each topic before: the topics were
/// made in their order, and a sender's stamps grow over all of them.
fn message_of(alloc: Global, name: u32, of_second: bool) -> Option<String> {
    let topic = OPENING.checked_add(name)?;
    let number = name
        .checked_mul(2)?
        .checked_add(if of_second { 2 } else { 1 })?;
    format!(in alloc;
        "MESSAGE\nsubscription:s\nmessage-id:{number}.{topic}.0\ndestination:new.{name}\ncontent-length:2\n\nhi"
    ).ok()
}

/// The RECEIPT of a SEND, and that of a SUBSCRIBE.
const SENT: &str = "RECEIPT\nreceipt-id:r\n\n\0\n";

const SUBSCRIBED: &str = "RECEIPT\nreceipt-id:s\n\n\0\n";

/// An UNSUBSCRIBE, which asks for the receipt of a SEND.
const UNSUBSCRIBE: &str = "UNSUBSCRIBE\nid:s\nreceipt:r\n\n\0";

/// Whether this is the MESSAGE of its first or its second SEND there.
fn is_message(alloc: Global, name: u32, of_second: bool, came: &[u8]) -> bool {
    match message_of(alloc, name, of_second) {
        Some(text) => came == text.as_bytes(),
        None => false,
    }
}

/// Whether the MESSAGE of the second SEND is the next that comes.
fn hears_second(client: &mut Client, alloc: Global, name: u32) -> bool {
    match client.frame() {
        Some(came) => is_message(alloc, name, true, came.as_slice()),
        None => false,
    }
}

/// Whether this, which came, is the MESSAGE of the second SEND, or that of the first, and the other comes behind it.
fn hears_with(client: &mut Client, alloc: Global, name: u32, came: &[u8]) -> bool {
    is_message(alloc, name, true, came)
        || (is_message(alloc, name, false, came) && hears_second(client, alloc, name))
}

/// Whether the MESSAGE of the second SEND is the next that comes, or the one behind that of the first.
fn hears_last(client: &mut Client, alloc: Global, name: u32) -> bool {
    match client.frame() {
        Some(came) => hears_with(client, alloc, name, came.as_slice()),
        None => false,
    }
}

/// Whether both read their RECEIPTs where the one sends this SUBSCRIBE and the other this SEND, both at once, and the other
/// sends it again.
fn meet_by(reader: &mut Client, sender: &mut Client, subscribe: &str, send: &str) -> bool {
    reader.sends(subscribe)
        && sender.asks(send, SENT)
        && reader.hears(SUBSCRIBED)
        && sender.asks(send, SENT)
}

/// The same at the topic of this name; `None` where there is no memory for what they send.
fn meet_on(reader: &mut Client, sender: &mut Client, alloc: Global, name: u32) -> Option<bool> {
    let subscribe = subscribe_to(alloc, name)?;
    let send = send_to(alloc, name)?;
    Some(meet_by(reader, sender, subscribe.as_str(), send.as_str()))
}

/// One subscribes to a topic and another sends to it, both at once: it is one topic, so what the other sends then comes.
fn meet_at(reader: &mut Client, sender: &mut Client, alloc: Global, name: u32) -> bool {
    meet_on(reader, sender, alloc, name) == Some(true)
        && hears_last(reader, alloc, name)
        && reader.asks(UNSUBSCRIBE, SENT)
}

/// The same at each of a thousand topics.
fn meet_at_all(reader: &mut Client, sender: &mut Client, alloc: Global) -> bool {
    for name in 0..NAMES {
        if !meet_at(reader, sender, alloc, name) {
            return false;
        }
    }
    true
}

/// Two connections name a thousand topics, each at once.
#[derive(Drop)]
struct AtOnce;

impl Peers for AtOnce {
    fn count(&self) -> u64 {
        2
    }

    fn meet(&self, alloc: Global, lines: &mut Lines) -> bool {
        let Some(mut reader) = Client::connected(alloc, lines) else {
            return false;
        };
        match Client::connected(alloc, lines) {
            Some(mut sender) => meet_at_all(&mut reader, &mut sender, alloc),
            None => false,
        }
    }
}

#[test]
fn two_that_name_one_new_topic_at_once_get_one(rt: HostRuntime) {
    assert!(rt; serves(&quiet(rt), rt.alloc(), &AtOnce, 2_000));
}

/// Whether one sends to each of these topics, and reads its RECEIPT.
fn sends_to_all(client: &mut Client, alloc: Global, names: u32) -> bool {
    for name in 0..names {
        let Some(text) = send_to(alloc, name) else {
            return false;
        };
        if !client.asks(text.as_str(), SENT) {
            return false;
        }
    }
    true
}

/// What is refused where 1,024 topics are there, and what it is told.
const REFUSED: &[(&str, &str)] = &[
    (
        "SEND\ndestination:one.more\nreceipt:r\n\nhi\0",
        "ERROR\nmessage:75 TooManyTopics\nreceipt-id:r\ncontent-length:0\n\n\0\n",
    ),
    (
        "SUBSCRIBE\nid:s\ndestination:one.more\n\n\0",
        "ERROR\nmessage:75 TooManyTopics\ncontent-length:0\n\n\0\n",
    ),
    (
        "SEND\ndestination:two words\n\nhi\0",
        "ERROR\nmessage:76 BadDestination\ncontent-length:0\n\n\0\n",
    ),
];

/// As many clients that were told CONNECTED.
fn refused_clients(alloc: Global, lines: &mut Lines) -> Option<Vec<Client>> {
    let mut clients = Vec::new(alloc);
    for _ in REFUSED {
        clients.push(Client::connected(alloc, lines)?).ok()?;
    }
    Some(clients)
}

/// Whether each of these clients is refused one of them, and told nothing more.
fn all_are_refused(clients: &mut [Client]) -> bool {
    for (client, &(text, told)) in clients.iter_mut().zip(REFUSED) {
        if !client.ends_with(text, told) {
            return false;
        }
    }
    true
}

/// One makes topics until 1,024 are there; three are refused another; and the one sends to all of them again.
#[derive(Drop)]
struct Full;

impl Peers for Full {
    fn count(&self) -> u64 {
        4
    }

    fn meet(&self, alloc: Global, lines: &mut Lines) -> bool {
        let Some(mut client) = Client::connected(alloc, lines) else {
            return false;
        };
        let Some(mut refused) = refused_clients(alloc, lines) else {
            return false;
        };
        let names = MOST.saturating_sub(OPENING);
        sends_to_all(&mut client, alloc, names)
            && all_are_refused(refused.as_mut_slice())
            && sends_to_all(&mut client, alloc, names)
    }
}

#[test]
fn the_1025th_topic_is_refused_and_those_that_are_there_go_on(rt: HostRuntime) {
    assert!(rt; serves(&quiet(rt), rt.alloc(), &Full, 2_042));
}
