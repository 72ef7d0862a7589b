//! What a server's log says of all that was done, and of client-ids.

use super::client::Client;
use super::lines::Lines;
use super::logged::Kept;
use super::served::{Peers, serves};
use log::{LevelFilter, Logged};
use std::alloc::{AllocError, Global};
use std::sync::Mutex;

/// What one sends, and how many octets it is told then.
type Talk = (&'static str, usize);

/// How many octets a CONNECTED has.
const CONNECTED: usize = "CONNECTED\nversion:1.2\nheart-beat:0,0\n\n\0\n".len();

/// How many octets a RECEIPT of an id of one octet has.
const RECEIPT: usize = "RECEIPT\nreceipt-id:a\n\n\0\n".len();

/// How many octets a MESSAGE to the subscription `s` has, of a body of two octets and a topic of one, as all do here.
const MESSAGE: usize =
    "MESSAGE\nsubscription:s\nmessage-id:1.0.0\ndestination:A\ncontent-length:2\n\nhi\0\n".len();

/// How many octets the ERROR has that the subscriber gets.
const ERROR: usize = "ERROR\nmessage:21 Unsupported\ncontent-length:0\n\n\0\n".len();

/// The subscriber has a client-id of `café 7` and a backslash, and subscribes to A and to B.
const SUBSCRIBER: Talk = (
    "CONNECT\naccept-version:1.2\nhost:h\nclient-id:café 7\\\n\n\0\
     SUBSCRIBE\nid:s\ndestination:A\nreceipt:a\n\n\0SUBSCRIBE\nid:t\ndestination:B\nreceipt:b\n\n\0",
    CONNECTED + RECEIPT + RECEIPT,
);

/// The sender has a client-id of 130 octets, sends a transaction of three SENDs, and one alone.
const SENDER: Talk = (
    "CONNECT\naccept-version:1.2\nhost:h\nclient-id:\
     0123456789012345678901234567890123456789012345678901234567890123\
     0123456789012345678901234567890123456789012345678901234567890123++\n\n\0\
     BEGIN\ntransaction:x\n\n\0SEND\ndestination:A\ntransaction:x\n\nhi\0\
     SEND\ndestination:B\ntransaction:x\n\nhi\0SEND\ndestination:A\ntransaction:x\n\nhi\0\
     COMMIT\ntransaction:x\nreceipt:a\n\n\0SEND\ndestination:A\nreceipt:b\n\nhi\0",
    CONNECTED + RECEIPT + RECEIPT,
);

/// How many MESSAGEs come to the subscriber.
const MESSAGES: usize = 4;

/// The sender leaves, and the subscriber is refused a frame.
const LAST: (Talk, Talk) = (
    ("DISCONNECT\nreceipt:d\n\n\0", RECEIPT),
    ("ACK\n\n\0", ERROR),
);

/// A third connects, has a transaction that it doesn't commit, and is gone.
const GONE: Talk = (
    "CONNECT\naccept-version:1.2\nhost:h\nclient-id:\n\n\0BEGIN\ntransaction:x\n\n\0\
     SEND\ndestination:A\ntransaction:x\n\nhi\0",
    CONNECTED,
);

/// Whether so many octets come to this client once it sent that.
fn talks(client: &mut Client, talk: Talk) -> bool {
    client.sends(talk.0) && client.next(talk.1).is_some()
}

/// Whether both say their last, and are told theirs.
fn both_leave(subscriber: &mut Client, sender: &mut Client) -> bool {
    talks(sender, LAST.0)
        && sender.is_closed()
        && talks(subscriber, LAST.1)
        && subscriber.is_closed()
}

/// Whether all goes as it should between these two.
fn both_talk(subscriber: &mut Client, sender: &mut Client) -> bool {
    talks(subscriber, SUBSCRIBER)
        && talks(sender, SENDER)
        && subscriber.next(MESSAGE.saturating_mul(MESSAGES)).is_some()
        && both_leave(subscriber, sender)
}

/// One subscribes, one sends, and one is gone.
#[derive(Drop)]
struct Three;

impl Peers for Three {
    fn count(&self) -> u64 {
        3
    }

    fn meet(&self, alloc: Global, lines: &mut Lines) -> bool {
        let Some(mut subscriber) = Client::new(alloc, lines) else {
            return false;
        };
        let Some(mut sender) = Client::new(alloc, lines) else {
            return false;
        };
        match Client::new(alloc, lines) {
            Some(mut gone) => both_talk(&mut subscriber, &mut sender) && talks(&mut gone, GONE),
            None => false,
        }
    }
}

/// How many octets came.
fn octets_in() -> usize {
    let texts = [SUBSCRIBER.0, SENDER.0, LAST.0.0, LAST.1.0, GONE.0];
    texts
        .iter()
        .fold(0usize, |sum, text| sum.saturating_add(text.len()))
}

/// How many octets went out.
fn octets_out() -> usize {
    let told = [SUBSCRIBER.1, SENDER.1, LAST.0.1, LAST.1.1, GONE.1];
    let told = told.iter().fold(0usize, |sum, n| sum.saturating_add(*n));
    told.saturating_add(MESSAGE.saturating_mul(MESSAGES))
}

/// The line of all that was done.
fn figures(alloc: Global) -> Result<String, AllocError> {
    let (came, went) = (octets_in(), octets_out());
    format!(in alloc;
        "[INFO  serve] figures connections=0 came=3 refused=0 ended_disconnect=1 ended_error=1 \
         ended_closed=1 ended_lag=0 ended_write_failed=0 ended_unconnected=0 ended_other=0 topics=3 \
         sends=4 transactions=2 messages=4 octets_in={came} octets_out={went} lagged=0 passed_over=0 \
         subscriptions=0 waiting_senders=0 behind=0"
    )
}

/// Whether the last of these lines is that one.
fn ends_by_figures(alloc: Global, lines: &[String]) -> bool {
    match (figures(alloc), lines.last()) {
        (Ok(wanted), Some(last)) => last.as_str() == wanted.as_str(),
        _ => false,
    }
}

#[test]
fn the_last_line_has_all_that_was_done(rt: HostRuntime) {
    let lines = Mutex::new(Vec::new(rt.alloc()));
    let kept = Kept::here(&rt, rt.alloc(), &lines);
    let logged = Logged::new(rt, LevelFilter::Info, kept);
    assert!(rt; serves(&logged, rt.alloc(), &Three, 2));
    assert!(rt; ends_by_figures(rt.alloc(), lines.lock(&rt).as_slice()));
}

/// Whether these lines say once of the connection of this number that it has that client-id.
fn say_once(alloc: Global, lines: &[String], number: usize, id: &str) -> bool {
    let Ok(front) = format!(in alloc; "[INFO  serve] connection {number} of 127.0.0.1:") else {
        return false;
    };
    let Ok(back) = format!(in alloc; " is client-id {id}") else {
        return false;
    };
    let found = lines.iter().filter(|line| line.as_str().starts_with(front.as_str())
        && line.as_str().ends_with(back.as_str()));
    found.count() == 1
}

/// The client-id of each of them as the log shows it.
const SHOWN: [&str; 3] = [
    "caf\\xc3\\xa9 7\\\\",
    "0123456789012345678901234567890123456789012345678901234567890123\
     0123456789012345678901234567890123456789012345678901234567890123 and 2 octets more",
    "",
];

/// Whether they say so of each, and nothing else but that it came and left, which topics there are, and the figures.
fn say_all(alloc: Global, lines: &[String]) -> bool {
    for (number, id) in SHOWN.iter().enumerate() {
        if !say_once(alloc, lines, number, id) {
            return false;
        }
    }
    lines.len() == SHOWN.len().saturating_mul(3).saturating_add(2)
}

#[test]
fn the_log_says_who_has_which_client_id(rt: HostRuntime) {
    let lines = Mutex::new(Vec::new(rt.alloc()));
    let kept = Kept::here(&rt, rt.alloc(), &lines);
    let logged = Logged::new(rt, LevelFilter::Info, kept);
    assert!(rt; serves(&logged, rt.alloc(), &Three, 2));
    assert!(rt; say_all(rt.alloc(), lines.lock(&rt).as_slice()));
}
