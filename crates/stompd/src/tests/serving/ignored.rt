//! What a server says in its log of what it ignores.

use super::client::Client;
use super::lines::Lines;
use super::logged::{Kept, is_said_once};
use super::served::{Peers, serves};
use log::{LevelFilter, Logged};
use std::alloc::Global;
use std::sync::Mutex;

/// A connection that asks for each kind of what is ignored, for a selector twice.
const ASKS: &str = "CONNECT\naccept-version:1.2\nhost:h\nheart-beat:10000,10000\n\n\0\
    SUBSCRIBE\nid:s\ndestination:A\nselector:x\n\n\0\
    SUBSCRIBE\nid:t\ndestination:*\nselector:y\ndurable:true\n\n\0\
    SEND\ndestination:B\npersistent:true\n\nhi\0\
    DISCONNECT\nreceipt:bye\n\n\0";

/// One that asks for nothing of it, but with its second SEND.
const ASKS_NOTHING: &str = "CONNECT\naccept-version:1.2\nhost:h\nheart-beat:0,0\n\n\0\
    SUBSCRIBE\nid:s\ndestination:A\ndurable:false\n\n\0\
    SEND\ndestination:B\n\nhi\0\
    SEND\ndestination:B\npersistent:true\n\nhi\0\
    DISCONNECT\nreceipt:bye\n\n\0";

/// What each is told.
const TOLD: &str = "CONNECTED\nversion:1.2\nheart-beat:0,0\n\n\0\nRECEIPT\nreceipt-id:bye\n\n\0\n";

/// The front and the back of each line that there is of the first.
const SAID: &[(&str, &str)] = &[
    ("[WARN  serve]", "asks for a selector: ignored"),
    ("[WARN  serve]", "asks for a durable subscription: ignored"),
    ("[WARN  serve]", "asks for a wildcard: it names a topic"),
    ("[INFO  serve]", "asks for persistent messages: ignored"),
    ("[INFO  serve]", "asks for heart-beats: ignored"),
];

/// The two, one after the other.
#[derive(Drop)]
struct Asking;

impl Peers for Asking {
    fn count(&self) -> u64 {
        2
    }

    fn meet(&self, alloc: Global, lines: &mut Lines) -> bool {
        Client::told(alloc, lines, ASKS, TOLD).is_some()
            && Client::told(alloc, lines, ASKS_NOTHING, TOLD).is_some()
    }
}

/// Whether each line is there once, of the first connection.
fn say_each_once(alloc: Global, lines: &[String]) -> bool {
    for &(level, what) in SAID {
        let Ok(front) = format!(in alloc; "{level} connection 0 of 127.0.0.1:") else {
            return false;
        };
        if !is_said_once(lines, front.as_str(), what) {
            return false;
        }
    }
    true
}

/// How many lines there are of what is asked for.
fn count_asks(lines: &[String]) -> usize {
    let found = lines
        .iter()
        .filter(|line| line.as_str().contains(" asks for "));
    found.count()
}

#[test]
fn the_log_says_once_what_is_ignored(rt: HostRuntime) {
    let lines = Mutex::new(Vec::new(rt.alloc()));
    let kept = Kept::here(&rt, rt.alloc(), &lines);
    let logged = Logged::new(rt, LevelFilter::Info, kept);
    assert!(rt; serves(&logged, rt.alloc(), &Asking, 3));
    assert!(rt; say_each_once(rt.alloc(), lines.lock(&rt).as_slice()));
    assert!(rt; count_asks(lines.lock(&rt).as_slice()) == SAID.len());
}
