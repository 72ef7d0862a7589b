//! What a server says in its log.

use super::client::{CONNECTED, Client};
use super::lines::Lines;
use super::served::{Peers, serves};
use log::kv::Source;
use log::span::Spans;
use log::{LevelFilter, Line, Log, Logged, Metadata, Record};
use std::alloc::Global;
use std::fmt::Display;
use std::sync::{Mutex, Wait};

/// A log that keeps its lines.
#[derive(Clone, Copy)]
pub(super) struct Kept<'a, R: Wait> {
    rt: &'a R,
    alloc: Global,
    lines: &'a Mutex<Vec<String>>,
}

impl<'a, R: Wait> Kept<'a, R> {
    /// One that keeps its lines here.
    pub(super) fn here(rt: &'a R, alloc: Global, lines: &'a Mutex<Vec<String>>) -> Kept<'a, R> {
        Kept { rt, alloc, lines }
    }
}

impl<'a, R: Wait> Log for Kept<'a, R> {
    fn enabled(&self, _metadata: &Metadata<'_>) -> bool {
        true
    }

    fn log<D: Display, K: Source, S: Spans>(&self, record: &Record<'_, D, K, S>) {
        if let Ok(line) = String::format(self.alloc, Line::new(record)) {
            let _ = self.lines.lock(self.rt).push(line);
        }
    }

    fn flush(&self) {}

    fn target(&self) -> &str {
        ""
    }
}

/// What comes on each connection, all that is written to it, and why it left as the log says it.
const LEAVING: &[(&str, &str, &str)] = &[
    (
        "CONNECT\naccept-version:1.2\nhost:h\n\n\0DISCONNECT\nreceipt:bye\n\n\0",
        "CONNECTED\nversion:1.2\nheart-beat:0,0\n\n\0\nRECEIPT\nreceipt-id:bye\n\n\0\n",
        " left: DISCONNECT",
    ),
    (
        "CONNECT\naccept-version:1.2\nhost:h\n\n\0UNSUBSCRIBE\nid:x\n[WARN  serve] no line\n\n\0",
        "CONNECTED\nversion:1.2\nheart-beat:0,0\n\n\0\nERROR\nmessage:3 BadHeader\ncontent-length:0\n\n\0\n",
        " left: ERROR 3 BadHeader",
    ),
    (
        "CONNECT\naccept-version:1.2\nhost:h\n\n\0SEND\ndestination:new\n\nhi\0BEGIN\ntransaction:x\n\n\0",
        CONNECTED,
        " left: its peer closed it",
    ),
];

/// What the log says of the topic that the last of them makes.
const MADE: (&str, &str) = (
    "[INFO  serve] connection 2 of 127.0.0.1:",
    " made the topic new",
);

/// They come and leave.
#[derive(Drop)]
struct LeavingPeers;

/// Whether a new client that sends this is told that.
fn one_comes(alloc: Global, lines: &mut Lines, text: &str, told: &str) -> bool {
    Client::told(alloc, lines, text, told).is_some()
}

impl Peers for LeavingPeers {
    fn count(&self) -> u64 {
        LEAVING.len() as u64
    }

    fn meet(&self, alloc: Global, lines: &mut Lines) -> bool {
        for &(text, told, _) in LEAVING {
            if !one_comes(alloc, lines, text, told) {
                return false;
            }
        }
        true
    }
}

/// Whether one line, and no other, begins with this and ends with that.
pub(super) fn is_said_once(lines: &[String], front: &str, back: &str) -> bool {
    let found = lines.iter().filter(|line| line.as_str().starts_with(front)
        && line.as_str().ends_with(back));
    found.count() == 1
}

/// Whether the log says of this connection that it came and why it left.
fn is_told_of(alloc: Global, lines: &[String], number: usize, left: &str) -> bool {
    match format!(in alloc; "[INFO  serve] connection {number} of 127.0.0.1:") {
        Ok(front) => {
            is_said_once(lines, front.as_str(), " came")
                && is_said_once(lines, front.as_str(), left)
        }
        Err(_) => false,
    }
}

/// Whether these lines tell of each connection, of the server's topics and of the one that is made, and of nothing else.
fn tell_all(alloc: Global, lines: &[String]) -> bool {
    let topics = "[INFO  serve] serving 3 topics to at most 256 connections";
    for (number, &(_, _, left)) in LEAVING.iter().enumerate() {
        if !is_told_of(alloc, lines, number, left) {
            return false;
        }
    }
    is_said_once(lines, topics, topics)
        && is_said_once(lines, MADE.0, MADE.1)
        && lines.len() == LEAVING.len().saturating_mul(2).saturating_add(3)
}

#[test]
fn the_log_says_who_came_and_why_they_left(rt: HostRuntime) {
    let lines = Mutex::new(Vec::new(rt.alloc()));
    let kept = Kept::here(&rt, rt.alloc(), &lines);
    let logged = Logged::new(rt, LevelFilter::Info, kept);
    assert!(rt; serves(&logged, rt.alloc(), &LeavingPeers, 1));
    assert!(rt; tell_all(rt.alloc(), lines.lock(&rt).as_slice()));
}
