//! A server that is refused memory once while eight clients work. The test holds whichever one growth is refused
//! (`bench/refuse`): what was wanting ends one connection, which begins again, and the others go on.

use super::client::{CONNECT, CONNECTED, Came, Client, SUBSCRIBE, SUBSCRIBED};
use super::lines::Lines;
use super::served::{Peers, met, quiet};
use broker_locks::ServerFault;
use log::Log;
use std::alloc::Global;
use std::net::Net;
use std::sync::Wait;
use std::sync::atomic::{AtomicU64, Ordering};
use std::thread::Threads;
use std::time::Clock;
use trace_audit::{AuditFault, Trace, audit};

/// A transaction to A and B whose COMMIT asks for a receipt.
const COMMIT: &str = "BEGIN\ntransaction:x\n\n\0\
    SEND\ndestination:A\ntransaction:x\n\nhi\0\
    SEND\ndestination:B\ntransaction:x\n\nhi\0\
    COMMIT\ntransaction:x\nreceipt:c\n\n\0";

/// Its RECEIPT.
const COMMITTED: &str = "RECEIPT\nreceipt-id:c\n\n\0\n";

/// What each client sends in turn once it has subscribed to A, and what comes then behind the MESSAGEs.
const ASKS: &[(&str, &str)] = &[
    (COMMIT, COMMITTED),
    (COMMIT, COMMITTED),
    (COMMIT, COMMITTED),
    (
        "UNSUBSCRIBE\nid:s\nreceipt:u\n\n\0",
        "RECEIPT\nreceipt-id:u\n\n\0\n",
    ),
];

/// How many transactions eight clients commit so.
const COMMITS: u64 = 24;

/// Eight clients.
#[derive(Drop)]
struct Eight {
    /// How often one was told CONNECTED.
    told: AtomicU64,
    /// How often one had to begin again.
    again: AtomicU64,
}

impl Eight {
    /// A client begins: it connects, and subscribes.
    fn begin(&self, alloc: Global, lines: &mut Lines, client: &mut Option<Client>) -> Came {
        let Some(mut begun) = Client::new(alloc, lines) else {
            return Came::End;
        };
        let connected = begun.brings(CONNECT, CONNECTED);
        if connected != Came::Wanted {
            return connected;
        }
        self.told.fetch_add(1, Ordering::SeqCst);
        let subscribed = begun.brings(SUBSCRIBE, SUBSCRIBED);
        *client = Some(begun);
        subscribed
    }

    /// A client, which begins first if it isn't there, sends a text for which this is to come.
    fn ask(
        &self,
        alloc: Global,
        lines: &mut Lines,
        client: &mut Option<Client>,
        asked: (&str, &str),
    ) -> Came {
        if client.is_none() {
            let begun = self.begin(alloc, lines, client);
            if begun != Came::Wanted {
                return begun;
            }
        }
        match client {
            Some(client) => client.brings(asked.0, asked.1),
            None => Came::End,
        }
    }

    /// Whether that comes, also where the client has to begin again.
    fn asks(
        &self,
        alloc: Global,
        lines: &mut Lines,
        client: &mut Option<Client>,
        asked: (&str, &str),
    ) -> bool {
        for _ in 0..3u8 {
            match self.ask(alloc, lines, client, asked) {
                Came::Wanted => return true,
                Came::Nothing => return false,
                Came::End => {}
            }
            *client = None;
            self.again.fetch_add(1, Ordering::SeqCst);
        }
        false
    }

    /// Whether it comes at each of these clients, one after the other.
    fn all_ask(
        &self,
        alloc: Global,
        lines: &mut Lines,
        clients: &mut [Option<Client>],
        asked: (&str, &str),
    ) -> bool {
        for client in clients {
            if !self.asks(alloc, lines, client, asked) {
                return false;
            }
        }
        true
    }
}

impl Peers for Eight {
    fn count(&self) -> u64 {
        10
    }

    fn meet(&self, alloc: Global, lines: &mut Lines) -> bool {
        let mut clients = [None, None, None, None, None, None, None, None];
        for &asked in ASKS {
            if !self.all_ask(alloc, lines, clients.as_mut_slice(), asked) {
                return false;
            }
        }
        true
    }
}

/// Whether the audit of a trace finds what the clients committed, and of a client that began again at most one transaction
/// more, of which it didn't read the RECEIPT.
fn is_explained(alloc: Global, trace: &Trace, again: u64) -> bool {
    for _ in 0..2u8 {
        match audit(alloc, trace) {
            Ok(agreed) => {
                let rows = agreed.rows.len() as u64;
                return agreed.complete && rows >= COMMITS && rows <= COMMITS.saturating_add(again);
            }
            Err(AuditFault::NoMemory) => {}
            Err(_) => return false,
        }
    }
    false
}

impl Eight {
    /// Whether none was told CONNECTED.
    fn heard_nothing(&self) -> bool {
        self.told.load(Ordering::SeqCst) == 0
    }

    /// How often one had to begin again.
    fn begun_again(&self) -> u64 {
        self.again.load(Ordering::SeqCst)
    }

    /// Whether all eight were served by a server that ended with this trace, and at most one of them had to begin again;
    /// `None` where nobody had talked to it.
    fn served_with(&self, alloc: Global, met: bool, trace: &Trace) -> Option<bool> {
        let again = self.begun_again();
        if self.heard_nothing() && again == 0 {
            None
        } else {
            Some(met && again <= 1 && is_explained(alloc, trace, again))
        }
    }

    /// That they weren't served by a server that ended with this fault; `None` where there was no memory for one that nobody
    /// had talked to, or for the trace of one that had served all of them.
    fn failed_with(&self, met: bool, fault: ServerFault) -> Option<bool> {
        let is_excused = self.heard_nothing() || (met && self.begun_again() == 0);
        if fault == ServerFault::NoMemory && is_excused {
            None
        } else {
            Some(false)
        }
    }

    /// Whether a server served them so; `None` also where it didn't begin.
    fn are_served<R>(&self, rt: &R, alloc: Global) -> Option<bool>
    where
        R: Threads + Wait + Net + Clock + Log + Send + Sync,
    {
        let (met, ended) = met(rt, alloc, self)?;
        match ended {
            Ok(trace) => self.served_with(alloc, met, &trace),
            Err(fault) => self.failed_with(met, fault),
        }
    }
}

/// Whether all eight were served, and at most one of them had to begin again; `None` where there was no memory for a server
/// that nobody had talked to, for the thread of one, so that it began when they had gone, or for a trace.
fn all_are_served<R>(rt: &R, alloc: Global) -> Option<bool>
where
    R: Threads + Wait + Net + Clock + Log + Send + Sync,
{
    let eight = Eight {
        told: AtomicU64::new(0),
        again: AtomicU64::new(0),
    };
    eight.are_served(rt, alloc)
}

#[test]
fn eight_clients_are_served(rt: HostRuntime) {
    let alloc = rt.alloc();
    let quiet = quiet(rt);
    let served = match all_are_served(&quiet, alloc) {
        Some(served) => Some(served),
        None => all_are_served(&quiet, alloc),
    };
    assert!(rt; served == Some(true));
}
