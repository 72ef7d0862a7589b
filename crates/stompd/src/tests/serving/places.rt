//! Places: each that a connection had is there for the next. The connections are made while the server runs.

use super::client::{CONNECT, CONNECTED, Client};
use super::lines::Lines;
use super::logged::Kept;
use super::served::{Peers, serves};
use super::slow::send_of;
use log::{LevelFilter, Logged};
use std::alloc::Global;
use std::net::{Net, SocketAddr};
use std::sync::Mutex;

/// A DISCONNECT, and its RECEIPT.
const BYE: (&str, &str) = (
    "DISCONNECT\nreceipt:bye\n\n\0",
    "RECEIPT\nreceipt-id:bye\n\n\0\n",
);

/// Where a server is that has begun.
#[derive(Drop)]
struct Place<'a, R: Net> {
    rt: &'a R,
    alloc: Global,
    addr: SocketAddr,
}

impl<'a, R: Net> Place<'a, R> {
    /// Where the next of these connections leads. That one is closed, and said nothing.
    fn of(rt: &'a R, alloc: Global, lines: &mut Lines) -> Option<Place<'a, R>> {
        let stream = lines.next()?;
        let addr = stream.peer_addr().ok()?;
        Some(Place { rt, alloc, addr })
    }

    /// A client on a new connection, to which the server answered this when it sent that first.
    fn told(&self, text: &str, wanted: &str) -> Option<Client> {
        let mut lines = Lines::new(self.rt, self.alloc, self.addr, 1)?;
        Client::told(self.alloc, &mut lines, text, wanted)
    }

    /// So many of them.
    fn all_told(&self, text: &str, wanted: &str, count: u64) -> Option<Vec<Client>> {
        let mut clients = Vec::new(self.alloc);
        for _ in 0..count {
            clients.push(self.told(text, wanted)?).ok()?;
        }
        Some(clients)
    }

    /// Makes so many connections, each of which is gone at once: the server then ends, whatever went wrong before.
    fn run_out(&self, count: u64) {
        for _ in 0..count {
            drop(Lines::new(self.rt, self.alloc, self.addr, 1));
        }
    }
}

/// Whether the last of these lines, which has the log's figures, begins so.
fn last_begins(lines: &[String], text: &str) -> bool {
    lines
        .last()
        .is_some_and(|line| line.as_str().starts_with(text))
}

/// How often one comes to each of three topics.
const ROUNDS: u64 = 100;

/// These topics, and their numbers: the first who names the last of them makes it, behind A, B and `full`.
const TOPICS: [(&str, u64); 3] = [("A", 0), ("B", 1), ("new", 3)];

/// A SUBSCRIBE of the topic of this name and a SEND to it, which ask for receipts.
fn visit(alloc: Global, name: &str) -> Option<String> {
    format!(in alloc;
        "SUBSCRIBE\nid:s\ndestination:{name}\nreceipt:s\n\n\0SEND\ndestination:{name}\nreceipt:r\n\nhi\0"
    ).ok()
}

/// Their RECEIPTs and the MESSAGE, where so many came to the topic of this name and number.
fn visited(alloc: Global, name: &str, topic: u64, number: u64) -> Option<String> {
    format!(in alloc;
        "RECEIPT\nreceipt-id:s\n\n\0\nRECEIPT\nreceipt-id:r\n\n\0\n\
        MESSAGE\nsubscription:s\nmessage-id:{number}.{topic}.0\ndestination:{name}\ncontent-length:2\n\nhi\0\n"
    )
    .ok()
}

/// Whether a new client sends this, hears that, and leaves by a DISCONNECT.
fn one_visits<R: Net>(place: &Place<'_, R>, text: &str, wanted: &str) -> bool {
    match place.told(CONNECT, CONNECTED) {
        Some(mut client) => client.asks(text, wanted) && client.ends_with(BYE.0, BYE.1),
        None => false,
    }
}

/// The same of the one that is the so manieth at the topic of this name and number; `None` where there is no memory for what
/// it sends and hears.
fn one_comes<R: Net>(place: &Place<'_, R>, name: &str, topic: u64, number: u64) -> Option<bool> {
    let text = visit(place.alloc, name)?;
    let wanted = visited(place.alloc, name, topic, number)?;
    Some(one_visits(place, text.as_str(), wanted.as_str()))
}

/// Whether one comes to each of the topics.
fn each_comes<R: Net>(place: &Place<'_, R>, number: u64) -> bool {
    for (name, topic) in TOPICS {
        if one_comes(place, name, topic, number) != Some(true) {
            return false;
        }
    }
    true
}

/// Whether so many rounds come, one after another.
fn all_come<R: Net>(place: &Place<'_, R>) -> bool {
    for round in 1..=ROUNDS {
        if !each_comes(place, round) {
            return false;
        }
    }
    true
}

/// More than there are places come one after another.
#[derive(Drop)]
struct OneByOne<'a, R: Net> {
    rt: &'a R,
}

impl<R: Net> Peers for OneByOne<'_, R> {
    fn count(&self) -> u64 {
        ROUNDS.saturating_mul(3).saturating_add(1)
    }

    fn ready(&self) -> u64 {
        1
    }

    fn meet(&self, alloc: Global, lines: &mut Lines) -> bool {
        let Some(place) = Place::of(self.rt, alloc, lines) else {
            return false;
        };
        let all_came = all_come(&place);
        if !all_came {
            place.run_out(self.count());
        }
        all_came
    }
}

/// The log's last line then begins so.
const ALL_CAME: &str =
    "[INFO  serve] figures connections=0 came=301 refused=0 ended_disconnect=300 ended_error=0 \
    ended_closed=1 ended_lag=0 ended_write_failed=0 ended_unconnected=0 ended_other=0 topics=4 ";

#[test]
fn three_hundred_are_served_one_after_another(rt: HostRuntime) {
    let lines = Mutex::new(Vec::new(rt.alloc()));
    let kept = Kept::here(&rt, rt.alloc(), &lines);
    let logged = Logged::new(rt, LevelFilter::Info, kept);
    assert!(rt; serves(&logged, rt.alloc(), &OneByOne { rt: &rt }, 300));
    assert!(rt; last_begins(lines.lock(&rt).as_slice(), ALL_CAME));
}

/// A CONNECT and a subscription `s` to A that asks for a receipt, and what is written first then.
const TO_A: (&str, &str) = (
    "CONNECT\naccept-version:1.2\nhost:h\n\n\0SUBSCRIBE\nid:s\ndestination:A\nreceipt:s\n\n\0",
    "CONNECTED\nversion:1.2\nheart-beat:0,0\n\n\0\nRECEIPT\nreceipt-id:s\n\n\0\n",
);

/// A SEND to B that asks for a receipt, and its RECEIPT.
const AT_B: (&str, &str) = (
    "SEND\ndestination:B\nreceipt:r\n\nhi\0",
    "RECEIPT\nreceipt-id:r\n\n\0\n",
);

/// What is refused, and the ERROR that answers it.
const REFUSED: (&str, &str) = (
    "ACK\n\n\0",
    "ERROR\nmessage:21 Unsupported\ncontent-length:0\n\n\0\n",
);

/// The last words to one that lagged.
const LAGGED: &[u8] = b"ERROR\nmessage:74 Lagged\ncontent-length:0\n\n\0\n";

/// A transaction without its COMMIT.
const BEGUN: &str = "BEGIN\ntransaction:x\n\n\0SEND\ndestination:A\ntransaction:x\n\nno\0";

/// A transaction with a SEND to A and one to B.
const BOTH: &str = "BEGIN\ntransaction:x\n\n\0SEND\ndestination:A\ntransaction:x\n\np\0\
    SEND\ndestination:B\ntransaction:x\n\np\0COMMIT\ntransaction:x\n\n\0";

/// How a connection ends.
#[derive(Clone, Copy)]
enum End {
    /// By a DISCONNECT, whose receipt it reads.
    Disconnect,
    /// By a wrong frame, whose ERROR it reads.
    Refused,
    /// It is closed without a word, within a transaction.
    Closed,
    /// Its system resets it: it is closed when part of a RECEIPT came that isn't read.
    Reset,
}

/// They end so by turns.
const ENDS: [End; 4] = [End::Disconnect, End::Refused, End::Closed, End::Reset];

/// How often.
const TURNS: u64 = 25;

/// Whether a new client with a subscription ends so, and then is gone.
fn one_ends<R: Net>(place: &Place<'_, R>, end: End) -> bool {
    let Some(mut client) = place.told(TO_A.0, TO_A.1) else {
        return false;
    };
    match end {
        End::Disconnect => client.ends_with(BYE.0, BYE.1),
        End::Refused => client.ends_with(REFUSED.0, REFUSED.1),
        End::Closed => client.sends(BEGUN),
        End::Reset => client.asks(AT_B.0, "RECEIPT\n"),
    }
}

/// Whether one ends in each way.
fn each_ends<R: Net>(place: &Place<'_, R>) -> bool {
    for end in ENDS {
        if !one_ends(place, end) {
            return false;
        }
    }
    true
}

/// Whether so many do, one after another.
fn all_end<R: Net>(place: &Place<'_, R>) -> bool {
    for _ in 0..TURNS {
        if !each_ends(place) {
            return false;
        }
    }
    true
}

/// How many SENDs, each with so many octets in its body, are more than the systems on the way and a queue take.
const BURST: u64 = 320;

const BODY: usize = 20_000;

/// Whether so many SENDs to A go out.
fn bursts(client: &mut Client, alloc: Global) -> bool {
    let Some(text) = send_of(alloc, BODY) else {
        return false;
    };
    for _ in 0..BURST {
        if !client.sends(text.as_str()) {
            return false;
        }
    }
    true
}

/// Whether all that comes ends with 74.
fn is_told_of_lag(client: &mut Client) -> bool {
    match client.rest() {
        Some(came) => came.as_slice().ends_with(LAGGED),
        None => false,
    }
}

/// Whether a new client sends a transaction, and is gone at once.
fn one_goes<R: Net>(place: &Place<'_, R>) -> bool {
    match place.told(CONNECT, CONNECTED) {
        Some(mut client) => client.sends(BOTH),
        None => false,
    }
}

/// Whether one lags behind a new client's burst, while the transaction of one that is gone waits behind that. What it sends
/// last is answered once the one that lags isn't waited for any longer, which then reads.
fn lags<R: Net>(place: &Place<'_, R>, slow: &mut Client) -> bool {
    match place.told(CONNECT, CONNECTED) {
        Some(mut client) => {
            bursts(&mut client, place.alloc)
                && one_goes(place)
                && client.asks(AT_B.0, AT_B.1)
                && is_told_of_lag(slow)
                && client.ends_with(BYE.0, BYE.1)
        }
        None => false,
    }
}

/// Whether a new client that doesn't read lags.
fn one_lags<R: Net>(place: &Place<'_, R>) -> bool {
    match place.told(TO_A.0, TO_A.1) {
        Some(mut slow) => lags(place, &mut slow),
        None => false,
    }
}

/// How many are there all the time.
const STAYING: u64 = 200;

/// How many more are there at the end: with them two places are left, since the thread of one that left may come late, though
/// each of the others was answered meanwhile.
const MORE: u64 = 54;

/// Whether each of them sends to B, and reads its RECEIPT.
fn all_ask(clients: &mut [Client]) -> bool {
    for client in clients {
        if !client.asks(AT_B.0, AT_B.1) {
            return false;
        }
    }
    true
}

/// Whether so many more are there at once, and served.
fn more_come<R: Net>(place: &Place<'_, R>) -> bool {
    match place.all_told(CONNECT, CONNECTED, MORE) {
        Some(mut more) => all_ask(more.as_mut_slice()),
        None => false,
    }
}

/// Whether others end in each way while so many are there, and then more come.
fn all_is_done<R: Net>(place: &Place<'_, R>) -> bool {
    match place.all_told(CONNECT, CONNECTED, STAYING) {
        Some(mut staying) => {
            one_lags(place) && all_end(place) && all_ask(staying.as_mut_slice()) && more_come(place)
        }
        None => false,
    }
}

/// While some are there, others end in each way; then all places but two are taken at once.
#[derive(Drop)]
struct Ending<'a, R: Net> {
    rt: &'a R,
}

impl<R: Net> Peers for Ending<'_, R> {
    fn count(&self) -> u64 {
        let ends = TURNS.saturating_mul(4);
        STAYING
            .saturating_add(ends)
            .saturating_add(MORE)
            .saturating_add(4)
    }

    fn ready(&self) -> u64 {
        1
    }

    fn meet(&self, alloc: Global, lines: &mut Lines) -> bool {
        let Some(place) = Place::of(self.rt, alloc, lines) else {
            return false;
        };
        let is_done = all_is_done(&place);
        if !is_done {
            place.run_out(self.count());
        }
        is_done
    }
}

/// The log's last line then begins so: 25 end by each way, and one more by a DISCONNECT; two that were gone at once, 200 that
/// stayed and 54 that came last are closed, too.
const ALL_ENDED: &str =
    "[INFO  serve] figures connections=0 came=358 refused=0 ended_disconnect=26 ended_error=25 \
    ended_closed=306 ended_lag=1 ended_write_failed=0 ended_unconnected=0 ended_other=0 topics=3 ";

#[test]
fn whichever_way_connections_end_their_places_are_free(rt: HostRuntime) {
    let rows = (BURST + TURNS + STAYING + MORE + 2) as usize;
    let lines = Mutex::new(Vec::new(rt.alloc()));
    let kept = Kept::here(&rt, rt.alloc(), &lines);
    let logged = Logged::new(rt, LevelFilter::Info, kept);
    assert!(rt; serves(&logged, rt.alloc(), &Ending { rt: &rt }, rows));
    assert!(rt; last_begins(lines.lock(&rt).as_slice(), ALL_ENDED));
}
