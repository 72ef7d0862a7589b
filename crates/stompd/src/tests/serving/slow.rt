//! A peer that doesn't read.

use super::client::Client;
use super::lines::Lines;
use super::served::{Peers, quiet, serves};
use std::alloc::Global;

/// How many SENDs.
const SENDS: usize = 1_000;

/// How many octets each has in its body.
const BODY: usize = 100_000;

/// What stands before the body of a SEND to A.
const HEAD: &str = "SEND\ndestination:A\n\n";

/// A SEND to A of so many octets.
pub(super) fn send_of(alloc: Global, count: usize) -> Option<String> {
    let mut text = String::from_str(alloc, HEAD).ok()?;
    for _ in 0..count {
        text.push('x').ok()?;
    }
    text.push('\0').ok()?;
    Some(text)
}

/// Whether the MESSAGE of this number at A comes next, with this body and the NULL behind it, and LF.
fn hears_number(client: &mut Client, alloc: Global, number: u64, body: &[u8]) -> bool {
    let count = body.len().saturating_sub(1);
    let head = format!(in alloc;
        "MESSAGE\nsubscription:s\nmessage-id:{number}.0.0\ndestination:A\ncontent-length:{count}\n\n"
    );
    match head {
        Ok(head) => {
            client.hears(head.as_str())
                && client
                    .next(body.len())
                    .is_some_and(|came| came.as_slice() == body)
                && client.hears("\n")
        }
        Err(_) => false,
    }
}

/// Whether each SEND of this text is read before the next.
fn all_are_read(sender: &mut Client, reader: &mut Client, alloc: Global, text: &str) -> bool {
    let Some(body) = text.as_bytes().get(HEAD.len()..) else {
        return false;
    };
    for number in 1..=(SENDS as u64) {
        if !sender.sends(text) || !hears_number(reader, alloc, number, body) {
            return false;
        }
    }
    true
}

/// Whether each SEND is read before the next.
fn goes_on(sender: &mut Client, reader: &mut Client, alloc: Global) -> bool {
    match send_of(alloc, BODY) {
        Some(text) => all_are_read(sender, reader, alloc, text.as_str()),
        None => false,
    }
}

/// What is refused, and the ERROR that answers it.
const REFUSED: (&str, &str) = (
    "ACK\n\n\0",
    "ERROR\nmessage:21 Unsupported\ncontent-length:0\n\n\0\n",
);

/// Whether the server answers one that asks for as long as it hears out another, which is refused a frame and says a
/// little now and then: by its own clock one second to ten. It takes no longer to end what has lagged, and waits a minute
/// for one that lagged to read on.
fn pauses(client: &mut Client, refused: &mut Client) -> bool {
    refused.asks(REFUSED.0, REFUSED.1) && is_given_up(refused, client)
}

/// The last words to one that lagged.
const LAGGED: &[u8] = b"ERROR\nmessage:74 Lagged\ncontent-length:0\n\n\0\n";

/// Whether all that comes ends with 74, behind fewer MESSAGEs than were sent.
fn ends_lagged(client: &mut Client) -> bool {
    match client.rest() {
        Some(came) => {
            came.len() < BODY.saturating_mul(SENDS) && came.as_slice().ends_with(LAGGED)
        }
        None => false,
    }
}

/// Whether the one of these lags and the other reads what a new client sends.
fn one_lags(alloc: Global, lines: &mut Lines, slow: &mut Client, reader: &mut Client) -> bool {
    let Some(mut sender) = Client::connected(alloc, lines) else {
        return false;
    };
    match Client::connected(alloc, lines) {
        Some(mut refused) => {
            goes_on(&mut sender, reader, alloc)
                && pauses(&mut sender, &mut refused)
                && ends_lagged(slow)
        }
        None => false,
    }
}

/// One subscribes and reads only a while after the last SEND; another reads each before the next.
#[derive(Drop)]
struct Slow;

impl Peers for Slow {
    fn count(&self) -> u64 {
        4
    }

    fn meet(&self, alloc: Global, lines: &mut Lines) -> bool {
        let Some(mut slow) = Client::subscribed(alloc, lines) else {
            return false;
        };
        match Client::subscribed(alloc, lines) {
            Some(mut reader) => one_lags(alloc, lines, &mut slow, &mut reader),
            None => false,
        }
    }
}

/// How many SENDs one sends to itself at once: more than its queue holds, and together more octets than one read brings, which
/// doesn't end where a frame does.
const TO_ITSELF: u64 = 1_000;

/// One of them, and its body with the NULL behind it.
const OWN: (&str, &[u8]) = (
    "SEND\ndestination:A\n\nso many come at once that no read has them all, however wide, and few reads end where one does\0",
    b"so many come at once that no read has them all, however wide, and few reads end where one does\0",
);

/// One that has sent before subscribes, and sends to its own subscription, all at once, and reads all the time.
#[derive(Drop)]
struct ToItself;

/// A SEND to B, and its RECEIPT; then the stamps of what is sent to A begin with 2.
const FIRST: (&str, &str) = (
    "SEND\ndestination:B\nreceipt:f\n\nx\0",
    "RECEIPT\nreceipt-id:f\n\n\0\n",
);

/// A SUBSCRIBE of A, and so many SENDs there.
fn all_at_once(alloc: Global) -> Option<String> {
    let mut text = String::from_str(alloc, "SUBSCRIBE\nid:s\ndestination:A\n\n\0").ok()?;
    for _ in 0..TO_ITSELF {
        text.push_str(OWN.0).ok()?;
    }
    Some(text)
}

impl Peers for ToItself {
    fn count(&self) -> u64 {
        1
    }

    fn meet(&self, alloc: Global, lines: &mut Lines) -> bool {
        let Some(mut client) = Client::connected(alloc, lines) else {
            return false;
        };
        let Some(text) = all_at_once(alloc) else {
            return false;
        };
        client.asks(FIRST.0, FIRST.1)
            && client.sends(text.as_str())
            && (2..=TO_ITSELF + 1).all(|number| hears_number(&mut client, alloc, number, OWN.1))
    }
}

#[test]
fn one_that_sends_to_itself_does_not_lag(rt: HostRuntime) {
    assert!(rt; serves(&quiet(rt), rt.alloc(), &ToItself, 1_001));
}

#[test]
fn one_that_does_not_read_lags_alone(rt: HostRuntime) {
    assert!(rt; serves(&quiet(rt), rt.alloc(), &Slow, SENDS));
}

/// A subscription `t` to B that asks for a receipt, and its RECEIPT.
const TO_B: (&str, &str) = (
    "SUBSCRIBE\nid:t\ndestination:B\nreceipt:t\n\n\0",
    "RECEIPT\nreceipt-id:t\n\n\0\n",
);

/// A SEND to B that asks for a receipt, its RECEIPT, and its MESSAGE to the subscription `t`.
const AT_B: (&str, &str) = (
    "SEND\ndestination:B\nreceipt:r\n\nhi\0",
    "RECEIPT\nreceipt-id:r\n\n\0\n",
);

const FROM_B: &[u8] =
    b"MESSAGE\nsubscription:t\nmessage-id:1.1.0\ndestination:B\ncontent-length:2\n\nhi\0\n";

/// A frame without the NULL and the LF at its end.
fn without_end(frame: &[u8]) -> Option<&[u8]> {
    frame.get(..frame.len().saturating_sub(2))
}

/// What stands before a NULL, without the LF that stands behind the one before.
fn without_eol(piece: &[u8]) -> &[u8] {
    piece.strip_prefix(b"\n".as_slice()).unwrap_or(piece)
}

/// Whether the one of these frames is among those once, and the other once; no body has a NULL.
fn each_is_once(octets: &[u8], one: &[u8], other: &[u8]) -> bool {
    let (one, other) = (without_end(one), without_end(other));
    let mut ones = 0u32;
    let mut others = 0u32;
    for piece in octets.split(|octet| *octet == 0) {
        let frame = Some(without_eol(piece));
        if frame == one {
            ones = ones.saturating_add(1);
        }
        if frame == other {
            others = others.saturating_add(1);
        }
    }
    ones == 1 && others == 1
}

/// Whether so many SENDs to A go out.
fn bursts(sender: &mut Client, alloc: Global) -> bool {
    let Some(text) = send_of(alloc, BODY) else {
        return false;
    };
    for _ in 0..BURST {
        if !sender.sends(text.as_str()) {
            return false;
        }
    }
    true
}

/// How many SENDs are more than the systems on the way and a queue take.
const BURST: u64 = 400;

/// Whether what comes has the MESSAGE from B once, and 74 at its end alone.
fn ends_lagged_at_a(client: &mut Client) -> bool {
    match client.rest() {
        Some(came) => {
            each_is_once(came.as_slice(), FROM_B, LAGGED) && came.as_slice().ends_with(LAGGED)
        }
        None => false,
    }
}

/// One subscribes to A and B, and reads only after a burst to A behind a SEND to B.
#[derive(Drop)]
pub(super) struct OneOfTwo;

impl Peers for OneOfTwo {
    fn count(&self) -> u64 {
        2
    }

    fn meet(&self, alloc: Global, lines: &mut Lines) -> bool {
        let Some(mut slow) = Client::subscribed(alloc, lines) else {
            return false;
        };
        let Some(mut sender) = Client::connected(alloc, lines) else {
            return false;
        };
        slow.asks(TO_B.0, TO_B.1)
            && sender.asks(AT_B.0, AT_B.1)
            && bursts(&mut sender, alloc)
            && ends_lagged_at_a(&mut slow)
    }
}

/// One subscribes to A and never reads; it is gone a while after a burst to A.
#[derive(Drop)]
pub(super) struct NeverReads;

impl Peers for NeverReads {
    fn count(&self) -> u64 {
        3
    }

    fn meet(&self, alloc: Global, lines: &mut Lines) -> bool {
        let Some(_never) = Client::subscribed(alloc, lines) else {
            return false;
        };
        let Some(mut sender) = Client::connected(alloc, lines) else {
            return false;
        };
        match Client::connected(alloc, lines) {
            Some(mut refused) => bursts(&mut sender, alloc) && pauses(&mut sender, &mut refused),
            None => false,
        }
    }
}

#[test]
fn a_burst_lags_one_of_two_subscriptions(rt: HostRuntime) {
    assert!(rt; serves(&quiet(rt), rt.alloc(), &OneOfTwo, 401));
}

/// What leaves no row, and its RECEIPTs.
const IDLE: (&str, &str) = (
    "BEGIN\ntransaction:x\nreceipt:b\n\n\0ABORT\ntransaction:x\nreceipt:a\n\n\0",
    "RECEIPT\nreceipt-id:b\n\n\0\nRECEIPT\nreceipt-id:a\n\n\0\n",
);

/// How often another asks for that, at most.
const ASKS: u32 = 4_000_000;

/// Whether the server closes the connection of one that sends an end of line now and then, and answers another meanwhile.
fn is_given_up(one: &mut Client, other: &mut Client) -> bool {
    for ask in 0..ASKS {
        if ask % 1_000 == 0 && !one.sends("\n") {
            return true;
        }
        if !other.asks(IDLE.0, IDLE.1) {
            return false;
        }
    }
    false
}

/// How many SENDs come to one that never reads: fewer than a queue holds, so that it doesn't lag, and together more octets
/// than the systems on the way take.
const UNREAD: u64 = 60;

/// How many octets each of them has in its body. Together these are twice what Linux takes on loopback for one that has
/// read nothing yet: 4 MiB at the sender's side, 128 KiB at its own. Each octet is compared, which a build with checks takes
/// a microsecond for: so no more. One of them and what an item may be taken behind are fewer octets than those at which
/// nothing more is read.
const LARGE: usize = 150_000;

/// Whether the MESSAGE of the SEND to B of this number comes next.
fn hears_at_b(client: &mut Client, alloc: Global, number: u64) -> bool {
    let text = format!(in alloc;
        "MESSAGE\nsubscription:t\nmessage-id:{number}.1.0\ndestination:B\ncontent-length:2\n\nhi\0\n"
    );
    match text {
        Ok(text) => client.hears(text.as_str()),
        Err(_) => false,
    }
}

/// Whether the other sends this to A, and both subscribe there; then the slow one sends to B, which the other reads. So the
/// server has heard the slow one after it had an item for it, and writes before it hears it again.
fn fills_with(slow: &mut Client, other: &mut Client, alloc: Global, text: &str) -> bool {
    let Some(body) = text.as_bytes().get(HEAD.len()..) else {
        return false;
    };
    for number in 1..=UNREAD {
        let sent = other.sends(text) && hears_number(other, alloc, number, body);
        if !sent
            || !slow.sends("SEND\ndestination:B\n\nhi\0")
            || !hears_at_b(other, alloc, number)
        {
            return false;
        }
    }
    true
}

/// Whether it does so with a large body.
fn fills(slow: &mut Client, other: &mut Client, alloc: Global) -> bool {
    match send_of(alloc, LARGE) {
        Some(text) => fills_with(slow, other, alloc, text.as_str()),
        None => false,
    }
}

/// One subscribes, has more waiting than it can be told, and is refused a frame; it never reads its ERROR.
#[derive(Drop)]
pub(super) struct Silent;

impl Peers for Silent {
    fn count(&self) -> u64 {
        2
    }

    fn meet(&self, alloc: Global, lines: &mut Lines) -> bool {
        let Some(mut slow) = Client::subscribed(alloc, lines) else {
            return false;
        };
        let Some(mut other) = Client::subscribed(alloc, lines) else {
            return false;
        };
        other.asks(TO_B.0, TO_B.1)
            && fills(&mut slow, &mut other, alloc)
            && slow.sends("ACK\n\n\0")
            && is_given_up(&mut slow, &mut other)
    }
}

#[test]
fn one_that_never_reads_its_error_is_closed(rt: HostRuntime) {
    assert!(rt; serves(&quiet(rt), rt.alloc(), &Silent, 120));
}
