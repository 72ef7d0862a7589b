//! Transactions that wait for room, behind one that doesn't read yet, or never.

use super::client::{Came, Client};
use super::lines::Lines;
use super::served::{Peers, quiet, serves};
use std::alloc::Global;

/// A CONNECT and a subscription `s` to B that asks for a receipt, and what is written first then.
const TO_B: (&str, &str) = (
    "CONNECT\naccept-version:1.2\nhost:h\n\n\0SUBSCRIBE\nid:s\ndestination:B\nreceipt:s\n\n\0",
    "CONNECTED\nversion:1.2\nheart-beat:0,0\n\n\0\nRECEIPT\nreceipt-id:s\n\n\0\n",
);

/// A SEND to B that asks for a receipt, and its RECEIPT.
const AT_B: (&str, &str) = (
    "SEND\ndestination:B\nreceipt:r\n\nhi\0",
    "RECEIPT\nreceipt-id:r\n\n\0\n",
);

/// A transaction with a SEND to A and one to B.
const BOTH: &str = "BEGIN\ntransaction:x\n\n\0SEND\ndestination:A\ntransaction:x\n\np\0\
    SEND\ndestination:B\ntransaction:x\n\np\0COMMIT\ntransaction:x\n\n\0";

/// How many octets each SEND has that fills what is on the way to one that doesn't read.
const LARGE: usize = 500_000;

/// How many of them are more than the systems on the way take, which is 4 MiB and a little, and fewer than a queue takes.
const LARGE_SENDS: usize = 18;

/// How many small ones a queue takes, too, whatever it has of the large ones.
const SMALL_SENDS: usize = 45;

/// How many more are more than it takes.
const LAST_SENDS: usize = 30;

/// How many they are together.
const FILLING: usize = LARGE_SENDS + SMALL_SENDS + LAST_SENDS;

/// So many octets behind this text, and a NULL.
fn padded(alloc: Global, text: &str, count: usize) -> Option<String> {
    let mut padded = String::from_str(alloc, text).ok()?;
    for _ in 0..count {
        padded.push('x').ok()?;
    }
    padded.push('\0').ok()?;
    Some(padded)
}

/// Whether this goes out so often.
fn sends_often(client: &mut Client, text: &str, count: usize) -> bool {
    for _ in 0..count {
        if !client.sends(text) {
            return false;
        }
    }
    true
}

/// Whether a client sends this large text to B, and then small ones, until those who send there wait for one that doesn't
/// read: nobody waits before the last of them.
fn fills_with(client: &mut Client, large: &str) -> bool {
    asks_often(client, (large, AT_B.1), LARGE_SENDS)
        && asks_often(client, AT_B, SMALL_SENDS)
        && sends_often(client, "SEND\ndestination:B\n\nhi\0", LAST_SENDS)
}

/// Whether it does so.
fn fills(client: &mut Client, alloc: Global) -> bool {
    match padded(alloc, "SEND\ndestination:B\nreceipt:r\n\n", LARGE) {
        Some(text) => fills_with(client, text.as_str()),
        None => false,
    }
}

/// So many clients.
pub(super) fn clients(alloc: Global, lines: &mut Lines, count: u64) -> Option<Vec<Client>> {
    let mut clients = Vec::new(alloc);
    for _ in 0..count {
        clients.push(Client::connected(alloc, lines)?).ok()?;
    }
    Some(clients)
}

/// Whether each of them sends this.
pub(super) fn all_send(clients: &mut [Client], text: &str) -> bool {
    for client in clients {
        if !client.sends(text) {
            return false;
        }
    }
    true
}

/// Whether it asks this so often, and hears that.
fn asks_often(client: &mut Client, asked: (&str, &str), count: usize) -> bool {
    for _ in 0..count {
        if !client.asks(asked.0, asked.1) {
            return false;
        }
    }
    true
}

/// How many connections are gone behind their transactions.
const GOING: u64 = 40;

/// Whether so many new clients send two transactions, and are gone.
fn all_go(alloc: Global, lines: &mut Lines) -> bool {
    match clients(alloc, lines, GOING) {
        Some(mut going) => {
            let going = going.as_mut_slice();
            all_send(going, BOTH) && all_send(going, BOTH)
        }
        None => false,
    }
}

/// One subscribes to B and doesn't read; others send transactions to A and B, and are gone, as is then the one at B.
#[derive(Drop)]
struct Gone;

impl Peers for Gone {
    fn count(&self) -> u64 {
        GOING.saturating_add(2)
    }

    fn meet(&self, alloc: Global, lines: &mut Lines) -> bool {
        let Some(_stalled) = Client::told(alloc, lines, TO_B.0, TO_B.1) else {
            return false;
        };
        match Client::connected(alloc, lines) {
            Some(mut filling) => fills(&mut filling, alloc) && all_go(alloc, lines),
            None => false,
        }
    }
}

#[test]
fn what_waits_of_connections_that_are_gone_is_committed(rt: HostRuntime) {
    let rows = FILLING + 2 * GOING as usize;
    assert!(rt; serves(&quiet(rt), rt.alloc(), &Gone, rows));
}

/// How many senders there are, and how many transactions each sends.
const SENDERS: u64 = 8;

const EACH: usize = 40;

/// The number of the first transaction of each: so all have two digits.
const FIRST: usize = 10;

/// How many octets the body of the SEND to A has behind the letter of its sender and its number.
const PADDING: usize = 20_000;

/// What comes before the body of its MESSAGE.
const BEFORE_BODY: &str = "content-length:20003\n\n";

/// What comes behind that body, in a transaction.
const BEHIND_BODY: &str = "SEND\ndestination:B\ntransaction:x\n\ny\0COMMIT\ntransaction:x\n\n\0";

/// The letter of the sender of this index.
fn letter_of(sender: usize) -> u8 {
    b'a'.saturating_add(u8::try_from(sender).unwrap_or(0))
}

/// Whether a sender of this letter sends a transaction of this number to A and B.
fn sends_one(client: &mut Client, alloc: Global, letter: u8, number: usize, padding: &str) -> bool {
    let letter = letter as char;
    let head = format!(in alloc;
        "BEGIN\ntransaction:x\n\n\0SEND\ndestination:A\ntransaction:x\n\n{letter}{number}"
    );
    match head {
        Ok(head) => {
            client.sends(head.as_str()) && client.sends(padding) && client.sends(BEHIND_BODY)
        }
        Err(_) => false,
    }
}

/// Whether each of these sends all of its transactions, one sender after the other.
fn send_all(clients: &mut [Client], alloc: Global, padding: &str) -> bool {
    for (index, client) in clients.iter_mut().enumerate() {
        for number in FIRST..FIRST + EACH {
            if !sends_one(client, alloc, letter_of(index), number, padding) {
                return false;
            }
        }
    }
    true
}

/// The letter and the number of the next MESSAGE.
fn next_of(reader: &mut Client) -> Option<(u8, u8, u8)> {
    if reader.brings("", BEFORE_BODY) != Came::Wanted {
        return None;
    }
    let body = reader.next(PADDING.saturating_add(5))?;
    Some((*body.first()?, *body.get(1)?, *body.get(2)?))
}

/// Whether the next MESSAGE is the next of its sender: of each sender so many came before. It is counted.
fn hears_next(reader: &mut Client, came: &mut [usize; 8]) -> bool {
    let Some((letter, tens, ones)) = next_of(reader) else {
        return false;
    };
    let sender = letter.wrapping_sub(b'a') as usize;
    let digits = (
        tens.wrapping_sub(b'0') as usize,
        ones.wrapping_sub(b'0') as usize,
    );
    let number = digits.0.saturating_mul(10).saturating_add(digits.1);
    match came.get_mut(sender) {
        Some(count) if count.saturating_add(FIRST) == number => {
            *count = count.saturating_add(1);
            true
        }
        _ => false,
    }
}

/// Whether all MESSAGEs come, those of each sender in order.
fn hears_all(reader: &mut Client) -> bool {
    let mut came = [0usize; 8];
    for _ in 0..SENDERS as usize * EACH {
        if !hears_next(reader, &mut came) {
            return false;
        }
    }
    came.iter().all(|count| *count == EACH)
}

/// Whether all are answered at B, one after the other.
fn all_ask_at_b(clients: &mut [Client]) -> bool {
    for client in clients {
        if !client.asks(AT_B.0, AT_B.1) {
            return false;
        }
    }
    true
}

/// One subscribes to A, and reads only once eight have sent it more than the systems on the way and a queue take.
#[derive(Drop)]
struct Late;

impl Late {
    /// Whether all comes, and nobody lags or ends.
    fn comes(&self, alloc: Global, reader: &mut Client, senders: &mut [Client]) -> bool {
        match padded(alloc, "", PADDING) {
            Some(padding) => {
                send_all(senders, alloc, padding.as_str())
                    && hears_all(reader)
                    && all_ask_at_b(senders)
                    && reader.asks(AT_B.0, AT_B.1)
            }
            None => false,
        }
    }
}

impl Peers for Late {
    fn count(&self) -> u64 {
        SENDERS.saturating_add(1)
    }

    fn meet(&self, alloc: Global, lines: &mut Lines) -> bool {
        let Some(mut reader) = Client::subscribed(alloc, lines) else {
            return false;
        };
        match clients(alloc, lines, SENDERS) {
            Some(mut senders) => self.comes(alloc, &mut reader, senders.as_mut_slice()),
            None => false,
        }
    }
}

#[test]
fn what_many_send_at_once_comes_to_one_that_reads_late(rt: HostRuntime) {
    let rows = SENDERS as usize * EACH + SENDERS as usize + 1;
    assert!(rt; serves(&quiet(rt), rt.alloc(), &Late, rows));
}
