//! MESSAGEs that say which of their transaction's they are: worked examples, read back, and without memory.

use super::made::headers;
use super::writing::is_read_and_written;
use crate::{Command, Headers, PartMessage, write_part_message};
use std::alloc::Global;
use stomp_escape::{NoMemory, Octets};

type Pairs<'a> = &'a [(&'a [u8], &'a [u8])];

/// Which of how many MESSAGEs it is, its SEND's headers and body, and the MESSAGE for the subscription `s`.
type Row = ((u64, u64), Pairs<'static>, &'static [u8], &'static [u8]);

/// The only one; the last of the most; one in the middle, whose SEND has a `part` of its own, twice; escapes, and a
/// NULL in the body; the greatest numbers, without a destination.
const ROWS: &[Row] = &[
    (
        (1, 1),
        &[(b"destination", b"A")],
        b"hi",
        b"MESSAGE\nsubscription:s\nmessage-id:7.2.5\ndestination:A\ncontent-length:2\npart:1/1\n\nhi\0",
    ),
    (
        (64, 64),
        &[(b"destination", b"A"), (b"k", b"v")],
        b"",
        b"MESSAGE\nsubscription:s\nmessage-id:7.2.5\ndestination:A\ncontent-length:0\npart:64/64\nk:v\n\n\0",
    ),
    (
        (2, 3),
        &[
            (b"part", b"1/1"),
            (b"a", b"1"),
            (b"destination", b"A"),
            (b"part", b"yes"),
            (b"a", b"2"),
            (b"parts", b"p"),
            (b"receipt", b"r"),
        ],
        b"hi",
        b"MESSAGE\nsubscription:s\nmessage-id:7.2.5\ndestination:A\ncontent-length:2\npart:2/3\na:1\nparts:p\n\nhi\0",
    ),
    (
        (10, 12),
        &[(b"destination", b"A:B"), (b"k\\", b"\n")],
        b"a\0b",
        b"MESSAGE\nsubscription:s\nmessage-id:7.2.5\ndestination:A\\cB\ncontent-length:3\npart:10/12\nk\\\\:\\n\n\na\0b\0",
    ),
    (
        (18_446_744_073_709_551_615, 18_446_744_073_709_551_615),
        &[],
        b"",
        b"MESSAGE\nsubscription:s\nmessage-id:7.2.5\ncontent-length:0\npart:18446744073709551615/18446744073709551615\n\n\0",
    ),
];

/// The MESSAGE of a SEND for the subscription `s`.
fn message<'a>(place: (u64, u64), headers: &'a Headers, body: &'a [u8]) -> PartMessage<'a> {
    PartMessage {
        subscription: b"s",
        n: 7,
        topic: 2,
        index: 5,
        headers,
        body,
        at: place.0,
        count: place.1,
    }
}

/// What is written of a row's MESSAGE.
fn written(alloc: Global, row: &Row) -> Result<Octets, NoMemory> {
    let headers = headers(alloc, row.1)?;
    let mut out = Octets::new(alloc);
    write_part_message(&message(row.0, &headers, row.2), &mut out)?;
    Ok(out)
}

/// Whether that is the row's MESSAGE.
fn is_row(alloc: Global, row: &Row) -> Result<bool, NoMemory> {
    Ok(written(alloc, row)?.as_slice() == row.3)
}

#[test]
fn each_says_its_part(rt: HostRuntime) {
    for row in ROWS {
        assert!(rt; is_row(rt.alloc(), row) == Ok(true), "{:?}", row.0);
    }
}

/// A reader reads each as a frame that is written so.
#[test]
fn each_is_read_back(rt: HostRuntime) {
    for row in ROWS {
        assert!(rt;
            is_read_and_written(rt.alloc(), Command::Message, row.3) == Some(true),
            "{:?}",
            row.0
        );
    }
}

/// A MESSAGE of three headers, one of them escaped and one withheld, as it is written.
const SHORT: &[u8] =
    b"MESSAGE\nsubscription:s\nmessage-id:7.2.5\ndestination:A\ncontent-length:2\npart:2/3\nx:\\c\n\nhi\0";

/// Appends that MESSAGE; whether it is there whole, or not at all.
fn is_sent_or_nothing(message: &PartMessage, out: &mut Octets) -> bool {
    let before = out.len();
    let want = if write_part_message(message, out).is_ok() {
        SHORT
    } else {
        b""
    };
    &out.as_slice()[before..] == want
}

/// Whether that is so of twenty, one after the other, and at most one isn't there.
fn are_sent_or_nothing(alloc: Global, headers: &Headers) -> bool {
    let message = message((2, 3), headers, b"hi");
    let mut out = Octets::new(alloc);
    for _ in 0..20u8 {
        if !is_sent_or_nothing(&message, &mut out) {
            return false;
        }
    }
    out.len() >= 19 * SHORT.len()
}

/// Holds whichever allocation fails: what isn't written whole leaves nothing, and is written when memory is there.
#[test]
fn out_of_memory_leaves_nothing(rt: HostRuntime) {
    let alloc = rt.alloc();
    let pairs: Pairs = &[(b"destination", b"A"), (b"part", b"1"), (b"x", b":")];
    if let Ok(headers) = headers(alloc, pairs) {
        assert!(rt; are_sent_or_nothing(alloc, &headers));
    }
}
