//! Streams in pieces: a reader returns what it returns of the whole text, wherever that is cut.

use super::reading::{BOUNDS, FAULTS, Row, SMALL, STREAMS, show};
use crate::{FrameFault, FrameReader, Limits};
use std::alloc::Global;
use stomp_escape::{NoMemory, Octets};

/// The streams of the folder `examples`.
const EXAMPLES: &[Row] = &[
    (
        b"SEND\ndestination:A\n\nhi\0SEND\ndestination:A\ncontent-length:3\n\na\0b\0",
        b"SEND[destination=A](hi)SEND[destination=A][content-length=3](a\0b).",
    ),
    (
        b"SEND\ndestination:B\nreceipt:r\n\n\0",
        b"SEND[destination=B][receipt=r]().",
    ),
];

/// What a client sends that commits a transaction to two topics, and the MESSAGE that a subscriber of one of them gets.
const TRANSACTION: &[Row] = &[
    (
        b"CONNECT\naccept-version:1.2\nhost:h\n\n\0SUBSCRIBE\nid:b\ndestination:B\n\n\0BEGIN\ntransaction:x\n\n\0SEND\ndestination:A\ntransaction:x\n\nm1\0SEND\ndestination:B\ntransaction:x\n\nm1\0COMMIT\ntransaction:x\nreceipt:r1\n\n\0",
        b"CONNECT[accept-version=1.2][host=h]()SUBSCRIBE[id=b][destination=B]()BEGIN[transaction=x]()SEND[destination=A][transaction=x](m1)SEND[destination=B][transaction=x](m1)COMMIT[transaction=x][receipt=r1]().",
    ),
    (
        b"MESSAGE\nsubscription:b\nmessage-id:10.0.1\ndestination:B\ncontent-length:2\n\nm1\0",
        b"MESSAGE[subscription=b][message-id=10.0.1][destination=B][content-length=2](m1).",
    ),
];

/// A frame of each command, with escapes, end-of-lines of both forms, and bodies of both kinds.
const FRAMES: &[Row] = &[
    (
        b"CONNECT\r\naccept-version:1.2\r\nhost:a\\b\r\n\r\n\0\n",
        b"CONNECT[accept-version=1.2][host=a\\b]()",
    ),
    (b"STOMP\nhost:\n\n\0\r\n", b"STOMP[host=]()"),
    (b"CONNECTED\nversion:1.2\n\n\0", b"CONNECTED[version=1.2]()"),
    (
        b"SEND\ndestination:a\\cb\ncontent-length:2\n\n\0\n\0\n\n",
        b"SEND[destination=a:b][content-length=2](\0\n)",
    ),
    (b"SUBSCRIBE\nid:\\\\\n\n\0", b"SUBSCRIBE[id=\\]()"),
    (b"UNSUBSCRIBE\nid:1\r\n\n\0\n", b"UNSUBSCRIBE[id=1]()"),
    (b"BEGIN\ntransaction:\\n\n\n\0", b"BEGIN[transaction=\n]()"),
    (
        b"COMMIT\ntransaction:\\r\n\n\0",
        b"COMMIT[transaction=\r]()",
    ),
    (b"ABORT\ntransaction:t\n\n\0\r\n", b"ABORT[transaction=t]()"),
    (b"ACK\nid:1:2\n\n\0", b"ACK[id=1:2]()"),
    (b"NACK\n\n\0\n", b"NACK()"),
    (
        b"DISCONNECT\nreceipt:\xc3\xa4\n\n\0",
        b"DISCONNECT[receipt=\xc3\xa4]()",
    ),
    (b"MESSAGE\nk: v \n\nbody\r\n\0", b"MESSAGE[k= v ](body\r\n)"),
    (
        b"RECEIPT\nreceipt-id:r\n\n\0\n\n\n",
        b"RECEIPT[receipt-id=r]()",
    ),
    (
        b"ERROR\ncontent-length:0\n\n\0",
        b"ERROR[content-length=0]()",
    ),
];

/// What comes after those frames, and what a reader returns of it: ends of a stream, and each fault.
const ENDS: &[Row] = &[
    (b"", b"."),
    (b"\r\n\n", b"."),
    (b"\r", b".."),
    (b"SEND\n\nabc", b".."),
    (b"SEMD\n", b"1 BadCommand"),
    (b"SEND\na:\0\n", b"2 BadLine"),
    (b"SEND\nabc\r\n", b"3 BadHeader"),
    (b"SEND\na:\\t\n", b"4 BadEscape"),
    (b"SEND\na:\xff\n", b"5 BadText"),
    (b"SEND\ncontent-length:-1\n\n", b"6 BadLength"),
    (b"SEND\ncontent-length:1\n\nab", b"7 BadEnd"),
    (b"SEND\na:2345678901234567890123456789\n", b"8 LineTooLong"),
    (b"SEND\na:\nb:\nc:\nd:\n", b"9 TooManyHeaders"),
    (b"SEND\n\n123456789", b"10 BodyTooLong"),
];

/// The limits that those ends are past.
const MIDDLE: Limits = Limits {
    line: 24,
    headers: 3,
    body: 8,
};

/// Limits of nothing, and what a reader of them returns.
const NOTHING: &[Row] = &[
    (b"\n\r\n", b"."),
    (b"\r", b".."),
    (b"S", b".."),
    (b"SE", b"8 LineTooLong"),
    (b"S\n", b"8 LineTooLong"),
    (b"\n\r\r\n", b"8 LineTooLong"),
];

/// Appends the frames that the reader returns of a piece, and its fault; whether it returned one.
fn read_on(
    alloc: Global,
    reader: &mut FrameReader,
    piece: &[u8],
    out: &mut Octets,
) -> Result<bool, NoMemory> {
    reader.feed(piece)?;
    for _ in 0..=piece.len() {
        match reader.next(alloc) {
            Ok(Some(frame)) => show(&frame, out)?,
            Ok(None) => return Ok(false),
            Err(fault) => {
                out.extend(fault.title())?;
                return Ok(true);
            }
        }
    }
    Ok(false)
}

/// Appends `.` where the reader has nothing unread, and `..` where more is due.
fn end(reader: &FrameReader, out: &mut Octets) -> Result<(), NoMemory> {
    out.extend(if reader.clean() { b"." } else { b".." })
}

/// What a reader returns of a text in two pieces, the first of which has `at` octets.
fn report_of_two(
    alloc: Global,
    limits: Limits,
    text: &[u8],
    at: usize,
) -> Result<Octets, NoMemory> {
    let mut reader = FrameReader::new(alloc, limits);
    let mut out = Octets::new(alloc);
    let (first, second) = text.split_at(at.min(text.len()));
    if read_on(alloc, &mut reader, first, &mut out)? {
        return Ok(out);
    }
    if !read_on(alloc, &mut reader, second, &mut out)? {
        end(&reader, &mut out)?;
    }
    Ok(out)
}

/// Whether a reader returns this of a text, wherever it is cut into two.
fn holds_in_two(alloc: Global, limits: Limits, text: &[u8], want: &[u8]) -> Result<bool, NoMemory> {
    for at in 0..=text.len() {
        if report_of_two(alloc, limits, text, at)?.as_slice() != want {
            return Ok(false);
        }
    }
    Ok(true)
}

/// What a reader returns of a text in pieces of this size.
fn report_of_pieces(
    alloc: Global,
    limits: Limits,
    text: &[u8],
    size: usize,
) -> Result<Octets, NoMemory> {
    let mut reader = FrameReader::new(alloc, limits);
    let mut out = Octets::new(alloc);
    for piece in text.chunks(size.max(1)) {
        if read_on(alloc, &mut reader, piece, &mut out)? {
            return Ok(out);
        }
    }
    end(&reader, &mut out)?;
    Ok(out)
}

/// Whether a reader returns this of a text, in pieces of 1, 2, 3, 7 and 4,096 octets.
fn holds_in_pieces(
    alloc: Global,
    limits: Limits,
    text: &[u8],
    want: &[u8],
) -> Result<bool, NoMemory> {
    for size in [1, 2, 3, 7, 4096] {
        if report_of_pieces(alloc, limits, text, size)?.as_slice() != want {
            return Ok(false);
        }
    }
    Ok(true)
}

/// The next of a row of drawn numbers.
fn drawn(seed: u64) -> u64 {
    seed.wrapping_mul(6_364_136_223_846_793_005)
        .wrapping_add(1_442_695_040_888_963_407)
}

/// What a reader returns of a text in pieces of 1 to 40 octets, which are drawn.
fn report_of_drawn(
    alloc: Global,
    limits: Limits,
    text: &[u8],
    seed: u64,
) -> Result<Octets, NoMemory> {
    let mut reader = FrameReader::new(alloc, limits);
    let mut out = Octets::new(alloc);
    let mut seed = seed;
    let mut rest = text;
    for _ in 0..text.len() {
        seed = drawn(seed);
        let size = ((seed >> 33) % 40) as usize + 1;
        let (piece, after) = rest.split_at(size.min(rest.len()));
        if read_on(alloc, &mut reader, piece, &mut out)? {
            return Ok(out);
        }
        rest = after;
    }
    end(&reader, &mut out)?;
    Ok(out)
}

/// Whether a reader returns this of a text in twenty drawn cuts.
fn holds_in_drawn(
    alloc: Global,
    limits: Limits,
    text: &[u8],
    want: &[u8],
) -> Result<bool, NoMemory> {
    for seed in 0..20u64 {
        if report_of_drawn(alloc, limits, text, seed)?.as_slice() != want {
            return Ok(false);
        }
    }
    Ok(true)
}

/// A stream of all those frames and this end, and what a reader returns of it.
fn made(alloc: Global, tail: Row) -> Result<(Octets, Octets), NoMemory> {
    let mut text = Octets::new(alloc);
    let mut want = Octets::new(alloc);
    for &(spelling, shown) in FRAMES {
        text.extend(spelling)?;
        want.extend(shown)?;
    }
    text.extend(tail.0)?;
    want.extend(tail.1)?;
    Ok((text, want))
}

/// Whether that holds in twenty drawn cuts, and in pieces of one size.
fn made_holds(alloc: Global, tail: Row) -> Result<bool, NoMemory> {
    let (text, want) = made(alloc, tail)?;
    Ok(
        holds_in_drawn(alloc, MIDDLE, text.as_slice(), want.as_slice())?
            && holds_in_pieces(alloc, MIDDLE, text.as_slice(), want.as_slice())?,
    )
}

/// Whether this holds wherever the text is cut.
fn holds(alloc: Global, limits: Limits, row: Row) -> Result<bool, NoMemory> {
    Ok(holds_in_two(alloc, limits, row.0, row.1)? && holds_in_pieces(alloc, limits, row.0, row.1)?)
}

/// Whether each row holds wherever its text is cut.
fn each_holds(alloc: Global, limits: Limits, rows: &[Row]) -> Result<bool, NoMemory> {
    for &row in rows {
        if !holds(alloc, limits, row)? {
            return Ok(false);
        }
    }
    Ok(true)
}

#[test]
fn streams_cut_anywhere(rt: HostRuntime) {
    for &rows in &[STREAMS, EXAMPLES, TRANSACTION] {
        assert!(rt; each_holds(rt.alloc(), Limits::standard(), rows) == Ok(true));
    }
}

#[test]
fn faults_cut_anywhere(rt: HostRuntime) {
    assert!(rt; each_holds(rt.alloc(), Limits::standard(), FAULTS) == Ok(true));
}

#[test]
fn bounds_cut_anywhere(rt: HostRuntime) {
    assert!(rt; each_holds(rt.alloc(), SMALL, BOUNDS) == Ok(true));
    let limits = Limits {
        line: 0,
        headers: 0,
        body: 0,
    };
    assert!(rt; each_holds(rt.alloc(), limits, NOTHING) == Ok(true));
}

#[test]
fn made_streams_in_drawn_cuts(rt: HostRuntime) {
    for &tail in ENDS {
        assert!(rt; made_holds(rt.alloc(), tail) == Ok(true));
    }
}

/// The fault that a reader returns while this octet is fed n times, one after the other, after this text.
fn fault_of_octets(
    alloc: Global,
    head: &[u8],
    octet: u8,
    n: u32,
) -> Result<Option<FrameFault>, NoMemory> {
    let mut reader = FrameReader::new(alloc, Limits::standard());
    reader.feed(head)?;
    for _ in 0..n {
        reader.feed(&[octet])?;
        if let Err(fault) = reader.next(alloc) {
            return Ok(Some(fault));
        }
    }
    Ok(None)
}

/// What comes first, an octet, how often it comes then, and the fault of it all: a line of 4,097 octets without LF
/// and of 4,098, and a body of 1,048,576 octets without NULL and of one more.
const AT_LIMITS: &[(&[u8], u8, u32, Option<FrameFault>)] = &[
    (b"SEND\n", b'v', 4097, None),
    (b"SEND\n", b'v', 4098, Some(FrameFault::LineTooLong)),
    (b"SEND\n\n", b'b', 1_048_576, None),
    (b"SEND\n\n", b'b', 1_048_577, Some(FrameFault::BodyTooLong)),
];

#[test]
fn limits_octet_by_octet(rt: HostRuntime) {
    for &(head, octet, n, want) in AT_LIMITS {
        assert!(rt;
            fault_of_octets(rt.alloc(), head, octet, n) == Ok(want),
            "{n}"
        );
    }
}

/// Whether the reader still returns this fault after it is fed a frame.
fn still_has(alloc: Global, reader: &mut FrameReader, fault: FrameFault) -> Result<bool, NoMemory> {
    reader.feed(b"SEND\n\nb\0")?;
    Ok(reader.next(alloc).err() == Some(fault))
}

/// Whether the fault of a text, if it has one, stays.
fn fault_stays(alloc: Global, text: &[u8]) -> Result<bool, NoMemory> {
    let mut reader = FrameReader::new(alloc, Limits::standard());
    reader.feed(text)?;
    for _ in 0..3u8 {
        if let Err(fault) = reader.next(alloc) {
            return Ok(
                still_has(alloc, &mut reader, fault)? && still_has(alloc, &mut reader, fault)?,
            );
        }
    }
    Ok(false)
}

#[test]
fn each_fault_stays(rt: HostRuntime) {
    for &(text, _) in FAULTS {
        assert!(rt; fault_stays(rt.alloc(), text) == Ok(true));
    }
}

/// Feeds an octet, again where memory runs out; whether it was fed.
fn feeds(reader: &mut FrameReader, octet: u8) -> bool {
    for _ in 0..2u8 {
        if reader.feed(&[octet]).is_ok() {
            return true;
        }
    }
    false
}

/// The length of the body of the reader's next frame, or nothing where more is due; asked again where memory runs out.
fn next_length(alloc: Global, reader: &mut FrameReader) -> Result<Option<usize>, FrameFault> {
    match reader.next(alloc) {
        Err(FrameFault::NoMemory) => Ok(reader.next(alloc)?.map(|frame| frame.body.len())),
        other => Ok(other?.map(|frame| frame.body.len())),
    }
}

/// Two frames with bodies of 32 and of 34 octets. Names, values and bodies are longer than what an `Octets` holds in
/// its own value.
const LONG_FRAMES: &[u8] =
    b"\r\nSEND\r\na-name-that-is-rather-long:\\ca-value-that-is-rather-long\nm:\xe2\x82\xac\n\na body of thirty-two octets, all\0\nSEND\ncontent-length:34\n\na\0body\0of\0thirty-four octets, all.\0\n";

/// The last digits of the lengths of the last two bodies of a text that is fed octet by octet; nothing where an octet
/// isn't fed, or the reader has another fault.
fn last_digits(alloc: Global, reader: &mut FrameReader, text: &[u8]) -> Option<usize> {
    let mut digits = 0;
    for octet in text {
        if !feeds(reader, *octet) {
            return None;
        }
        if let Some(length) = next_length(alloc, reader).ok()? {
            digits = (digits % 10) * 10 + length % 10;
        }
    }
    Some(digits)
}

/// Holds whichever allocation fails, in each state of the reader: the call answers out of memory, and succeeds when it
/// is made again.
#[test]
fn out_of_memory_at_each_octet(rt: HostRuntime) {
    let mut reader = FrameReader::new(rt.alloc(), Limits::standard());
    assert!(rt; last_digits(rt.alloc(), &mut reader, LONG_FRAMES) == Some(24) && reader.clean());
}
