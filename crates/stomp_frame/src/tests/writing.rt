//! Worked examples of what is written, and answers without memory.

ghost use Rattle.stomp_frame.specs.ServerFrames.{IsRenderable};

use super::made::{headers, raw, text};
use crate::{
    Command, FrameReader, Headers, Limits, RawFrame, ServerFrame, render, writable, write_frame,
    write_server,
};
use std::alloc::Global;
use stomp_escape::{NoMemory, Octets};

type Pairs<'a> = &'a [(&'a [u8], &'a [u8])];

/// Whether the octets are these.
fn is(octets: &Octets, want: &[u8]) -> bool {
    octets.as_slice() == want
}

/// What is written of a server's frame, if it is the same by its raw frame and without one; else nothing.
fn sent(alloc: Global, frame: &ServerFrame) -> Result<Octets, NoMemory>
    requires { IsRenderable frame.now }
{
    let mut out = Octets::new(alloc);
    write_frame(&render(alloc, frame)?, &mut out)?;
    let mut direct = Octets::new(alloc);
    write_server(frame, &mut direct)?;
    if direct.as_slice() == out.as_slice() {
        Ok(out)
    } else {
        Ok(Octets::new(alloc))
    }
}

/// What is written of the MESSAGE for the subscription `s`.
fn message(
    alloc: Global,
    stamp: (u64, u32, u32),
    pairs: Pairs,
    body: &[u8],
) -> Result<Octets, NoMemory> {
    let subscription = text(alloc, b"s")?;
    let headers = headers(alloc, pairs)?;
    let frame = ServerFrame::Message {
        subscription: subscription.as_slice(),
        n: stamp.0,
        topic: stamp.1,
        index: stamp.2,
        headers: &headers,
        body,
    };
    sent(alloc, &frame)
}

/// What is written of an ERROR, if its texts may be values.
fn error<'a>(
    alloc: Global,
    message: &'a [u8],
    receipt: Option<&'a [u8]>,
    version: bool,
) -> Result<Octets, NoMemory> {
    if !Headers::is_pair(b"message", message) {
        return Err(NoMemory);
    }
    let Some(id) = receipt else {
        let frame = ServerFrame::Error {
            message,
            receipt: None,
            version,
        };
        return sent(alloc, &frame);
    };
    if !Headers::is_pair(b"receipt-id", id) {
        return Err(NoMemory);
    }
    let frame = ServerFrame::Error {
        message,
        receipt: Some(id),
        version,
    };
    sent(alloc, &frame)
}

/// A SEND's stamp and index, headers and body, and its MESSAGE for the subscription `s`.
type Message = (
    (u64, u32, u32),
    Pairs<'static>,
    &'static [u8],
    &'static [u8],
);

/// A NULL in the body; headers that are withheld or repeated, and a `part`, which isn't; escapes; a message-id of the
/// greatest numbers; two destinations, or none.
const MESSAGES: &[Message] = &[
    (
        (1, 0, 0),
        &[(b"destination", b"A"), (b"content-length", b"3")],
        b"a\0b",
        b"MESSAGE\nsubscription:s\nmessage-id:1.0.0\ndestination:A\ncontent-length:3\n\na\0b\0",
    ),
    (
        (1, 0, 0),
        &[
            (b"destination", b"A"),
            (b"content-type", b"text/plain"),
            (b"receipt", b"q"),
            (b"part", b"2/3"),
            (b"x", b"1"),
            (b"x", b"2"),
        ],
        b"hi",
        b"MESSAGE\nsubscription:s\nmessage-id:1.0.0\ndestination:A\ncontent-length:2\ncontent-type:text/plain\npart:2/3\nx:1\n\nhi\0",
    ),
    (
        (1, 0, 0),
        &[(b"destination", b"A"), (b"k", b"a:\\\n")],
        b"",
        b"MESSAGE\nsubscription:s\nmessage-id:1.0.0\ndestination:A\ncontent-length:0\nk:a\\c\\\\\\n\n\n\0",
    ),
    (
        (18_446_744_073_709_551_615, 4_294_967_295, 63),
        &[
            (b"ack", b"1"),
            (b"message-id", b"2"),
            (b"transaction", b"3"),
            (b"subscription", b"4"),
            (b"content-length", b"2"),
        ],
        b"hi",
        b"MESSAGE\nsubscription:s\nmessage-id:18446744073709551615.4294967295.63\ncontent-length:2\n\nhi\0",
    ),
    (
        (10, 2, 1),
        &[
            (b"b", b"1"),
            (b"destination", b"A"),
            (b"a", b""),
            (b"destination", b"B"),
            (b"b", b"2"),
            (b"a", b"x"),
        ],
        b"0123456789",
        b"MESSAGE\nsubscription:s\nmessage-id:10.2.1\ndestination:A\ncontent-length:10\nb:1\na:\n\n0123456789\0",
    ),
];

/// Whether that is written of the row's MESSAGE.
fn is_message(alloc: Global, row: &Message) -> Result<bool, NoMemory> {
    Ok(is(&message(alloc, row.0, row.1, row.2)?, row.3))
}

#[test]
fn messages(rt: HostRuntime) {
    for row in MESSAGES {
        assert!(rt; is_message(rt.alloc(), row) == Ok(true), "{:?}", row.0);
    }
}

/// The title, the receipt that is asked for, and whether the version is told; and the ERROR.
const ERRORS: &[(&[u8], Option<&[u8]>, bool, &[u8])] = &[
    (
        b"4 BadEscape",
        None,
        false,
        b"ERROR\nmessage:4 BadEscape\ncontent-length:0\n\n\0",
    ),
    (
        b"67 UnknownDestination",
        Some(b"q:1"),
        false,
        b"ERROR\nmessage:67 UnknownDestination\nreceipt-id:q\\c1\ncontent-length:0\n\n\0",
    ),
    (
        b"62 NoVersion",
        Some(b""),
        true,
        b"ERROR\nmessage:62 NoVersion\nreceipt-id:\nversion:1.2\ncontent-length:0\n\n\0",
    ),
];

/// Whether this is written of an ERROR.
fn is_error(
    alloc: Global,
    title: &[u8],
    asked: Option<&[u8]>,
    version: bool,
    want: &[u8],
) -> Result<bool, NoMemory> {
    Ok(is(&error(alloc, title, asked, version)?, want))
}

#[test]
fn errors(rt: HostRuntime) {
    for &(title, asked, version, want) in ERRORS {
        assert!(rt; is_error(rt.alloc(), title, asked, version, want) == Ok(true));
    }
}

/// What is written of a RECEIPT.
fn receipt(alloc: Global, id: &[u8]) -> Result<Octets, NoMemory> {
    let id = text(alloc, id)?;
    sent(alloc, &ServerFrame::Receipt { id: id.as_slice() })
}

/// Whether this is written of a CONNECTED.
fn is_connected(alloc: Global, want: &[u8]) -> Result<bool, NoMemory> {
    Ok(is(&sent(alloc, &ServerFrame::Connected)?, want))
}

/// Whether this is written of a RECEIPT.
fn is_receipt(alloc: Global, id: &[u8], want: &[u8]) -> Result<bool, NoMemory> {
    Ok(is(&receipt(alloc, id)?, want))
}

#[test]
fn connected_and_receipts(rt: HostRuntime) {
    let connected = b"CONNECTED\nversion:1.2\nheart-beat:0,0\n\n\0";
    assert!(rt; is_connected(rt.alloc(), connected) == Ok(true));
    let receipt = b"RECEIPT\nreceipt-id:r\\c1\n\n\0";
    assert!(rt; is_receipt(rt.alloc(), b"r:1", receipt) == Ok(true));
}

/// A frame's command, its one header, its body, and whether it can be written.
type Writable = (Command, &'static [u8], &'static [u8], &'static [u8], bool);

/// Which frames can be written: each rule kept, and broken.
const WRITABLE: &[Writable] = &[
    (Command::Send, b"content-length", b"2", b"hi", true),
    (Command::Send, b"content-length", b"2", b"h", false),
    (Command::Error, b"content-length", b"", b"", false),
    (Command::Error, b"content-length", b"+0", b"", false),
    (
        Command::Error,
        b"content-length",
        b"00000000000",
        b"",
        false,
    ),
    (Command::Receipt, b"a", b"b\r\n:\\", b"", true),
    (Command::Receipt, b"content-length", b"00", b"", true),
    (Command::Receipt, b"content-length", b"2", b"", false),
    (Command::Receipt, b"content-length", b"2", b"hi", false),
    (Command::Connect, b"a\\", b"b:\\", b"", true),
    (Command::Connect, b"a", b"\n", b"", false),
    (Command::Connected, b"a:", b"", b"", false),
    (Command::Connected, b"a\n", b"", b"", false),
    (Command::Connected, b"\ra", b"", b"", false),
];

/// Whether a frame can be written.
fn can_be_written(
    alloc: Global,
    command: Command,
    pairs: Pairs,
    body: &[u8],
) -> Result<bool, NoMemory> {
    Ok(writable(&raw(alloc, command, pairs, body)?))
}

#[test]
fn what_can_be_written(rt: HostRuntime) {
    for &(command, name, value, body, want) in WRITABLE {
        assert!(rt; can_be_written(rt.alloc(), command, &[(name, value)], body) == Ok(want));
    }
}

/// A SEND or MESSAGE must say the length of its body, and a RECEIPT has none.
#[test]
fn no_headers(rt: HostRuntime) {
    assert!(rt; can_be_written(rt.alloc(), Command::Message, &[], b"") == Ok(false));
    assert!(rt; can_be_written(rt.alloc(), Command::Receipt, &[], b"hi") == Ok(false));
}

/// Two headers of one name, with these values.
type Twice = (Command, &'static [u8], &'static [u8], &'static [u8], bool);

/// The first content-length counts, and each header must be one that can be written.
const TWICE: &[Twice] = &[
    (Command::Send, b"content-length", b"00", b"2", true),
    (Command::Send, b"content-length", b"2", b"00", false),
    (Command::Stomp, b"a", b"", b"\r", false),
];

#[test]
fn two_headers(rt: HostRuntime) {
    for &(command, name, first, second, want) in TWICE {
        let pairs: Pairs = &[(name, first), (name, second)];
        assert!(rt; can_be_written(rt.alloc(), command, pairs, b"") == Ok(want));
    }
}

/// Two frames: one with escapes, and one without them.
const APPENDED: &[(Command, Pairs<'static>)] = &[
    (Command::Begin, &[(b"a:b", b"\r\n:\\")]),
    (
        Command::Connected,
        &[(b"version", b"1.2"), (b"server", b"a:b\\n")],
    ),
];

/// Writes a frame of these headers at the end; nothing where it can't be written.
fn append(alloc: Global, command: Command, pairs: Pairs, out: &mut Octets) -> Option<()> {
    let frame = raw(alloc, command, pairs, b"").ok()?;
    if !writable(&frame) {
        return None;
    }
    write_frame(&frame, out).ok()
}

/// Writes those frames, one after the other; whether each was written.
fn has_appended(alloc: Global, out: &mut Octets) -> bool {
    for &(command, pairs) in APPENDED {
        if append(alloc, command, pairs, out).is_none() {
            return false;
        }
    }
    true
}

/// A frame is appended to what is there, with no escapes under CONNECT.
#[test]
fn frames_are_appended(rt: HostRuntime) {
    let mut out = Octets::new(rt.alloc());
    let want = b"BEGIN\na\\cb:\\r\\n\\c\\\\\n\n\0CONNECTED\nversion:1.2\nserver:a:b\\n\n\n\0";
    assert!(rt; has_appended(rt.alloc(), &mut out) && is(&out, want));
}

/// Each command in a frame, as it is written, and a frame with all that can be escaped.
const FRAMES: &[(Command, &'static [u8])] = &[
    (Command::Send, b"SEND\ncontent-length:0\n\n\0"),
    (Command::Subscribe, b"SUBSCRIBE\n\n\0"),
    (Command::Unsubscribe, b"UNSUBSCRIBE\n\n\0"),
    (Command::Begin, b"BEGIN\n\n\0"),
    (Command::Commit, b"COMMIT\n\n\0"),
    (Command::Abort, b"ABORT\n\n\0"),
    (Command::Ack, b"ACK\n\n\0"),
    (Command::Nack, b"NACK\n\n\0"),
    (Command::Disconnect, b"DISCONNECT\n\n\0"),
    (Command::Connect, b"CONNECT\n\n\0"),
    (Command::Stomp, b"STOMP\n\n\0"),
    (Command::Connected, b"CONNECTED\n\n\0"),
    (Command::Message, b"MESSAGE\ncontent-length:0\n\n\0"),
    (Command::Receipt, b"RECEIPT\n\n\0"),
    (Command::Error, b"ERROR\ncontent-length:0\n\n\0"),
    (Command::Connect, b"CONNECT\nhost:a\\t\n\n\0"),
    (
        Command::Send,
        b"SEND\na\\cb:\\r\\n\\c\\\\\ncontent-length:3\na\\cb:\n\na\0b\0",
    ),
];

/// The first frame of this text.
fn read(alloc: Global, text: &[u8]) -> Option<RawFrame> {
    let mut reader = FrameReader::new(alloc, Limits::standard());
    reader.feed(text).ok()?;
    reader.next(alloc).ok()?
}

/// Whether this is how the frame is written.
fn is_written(alloc: Global, frame: &RawFrame, want: &[u8]) -> Option<bool> {
    if !writable(frame) {
        return None;
    }
    let mut out = Octets::new(alloc);
    write_frame(frame, &mut out).ok()?;
    Some(is(&out, want))
}

/// Whether the text is read as a frame of this command, and that is written as the text.
pub(super) fn is_read_and_written(alloc: Global, command: Command, text: &[u8]) -> Option<bool> {
    let frame = read(alloc, text)?;
    Some(frame.command == command && is_written(alloc, &frame, text)?)
}

#[test]
fn each_command_is_read_and_written_again(rt: HostRuntime) {
    for &(command, text) in FRAMES {
        assert!(rt;
            is_read_and_written(rt.alloc(), command, text) == Some(true),
            "{command:?}"
        );
    }
}

/// Whether a frame that can be written is appended whole, as this, or not at all.
fn is_whole_or_nothing(frame: &RawFrame, out: &mut Octets, spelling: &[u8]) -> bool {
    if !writable(frame) {
        return false;
    }
    let before = out.len();
    let want = if write_frame(frame, out).is_ok() {
        spelling
    } else {
        b""
    };
    &out.as_slice()[before..] == want
}

/// A frame with a header that is written with escapes, and a long one.
const ESCAPED: Pairs = &[(b"a", b":"), (b"bc", b"a value that is rather long\n")];

/// That frame as it is written.
const SPELLING: &[u8] = b"BEGIN\na:\\c\nbc:a value that is rather long\\n\n\n\0";

/// Whether that frame is appended so, or there is no memory to make it.
fn leaves_nothing(alloc: Global, out: &mut Octets) -> bool {
    match raw(alloc, Command::Begin, ESCAPED, b"") {
        Ok(frame) => is_whole_or_nothing(&frame, out, SPELLING),
        Err(NoMemory) => true,
    }
}

/// Holds whichever allocation fails: what isn't written whole leaves nothing.
#[test]
fn out_of_memory_leaves_nothing(rt: HostRuntime) {
    let mut out = Octets::new(rt.alloc());
    for _ in 0..20u8 {
        assert!(rt; leaves_nothing(rt.alloc(), &mut out));
    }
}

/// A MESSAGE of two headers, one of them escaped, as it is written.
const SHORT: &[u8] =
    b"MESSAGE\nsubscription:s\nmessage-id:1.2.3\ndestination:A\ncontent-length:2\nx:\\c\n\nhi\0";

/// Appends a server's frame; whether it is there whole, as this, or not at all.
fn is_sent_or_nothing(frame: &ServerFrame, out: &mut Octets, spelling: &[u8]) -> bool {
    let before = out.len();
    let want = if write_server(frame, out).is_ok() {
        spelling
    } else {
        b""
    };
    &out.as_slice()[before..] == want
}

/// Whether that is so of twenty, one after the other.
fn are_sent_or_nothing(frame: &ServerFrame, out: &mut Octets, spelling: &[u8]) -> bool {
    for _ in 0..20u8 {
        if !is_sent_or_nothing(frame, out, spelling) {
            return false;
        }
    }
    true
}

/// Whether that is so of the MESSAGE with these headers, and at most one isn't there.
fn leaves_no_part(alloc: Global, headers: &Headers) -> bool {
    let frame = ServerFrame::Message {
        subscription: b"s",
        n: 1,
        topic: 2,
        index: 3,
        headers,
        body: b"hi",
    };
    let mut out = Octets::new(alloc);
    are_sent_or_nothing(&frame, &mut out, SHORT) && out.len() >= 19 * SHORT.len()
}

/// Holds whichever allocation fails: what isn't written whole leaves nothing, and is written when memory is there.
#[test]
fn out_of_memory_leaves_no_part_of_a_server_frame(rt: HostRuntime) {
    let alloc = rt.alloc();
    if let Ok(headers) = headers(alloc, &[(b"destination", b"A"), (b"x", b":")]) {
        assert!(rt; leaves_no_part(alloc, &headers));
    }
}
