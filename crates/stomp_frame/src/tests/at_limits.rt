//! Memory that is there is enough at every size: one SEND at all standard limits, written, read back and passed on.

ghost use Rattle.stomp_frame.specs.ServerFrames.{IsRenderable};

use super::made::{put, text};
use crate::{
    Command, FrameReader, Headers, Limits, PartMessage, RawFrame, ServerFrame, render, writable,
    write_frame, write_part_message, write_server,
};
use std::alloc::Global;
use std::test::Fail;
use stomp_escape::{NoMemory, Octets};

/// Sixteen octets of a body, three of them NULL; 65,536 times they are a body of 1,048,576 octets.
const PIECE: &[u8] = b"a\0b\r\n:\\\xff\0cdefgh\0";

/// Appends the piece n times.
fn repeat(out: &mut Octets, piece: &[u8], n: u32) -> Result<(), NoMemory> {
    for _ in 0..n {
        out.extend(piece)?;
    }
    Ok(())
}

/// The name of one of 61 headers: `h00` to `h60`.
fn name(i: u8) -> [u8; 3] {
    [b'h', b'0' + i / 10, b'0' + i % 10]
}

/// Appends a header `e`, whose line has 4,096 octets as it is written, 2,048 of them in escapes, and 61 more headers.
fn put_long(alloc: Global, headers: &mut Headers) -> Result<(), NoMemory> {
    let mut value = Octets::new(alloc);
    repeat(&mut value, b"xy:", 1023)?;
    value.push(b'\\')?;
    put(alloc, headers, b"e", value.as_slice())?;
    for i in 0..61 {
        put(alloc, headers, &name(i), b"v")?;
    }
    Ok(())
}

/// Appends those headers as they are written, an empty line, the body and NULL.
fn spell_long(out: &mut Octets) -> Result<(), NoMemory> {
    out.extend(b"e:")?;
    repeat(out, b"xy\\c", 1023)?;
    out.extend(b"\\\\\n")?;
    for i in 0..61 {
        out.extend(&name(i))?;
        out.extend(b":v\n")?;
    }
    out.push(b'\n')?;
    repeat(out, PIECE, 65_536)?;
    out.push(0)
}

/// A SEND of 64 headers, with that long line and that body.
fn long_send(alloc: Global) -> Result<RawFrame, NoMemory> {
    let mut headers = Headers::new(alloc);
    put(alloc, &mut headers, b"content-length", b"1048576")?;
    put(alloc, &mut headers, b"destination", b"A")?;
    put_long(alloc, &mut headers)?;
    let mut body = Octets::new(alloc);
    repeat(&mut body, PIECE, 65_536)?;
    Ok(RawFrame {
        command: Command::Send,
        headers,
        body,
    })
}

/// The frame as it is written.
fn written(alloc: Global, frame: &RawFrame) -> Result<Octets, Fail> {
    if !writable(frame) {
        return Err(Fail::new("not writable"));
    }
    let mut out = Octets::new(alloc);
    write_frame(frame, &mut out)?;
    Ok(out)
}

fn has_headers(read: &Headers, headers: &Headers) -> bool {
    if read.len() != headers.len() {
        return false;
    }
    for i in 0..headers.len() {
        if read.pair(i) != headers.pair(i) {
            return false;
        }
    }
    true
}

/// Whether a reader reads the text as this frame, and nothing more.
fn reads_as(alloc: Global, text: &[u8], frame: &RawFrame) -> Result<bool, Fail> {
    let mut reader = FrameReader::new(alloc, Limits::standard());
    reader.feed(text)?;
    let Some(read) = reader.next(alloc)? else {
        return Ok(false);
    };
    Ok(
        read.command == frame.command
            && has_headers(&read.headers, &frame.headers)
            && read.body.as_slice() == frame.body.as_slice()
            && reader.clean(),
    )
}

/// These octets, and then what `spell_long` appends.
fn long_text(alloc: Global, head: &[u8]) -> Result<Octets, NoMemory> {
    let mut text = Octets::from_slice(alloc, head)?;
    spell_long(&mut text)?;
    Ok(text)
}

/// Whether the long SEND is written so, and read back.
fn is_written_and_read_back(alloc: Global, want: &[u8]) -> Result<bool, Fail> {
    let frame = long_send(alloc)?;
    let out = written(alloc, &frame)?;
    Ok(
        frame.headers.len() == 64
            && frame.body.len() == 1_048_576
            && out.as_slice() == want
            && reads_as(alloc, out.as_slice(), &frame)?,
    )
}

#[test]
fn written_and_read_back(rt: HostRuntime) -> Result<(), Fail> {
    let head = b"SEND\ncontent-length:1048576\ndestination:A\n".as_slice();
    let want = long_text(rt.alloc(), head)?;
    assert!(rt; want.len() == head.len() + 4097 + 61 * 6 + 1 + 1_048_576 + 1);
    assert!(rt; is_written_and_read_back(rt.alloc(), want.as_slice())?);
    Ok(())
}

/// Whether a server's frame is rendered and written so.
fn is_rendered(alloc: Global, frame: &ServerFrame, want: &[u8]) -> Result<bool, Fail>
    requires { IsRenderable frame.now }
{
    let out = written(alloc, &render(alloc, frame)?)?;
    Ok(out.as_slice() == want)
}

/// Whether it is written so without one, too.
fn is_sent(alloc: Global, frame: &ServerFrame, want: &[u8]) -> Result<bool, Fail>
    requires { IsRenderable frame.now }
{
    let mut direct = Octets::new(alloc);
    write_server(frame, &mut direct)?;
    Ok(direct.as_slice() == want && is_rendered(alloc, frame, want)?)
}

/// Whether the long SEND is passed on so to the subscription `s`.
fn is_passed_on(alloc: Global, want: &[u8]) -> Result<bool, Fail> {
    let sent = long_send(alloc)?;
    let subscription = text(alloc, b"s")?;
    let message = ServerFrame::Message {
        subscription: subscription.as_slice(),
        n: 1,
        topic: 0,
        index: 0,
        headers: &sent.headers,
        body: sent.body.as_slice(),
    };
    is_sent(alloc, &message, want)
}

#[test]
fn passed_on(rt: HostRuntime) -> Result<(), Fail> {
    let head =
        b"MESSAGE\nsubscription:s\nmessage-id:1.0.0\ndestination:A\ncontent-length:1048576\n";
    let want = long_text(rt.alloc(), head)?;
    assert!(rt; is_passed_on(rt.alloc(), want.as_slice())?);
    Ok(())
}

/// Whether the long SEND is passed on so to the subscription `s`, as the last of 64.
fn is_passed_on_as_the_last(alloc: Global, want: &[u8]) -> Result<bool, NoMemory> {
    let sent = long_send(alloc)?;
    let message = PartMessage {
        subscription: b"s",
        n: 1,
        topic: 0,
        index: 63,
        headers: &sent.headers,
        body: sent.body.as_slice(),
        at: 64,
        count: 64,
    };
    let mut out = Octets::new(alloc);
    write_part_message(&message, &mut out)?;
    Ok(out.as_slice() == want)
}

#[test]
fn passed_on_as_the_last(rt: HostRuntime) -> Result<(), Fail> {
    let head =
        b"MESSAGE\nsubscription:s\nmessage-id:1.0.63\ndestination:A\ncontent-length:1048576\npart:64/64\n";
    let want = long_text(rt.alloc(), head)?;
    assert!(rt; is_passed_on_as_the_last(rt.alloc(), want.as_slice())?);
    Ok(())
}

/// So many letters `r`.
fn letters(alloc: Global, n: u32) -> Result<Octets, NoMemory> {
    let mut id = Octets::new(alloc);
    repeat(&mut id, b"r", n)?;
    Ok(id)
}

/// A RECEIPT as it is written.
fn receipt_text(alloc: Global, id: &[u8]) -> Result<Octets, NoMemory> {
    let mut want = Octets::from_slice(alloc, b"RECEIPT\nreceipt-id:")?;
    want.extend(id)?;
    want.extend(b"\n\n\0")?;
    Ok(want)
}

/// Whether the RECEIPT of this id is written so.
fn is_receipt(alloc: Global, id: &[u8], want: &[u8]) -> Result<bool, Fail> {
    let id = text(alloc, id)?;
    is_rendered(alloc, &ServerFrame::Receipt { id: id.as_slice() }, want)
}

/// A RECEIPT with a line of 4,096 octets.
#[test]
fn long_receipts(rt: HostRuntime) -> Result<(), Fail> {
    let id = letters(rt.alloc(), 4085)?;
    let want = receipt_text(rt.alloc(), id.as_slice())?;
    assert!(rt; is_receipt(rt.alloc(), id.as_slice(), want.as_slice())?);
    Ok(())
}
