//! Writing a server's frames from what they borrow.

ghost use Rattle.std.specs.Prelude.{◌≡◌, ◌++◌, ◌∷◌, [], codes, true, decimal, length, map, take, drop, ◌+◌, ◌≤◌, Some, None, OnOk, OnErr, if◌then◌else◌};
ghost use Rattle.std.specs.List.{list_any};
ghost use Rattle.std.specs.Option.{option_map};
ghost use Rattle.std.specs.Str.{bytes_eq};
ghost use Rattle.stomp_escape.specs.Escape.{escaped};
ghost use Rattle.stomp_frame.specs.Headers.{first_of};
ghost use Rattle.stomp_frame.specs.Inner.NameKinds.{HaveKinds};
ghost use Rattle.stomp_frame.specs.Inner.Withheld.{withheld_by};
ghost use Rattle.stomp_frame.specs.Writing.{header_line, header_lines, spelling_of, Extends};
ghost use Rattle.stomp_frame.specs.ServerFrames.{optional_header, first_entries, message_id, message_headers, message_frame, receipt_frame, error_frame, connected_frame, raw_of_server};

use crate::fast::name_kinds::NameKinds;
use crate::headers::Headers;
use crate::server::server_frame::ServerFrame;
use crate::server::server_headers::is_withheld;
use crate::writing::line_buffer::{LineBuffer, ROOM};
use crate::writing::writer::put_header;
use itoa::write_digits;
use stomp_escape::{NoMemory, Octets, escape_into};

/// Room for a name of at most 15 octets with its colon, and three numbers of at most 20 digits, each with an octet
/// after it.
pub(crate) const NUMBERS: usize = 80;

/// Appends what comes before a value, the value with its escapes, and LF.
#[inline(always)]
pub(crate) fn put_value(front: &[u8], value: &[u8], out: &mut Octets) -> Result<(), NoMemory>
    ensures ok { OnOk result (out.new ≡ out.old ++ (front.now ++ (escaped value.now ++ 10 ∷ []))) }
    ensures err { OnErr result (Extends out.old out.new) }
{
    if front.len() + value.len() < ROOM / 2 {
        let mut line = LineBuffer::new();
        line.put(front);
        line.put_escaped(value);
        line.put(b"\n");
        return out.extend(line.as_slice());
    }
    out.extend(front)?;
    escape_into(value, out)?;
    out.push(b'\n')
}

/// Writes a number and the octet after it so that they end at this index, and returns where they begin.
pub(crate) fn put_before(n: u64, after: u8, line: &mut [u8; 80], end: usize) -> usize
    requires least { 21 ≤ end }
    requires within { end ≤ 80 }
    ensures start { end ≤ result + 21 }
    ensures order { result ≤ 80 }
    ensures put { drop result line.new ≡ decimal n ++ after ∷ drop end line.old }
{
    line[end - 1] = after;
    write_digits(n, line, end - 1)
}

/// Writes a name so that it ends at this index, and appends the line from there on.
#[inline(always)]
pub(crate) fn put_named(
    name: &[u8],
    line: &mut [u8; 80],
    end: usize,
    out: &mut Octets,
) -> Result<(), NoMemory>
    requires least { length name.now ≤ end }
    requires within { end ≤ 80 }
    ensures ok { OnOk result (out.new ≡ out.old ++ (name.now ++ drop end line.old)) }
    ensures err { OnErr result (Extends out.old out.new) }
{
    let start = end - name.len();
    line[start..end].copy_from_slice(name);
    out.extend(&line[start..])
}

/// Appends a message's id. Its line is made from its end, so that each number is written once.
#[inline(always)]
pub(crate) fn put_message_id(
    n: u64,
    topic: u32,
    index: u32,
    out: &mut Octets,
) -> Result<(), NoMemory>
    ensures ok { OnOk result (out.new
        ≡ out.old ++ (header_line true (codes "message-id", message_id n topic index) ++ 10 ∷ [])) }
    ensures err { OnErr result (Extends out.old out.new) }
{
    let mut line = [0; NUMBERS];
    let start = put_before(u64::from(index), b'\n', &mut line, NUMBERS);
    let start = put_before(u64::from(topic), b'.', &mut line, start);
    let start = put_before(n, b'.', &mut line, start);
    put_named(b"message-id:", &mut line, start, out)
}

/// Appends a content-length.
#[inline(always)]
pub(crate) fn put_content_length(len: usize, out: &mut Octets) -> Result<(), NoMemory>
    ensures ok { OnOk result (out.new
        ≡ out.old ++ (header_line true (codes "content-length", decimal len) ++ 10 ∷ [])) }
    ensures err { OnErr result (Extends out.old out.new) }
{
    let mut line = [0; NUMBERS];
    let start = put_before(len as u64, b'\n', &mut line, NUMBERS);
    put_named(b"content-length:", &mut line, start, out)
}

/// Whether a MESSAGE doesn't pass on this header of its SEND, to a subscription that asked for parts or not.
#[inline(always)]
fn is_withheld_by(parts: bool, name: &[u8]) -> bool
    ensures { result ≡ list_any (λ kept. bytes_eq name.now kept) (withheld_by parts) }
{
    parts && name == b"part".as_slice() || is_withheld(name)
}

/// Whether a SEND's header at index `i`, which has this name, isn't passed on: the name is withheld, or came before,
/// among names of these kinds.
#[inline(always)]
fn is_dropped(parts: bool, sent: &Headers, kinds: &NameKinds, name: &[u8], i: usize) -> bool
    requires within { i ≤ length sent.now }
    requires kinds { HaveKinds kinds.now.among (take i sent.now) }
    ensures { result ≡ list_any (λ seen. bytes_eq name.now seen)
        (map (λ h. h.0) (take i sent.now) ++ withheld_by parts) }
{
    is_withheld_by(parts, name) || kinds.has(name) && sent.has_among_first(i, name)
}

/// Appends the first entry of each header of the SEND that isn't withheld from a subscription that asked for parts or
/// not. It is written out where it is called, with that as a constant.
#[inline(always)]
pub(crate) fn put_first_entries(
    parts: bool,
    sent: &Headers,
    out: &mut Octets,
) -> Result<(), NoMemory>
    ensures ok { OnOk result
        (out.new ≡ out.old ++ header_lines true (first_entries (withheld_by parts) sent.now)) }
    ensures err { OnErr result (Extends out.old out.new) }
{
    let mut kinds = NameKinds::new();
    for i in 0..sent.len() {
        let (name, value) = sent.pair(i);
        if !is_dropped(parts, sent, &kinds, name, i) {
            put_header(true, name, value, out)?;
        }
        kinds.add(name);
    }
    Ok(())
}

/// Appends the SEND's first destination, where it has one.
#[inline(always)]
pub(crate) fn put_destination(sent: &Headers, out: &mut Octets) -> Result<(), NoMemory>
    ensures ok { OnOk result (out.new ≡ out.old ++ header_lines true
        (optional_header (codes "destination") (first_of (codes "destination") sent.now))) }
    ensures err { OnErr result (Extends out.old out.new) }
{
    match sent.first(b"destination") {
        Some(destination) => put_value(b"destination:", destination, out),
        None => Ok(()),
    }
}

/// Appends the command and the headers of a MESSAGE.
#[inline(always)]
fn put_message_headers(
    subscription: &[u8],
    n: u64,
    topic: u32,
    index: u32,
    sent: &Headers,
    len: usize,
    out: &mut Octets,
) -> Result<(), NoMemory>
    ensures ok { OnOk result (out.new ≡ out.old ++ (codes "MESSAGE\n" ++ header_lines true
        (message_headers subscription.now (message_id n topic index) sent.now len))) }
    ensures err { OnErr result (Extends out.old out.new) }
{
    put_value(b"MESSAGE\nsubscription:", subscription, out)?;
    put_message_id(n, topic, index, out)?;
    put_destination(sent, out)?;
    put_content_length(len, out)?;
    put_first_entries(false, sent, out)
}

/// Appends a MESSAGE.
#[inline(always)]
fn put_message(
    subscription: &[u8],
    n: u64,
    topic: u32,
    index: u32,
    sent: &Headers,
    body: &[u8],
    out: &mut Octets,
) -> Result<(), NoMemory>
    ensures ok { OnOk result (out.new ≡ out.old ++ spelling_of
        (message_frame subscription.now (message_id n topic index) sent.now body.now)) }
    ensures err { OnErr result (Extends out.old out.new) }
{
    put_message_headers(subscription, n, topic, index, sent, body.len(), out)?;
    out.push(b'\n')?;
    out.extend(body)?;
    out.push(0)
}

/// Appends a RECEIPT.
fn put_receipt(id: &[u8], out: &mut Octets) -> Result<(), NoMemory>
    ensures ok { OnOk result (out.new ≡ out.old ++ spelling_of (receipt_frame id.now)) }
    ensures err { OnErr result (Extends out.old out.new) }
{
    put_value(b"RECEIPT\nreceipt-id:", id, out)?;
    out.extend(b"\n\0")
}

/// Appends a receipt's id, where there is one.
fn put_receipt_id(receipt: Option<&[u8]>, out: &mut Octets) -> Result<(), NoMemory>
    ensures ok { OnOk result (out.new ≡ out.old ++ header_lines true
        (optional_header (codes "receipt-id") (option_map (λ r. r.now) receipt.entry))) }
    ensures err { OnErr result (Extends out.old out.new) }
{
    match receipt {
        Some(receipt) => put_value(b"receipt-id:", receipt, out),
        None => Ok(()),
    }
}

/// Appends the version that is supported, if the frame says it.
fn put_version(version: bool, out: &mut Octets) -> Result<(), NoMemory>
    ensures ok { OnOk result (out.new ≡ out.old ++ header_lines true
        (optional_header (codes "version") (if version then Some (codes "1.2") else None))) }
    ensures err { OnErr result (Extends out.old out.new) }
{
    if version {
        out.extend(b"version:1.2\n")
    } else {
        Ok(())
    }
}

/// Appends an ERROR.
fn put_error(
    message: &[u8],
    receipt: Option<&[u8]>,
    version: bool,
    out: &mut Octets,
) -> Result<(), NoMemory>
    ensures ok { OnOk result (out.new ≡ out.old ++ spelling_of
        (error_frame message.now (option_map (λ r. r.now) receipt.entry) version)) }
    ensures err { OnErr result (Extends out.old out.new) }
{
    put_value(b"ERROR\nmessage:", message, out)?;
    put_receipt_id(receipt, out)?;
    put_version(version, out)?;
    out.extend(b"content-length:0\n\n\0")
}

/// Appends a CONNECTED.
fn put_connected(out: &mut Octets) -> Result<(), NoMemory>
    ensures ok { OnOk result (out.new ≡ out.old ++ spelling_of connected_frame) }
    ensures err { OnErr result (Extends out.old out.new) }
{
    out.extend(b"CONNECTED\nversion:1.2\nheart-beat:0,0\n\n\0")
}

/// Appends the frame; after `NoMemory` perhaps a part of it.
#[inline(always)]
fn put_server(frame: &ServerFrame, out: &mut Octets) -> Result<(), NoMemory>
    ensures ok { OnOk result (out.new ≡ out.old ++ spelling_of (raw_of_server frame.now)) }
    ensures err { OnErr result (Extends out.old out.new) }
{
    match frame {
        ServerFrame::Connected => put_connected(out),
        ServerFrame::Message {
            subscription,
            n,
            topic,
            index,
            headers,
            body,
        } => put_message(subscription, *n, *topic, *index, headers, body, out),
        ServerFrame::Receipt { id } => put_receipt(id, out),
        ServerFrame::Error {
            message,
            receipt,
            version,
        } => put_error(message, *receipt, *version, out),
    }
}

/// Appends the frame that `render` returns as `write_frame` does, but makes no frame: each octet of a body is copied
/// once. After `NoMemory` the octets are what they were.
#[inline(always)]
pub fn write_server(frame: &ServerFrame, out: &mut Octets) -> Result<(), NoMemory>
    ensures ok { OnOk result (out.new ≡ out.old ++ spelling_of (raw_of_server frame.now)) }
    ensures err { OnErr result (out.new ≡ out.old) }
{
    let before = out.len();
    let done = put_server(frame, out);
    if done.is_err() {
        out.truncate(before);
    }
    done
}
