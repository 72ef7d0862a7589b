//! Writing frames.

ghost use Rattle.std.specs.Prelude.{◌≡◌, ◌++◌, ◌∷◌, [], ◌+◌, ◌<◌, length, ◌↔◌, ◌==◌, ◌||◌, ◌&&◌, not, IsTrue, OnOk, OnErr, true, false};
ghost use Rattle.std.specs.List.{AllByRecursion, list_any};
ghost use Rattle.stomp_frame.specs.Commands.{word, has_escapes, may_have_body};
ghost use Rattle.stomp_frame.specs.Headers.{IsPair};
ghost use Rattle.stomp_frame.specs.ContentLength.{content_length};
ghost use Rattle.stomp_frame.specs.Writing.{written_text, header_line, header_lines, spelling_of, IsBare, SaysLength, HasItsLength, IsWritable, Extends};

use crate::command::Command;
use crate::headers::Headers;
use crate::raw_frame::RawFrame;
use crate::reading::content_length::length_in;
use crate::writing::line_buffer::{LineBuffer, ROOM};
use itoa::Buffer;
use stomp_escape::{NoMemory, Octets, escape_into};

/// Whether an octet of a name would end it, where there are no escapes.
fn ends_in_name(name: &[u8]) -> bool
    ensures { result ≡ list_any (λ b. b == 10 || b == 13 || b == 58) name.now }
{
    name.iter()
        .any(|b| *b == b'\n' || *b == b'\r' || *b == b':')
}

/// Whether an octet of a value would end it, where there are no escapes.
fn ends_in_value(value: &[u8]) -> bool
    ensures { result ≡ list_any (λ b. b == 10 || b == 13) value.now }
{
    value.iter().any(|b| *b == b'\n' || *b == b'\r')
}

/// Whether a header can be written without escapes.
fn is_bare(name: &[u8], value: &[u8]) -> bool
    ensures { result ≡ (not (list_any (λ b. b == 10 || b == 13 || b == 58) name.now)
        && not (list_any (λ b. b == 10 || b == 13) value.now)) }
{
    !ends_in_name(name) && !ends_in_value(value)
}

/// Whether all headers can be written without escapes.
fn are_bare(headers: &Headers) -> bool
    ensures { IsTrue result ↔ AllByRecursion (λ h. IsBare false h) headers.now }
{
    for i in 0..headers.len() {
        let (name, value) = headers.pair(i);
        if !is_bare(name, value) {
            return false;
        }
    }
    true
}

/// Whether these digits of a content-length say this length.
fn says_length(digits: &[u8], len: usize) -> bool
    ensures { IsTrue result ↔ SaysLength digits.now len }
{
    length_in(digits) == Some(len) || digits == Buffer::new().format(len).as_bytes()
}

/// Whether the frame says the length of its body, as its command demands.
fn has_its_length(frame: &RawFrame) -> bool
    ensures said { IsTrue result ↔ HasItsLength (may_have_body frame.now.command) frame.now.body
        (content_length frame.now.headers) }
    ensures pairs { AllByRecursion IsPair frame.now.headers }
{
    let may_have_body = frame.command.may_have_body();
    match frame.headers.first(b"content-length") {
        None => !may_have_body && frame.body.is_empty(),
        Some(digits) if may_have_body => says_length(digits, frame.body.len()),
        Some(digits) => frame.body.is_empty() && length_in(digits) == Some(0),
    }
}

/// Whether the frame can be written: under CONNECT, STOMP and CONNECTED, where nothing is escaped, no
/// header has CR or LF, nor its name a colon (STOMP 1.2, "Value Encoding"); a SEND, MESSAGE or ERROR
/// says its body's length in octets by its first content-length, which STOMP 1.2 only recommends; any
/// other frame has no body (STOMP 1.2, "Body"), and no content-length but one of 0. A reader, within
/// whose limits it is, reads it as itself. It takes no memory.
pub fn writable(frame: &RawFrame) -> bool
    ensures { IsTrue result ↔ IsWritable frame.now }
{
    (frame.command.has_escapes() || are_bare(&frame.headers)) && has_its_length(frame)
}

/// Appends a name or a value.
fn put_field(escapes: bool, text: &[u8], out: &mut Octets) -> Result<(), NoMemory>
    ensures ok { OnOk result (out.new ≡ out.old ++ written_text escapes text.now) }
    ensures err { OnErr result (Extends out.old out.new) }
{
    if escapes {
        escape_into(text, out)
    } else {
        out.extend(text)
    }
}

/// Appends a short header's line, with its escapes, at once.
fn put_short_header(name: &[u8], value: &[u8], out: &mut Octets) -> Result<(), NoMemory>
    requires { length name.now + length value.now < 64 }
    ensures ok { OnOk result
        (out.new ≡ out.old ++ (header_line true (name.now, value.now) ++ 10 ∷ [])) }
    ensures err { OnErr result (Extends out.old out.new) }
{
    let mut line = LineBuffer::new();
    line.put_escaped(name);
    line.put(b":");
    line.put_escaped(value);
    line.put(b"\n");
    out.extend(line.as_slice())
}

/// Appends a header's line.
pub(crate) fn put_header(
    escapes: bool,
    name: &[u8],
    value: &[u8],
    out: &mut Octets,
) -> Result<(), NoMemory>
    ensures ok { OnOk result
        (out.new ≡ out.old ++ (header_line escapes (name.now, value.now) ++ 10 ∷ [])) }
    ensures err { OnErr result (Extends out.old out.new) }
{
    if escapes && name.len() + value.len() < ROOM / 2 {
        return put_short_header(name, value, out);
    }
    put_field(escapes, name, out)?;
    out.push(b':')?;
    put_field(escapes, value, out)?;
    out.push(b'\n')
}

/// Appends the headers' lines.
fn put_headers(escapes: bool, headers: &Headers, out: &mut Octets) -> Result<(), NoMemory>
    ensures ok { OnOk result (out.new ≡ out.old ++ header_lines escapes headers.now) }
    ensures err { OnErr result (Extends out.old out.new) }
{
    for i in 0..headers.len() {
        let (name, value) = headers.pair(i);
        put_header(escapes, name, value, out)?;
    }
    Ok(())
}

/// Appends the frame as it is written (STOMP 1.2, "Augmented BNF"): its command and LF, each header
/// as `name:value` and LF, LF, its body and NULL, with names and values escaped except under
/// CONNECT, STOMP and CONNECTED. After `NoMemory` the octets are what they were.
pub fn write_frame(frame: &RawFrame, out: &mut Octets) -> Result<(), NoMemory>
    requires { IsWritable frame.now }
    ensures ok { OnOk result (out.new ≡ out.old ++ spelling_of frame.now) }
    ensures err { OnErr result (out.new ≡ out.old) }
{
    let before = out.len();
    macro_rules! put {
        ($($part:expr;)*) => {
            $(if $part.is_err() {
                out.truncate(before);
                return Err(NoMemory);
            })*
        };
    }
    put! {
        out.extend(frame.command.word());
        out.push(b'\n');
        put_headers(frame.command.has_escapes(), &frame.headers, out);
        out.push(b'\n');
        out.extend(frame.body.as_slice());
        out.push(0);
    }
    Ok(())
}
