//! Writing a MESSAGE that says which of its transaction's it is, from what it borrows.

ghost use Rattle.std.specs.Prelude.{◌≡◌, ◌++◌, ◌∷◌, [], codes, true, OnOk, OnErr};
ghost use Rattle.stomp_frame.specs.Writing.{header_line, header_lines, spelling_of, Extends};
ghost use Rattle.stomp_frame.specs.ServerFrames.{part_value, part_message_of};

use crate::server::part_message::PartMessage;
use crate::writing::server_writer::{
    NUMBERS, put_before, put_content_length, put_destination, put_first_entries, put_message_id,
    put_named, put_value,
};
use stomp_escape::{NoMemory, Octets};

/// Appends a header `part`. Its line is made from its end, so that each number is written once.
fn put_part(at: u64, count: u64, out: &mut Octets) -> Result<(), NoMemory>
    ensures ok { OnOk result (out.new
        ≡ out.old ++ (header_line true (codes "part", part_value at count) ++ 10 ∷ [])) }
    ensures err { OnErr result (Extends out.old out.new) }
{
    let mut line = [0; NUMBERS];
    let start = put_before(count, b'\n', &mut line, NUMBERS);
    let start = put_before(at, b'/', &mut line, start);
    put_named(b"part:", &mut line, start, out)
}

/// Appends the command and the headers of the MESSAGE.
fn put_part_headers(message: &PartMessage, out: &mut Octets) -> Result<(), NoMemory>
    ensures ok { OnOk result (out.new ≡ out.old
        ++ (codes "MESSAGE\n" ++ header_lines true (part_message_of message.now).headers)) }
    ensures err { OnErr result (Extends out.old out.new) }
{
    put_value(b"MESSAGE\nsubscription:", message.subscription, out)?;
    put_message_id(message.n, message.topic, message.index, out)?;
    put_destination(message.headers, out)?;
    put_content_length(message.body.len(), out)?;
    put_part(message.at, message.count, out)?;
    put_first_entries(true, message.headers, out)
}

/// Appends the MESSAGE; after `NoMemory` perhaps a part of it.
fn put_part_message(message: &PartMessage, out: &mut Octets) -> Result<(), NoMemory>
    ensures ok { OnOk result (out.new ≡ out.old ++ spelling_of (part_message_of message.now)) }
    ensures err { OnErr result (Extends out.old out.new) }
{
    put_part_headers(message, out)?;
    out.push(b'\n')?;
    out.extend(message.body)?;
    out.push(0)
}

/// Appends the MESSAGE as `write_server` appends one, with a header `part` behind its content-length, and without the
/// `part` that its SEND may have: so a subscriber knows when it has all of a transaction at a topic (our choice, not the
/// standard's). After `NoMemory` the octets are what they were.
#[inline(never)]
pub fn write_part_message(message: &PartMessage, out: &mut Octets) -> Result<(), NoMemory>
    ensures ok { OnOk result (out.new ≡ out.old ++ spelling_of (part_message_of message.now)) }
    ensures err { OnErr result (out.new ≡ out.old) }
{
    let before = out.len();
    let done = put_part_message(message, out);
    if done.is_err() {
        out.truncate(before);
    }
    done
}
