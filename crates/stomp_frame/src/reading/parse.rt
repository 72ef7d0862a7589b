//! Reading a command and a header.

ghost use Rattle.std.specs.Prelude.{◌≡◌, ◌+◌, ◌<◌, Bool, true, length, take, drop, Ok, IfSome};
ghost use Rattle.std.specs.Option.{option_map};
ghost use Rattle.stomp_frame.specs.Inner.Parser.{Returns, command_of, cut, field_of, header_of};

use crate::command::Command;
use crate::fast::front_without::front_without;
use crate::fault::{Check, Stop};
use crate::reading::lines::find_from;
use std::alloc::Global;
use stomp_escape::{EscapeFault, Octets, unescape};

/// The command that a line is.
#[tactic(auto, unfolding(crate::specs::Inner::Parser::command_of))]
pub(crate) fn parse_command(line: &[u8]) -> Result<Command, Stop>
    ensures { Returns (λ x. x) result (command_of line.now) }
{
    match Command::named(line) {
        Some(command) => Ok(command),
        None => Err(Stop::Fault(Check::BadCommand)),
    }
}

/// The index of the first colon of a line, and whether no backslash comes before it. The line is the front of the text.
#[inline(always)]
fn find_colon(line: &[u8], text: &[u8]) -> Option<(usize, bool)>
    requires { line.now ≡ take (length line.now) text.now }
    ensures within { IfSome result (λ p. p.0 < length line.now) }
    ensures parts { option_map (λ p. (take p.0 line.now, drop (p.0 + 1) line.now)) result ≡ cut 58 line.now }
    ensures plain { (escapes : Bool) → IfSome result
        (λ p. p.1 ≡ true → field_of escapes (take p.0 line.now) ≡ Ok (take p.0 line.now)) }
{
    let front = front_without(text, line.len(), b':', b'\\');
    let at = find_from(b':', line, front, line.len())?;
    Some((at, front == at))
}

/// A name or a value, which is the front of a text. Where it is plain, or nothing is escaped, it is copied as it is.
#[inline(always)]
#[tactic(auto, unfolding(crate::specs::Inner::Parser::field_of))]
fn parse_field(
    alloc: Global,
    escapes: bool,
    field: &[u8],
    text: &[u8],
    plain: bool,
) -> Result<Octets, Stop>
    requires front { field.now ≡ take (length field.now) text.now }
    requires plain { plain ≡ true → field_of escapes field.now ≡ Ok field.now }
    ensures { Returns (λ x. x) result (field_of escapes field.now) }
{
    if plain || !escapes {
        return Ok(Octets::from_front(alloc, text, field.len())?);
    }
    match unescape(alloc, field) {
        Ok(octets) => Ok(octets),
        Err(EscapeFault::NoMemory) => Err(Stop::Memory),
        Err(EscapeFault::Undefined(_)) => Err(Stop::Fault(Check::BadEscape)),
        Err(EscapeFault::Cut) => Err(Stop::Fault(Check::BadEscape)),
    }
}

/// A header's value, which is the front of a text.
#[inline(always)]
fn parse_value(alloc: Global, escapes: bool, value: &[u8], text: &[u8]) -> Result<Octets, Stop>
    requires { value.now ≡ take (length value.now) text.now }
    ensures { Returns (λ x. x) result (field_of escapes value.now) }
{
    let plain = front_without(text, value.len(), b'\\', b'\\') == value.len();
    parse_field(alloc, escapes, value, text, plain)
}

/// The name and the value of a header's line, which is the front of a text.
#[tactic(auto, unfolding(crate::specs::Inner::Parser::header_of))]
pub(crate) fn parse_header(
    alloc: Global,
    escapes: bool,
    line: &[u8],
    text: &[u8],
) -> Result<(Octets, Octets), Stop>
    requires { line.now ≡ take (length line.now) text.now }
    ensures { Returns (λ x. x) result (header_of escapes line.now) }
{
    let Some((at, plain)) = find_colon(line, text) else {
        return Err(Stop::Fault(Check::BadHeader));
    };
    if at == 0 {
        return Err(Stop::Fault(Check::BadHeader));
    }
    let name = parse_field(alloc, escapes, &line[..at], text, plain)?;
    let value = parse_value(alloc, escapes, &line[at + 1..], &text[at + 1..])?;
    Ok((name, value))
}
