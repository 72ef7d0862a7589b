//! Reading escapes.

ghost use Rattle.std.specs.Prelude.{◌≡◌, ◌≤◌, ◌<◌, ◌⊎◌, ℕ, List, length, take, drop, IfOk, IfErr, Ok, Err};
ghost use Rattle.stomp_escape.specs.declared.fault.EscapeFault.{EscapeFault};
ghost use Rattle.stomp_escape.specs.declared.fault.EscapeFault.TheVariants.{NoMemory};
ghost use Rattle.stomp_escape.specs.Escape.{Spells, IsFirstFault, Gives};
ghost use Rattle.stomp_escape.specs.Inner.Unescaping.{octet_of, unescaped, unescaped_after, unescaped_from};

use crate::fault::EscapeFault;
use crate::octets::Octets;
use std::alloc::Global;

/// How many octets of a text are read at a time, or one more where the last begins an escape.
const PIECE: usize = 64;

/// The octet whose escape has each letter, or 0 where there is none.
const OCTETS: [u8; 256] = [
    0, 0, 0, 0, 0, 0, 0, 0, 0, 0, 0, 0, 0, 0, 0, 0, 0, 0, 0, 0, 0, 0, 0, 0, 0, 0, 0, 0, 0, 0, 0, 0,
    0, 0, 0, 0, 0, 0, 0, 0, 0, 0, 0, 0, 0, 0, 0, 0, 0, 0, 0, 0, 0, 0, 0, 0, 0, 0, 0, 0, 0, 0, 0, 0,
    0, 0, 0, 0, 0, 0, 0, 0, 0, 0, 0, 0, 0, 0, 0, 0, 0, 0, 0, 0, 0, 0, 0, 0, 0, 0, 0, 0, b'\\', 0,
    0, 0, 0, 0, 0, b':', 0, 0, 0, 0, 0, 0, 0, 0, 0, 0, b'\n', 0, 0, 0, b'\r', 0, 0, 0, 0, 0, 0, 0,
    0, 0, 0, 0, 0, 0, 0, 0, 0, 0, 0, 0, 0, 0, 0, 0, 0, 0, 0, 0, 0, 0, 0, 0, 0, 0, 0, 0, 0, 0, 0, 0,
    0, 0, 0, 0, 0, 0, 0, 0, 0, 0, 0, 0, 0, 0, 0, 0, 0, 0, 0, 0, 0, 0, 0, 0, 0, 0, 0, 0, 0, 0, 0, 0,
    0, 0, 0, 0, 0, 0, 0, 0, 0, 0, 0, 0, 0, 0, 0, 0, 0, 0, 0, 0, 0, 0, 0, 0, 0, 0, 0, 0, 0, 0, 0, 0,
    0, 0, 0, 0, 0, 0, 0, 0, 0, 0, 0, 0, 0, 0, 0, 0, 0, 0, 0, 0, 0, 0, 0, 0, 0, 0, 0, 0, 0, 0, 0, 0,
    0, 0, 0, 0, 0, 0,
];

/// The octet whose escape has this letter, if there is one.
#[inline(always)]
fn octet_for(letter: u8) -> Option<u8>
    ensures { result ≡ octet_of letter }
{
    let octet = OCTETS[usize::from(letter)];
    if octet == 0 {
        return None;
    }
    Some(octet)
}

/// Reads the text from `start` on, up to its first fault or past `PIECE` octets; an escape that begins within them is
/// read whole. Returns where the text goes on, and how many octets wait in the buffer.
#[inline(always)]
fn read_piece(
    text: &[u8],
    start: usize,
    waiting: &mut [u8; 64],
) -> Result<(usize, usize), EscapeFault>
    requires { start ≤ length text.now }
    ensures onward { IfOk result (λ r. (start < length text.now → start < r.0) × (r.0 ≤ length text.now)) }
    ensures fits { IfOk result (λ r. r.1 ≤ 64) }
    ensures read { IfOk result (λ r. unescaped_after (take r.1 waiting.new) r.0 (drop r.0 text.now)
        ≡ unescaped_from start (drop start text.now)) }
    ensures fault { IfErr result (λ e. Err e ≡ unescaped_from start (drop start text.now)) }
{
    let end = start + PIECE.min(text.len() - start);
    let mut at = start;
    let mut n = 0;
    while at < end {
        if text[at] != b'\\' {
            waiting[n] = text[at];
            at += 1;
        } else if at + 1 == text.len() {
            return Err(EscapeFault::Cut);
        } else {
            let Some(octet) = octet_for(text[at + 1]) else {
                return Err(EscapeFault::Undefined(at));
            };
            waiting[n] = octet;
            at += 2;
        }
        n += 1;
    }
    Ok((at, n))
}

/// Reads the text from left to right, up to its first fault.
fn read(alloc: Global, text: &[u8]) -> Result<Octets, EscapeFault>
    ensures { Gives result (unescaped text.now) }
{
    let mut waiting = [0u8; PIECE];
    let (mut at, n) = read_piece(text, 0, &mut waiting)?;
    let mut out = Octets::from_front(alloc, &waiting, n)?;
    while at < text.len() {
        let (next, n) = read_piece(text, at, &mut waiting)?;
        out.extend(&waiting[..n])?;
        at = next;
    }
    Ok(out)
}

/// The octets that the text spells: each escape is read as its octet, and every
/// other octet as itself (STOMP 1.2, "Value Encoding"). The answer is `Undefined` or `Cut` exactly
/// where that is the text's first fault from the left, unless memory runs out.
pub fn unescape(alloc: Global, text: &[u8]) -> Result<Octets, EscapeFault>
    // What is answered is so: the text spells the octets, or the fault is its first one.
    ensures found { IfOk result (λ v. Spells text.now v) }
    ensures fault { IfErr result (λ e. (e ≡ NoMemory) ⊎ IsFirstFault text.now e) }
    // What is so is answered, unless memory runs out.
    ensures only { (v : List ℕ) → Spells text.now v → Gives result (Ok v) }
    ensures only_fault { (e : EscapeFault) → IsFirstFault text.now e → Gives result (Err e) }
{
    read(alloc, text)
}
