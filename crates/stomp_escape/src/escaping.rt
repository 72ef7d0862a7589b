//! Writing escapes.

ghost use Rattle.std.specs.Prelude.{◌≡◌, ◌++◌, ◌∷◌, [], ◌+◌, ◌*◌, ◌≤◌, length, take, IfOk, OnOk, OnErr};
ghost use Rattle.stomp_escape.specs.Escape.{escaped, Spells, IsUnbroken, AppendsFront};
ghost use Rattle.stomp_escape.specs.Inner.Escaping.{first_written, letter_or_zero};

use crate::no_memory::NoMemory;
use crate::octets::Octets;
use std::alloc::Global;

/// How many octets are escaped at most before they are copied at once, each to two at most.
const PIECE: usize = 32;

/// Each octet as it is written, in two octets: itself and 0, or a backslash and the letter of its escape.
const WRITTEN: [u8; 512] = [
    0, 0, 1, 0, 2, 0, 3, 0, 4, 0, 5, 0, 6, 0, 7, 0, 8, 0, 9, 0, b'\\', b'n', 11, 0, 12, 0, b'\\',
    b'r', 14, 0, 15, 0, 16, 0, 17, 0, 18, 0, 19, 0, 20, 0, 21, 0, 22, 0, 23, 0, 24, 0, 25, 0, 26,
    0, 27, 0, 28, 0, 29, 0, 30, 0, 31, 0, 32, 0, 33, 0, 34, 0, 35, 0, 36, 0, 37, 0, 38, 0, 39, 0,
    40, 0, 41, 0, 42, 0, 43, 0, 44, 0, 45, 0, 46, 0, 47, 0, 48, 0, 49, 0, 50, 0, 51, 0, 52, 0, 53,
    0, 54, 0, 55, 0, 56, 0, 57, 0, b'\\', b'c', 59, 0, 60, 0, 61, 0, 62, 0, 63, 0, 64, 0, 65, 0,
    66, 0, 67, 0, 68, 0, 69, 0, 70, 0, 71, 0, 72, 0, 73, 0, 74, 0, 75, 0, 76, 0, 77, 0, 78, 0, 79,
    0, 80, 0, 81, 0, 82, 0, 83, 0, 84, 0, 85, 0, 86, 0, 87, 0, 88, 0, 89, 0, 90, 0, 91, 0, b'\\',
    b'\\', 93, 0, 94, 0, 95, 0, 96, 0, 97, 0, 98, 0, 99, 0, 100, 0, 101, 0, 102, 0, 103, 0, 104, 0,
    105, 0, 106, 0, 107, 0, 108, 0, 109, 0, 110, 0, 111, 0, 112, 0, 113, 0, 114, 0, 115, 0, 116, 0,
    117, 0, 118, 0, 119, 0, 120, 0, 121, 0, 122, 0, 123, 0, 124, 0, 125, 0, 126, 0, 127, 0, 128, 0,
    129, 0, 130, 0, 131, 0, 132, 0, 133, 0, 134, 0, 135, 0, 136, 0, 137, 0, 138, 0, 139, 0, 140, 0,
    141, 0, 142, 0, 143, 0, 144, 0, 145, 0, 146, 0, 147, 0, 148, 0, 149, 0, 150, 0, 151, 0, 152, 0,
    153, 0, 154, 0, 155, 0, 156, 0, 157, 0, 158, 0, 159, 0, 160, 0, 161, 0, 162, 0, 163, 0, 164, 0,
    165, 0, 166, 0, 167, 0, 168, 0, 169, 0, 170, 0, 171, 0, 172, 0, 173, 0, 174, 0, 175, 0, 176, 0,
    177, 0, 178, 0, 179, 0, 180, 0, 181, 0, 182, 0, 183, 0, 184, 0, 185, 0, 186, 0, 187, 0, 188, 0,
    189, 0, 190, 0, 191, 0, 192, 0, 193, 0, 194, 0, 195, 0, 196, 0, 197, 0, 198, 0, 199, 0, 200, 0,
    201, 0, 202, 0, 203, 0, 204, 0, 205, 0, 206, 0, 207, 0, 208, 0, 209, 0, 210, 0, 211, 0, 212, 0,
    213, 0, 214, 0, 215, 0, 216, 0, 217, 0, 218, 0, 219, 0, 220, 0, 221, 0, 222, 0, 223, 0, 224, 0,
    225, 0, 226, 0, 227, 0, 228, 0, 229, 0, 230, 0, 231, 0, 232, 0, 233, 0, 234, 0, 235, 0, 236, 0,
    237, 0, 238, 0, 239, 0, 240, 0, 241, 0, 242, 0, 243, 0, 244, 0, 245, 0, 246, 0, 247, 0, 248, 0,
    249, 0, 250, 0, 251, 0, 252, 0, 253, 0, 254, 0, 255, 0,
];

/// The octet as it is written: itself and 0, or the two octets of its escape.
#[inline(always)]
fn octets_for(octet: u8) -> [u8; 2]
    ensures { result ≡ first_written octet ∷ letter_or_zero octet ∷ [] }
{
    let at = 2 * usize::from(octet);
    [WRITTEN[at], WRITTEN[at + 1]]
}

/// The number of octets before the first one that has an escape.
fn plain_front(text: &[u8]) -> usize
    ensures within { result ≤ length text.now }
    ensures plain { escaped (take result text.now) ≡ take result text.now }
{
    for at in 0..text.len() {
        if octets_for(text[at])[1] != 0 {
            return at;
        }
    }
    text.len()
}

/// Writes the escaped text of a few octets into a line, from `start` on, and returns where it ends. The line has room
/// for two octets for each. None of them takes a branch of its own: two octets are put for each, and the next one
/// begins over the second where the octet has no escape. So one octet of the line after the end may be another than
/// before.
pub fn escape_at(text: &[u8], line: &mut [u8], start: usize) -> usize
    requires { start + 2 * length text.now ≤ length line.old }
    ensures end { result ≤ start + 2 * length text.now }
    ensures put { take result line.new ≡ take start line.old ++ escaped text.now }
{
    let mut end = start;
    for at in 0..text.len() {
        let octets = octets_for(text[at]);
        line[end..end + 2].copy_from_slice(&octets);
        end += 1 + usize::from(octets[1] != 0);
    }
    end
}

/// Appends the escaped text of a few octets.
fn escape_piece(piece: &[u8], out: &mut Octets) -> Result<(), NoMemory>
    requires { length piece.now ≤ 32 }
    ensures ok { OnOk result (out.new ≡ out.old ++ escaped piece.now) }
    ensures err { OnErr result (out.new ≡ out.old) }
{
    let mut waiting = [0u8; 64];
    let n = escape_at(piece, &mut waiting, 0);
    out.extend(&waiting[..n])
}

/// Appends the escaped text: each CR as `\r`, LF as `\n`, colon as `\c` and backslash as `\\`, and
/// every other octet as itself (STOMP 1.2, "Value Encoding"). After `NoMemory` a prefix of
/// the escaped text may have been appended.
pub fn escape_into(text: &[u8], out: &mut Octets) -> Result<(), NoMemory>
    ensures ok { OnOk result (out.new ≡ out.old ++ escaped text.now) }
    ensures err { OnErr result (AppendsFront (escaped text.now) out.old out.new) }
{
    let mut at = plain_front(text);
    out.extend(&text[..at])?;
    while at < text.len() {
        let end = at + PIECE.min(text.len() - at);
        escape_piece(&text[at..end], out)?;
        at = end;
    }
    Ok(())
}

/// The escaped text, as `escape_into` appends it: it spells the text that was passed, and it has no
/// CR, LF or colon, so it ends neither a header's name nor its line.
pub fn escape(alloc: Global, text: &[u8]) -> Result<Octets, NoMemory>
    ensures value { IfOk result (λ o. o ≡ escaped text.now) }
    ensures spelling { IfOk result (λ o. Spells o text.now) }
    ensures unbroken { IfOk result (λ o. IsUnbroken o) }
{
    let mut out = Octets::with_capacity(alloc, text.len())?;
    escape_into(text, &mut out)?;
    Ok(out)
}
