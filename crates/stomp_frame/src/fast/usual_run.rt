//! Searching a text for an octet that wants a closer look.

ghost use Rattle.std.specs.Prelude.{◌≡◌, ◌+◌, ◌≤◌, length};
ghost use Rattle.stomp_frame.specs.Inner.Usual.{AreUsual};

use crate::fast::lanes::{LANES, first_set};
use std::simd::prelude::*;

/// How many of the 16 octets from this index on come before the first that isn't from 14 to 127.
#[inline(always)]
fn usual_run(text: &[u8], at: usize) -> usize
    requires { at + 16 ≤ length text.now }
    ensures within { result ≤ 16 }
    ensures usual { AreUsual text.now at (at + result) }
{
    let octets = u8x16::from_slice(&text[at..]);
    let others = octets.simd_lt(u8x16::splat(14)) | octets.simd_ge(u8x16::splat(128));
    first_set(others.to_bitmask())
}

/// How many octets at the front are from 14 to 127, at least; those are of ASCII, and none is LF, CR or NULL. Only
/// octets before `end` are looked at, 16 at once.
pub(crate) fn usual_front(text: &[u8], end: usize) -> usize
    requires { end ≤ length text.now }
    ensures within { result ≤ end }
    ensures usual { AreUsual text.now 0 result }
{
    let mut at = 0;
    while end - at >= LANES {
        let run = usual_run(text, at);
        at += run;
        if run < LANES {
            return at;
        }
    }
    at
}
