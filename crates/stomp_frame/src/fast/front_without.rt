//! Searching the front of a text for either of two octets.

ghost use Rattle.std.specs.Prelude.{◌+◌, ◌≤◌, length};
ghost use Rattle.stomp_frame.specs.Inner.PartialFrames.{IsUnfound};

use crate::fast::lanes::{LANES, first_set};
use std::simd::prelude::*;

/// How many of the 16 octets from this index on come before the first of these two, at least.
#[inline(always)]
fn run_without(text: &[u8], at: usize, one: u8, other: u8) -> usize
    requires within { at + 16 ≤ length text.now }
    requires one { IsUnfound one text.now at }
    requires other { IsUnfound other text.now at }
    ensures within { result ≤ 16 }
    ensures one { IsUnfound one text.now (at + result) }
    ensures other { IsUnfound other text.now (at + result) }
{
    let octets = u8x16::from_slice(&text[at..]);
    let stops = octets.simd_eq(u8x16::splat(one)) | octets.simd_eq(u8x16::splat(other));
    first_set(stops.to_bitmask())
}

/// How many octets before `end` come before the first of these two, at least: those that are looked at 16 at once. Up
/// to 15 octets from `end` on may be looked at, too.
#[inline(always)]
fn lanes_without(text: &[u8], end: usize, one: u8, other: u8) -> usize
    requires { end ≤ length text.now }
    ensures within { result ≤ end }
    ensures one { IsUnfound one text.now result }
    ensures other { IsUnfound other text.now result }
{
    let mut at = 0;
    while at < end && text.len() - at >= LANES {
        let run = run_without(text, at, one, other);
        if run < LANES {
            return end.min(at + run);
        }
        at = end.min(at + LANES);
    }
    at
}

/// How many octets before `end` come before the first of these two, which may be one octet twice; at least.
#[inline(always)]
#[tactic(auto, using(crate::proofs::Unfound::unfound_more))]
pub(crate) fn front_without(text: &[u8], end: usize, one: u8, other: u8) -> usize
    requires { end ≤ length text.now }
    ensures within { result ≤ end }
    ensures one { IsUnfound one text.now result }
    ensures other { IsUnfound other text.now result }
{
    for at in lanes_without(text, end, one, other)..end {
        if text[at] == one || text[at] == other {
            return at;
        }
    }
    end
}
