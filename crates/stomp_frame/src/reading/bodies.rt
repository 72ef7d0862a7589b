//! Reading a body.

ghost use Rattle.std.specs.Prelude.{◌≡◌, ◌≤◌, length, take, drop, IfOk};
ghost use Rattle.stomp_frame.specs.Inner.Parser.{Returns, counted_at, uncounted_at};
ghost use Rattle.stomp_frame.specs.Inner.PartialFrames.{IsUnfound, body_length, body_of};

use crate::fault::{Check, Stop};
use crate::headers::Headers;
use crate::limits::Limits;
use crate::reading::content_length::length_in;
use crate::reading::lines::find_from;

/// The length in octets that the headers give a body, or `None` where it ends at its first NULL.
#[tactic(auto, unfolding(crate::specs::Inner::PartialFrames::body_length))]
pub(crate) fn length_from(limits: &Limits, headers: &Headers) -> Result<Option<usize>, Stop>
    ensures { Returns (λ x. x) result (body_length limits.now headers.now) }
{
    match headers.first(b"content-length") {
        None => Ok(None),
        Some(digits) => match length_in(digits) {
            None => Err(Stop::Fault(Check::BadLength)),
            Some(n) => {
                if n > limits.body {
                    return Err(Stop::Fault(Check::BodyTooLong));
                }
                Ok(Some(n))
            }
        },
    }
}

/// A body of n octets, which isn't searched, and where the text goes on after its NULL.
#[tactic(auto, unfolding(crate::specs::Inner::Parser::counted_at))]
fn take_counted(n: usize, text: &[u8]) -> Result<(&[u8], usize), Stop>
    ensures read { Returns (λ x. (x.0.now, drop x.1 text.now)) result (counted_at n text.now) }
    ensures front { IfOk result (λ x. x.0.now ≡ take (length x.0.now) text.now) }
    ensures end { IfOk result (λ x. x.1 ≤ length text.now) }
{
    if text.len() <= n {
        return Err(Stop::Open);
    }
    if text[n] != 0 {
        return Err(Stop::Fault(Check::BadEnd));
    }
    Ok((&text[..n], n + 1))
}

/// A body up to the first NULL, which isn't among the first `searched` octets, and where the text goes on after it.
fn take_uncounted<'a>(
    limits: &Limits,
    text: &'a [u8],
    searched: &mut usize,
) -> Result<(&'a [u8], usize), Stop>
    requires within { searched.old ≤ length text.now }
    requires unfound { IsUnfound 0 text.now searched.old }
    ensures read { Returns (λ x. (x.0.now, drop x.1 text.now)) result
        (uncounted_at limits.now text.now) }
    ensures front { IfOk result (λ x. x.0.now ≡ take (length x.0.now) text.now) }
    ensures end { IfOk result (λ x. x.1 ≤ length text.now) }
    ensures within { searched.new ≤ length text.now }
    ensures unfound { IsUnfound 0 text.now searched.new }
{
    let end = text.len().min(limits.body.saturating_add(1)).max(*searched);
    match find_from(0, text, *searched, end) {
        Some(at) => {
            if at > limits.body {
                return Err(Stop::Fault(Check::BodyTooLong));
            }
            Ok((&text[..at], at + 1))
        }
        None => {
            if text.len() > limits.body {
                return Err(Stop::Fault(Check::BodyTooLong));
            }
            *searched = text.len();
            Err(Stop::Open)
        }
    }
}

/// A body of this length, or up to its first NULL, and where the text goes on after its NULL.
#[tactic(auto, unfolding(crate::specs::Inner::PartialFrames::body_of))]
pub(crate) fn take_body<'a>(
    limits: &Limits,
    counted: Option<usize>,
    text: &'a [u8],
    searched: &mut usize,
) -> Result<(&'a [u8], usize), Stop>
    requires within { searched.old ≤ length text.now }
    requires unfound { IsUnfound 0 text.now searched.old }
    ensures read { Returns (λ x. (x.0.now, drop x.1 text.now)) result
        (body_of limits.now counted text.now) }
    ensures front { IfOk result (λ x. x.0.now ≡ take (length x.0.now) text.now) }
    ensures end { IfOk result (λ x. x.1 ≤ length text.now) }
    ensures within { searched.new ≤ length text.now }
    ensures unfound { IsUnfound 0 text.now searched.new }
{
    match counted {
        Some(n) => take_counted(n, text),
        None => take_uncounted(limits, text, searched),
    }
}
