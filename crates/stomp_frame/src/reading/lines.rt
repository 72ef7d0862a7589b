//! Cutting a text into lines, and skipping end-of-lines.

ghost use Rattle.std.specs.Prelude.{◌≡◌, ◌<◌, ◌≤◌, ◌+◌, length, take, drop, slice_index, ◌==◌, ◌&&◌, ◌||◌, Some, IfOk, IfSome, IsNone};
ghost use Rattle.std.specs.List.{list_all, list_any};
ghost use Rattle.std.specs.Str.{is_utf8};
ghost use Rattle.stomp_frame.specs.Inner.Parser.{Returns, cut, without_cr, is_plain, checked, line_at, after_eols};
ghost use Rattle.stomp_frame.specs.Inner.PartialFrames.{IsUnfound};
ghost use Rattle.stomp_frame.specs.Inner.Usual.{AreUsual};

use crate::fast::usual_run::usual_front;
use crate::fault::{Check, Stop};
use crate::limits::Limits;
use memchr::{memchr, memchr2};

/// A content of fewer octets is looked at octet by octet at first; a search for many at once begins at this length.
const SHORT: usize = 32;

/// The line without one CR at its end.
fn without_cr(line: &[u8]) -> &[u8]
    ensures value { result.now ≡ without_cr line.now }
    ensures front { result.now ≡ take (length result.now) line.now }
{
    match line {
        [front @ .., b'\r'] => front,
        _ => line,
    }
}

/// Whether the octets are UTF-8.
pub(crate) fn is_utf8(octets: &[u8]) -> bool
    ensures { result ≡ is_utf8 octets.now }
{
    str::from_utf8(octets).is_ok()
}

/// Whether a carriage return or a NULL is among the octets.
fn has_cr_or_null(content: &[u8]) -> bool
    ensures { result ≡ list_any (λ b. b == 13 || b == 0) content.now }
{
    memchr2(b'\r', 0, content).is_some()
}

/// Whether each octet is of ASCII, and none is CR or NULL.
fn is_plain(content: &[u8]) -> bool
    ensures { result ≡ list_all is_plain content.now }
{
    content.iter().all(|b| *b < 128 && *b != b'\r' && *b != 0)
}

/// The content of a line, if it passes the checks of any line. One of at most `usual` octets needs no look.
#[tactic(auto, unfolding(crate::specs::Inner::Parser::checked))]
fn check<'a>(limits: &Limits, content: &'a [u8], usual: usize) -> Result<&'a [u8], Stop>
    requires { length content.now ≤ usual → AreUsual content.now 0 (length content.now) }
    ensures checked { Returns (λ x. x.now) result (checked limits.now content.now) }
    ensures same { IfOk result (λ x. x.now ≡ content.now) }
{
    if content.len() > limits.line {
        return Err(Stop::Fault(Check::LineTooLong));
    }
    if content.len() <= usual {
        return Ok(content);
    }
    if content.len() < SHORT && is_plain(content) {
        return Ok(content);
    }
    if has_cr_or_null(content) {
        return Err(Stop::Fault(Check::BadLine));
    }
    if !is_utf8(content) {
        return Err(Stop::Fault(Check::BadText));
    }
    Ok(content)
}

/// The first index of the octet, which is at none of the first `searched`; only those before `end` are looked at.
#[inline(always)]
pub(crate) fn find_from(octet: u8, text: &[u8], searched: usize, end: usize) -> Option<usize>
    requires order { searched ≤ end }
    requires within { end ≤ length text.now }
    requires unfound { IsUnfound octet text.now searched }
    ensures found { IfSome result (λ at. (at < end)
        × (cut octet text.now ≡ Some (take at text.now, drop (at + 1) text.now))) }
    ensures none { IsNone result → IsUnfound octet text.now end }
{
    if searched < end && text[searched] == octet {
        return Some(searched);
    }
    let at = memchr(octet, &text[searched..end])?;
    Some(searched + at)
}

/// The content of the line at the front, whose LF isn't among the first `searched` octets, and where the text goes on
/// after it.
#[inline(always)]
#[tactic(auto, unfolding(crate::specs::Inner::Parser::line_at))]
pub(crate) fn take_line<'a>(
    limits: &Limits,
    text: &'a [u8],
    searched: &mut usize,
) -> Result<(&'a [u8], usize), Stop>
    requires within { searched.old ≤ length text.now }
    requires unfound { IsUnfound 10 text.now searched.old }
    ensures read { Returns (λ x. (x.0.now, drop x.1 text.now)) result
        (line_at limits.now text.now) }
    ensures front { IfOk result (λ x. x.0.now ≡ take (length x.0.now) text.now) }
    ensures end { IfOk result (λ x. (0 < x.1) × (x.1 ≤ length text.now)) }
    ensures within { searched.new ≤ length text.now }
    ensures unfound { IsUnfound 10 text.now searched.new }
{
    let most = limits.line.saturating_add(2);
    let end = text.len().min(most).max(*searched);
    let usual = if *searched == 0 {
        usual_front(text, end)
    } else {
        0
    };
    match find_from(b'\n', text, usual.max(*searched), end) {
        Some(at) => Ok((check(limits, without_cr(&text[..at]), usual)?, at + 1)),
        None => {
            if text.len() > 1 && text.len() - 2 >= limits.line {
                return Err(Stop::Fault(Check::LineTooLong));
            }
            *searched = text.len();
            Err(Stop::Open)
        }
    }
}

/// Whether there is a CR LF at this index.
fn is_crlf(text: &[u8], at: usize) -> bool
    requires { at < length text.now }
    ensures { result ≡ (slice_index text.now at == 13 && slice_index text.now (at + 1) == 10) }
{
    text[at] == b'\r' && at + 1 < text.len() && text[at + 1] == b'\n'
}

/// Where the end-of-lines end that begin at this index.
pub(crate) fn eols_from(text: &[u8], start: usize) -> usize
    requires { start ≤ length text.now }
    ensures within { result ≤ length text.now }
    ensures skipped { drop result text.now ≡ after_eols (drop start text.now) }
{
    let mut at = start;
    while at < text.len() {
        if text[at] == b'\n' {
            at += 1;
        } else if is_crlf(text, at) {
            at += 2;
        } else {
            return at;
        }
    }
    at
}
