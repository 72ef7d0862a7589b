//! The fields of a row's line.

ghost use Rattle.std.specs.Prelude.{◌≡◌, ◌↔◌, ◌<◌, ◌^◌, ℕ, Some, decimal, IfOk};
ghost use Rattle.std.specs.Option.{option_map};
ghost use Rattle.trace_audit.specs.Parsing.{cut};
ghost use Rattle.trace_audit.specs.Inner.Reading.{read_on, is_badly_begun, spelled_number, spelled_topic, number_before, topic_before, id_before, spelled_stamp, stamp_before, spelled_end, spelled_topics};

use mcast_txn::{NoMemory, Sender, Stamp, Topic, TxnId};
use memchr::memchr;
use std::alloc::Global;

/// What comes before the first such octet, and what comes after it; `None` where the text lacks it.
pub fn split_at_first(octet: u8, text: &[u8]) -> Option<(&[u8], &[u8])>
    ensures { option_map (λ p. (p.0.now, p.1.now)) result ≡ cut octet text.now }
{
    let at = memchr(octet, text)?;
    Some((&text[..at], &text[at + 1..]))
}

/// Whether a text has nothing, or a zero before more.
fn is_badly_begun(text: &[u8]) -> bool
    ensures { result ≡ is_badly_begun text.now }
{
    text.len() == 0 || (text[0] == b'0' && text.len() != 1)
}

/// The number that these digits write, whatever they begin with.
fn value(digits: &[u8]) -> Option<u64>
    ensures { result ≡ read_on 0 digits.now }
{
    let mut n: u64 = 0;
    for &digit in digits {
        if !digit.is_ascii_digit() {
            return None;
        }
        n = n.checked_mul(10)?.checked_add((digit - 48) as u64)?;
    }
    Some(n)
}

/// The number that a text spells.
#[tactic(auto, unfolding(crate::specs::Inner::Reading::spelled_number))]
fn number(text: &[u8]) -> Option<u64>
    ensures { result ≡ spelled_number text.now }
{
    if is_badly_begun(text) {
        return None;
    }
    value(text)
}

/// The number below 2^64 that a text spells in decimal digits, without sign or leading zero; `None` where it spells
/// none.
#[tactic(auto, using(crate::proofs::Spelling::is_number))]
pub fn read_number(text: &[u8]) -> Option<u64>
    ensures { (n : ℕ) → (result ≡ Some n) ↔ ((text.now ≡ decimal n) × (n < 2 ^ 64)) }
{
    number(text)
}

/// The topic that a text spells.
#[tactic(auto, unfolding(crate::specs::Inner::Reading::spelled_topic))]
fn topic(text: &[u8]) -> Option<Topic>
    ensures { result ≡ spelled_topic text.now }
{
    let n = number(text)?;
    if n > u32::MAX as u64 {
        return None;
    }
    Some(Topic(n as u32))
}

/// The number before the first such octet, and what comes after that.
#[tactic(auto, unfolding(crate::specs::Inner::Reading::number_before))]
pub(crate) fn number_before(octet: u8, text: &[u8]) -> Option<(u64, &[u8])>
    ensures { option_map (λ p. (p.0, p.1.now)) result ≡ number_before octet text.now }
{
    let (word, rest) = split_at_first(octet, text)?;
    Some((number(word)?, rest))
}

/// The topic before the first space, and what comes after that.
#[tactic(auto, unfolding(crate::specs::Inner::Reading::topic_before))]
pub(crate) fn topic_before(text: &[u8]) -> Option<(Topic, &[u8])>
    ensures { option_map (λ p. (p.0, p.1.now)) result ≡ topic_before text.now }
{
    let (word, rest) = split_at_first(b' ', text)?;
    Some((topic(word)?, rest))
}

/// The transaction before the second space, and what comes after that.
#[tactic(auto, unfolding(crate::specs::Inner::Reading::id_before))]
pub(crate) fn id_before(text: &[u8]) -> Option<(TxnId, &[u8])>
    ensures { option_map (λ p. (p.0, p.1.now)) result ≡ id_before text.now }
{
    let (sender, rest) = number_before(b' ', text)?;
    let (seq, rest) = number_before(b' ', rest)?;
    let id = TxnId {
        sender: Sender(sender),
        seq,
    };
    Some((id, rest))
}

/// The stamp that a text spells.
#[tactic(auto, unfolding(crate::specs::Inner::Reading::spelled_stamp))]
pub(crate) fn stamp(text: &[u8]) -> Option<Stamp>
    ensures { result ≡ spelled_stamp text.now }
{
    let (n, rest) = number_before(b'.', text)?;
    Some(Stamp {
        n,
        topic: topic(rest)?,
    })
}

/// The stamp before the first space, and what comes after that.
#[tactic(auto, unfolding(crate::specs::Inner::Reading::stamp_before))]
pub(crate) fn stamp_before(text: &[u8]) -> Option<(Stamp, &[u8])>
    ensures { option_map (λ p. (p.0, p.1.now)) result ≡ stamp_before text.now }
{
    let (word, rest) = split_at_first(b' ', text)?;
    Some((stamp(word)?, rest))
}

/// The end of a span that a text spells: none where the span is open.
#[tactic(auto, unfolding(crate::specs::Inner::Reading::spelled_end))]
pub(crate) fn end(text: &[u8]) -> Option<Option<Stamp>>
    ensures { result ≡ spelled_end text.now }
{
    if text == b"-".as_slice() {
        return Some(None);
    }
    Some(Some(stamp(text)?))
}

/// The topics that a text spells.
#[tactic(auto, unfolding(crate::specs::Inner::Reading::spelled_topics))]
pub(crate) fn topics(alloc: Global, text: &[u8]) -> Result<Option<Vec<Topic>>, NoMemory>
    ensures { IfOk result (λ topics. option_map (λ t. t.items) topics ≡ spelled_topics text.now) }
{
    let mut topics = Vec::new(alloc);
    let mut rest = text;
    while let Some((word, after)) = split_at_first(b',', rest) {
        let Some(topic) = topic(word) else {
            return Ok(None);
        };
        topics.push(topic)?;
        rest = after;
    }
    let Some(topic) = topic(rest) else {
        return Ok(None);
    };
    topics.push(topic)?;
    Ok(Some(topics))
}
