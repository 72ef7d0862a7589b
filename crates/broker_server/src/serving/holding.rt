//! How much memory connections may hold together.

ghost use Rattle.std.specs.Prelude.{◌≡◌};
ghost use Rattle.broker_server.specs.Holding.{is_refused, is_short, is_told, time_to_take};

use crate::serving::span::Span;

/// A connection tells how many octets it holds where these are so many more or fewer than it told (our choice).
const TOLD: u64 = 65_536;

/// From so many octets of all connections on memory is short (our choice).
const SHORT: u64 = 768 * 1_048_576;

/// Where so many of these were committed.
const SENT: u64 = 256 * 1_048_576;

/// Where less is left of so many octets than is open of who holds more than a little, he is refused more (our choice).
const MOST: u64 = 1_024 * 1_048_576;

/// Beyond so many octets of all connections everybody is refused more (our choice).
const ALL: u64 = 2_048 * 1_048_576;

/// Who holds no more than so many octets holds little (our choice).
const LITTLE: u64 = 4 * 1_048_576;

/// From so many octets of all connections on the system may take nothing of what waits for one for a second alone (our choice).
const SHORTEST: u64 = 896 * 1_048_576;

/// A second, in nanoseconds.
const SECOND: u64 = 1_000_000_000;

/// So many nanoseconds more for each octet that all hold less (our choice).
const AN_OCTET: u64 = 32;

/// Whether a connection tells that it holds so many octets, where it told the others last.
#[inline(always)]
pub(crate) fn is_told(told: u64, now: u64) -> bool
    ensures { result ≡ is_told told now }
{
    now.saturating_sub(told) >= TOLD || told.saturating_sub(now) >= TOLD
}

/// Whether memory is short, where so many octets aren't committed, and so many were.
pub(crate) fn is_short(held: u64, sent: u64) -> bool
    ensures { result ≡ is_short held sent }
{
    sent >= SENT && held.saturating_add(sent) >= SHORT
}

/// How long the system may take nothing of what waits for a connection, where all hold so many octets.
pub(crate) fn time_to_take(all: u64) -> Span
    ensures { result.0 ≡ time_to_take all }
{
    Span(SECOND + SHORTEST.saturating_sub(all) * AN_OCTET)
}

/// Whether who holds so many octets that aren't committed, and so many that were, is refused more, where all hold so many.
#[inline(always)]
pub(crate) fn is_refused(all: u64, kept: u64, sent: u64) -> bool
    ensures { result ≡ is_refused all kept sent }
{
    all > ALL || MOST.saturating_sub(all) <= kept && kept.saturating_add(sent) > LITTLE
}
