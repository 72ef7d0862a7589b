//! Moments of the monotonic clock.

ghost use Rattle.std.specs.Prelude.{◌≡◌, ◌-◌};
ghost use Rattle.broker_server.specs.Purses.{later_moment};

use crate::serving::span::Span;
use std::time::Clock;

/// A moment: nanoseconds of the monotonic clock.
#[derive(Clone, Copy)]
pub(crate) struct Moment(pub(crate) u64);

impl Moment {
    /// By this clock. One that can't be read stands at its beginning, so that no time passes.
    pub(crate) fn now<C: Clock>(clock: &C) -> Moment {
        match clock.monotonic() {
            Ok(now) => Moment(u64::try_from(now.as_nanos()).unwrap_or(u64::MAX)),
            Err(_) => Moment(0),
        }
    }

    /// The time since an earlier moment; none where that is later.
    pub(crate) fn since(self, earlier: Moment) -> Span
        ensures { result.0 ≡ self.0 - earlier.0 }
    {
        Span(self.0.saturating_sub(earlier.0))
    }

    /// The later of the two.
    pub(crate) fn later(self, other: Moment) -> Moment
        ensures { result ≡ later_moment self other }
    {
        Moment(self.0.max(other.0))
    }
}
