//! What a subscription was waited for.

ghost use Rattle.std.specs.Prelude.{◌≡◌, None, Some};
ghost use Rattle.broker_server.specs.Purses.{account_at_look, debt, is_one_moment, late_since, price_at_look, spared_at};

use crate::serving::cost::Cost;
use crate::serving::fund::{FULL_FUND, MOST_PAID};
use crate::serving::moment::Moment;
use crate::serving::pace::Pace;
use crate::serving::price::Price;
use crate::serving::span::Span;

/// For so long a thread may be late for nothing: a second, in nanoseconds (our choice).
const MOST_LATE: u64 = 1_000_000_000;

/// What a subscription was waited for, and didn't cost.
#[derive(Clone, Copy)]
pub(crate) struct Account {
    /// Since when its connection was behind when it was looked at last.
    behind: Option<Moment>,
    /// What it was spared since then, a second at most.
    spared: Cost,
    /// Since when its thread is late: its connection wasn't behind, and it took nothing.
    late: Option<Moment>,
}

impl Account {
    /// It was spared nothing.
    pub(crate) fn new() -> Account
        ensures { result ≡ record { behind = None; spared = record { 0 = 0 }; late = None } }
    {
        Account {
            behind: None,
            spared: Cost(0),
            late: None,
        }
    }

    /// It lacks room at this moment, and was waited for so long since that was paid; what waiting for it costs. Where its
    /// connection isn't behind, that is nothing for a second since a look that is fresh: the first, or one before which
    /// something was taken, or nobody waited. Then it is the full price.
    pub(crate) fn looks(&mut self, now: Moment, pace: &Pace, unpaid: Span, fresh: bool) -> Price
        ensures price { result ≡ price_at_look self.old pace.now now fresh }
        ensures after { self.new ≡ account_at_look self.old pace.now now unpaid.0 fresh }
    {
        self.spared = self.spared_at(now, pace, unpaid);
        self.behind = pace.since();
        if self.behind.is_some() {
            self.late = None;
            return pace.price(now);
        }
        let late = self.late_since(now, fresh);
        self.late = Some(late);
        if now.since(late).0 < MOST_LATE {
            Price::Free
        } else {
            Price::Full
        }
    }

    /// What it owes where it ends at this moment, and was waited for so long since that was paid.
    pub(crate) fn owes(&self, now: Moment, pace: &Pace, unpaid: Span) -> Cost
        ensures { result.0 ≡ debt self.now pace.now now unpaid.0 }
    {
        if is_one_moment(self.behind, pace.since()) {
            self.spared_at(now, pace, unpaid)
        } else {
            Cost(0)
        }
    }

    /// What it was spared since its connection is behind, with this time, as far as that is paid.
    fn spared_at(&self, now: Moment, pace: &Pace, unpaid: Span) -> Cost
        ensures { result.0 ≡ spared_at self.now pace.now now unpaid.0 }
    {
        let before = if is_one_moment(self.behind, pace.since()) {
            self.spared.0
        } else {
            0
        };
        let most = match pace.since() {
            Some(since) => now.since(since).0,
            None => 0,
        };
        let time = unpaid.0.min(most).min(MOST_PAID);
        let more = pace.price(now).spared(Span(time));
        Cost(before.saturating_add(more.0).min(FULL_FUND))
    }

    /// Since when its thread is late, which is late now.
    fn late_since(&self, now: Moment, fresh: bool) -> Moment
        ensures { result ≡ late_since now fresh self.now.late }
    {
        match self.late {
            Some(late) if !fresh => late,
            _ => now,
        }
    }
}

/// Whether both are there, and are one moment.
fn is_one_moment(one: Option<Moment>, other: Option<Moment>) -> bool
    ensures { result ≡ is_one_moment one other }
{
    match (one, other) {
        (Some(one), Some(other)) => one.0 == other.0,
        _ => false,
    }
}
