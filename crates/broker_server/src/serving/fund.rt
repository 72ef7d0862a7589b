//! What there is to pay waiting with.

ghost use Rattle.std.specs.Prelude.{◌≡◌, ◌+◌, ◌*◌, false};
ghost use Rattle.broker_server.specs.Purses.{fund_after, fund_with, paid_time};

use crate::serving::cost::Cost;
use crate::serving::span::Span;

/// What one holds: a second, in six-hundredths of a nanosecond (our choice).
pub(crate) const FULL_FUND: u64 = 600_000_000_000;

/// What has to be back before a spent one pays again: a tenth of that (our choice).
const LEAST: u64 = 60_000_000_000;

/// What it lacks at most: who waits looks each tenth of a second, and may then have waited for a tenth more than it held.
const MOST_LACKING: u64 = FULL_FUND + LEAST;

/// Of a time so much is paid at most (our choice): two tenths of a second, in nanoseconds. Who waits looks each tenth.
pub(crate) const MOST_PAID: u64 = 200_000_000;

/// What there is to pay waiting with.
#[derive(Clone, Copy)]
pub(crate) struct Fund {
    /// What it lacks until it is full: what it paid and isn't back yet, in six-hundredths of a nanosecond.
    lacks: u64,
    /// Whether it was emptied, and less than a tenth of it is back: it pays nothing then.
    spent: bool,
}

impl Fund {
    /// A full one.
    pub(crate) fn new() -> Fund
        ensures { result ≡ record { lacks = 0; spent = false } }
    {
        Fund {
            lacks: 0,
            spent: false,
        }
    }

    /// Whether it pays nothing.
    pub(crate) fn is_spent(&self) -> bool
        ensures { result ≡ self.now.spent }
    {
        self.spent
    }

    /// It lacks so much from now on.
    fn lack(&mut self, lacks: u64)
        ensures { self.new ≡ fund_with self.old lacks }
    {
        self.spent = lacks >= FULL_FUND || (self.spent && lacks > FULL_FUND - LEAST);
        self.lacks = lacks.min(MOST_LACKING);
    }

    /// It pays so much.
    pub(crate) fn pays(&mut self, cost: Cost)
        ensures { self.new ≡ fund_with self.old (self.old.lacks + cost.0) }
    {
        self.lack(self.lacks.saturating_add(cost.0));
    }

    /// It pays so much for each nanosecond of this time, as far as that is paid, or where that is nothing has so much of
    /// each back.
    pub(crate) fn settles(&mut self, rate: u64, back: u64, time: Span)
        ensures { self.new ≡ fund_after self.old (rate * paid_time time.0) (back * time.0) }
    {
        let cost = rate.saturating_mul(time.0.min(MOST_PAID));
        if cost == 0 {
            let back = back.saturating_mul(time.0);
            self.lack(self.lacks.saturating_sub(back));
        } else {
            self.lack(self.lacks.saturating_add(cost));
        }
    }
}
