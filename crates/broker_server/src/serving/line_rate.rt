//! Lines of which so many a second are written.

ghost use Rattle.std.specs.Prelude.{◌≡◌, ◌+◌, ◌<◌, ◌↔◌, IsTrue, IfSome, IsNone, IsSome};
ghost use Rattle.broker_server.specs.LineRates.{admitted, begins, is_over, no_lines, written_with};
ghost use Rattle.broker_server.specs.declared.serving.line_rate.Admitted.TheVariants.{Written};

use crate::serving::moment::Moment;
use crate::serving::seldom::Seldom;
use std::time::Clock;

/// So many lines are written a second at most (our choice).
const MOST: u64 = 100;

/// A second, in nanoseconds.
const SECOND: u64 = 1_000_000_000;

/// What becomes of a line.
#[derive(Clone, Copy)]
pub(crate) enum Admitted {
    /// It is to be written.
    Written,
    /// It is left out, the first since it was said how many were.
    FirstLeftOut,
    /// It is left out.
    LeftOut,
}

/// Lines of which so many a second are written, and the others counted.
#[derive(Clone, Copy)]
pub(crate) struct LineRate {
    /// When the second began in which the last of them came.
    began: Option<Moment>,
    /// How many were written in it.
    written: u64,
    /// Those that were left out.
    left_out: Seldom,
}

impl LineRate {
    /// None came.
    pub(crate) fn new() -> LineRate
        ensures { result ≡ no_lines }
    {
        LineRate {
            began: None,
            written: 0,
            left_out: Seldom::new(),
        }
    }

    /// A line comes at this moment; what becomes of it. One that is left out is counted.
    pub(crate) fn admit(&mut self, now: Moment) -> Admitted
        ensures admitted { result ≡ admitted self.old now }
        ensures began { self.new.began ≡ begins self.old now }
        ensures written { self.new.written ≡ written_with self.old now }
        ensures kept { result ≡ Written → self.new.left_out ≡ self.old.left_out }
        ensures counted { (result ≡ Written → ⊥) → self.old.left_out.count < 18446744073709551615
            → self.new.left_out.count ≡ self.old.left_out.count + 1 }
    {
        if self.is_over(now) {
            self.began = Some(now);
            self.written = 0;
        }
        if self.written < MOST {
            self.written += 1;
            return Admitted::Written;
        }
        let is_first = !self.left_out.waits();
        self.left_out.add();
        if is_first {
            Admitted::FirstLeftOut
        } else {
            Admitted::LeftOut
        }
    }

    /// Whether the second is over in which the last of them came.
    fn is_over(&self, now: Moment) -> bool
        ensures { result ≡ is_over self.now.began now }
    {
        match self.began {
            Some(began) => now.since(began).0 >= SECOND,
            None => true,
        }
    }

    /// Whether some were left out since that was said.
    pub(crate) fn leaves_out(&self) -> bool
        ensures { IsTrue result ↔ (0 < self.now.left_out.count) }
    {
        self.left_out.waits()
    }

    /// How many were left out, where that is to be said now, as `Seldom::due` says.
    pub(crate) fn due<C: Clock>(&mut self, clock: &C) -> Option<u64>
        ensures count { IfSome result (λ count. (count ≡ self.old.left_out.count) × (0 < count)) }
        ensures told { IsSome result → self.new.left_out.count ≡ 0 }
        ensures kept { IsNone result → self.new ≡ self.old }
    {
        self.left_out.due(clock)
    }

    /// How many were left out since that was said, if any were: then it is said.
    pub(crate) fn take(&mut self) -> Option<u64>
        ensures count { IfSome result (λ count. (count ≡ self.old.left_out.count) × (0 < count)) }
        ensures told { self.new.left_out.count ≡ 0 }
        ensures none { IsNone result → self.old.left_out.count ≡ 0 }
    {
        self.left_out.take()
    }
}
