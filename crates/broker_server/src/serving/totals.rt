//! What the server did so far.

use crate::serving::activity::Activity;
use crate::serving::figures::Figures;
use crate::serving::line_rate::{Admitted, LineRate};
use crate::serving::moment::Moment;
use crate::serving::why_left::WhyLeft;
use std::sync::atomic::{AtomicBool, Ordering};
use std::sync::{Mutex, Wait};
use std::time::Clock;

/// What the server did so far, but for what those did who are there, and whether something happened since the log's
/// line of figures came last. No lock is taken while its own is held.
#[derive(Drop)]
pub(crate) struct Totals {
    past: Mutex<Figures>,
    /// The log's lines of who came and who left.
    lines: Mutex<LineRate>,
    /// Whether nothing happened since the figures were said.
    resting: AtomicBool,
}

impl Totals {
    /// Nothing happened.
    pub(crate) fn new() -> Totals {
        Totals {
            past: Mutex::new(Figures::new()),
            lines: Mutex::new(LineRate::new()),
            resting: AtomicBool::new(true),
        }
    }

    /// A connection came.
    pub(crate) fn comes<R: Wait>(&self, rt: &R) {
        let mut past = self.past.lock(rt);
        past.came = past.came.saturating_add(1);
    }

    /// One that came was refused.
    pub(crate) fn refuses<R: Wait>(&self, rt: &R) {
        let mut past = self.past.lock(rt);
        past.refused = past.refused.saturating_add(1);
    }

    /// One that came has left, or was closed before it began.
    pub(crate) fn leaves<R: Wait>(&self, rt: &R, activity: Activity, left: &WhyLeft) {
        let mut past = self.past.lock(rt);
        past.ended.add(left);
        past.activity.add(activity.past());
    }

    /// One more line of who came or left; what becomes of it.
    pub(crate) fn admit<R: Wait + Clock>(&self, rt: &R) -> Admitted {
        self.lines.lock(rt).admit(Moment::now(rt))
    }

    /// Whether such lines were left out since that was said.
    pub(crate) fn leaves_out<R: Wait>(&self, rt: &R) -> bool {
        self.lines.lock(rt).leaves_out()
    }

    /// How many such lines were left out, where that is to be said now, at most once a second.
    pub(crate) fn left_out_due<R: Wait + Clock>(&self, rt: &R) -> Option<u64> {
        self.lines.lock(rt).due(rt)
    }

    /// How many such lines were left out since that was said, if any were: then it is said.
    pub(crate) fn take_left_out<R: Wait>(&self, rt: &R) -> Option<u64> {
        self.lines.lock(rt).take()
    }

    /// What was done, but for what those did who are there.
    pub(crate) fn past<R: Wait>(&self, rt: &R) -> Figures {
        *self.past.lock(rt)
    }

    /// The figures are said now. What happens after this stirs.
    pub(crate) fn rest(&self) {
        self.resting.store(true, Ordering::SeqCst);
    }

    /// Whether nothing happened since the figures were said.
    pub(crate) fn is_resting(&self) -> bool {
        self.resting.load(Ordering::SeqCst)
    }

    /// Something happened; whether it is the first thing since the figures were said.
    pub(crate) fn stirs(&self) -> bool {
        self.is_resting() && self.resting.swap(false, Ordering::SeqCst)
    }
}
