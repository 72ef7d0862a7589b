//! A minute from when something happened.

ghost use Rattle.std.specs.Prelude.{◌≡◌, ◌-◌, nat_le, if◌then◌else◌, None, Some, IfSome, IsNone};

use crate::serving::moment::Moment;
use crate::serving::span::Span;

/// A minute, in nanoseconds.
const MINUTE: u64 = 60_000_000_000;

/// A minute, which begins when something happens, if one has begun.
#[derive(Clone, Copy)]
pub(crate) struct Minute {
    began: Option<Moment>,
}

impl Minute {
    /// None has begun.
    pub(crate) fn new() -> Minute
        ensures { result.began ≡ None }
    {
        Minute { began: None }
    }

    /// What is left at this moment of the one that has begun, or begins now. Where nothing is, it is over.
    pub(crate) fn rest(&mut self, now: Moment) -> Option<Span>
        ensures begins { self.old.began ≡ None
            → (result ≡ Some (record { 0 = 60000000000 })) × (self.new.began ≡ Some now) }
        ensures goes_on { IfSome self.old.began (λ began. result ≡ (if nat_le 60000000000 (now.0 - began.0)
            then None else Some (record { 0 = 60000000000 - (now.0 - began.0) }))) }
        ensures over { IsNone result → self.new.began ≡ None }
        ensures kept { IfSome result (λ rest. IfSome self.old.began (λ began. self.new.began ≡ Some began)) }
    {
        let began = match self.began {
            Some(began) => began,
            None => now,
        };
        let passed = now.since(began).0;
        if passed >= MINUTE {
            self.began = None;
            return None;
        }
        self.began = Some(began);
        Some(Span(MINUTE - passed))
    }
}
