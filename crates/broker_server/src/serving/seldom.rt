//! What is said at most once a second.

ghost use Rattle.std.specs.Prelude.{◌≡◌, ◌+◌, ◌<◌, ◌↔◌, IsTrue, None, IfSome, IsNone, IsSome};

use std::time::{Clock, Duration, Instant};

/// What is said at most once a second, with how often it was since it was said last.
#[derive(Clone, Copy)]
pub(crate) struct Seldom {
    said: Option<Instant>,
    count: u64,
}

impl Seldom {
    /// It never was.
    pub(crate) fn new() -> Seldom
        ensures { result ≡ record { said = None; count = 0 } }
    {
        Seldom {
            said: None,
            count: 0,
        }
    }

    /// It was once more.
    pub(crate) fn add(&mut self)
        ensures counted { self.old.count < 18446744073709551615 → self.new.count ≡ self.old.count + 1 }
        ensures full { self.old.count ≡ 18446744073709551615 → self.new.count ≡ self.old.count }
        ensures said { self.new.said ≡ self.old.said }
    {
        self.count = self.count.saturating_add(1);
    }

    /// Whether there is something to say.
    pub(crate) fn waits(&self) -> bool
        ensures { IsTrue result ↔ (0 < self.now.count) }
    {
        self.count > 0
    }

    /// How often it was, where that is to be said now: then it is said. A clock that can't be read says that a second
    /// has passed.
    pub(crate) fn due<C: Clock>(&mut self, clock: &C) -> Option<u64>
        ensures count { IfSome result (λ count. (count ≡ self.old.count) × (0 < count)) }
        ensures told { IsSome result → self.new.count ≡ 0 }
        ensures kept { IsNone result → self.new ≡ self.old }
        ensures first { self.old.said ≡ None → 0 < self.old.count → IsSome result }
    {
        if self.count == 0 {
            return None;
        }
        let now = Instant::now(clock).ok();
        if let (Some(said), Some(now)) = (self.said, now)
            && now.duration_since(said) < Duration::from_secs(1)
        {
            return None;
        }
        self.said = now;
        self.take()
    }

    /// How often it was since it was said last, if it was: then it is said.
    pub(crate) fn take(&mut self) -> Option<u64>
        ensures count { IfSome result (λ count. (count ≡ self.old.count) × (0 < count)) }
        ensures told { self.new ≡ record self.old { count = 0 } }
        ensures none { IsNone result → self.old.count ≡ 0 }
    {
        let count = self.count;
        self.count = 0;
        if count == 0 { None } else { Some(count) }
    }
}
