//! What a shared queue still holds once its ends are closed.

ghost use Rattle.std.specs.Prelude.{◌≡◌, [], ◌∷◌, length, MatchOption};

use crate::queue_end::QueueEnd;
use mcast_txn::Released;
use std::marker::Model;
use std::sync::Wait;

/// What was pushed and not taken. In contracts it is the list of these items.
pub struct Left {
    pub(crate) end: QueueEnd,
}

impl Drop for Left {
    /// Written out, so that letting what is left go is one call for the prover wherever it happens.
    fn drop(self) {
        let Left { end } = self;
        drop(end);
    }
}

impl Model for Left {
    ghost use Rattle.std.specs.Prelude.{◌≡◌, true, List};
    ghost use Rattle.mcast_txn.specs.Span.{Item};
    ghost use Rattle.sub_queue.specs.Rule.{IsFront, rest_of};

    ghost Value = { List Item };

    ghost view = { λ l. rest_of l.end.knows };

    ghost invariant = { λ l. (l.end.knows.pushes ≡ true) × (l.end.knows.takes ≡ true) × IsFront l.end.knows };
}

impl Left {
    /// How many items are left.
    pub fn len<R: Wait>(&mut self, rt: &R) -> usize
        ensures len { result ≡ length self.old }
        ensures same { self.new ≡ self.old }
    {
        self.end.len(rt)
    }

    /// The next item, or `None` where none is left.
    pub fn next<R: Wait>(&mut self, rt: &R) -> Option<Released>
        ensures next { MatchOption result ((self.old ≡ []) × (self.new ≡ []))
            (λ item. self.old ≡ item ∷ self.new) }
    {
        self.end.take_left(rt)
    }
}
