//! The rule of a queue that two threads share: what each end knows of it, and what each step tells that end.

ghost use Rattle.std.specs.Prelude.{◌≡◌, true, [], ◌∷◌, ◌++◌};
ghost use Rattle.mcast_txn.specs.Lists.{Rises};
ghost use Rattle.mcast_txn.specs.Span.{item_stamp};
ghost use Rattle.sub_queue.specs.Rule.{after_pushing, after_taking, rest_of, IsFront};

use crossbeam_queue::protocol::{Join, Lesson, Outcome, Protocol, Split};
use crossbeam_queue::{Pass, RuledArrayQueue};
use mcast_txn::Released;
use std::collections::LinkedList;

/// What an end knows: whether it pushes, and then what was pushed; whether it takes, and then what was taken. An end
/// that doesn't take may know some of the items that were taken, from the first on. It is in contracts alone: no value
/// of it is made.
pub(crate) struct Knowledge {
    pub(crate) pushes: bool,
    pub(crate) pushed: LinkedList<Released>,
    pub(crate) takes: bool,
    pub(crate) taken: LinkedList<Released>,
}

/// The rule: what was pushed is what was taken and then what the queue holds, and it rises strictly in stamp.
pub(crate) struct InOrder;

impl Protocol<Released, Knowledge> for InOrder {
    ghost use Rattle.sub_queue.specs.Rule.{IsInOrder, knowledge};

    ghost holds = { IsInOrder };

    ghost first = { knowledge true [] true [] };
}

/// One end with both rights, as two ends with one each, or two as one.
pub(crate) struct TwoEnds;

impl Split<Knowledge> for TwoEnds {
    ghost use Rattle.sub_queue.specs.Rule.{pusher_knowledge, taker_knowledge};

    ghost left = { λ v. pusher_knowledge v.pushed };

    ghost right = { λ v. taker_knowledge v.taken };
}

impl Join<Knowledge> for TwoEnds {
    ghost use Rattle.sub_queue.specs.Rule.{knowledge, no_knowledge};

    ghost both = { λ v w. knowledge true v.pushed true w.taken };

    ghost spent = { no_knowledge };
}

/// What is known to be taken, as something of its own beside the end that knows it. An end that pushes and knows of
/// items that they were taken pushed them.
pub(crate) struct Witnesses;

impl Split<Knowledge> for Witnesses {
    ghost use Rattle.sub_queue.specs.Rule.{witness_knowledge};

    ghost left = { λ v. v };

    ghost right = { λ v. witness_knowledge v.taken };
}

impl Join<Knowledge> for Witnesses {
    ghost use Rattle.sub_queue.specs.Rule.{knowing_taken, no_knowledge};

    ghost both = { λ v w. knowing_taken w.taken v };

    ghost spent = { no_knowledge };
}

impl Lesson<Released, Knowledge> for Witnesses {
    ghost use Rattle.std.specs.Prelude.{◌≤◌, length};

    ghost fact = { λ v items. length v.taken ≤ length v.pushed };
}

/// A push: it puts the item at the end of what was pushed. Where the queue is full, what was pushed ends with what the
/// queue holds, of which nothing is known to be taken.
pub(crate) struct Pushes;

impl Outcome<Released, Knowledge> for Pushes {
    ghost then = { λ v item w. w ≡ after_pushing item v };
}

impl Lesson<Released, Knowledge> for Pushes {
    ghost use Rattle.sub_queue.specs.Rule.{EndsUntaken};

    ghost fact = { λ v items. EndsUntaken items v };
}

/// A take: it puts the item at the end of what was taken, which rises strictly in stamp.
pub(crate) struct Takes;

impl Outcome<Released, Knowledge> for Takes {
    ghost then = { λ v item w. (w ≡ after_taking item v) × Rises item_stamp w.taken };
}

impl Lesson<Released, Knowledge> for Takes {
    ghost fact = { λ v items. Rises item_stamp v.taken };
}

/// A take of what is left, by an end that knows both lists: it takes the first of what is left.
pub(crate) struct TakesLeft;

impl Outcome<Released, Knowledge> for TakesLeft {
    ghost then = { λ v item w. (w ≡ after_taking item v) × (rest_of v ≡ item ∷ rest_of w) × IsFront w };
}

impl Lesson<Released, Knowledge> for TakesLeft {
    ghost fact = { λ v items. (rest_of v ≡ items) × IsFront v × Rises item_stamp v.pushed };
}

/// A queue under the rule.
pub(crate) type SharedQueue = RuledArrayQueue<Released, Knowledge, InOrder>;

/// What carries an end's knowledge. It has no bytes.
pub(crate) type EndPass = Pass<Released, Knowledge>;
