//! The rule of a board: the notes on it, and what each end knows of it, are of one queue.

use crate::taken_so_far::TakenSoFar;
use crossbeam_queue::protocol::{Outcome, Protocol, Split};
use crossbeam_queue::{Pass, RuledArrayQueue};

/// The rule: all notes are of one queue, which each end knows by a note that was on the board. Before the first note,
/// there is one end.
pub(crate) struct OfOneQueue;

impl Protocol<TakenSoFar, Option<TakenSoFar>> for OfOneQueue {
    ghost use Rattle.std.specs.Prelude.{None};
    ghost use Rattle.sub_queue.specs.Inner.Board.{IsOfOneQueue};

    ghost holds = { IsOfOneQueue };

    ghost first = { None };
}

/// One end as two, which know the same.
pub(crate) struct TwoReaders;

impl Split<Option<TakenSoFar>> for TwoReaders {
    ghost left = { λ v. v };

    ghost right = { λ v. v };
}

/// A note is put on the board: the end knows its queue from then on.
pub(crate) struct PutsUp;

impl Outcome<TakenSoFar, Option<TakenSoFar>> for PutsUp {
    ghost use Rattle.std.specs.Prelude.{◌≡◌, Some};
    ghost use Rattle.sub_queue.specs.Inner.Board.{queue_of};

    ghost then = { λ v note w. queue_of w ≡ Some note.queue };
}

/// A note is taken from the board: it is of the queue that the end knows.
pub(crate) struct TakesDown;

impl Outcome<TakenSoFar, Option<TakenSoFar>> for TakesDown {
    ghost use Rattle.std.specs.Prelude.{◌≡◌, Some};
    ghost use Rattle.sub_queue.specs.Inner.Board.{queue_of};

    ghost then = { λ v note w. (w ≡ v) × (queue_of v ≡ Some note.queue) };
}

/// A board: a queue of notes under the rule.
pub(crate) type Board = RuledArrayQueue<TakenSoFar, Option<TakenSoFar>, OfOneQueue>;

/// What carries the knowledge of a board's end. It has no bytes.
pub(crate) type BoardPass = Pass<TakenSoFar, Option<TakenSoFar>>;
