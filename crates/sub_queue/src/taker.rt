//! The end of a shared queue that takes.

ghost use Rattle.std.specs.Prelude.{◌≡◌, ◌-◌, ◌^◌, ◌<◌, ◌≤◌, true, length, min, MatchOption, Some};
ghost use Rattle.mcast_txn.specs.Lists.{Rises};
ghost use Rattle.mcast_txn.specs.Span.{item_stamp};
ghost use Rattle.sub_queue.specs.Ends.{End, with_item};

use crate::board_end::BoardEnd;
use crate::queue_end::QueueEnd;
use crate::taken_so_far::TakenSoFar;
use mcast_txn::Released;
use std::marker::Model;
use std::sync::Wait;

/// The end of a shared queue that takes. In contracts it is its queue, the capacity, and the items that were taken.
pub struct Taker {
    pub(crate) end: QueueEnd,
    /// Where it tells how many it took.
    pub(crate) board: BoardEnd,
    /// How many items it took, up to 2^64 - 1.
    pub(crate) taken: u64,
}

impl Drop for Taker {
    /// Written out, so that letting an end go is one call for the prover wherever it happens.
    fn drop(self) {
        let Taker {
            end,
            board,
            taken: _,
        } = self;
        drop(end);
        drop(board);
    }
}

impl Model for Taker {
    ghost Value = { End };

    ghost view = { λ t. record {
      queue = t.end.queue;
      capacity = t.end.capacity;
      items = t.end.knows.taken;
      told = 0;
    } };

    ghost invariant = { λ t. (t.end.knows.takes ≡ true) × (t.board ≡ Some t.end.queue)
        × (t.taken ≡ min (length t.end.knows.taken) (2 ^ 64 - 1)) };
}

impl Taker {
    /// Takes the next item, with no memory, or `None` where the queue was empty at one moment of the call. What was
    /// taken rises strictly in stamp. It may wait for a push that is under way.
    pub fn take<R: Wait>(&mut self, rt: &R) -> Option<Released>
        ensures taken { MatchOption result (self.new ≡ self.old)
            (λ item. self.new ≡ with_item item self.old) }
        ensures rises { Rises item_stamp self.new.items }
    {
        let item = self.end.take(rt)?;
        self.taken = self.taken.saturating_add(1);
        Some(item)
    }

    /// Tells the end that pushes how many items were taken, in place of what it was told and hasn't heard yet, with no
    /// memory. It hears it at its next `room`. After 2^64 - 1 takes nothing is told any more.
    pub fn tell<R: Wait>(&mut self, rt: &R)
        ensures { self.new ≡ self.old }
    {
        if let Some(taken) = self.taken_so_far() {
            self.board.put_up(rt, taken);
        }
    }

    /// The end of the queue.
    pub(crate) fn into_end(self) -> QueueEnd
        ensures queue { result.queue ≡ self.queue }
        ensures takes { result.knows.takes ≡ true }
        ensures taken { result.knows.taken ≡ self.items }
    {
        let Taker {
            end,
            board,
            taken: _,
        } = self;
        drop(board);
        end
    }

    /// That so many items were taken, for the end that pushes, with no memory: `None` exactly after 2^64 - 1 takes.
    pub fn taken_so_far(&mut self) -> Option<TakenSoFar>
        ensures taken { MatchOption result (2 ^ 64 - 1 ≤ length self.old.items)
            (λ taken. (taken ≡ record { queue = self.old.queue; count = length self.old.items })
            × (length self.old.items < 2 ^ 64 - 1)) }
        ensures same { self.new ≡ self.old }
    {
        if self.taken == u64::MAX {
            return None;
        }
        Some(TakenSoFar {
            witness: self.end.witness(),
            count: self.taken,
        })
    }
}
