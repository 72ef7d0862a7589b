//! The end of a shared queue that pushes.

ghost use Rattle.std.specs.Prelude.{◌≡◌, ℕ, ◌+◌, ◌^◌, ◌≤◌, max, true, false, length, Ok, Some, MatchResult};
ghost use Rattle.std.proofs.Common.{refl};
ghost use Rattle.sub_queue.specs.Ends.{End, shown_of_source, with_item};
ghost use Rattle.sub_queue.specs.Shown.{IsAboveLast, IsFull, room};

use crate::board_end::BoardEnd;
use crate::outlet::Outlet;
use crate::queue_end::QueueEnd;
use crate::taken_so_far::TakenSoFar;
use mcast_txn::{NoMemory, Released};
use std::marker::{Model, PhantomData};
use std::sync::Wait;

/// The end of a shared queue that pushes: an outlet under a runtime. In contracts it is its queue, the capacity,
/// the items that were pushed, and how many of them it was told to be taken.
pub struct Source<R> {
    pub(crate) end: QueueEnd,
    /// Where it is told how many items were taken.
    pub(crate) board: BoardEnd,
    pub(crate) capacity: usize,
    /// So many items it was told to be taken.
    pub(crate) told: u64,
    /// So many it pushed beside those.
    pub(crate) untaken: usize,
    pub(crate) runtime: PhantomData<R>,
}

impl<R> Drop for Source<R> {
    /// Written out, so that letting an end go is one call for the prover wherever it happens.
    fn drop(self) {
        let Source {
            end,
            board,
            capacity: _,
            told: _,
            untaken: _,
            runtime: _,
        } = self;
        drop(end);
        drop(board);
    }
}

impl<R> Model for Source<R> {
    ghost Value = { End };

    ghost view = { λ s. record {
      queue = s.end.queue;
      capacity = s.capacity;
      items = s.end.knows.pushed;
      told = s.told;
    } };

    ghost invariant = { λ s. (s.end.knows.pushes ≡ true) × (s.end.knows.takes ≡ false)
        × (s.board ≡ Some s.end.queue) × (s.end.capacity ≡ s.capacity)
        × (length s.end.knows.taken ≡ s.told) × (length s.end.knows.pushed ≡ s.told + s.untaken) };
}

impl<R> Source<R> {
    /// Is told how many items were taken, if that is more than it was told: from then on a push is refused only where
    /// the queue is full beside these.
    pub fn know_taken(&mut self, taken: TakenSoFar)
        requires { taken.queue ≡ self.old.queue }
        ensures { self.new ≡ record self.old { told = max self.old.told taken.count } }
    {
        let count = taken.count();
        if count <= self.told {
            return;
        }
        self.end.hear(taken.into_witness());
        self.untaken = self.untaken.saturating_sub((count - self.told) as usize);
        self.told = count;
    }

    /// The end of the queue.
    pub(crate) fn into_end(self) -> QueueEnd
        ensures queue { result.queue ≡ self.queue }
        ensures pushes { result.knows.pushes ≡ true }
        ensures pushed { result.knows.pushed ≡ self.items }
    {
        let Source {
            end,
            board,
            capacity: _,
            told: _,
            untaken: _,
            runtime: _,
        } = self;
        drop(board);
        end
    }
}

impl<R: Wait> Outlet for Source<R> {
    ghost use Rattle.sub_queue.specs.Ends.{shown_of_source};

    type Needs = R;

    ghost shown = { shown_of_source };

    ghost spare = { λ _. 2 ^ 64 };

    ghost may_accept = { λ s answer. answer ≡ false → IsFull s };

    /// Does nothing: the queue has its memory from the beginning.
    fn reserve(&mut self, additional: usize) -> Result<(), NoMemory>
        ensures same { self.new ≡ self.old }
        ensures room { (result ≡ Ok tt) × (additional ≤ 2 ^ 64) }
    {
        Ok(())
    }

    /// Puts the item at the end, or returns it where the queue was full at one moment of the call. It may wait for a
    /// take that is under way.
    fn push(&mut self, needs: &R, item: Released) -> Result<(), Released>
        requires { IsAboveLast self.old.items item.stamp }
        ensures { MatchResult result (λ _. self.new ≡ with_item item self.old)
            (λ returned. (returned ≡ item) × (self.new ≡ self.old) × IsFull (shown_of_source self.old)) }
    {
        let Some(untaken) = self.untaken.checked_add(1) else {
            return Err(item);
        };
        self.end.push(needs, item)?;
        self.untaken = untaken;
        Ok(())
    }

    /// How many more items it takes, at least. It hears first what the end that takes told, unless that is just being
    /// told. It never waits.
    fn room(&mut self, _needs: &R) -> usize
        ensures room { result ≡ room (shown_of_source self.new) }
        ensures told { (taken : ℕ) × (self.old.told ≤ taken) × (self.new ≡ record self.old { told = taken }) }
    {
        if let Some(taken) = self.board.take_down() {
            self.know_taken(taken);
        }
        self.capacity.saturating_sub(self.untaken)
    }

    ghost refuses_full = { λ s answer. answer refl };
}
