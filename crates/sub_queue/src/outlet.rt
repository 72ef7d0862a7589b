//! Where a topic puts a subscription's items.

ghost use Rattle.std.specs.Prelude.{◌≡◌, ℕ, ◌+◌, ◌<◌, ◌≤◌, Bool, false, OnOk, OnErr, IfErr};
ghost use Rattle.std.specs.Result.{is_ok};
ghost use Rattle.sub_queue.specs.Shown.{Shown, IsAboveLast, IsFull, after_push, known_taken, room, shown_told};

use mcast_txn::{NoMemory, Released};

/// Where a topic puts a subscription's items. In contracts it is what it shows: the items that it accepted, in order,
/// its capacity, and how many of them are known to be taken.
pub trait Outlet {
    /// What a push needs of its caller: nothing, or a runtime to wait with.
    type Needs;

    /// What it shows.
    ghost shown: { Self → Shown };

    /// How many pushes need no memory. This isn't shown: no contract of a topic speaks of it.
    ghost spare: { Self → ℕ };

    /// Whether a push may be answered so (accepted or not) where the outlet shows this.
    ghost may_accept: { Shown → Bool → Type 0 };

    /// Makes room for this number of pushes. What is shown stays, also out of memory.
    fn reserve(&mut self, additional: usize) -> Result<(), NoMemory>
        ensures shown { shown self.new ≡ shown self.old }
        ensures spare { spare self.old ≤ spare self.new }
        ensures room { OnOk result (additional ≤ spare self.new) };

    /// Puts the item at the end, with no memory, or returns it where it is refused.
    fn push(&mut self, needs: &Self::Needs, item: Released) -> Result<(), Released>
        requires spare { 0 < spare self.old }
        requires above { IsAboveLast (shown self.old).accepted item.stamp }
        ensures answer { may_accept (shown self.old) (is_ok result) }
        ensures accepted { OnOk result (shown self.new ≡ after_push item (shown self.old)) }
        ensures refused { OnErr result (shown self.new ≡ shown self.old) }
        ensures returned { IfErr result (λ returned. returned ≡ item) }
        ensures spare { spare self.old ≤ spare self.new + 1 };

    /// How many more items it takes, at least: its capacity less those that aren't known to be taken. Where somebody
    /// says how many were taken, it is told first. It takes no memory.
    fn room(&mut self, needs: &Self::Needs) -> usize
        ensures room { result ≡ room (shown self.new) }
        ensures told { (taken : ℕ) × (known_taken (shown self.old).gauge.taken ≤ taken)
            × (shown self.new ≡ shown_told taken (shown self.old)) }
        ensures spare { spare self.old ≤ spare self.new };

    /// A push is refused only where as many items as the capacity aren't known to be taken.
    ghost refuses_full: { (s : Shown) → may_accept s false → IsFull s };
}
