//! A queue that is a vector.

ghost use Rattle.std.specs.Prelude.{◌≡◌, [], length, slice_get, Some};
ghost use Rattle.std.proofs.Common.{sym};
ghost use Rattle.std.proofs.lemmas.Bool.{ltb-false};
ghost use Rattle.std.specs.Option.{option_map};
ghost use Rattle.sub_queue.specs.Shown.{has_room, next_index, room, untaken};
ghost use Rattle.sub_queue.specs.VecQueue.{KeepsCapacity, shown_of, after_take};

use crate::outlet::Outlet;
use mcast_txn::{NoMemory, Released};
use std::alloc::Global;
use std::marker::Model;

/// A queue that is a vector: all items that it accepted, of which the first were taken. It accepts an item exactly
/// where fewer than its capacity are untaken. In contracts it is what it shows, and how many pushes need no memory.
pub struct VecOutlet {
    items: Vec<Released>,
    capacity: usize,
    taken: usize,
}

impl Drop for VecOutlet {
    /// Written out, so that letting a queue go is one call for the prover wherever it happens.
    fn drop(self) {
        let VecOutlet {
            items,
            capacity: _,
            taken: _,
        } = self;
        drop(items);
    }
}

impl Model for VecOutlet {
    ghost use Rattle.std.specs.Prelude.{◌-◌, vec_len, vec_capacity};
    ghost use Rattle.sub_queue.specs.VecQueue.{VecQueue, KeepsCapacity};

    ghost Value = { VecQueue };

    ghost view = { λ o. record {
      accepted = o.items.items;
      capacity = o.capacity;
      taken = o.taken;
      spare = vec_capacity o.items - vec_len o.items;
    } };

    ghost invariant = { λ o. KeepsCapacity o.items.items o.capacity o.taken };
}

impl VecOutlet {
    /// An empty queue, with room for at most `capacity` untaken items. It takes no memory yet.
    pub fn new(alloc: Global, capacity: usize) -> VecOutlet
        ensures { shown_of result
            ≡ record { accepted = []; gauge = record { capacity = capacity; taken = Some 0 } } }
    {
        VecOutlet {
            items: Vec::new(alloc),
            capacity,
            taken: 0,
        }
    }

    /// How many items it accepted.
    pub fn pushed(&self) -> usize
        ensures { result ≡ length self.now.accepted }
    {
        self.items.len()
    }

    /// How many of them were taken: the first of those accepted, of which at most the capacity are untaken.
    pub fn taken(&self) -> usize
        ensures taken { result ≡ self.now.taken }
        ensures keeps { KeepsCapacity self.now.accepted self.now.capacity self.now.taken }
    {
        self.taken
    }

    /// The item of this index among those that it accepted, from 0.
    pub fn get(&self, index: usize) -> Option<&Released>
        ensures { option_map (λ item. item.now) result ≡ slice_get self.now.accepted index }
    {
        self.items.get(index)
    }

    /// Takes the next item, with no memory, and returns its index: `None` exactly where all were taken.
    pub fn take(&mut self) -> Option<usize>
        ensures next { result ≡ next_index (shown_of self.old) }
        ensures taken { self.new ≡ after_take self.old }
    {
        let index = self.taken;
        if index >= self.items.len() {
            return None;
        }
        self.taken += 1;
        Some(index)
    }
}

impl Outlet for VecOutlet {
    type Needs = ();

    ghost shown = { shown_of };

    ghost spare = { λ o. o.spare };

    ghost may_accept = { λ s answer. answer ≡ has_room s };

    /// Makes room for this number of items.
    fn reserve(&mut self, additional: usize) -> Result<(), NoMemory> {
        self.items.reserve(additional)?;
        Ok(())
    }

    /// Puts the item at the end, or returns it where as many items as the capacity are untaken.
    fn push(&mut self, _needs: &(), item: Released) -> Result<(), Released> {
        if self.items.len() - self.taken >= self.capacity {
            return Err(item);
        }
        self.items.push_reserved(item);
        Ok(())
    }

    /// How many more items it takes. It knows which were taken.
    fn room(&mut self, _needs: &()) -> usize
        ensures room { result ≡ room (shown_of self.old) }
        ensures same { self.new ≡ self.old }
    {
        let untaken = self.items.len() - self.taken;
        self.capacity - untaken
    }

    ghost refuses_full = { λ s no. ltb-false (untaken s) s.gauge.capacity (sym no) };
}
