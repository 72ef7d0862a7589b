//! The subscriptions of a topic.

ghost use Rattle.std.specs.Prelude.{◌≡◌, ℕ, ◌+◌, ◌<◌, ◌≤◌, ◌==◌, [], length, map, slice_index_or, slice_set, Some, None, IfOk, OnOk, OnErr, IfErr};
ghost use Rattle.std.specs.List.{position, remove};
ghost use Rattle.mcast_txn.specs.Transaction.{TopicPart};
ghost use Rattle.sub_queue.specs.Shown.{next_index, room};
ghost use Rattle.sub_queue.specs.VecQueue.{after_take, shown_of};
ghost use Rattle.mcast_group.specs.CellGroup.{open_count};
ghost use Rattle.mcast_group.specs.Machine.{item_of, key};
ghost use Rattle.mcast_group.specs.Inner.Copies.{AreOf};
ghost use Rattle.mcast_group.specs.Inner.GroupInvariant.{Gave, HasHeard, IsReady, entry_of, gauge_of};
ghost use Rattle.mcast_group.specs.Inner.Subscriptions.{IsIndexFor, endless_count, insert_sub};
ghost use Rattle.mcast_group.specs.declared.subscription.Subscription.{Subscription};

use crate::copies::Copies;
use crate::pending::PendingPart;
use crate::subscription::Subscription;
use mcast_txn::{NoMemory, Stamp};
use std::alloc::Global;
use std::collections::VecDeque;
use std::marker::Model;
use sub_queue::{Outlet, VecOutlet};

/// The subscriptions of a topic, by rising number, so that one is found by halving; how many are open is counted. One
/// that is taken out moves those before or after it, whichever are fewer. In contracts it is the list of them.
pub(crate) struct Subscriptions<Q: Outlet + Drop> {
    subs: VecDeque<Subscription<Q>>,
    /// How many have no end.
    open_len: usize,
}

impl<Q: Outlet + Drop> Drop for Subscriptions<Q> {
    /// Written out, so that letting them go is one call for the prover wherever it happens.
    fn drop(self) {
        let Subscriptions { subs, open_len: _ } = self;
        drop(subs);
    }
}

impl<Q: Outlet + Drop> Model for Subscriptions<Q> {
    ghost use Rattle.std.specs.Prelude.{List};
    ghost use Rattle.mcast_group.specs.declared.subscription.Subscription.{Subscription};
    ghost use Rattle.mcast_group.specs.Inner.Subscriptions.{AreCounted};

    ghost Value = { List (Subscription Q) };

    ghost view = { λ s. s.subs.items };

    ghost invariant = { λ s. AreCounted s.subs.items s.open_len };
}

impl<Q: Outlet + Drop> Subscriptions<Q> {
    /// None, which take no memory.
    pub(crate) fn new(alloc: Global) -> Subscriptions<Q>
        ensures { result ≡ [] }
    {
        Subscriptions {
            subs: VecDeque::new(alloc),
            open_len: 0,
        }
    }

    /// How many there are.
    pub(crate) fn len(&self) -> usize
        ensures { result ≡ length self.now }
    {
        self.subs.len()
    }

    /// The subscription at an index.
    pub(crate) fn at(&self, index: usize) -> &Subscription<Q>
        requires { index < length self.now }
        ensures { result.now ≡ slice_index_or self.now index result.now }
    {
        &self.subs[index]
    }

    /// The index of the subscription of this number, or else the one at which it would come.
    pub(crate) fn search(&self, number: u64) -> Result<usize, usize>
        ensures found { IfOk result (λ i. position (λ s. s.number == number) self.now ≡ Some i) }
        ensures absent { OnErr result (position (λ s. s.number == number) self.now ≡ None) }
        ensures index { IfErr result (IsIndexFor number self.now) }
    {
        self.subs.binary_search_by_key(&number, |sub| sub.number)
    }

    /// The index of the subscription of this number.
    pub(crate) fn index_of(&self, number: u64) -> Option<usize>
        ensures { result ≡ position (λ s. s.number == number) self.now }
    {
        self.search(number).ok()
    }

    /// Puts an open subscription at the index where it comes; out of memory, it is returned.
    pub(crate) fn insert(
        &mut self,
        index: usize,
        sub: Subscription<Q>,
    ) -> Result<(), Subscription<Q>>
        requires at { IsIndexFor sub.number self.old index }
        requires begins { sub.to ≡ None }
        ensures ok { OnOk result (self.new ≡ insert_sub sub self.old) }
        ensures err { OnErr result (self.new ≡ self.old) }
        ensures returned { IfErr result (λ returned. returned ≡ sub) }
    {
        if let Err(failed) = self.subs.insert(index, sub) {
            return Err(failed.value);
        }
        self.open_len += 1;
        Ok(())
    }

    /// Takes out the subscription at an index; with the last one the room of all goes, too.
    pub(crate) fn remove(&mut self, index: usize) -> Subscription<Q>
        requires { index < length self.old }
        ensures value { result ≡ slice_index_or self.old index result }
        ensures items { self.new ≡ remove self.old index }
    {
        let sub = self.subs.remove(index).unwrap();
        if sub.to.is_none() {
            self.open_len -= 1;
        }
        free_empty(&mut self.subs);
        sub
    }

    /// Gives each open subscription a copy of the part.
    pub(crate) fn give_all(
        &mut self,
        needs: &Q::Needs,
        frontier: Stamp,
        part: &PendingPart,
        copies: &mut Copies,
    )
        requires ready { (k : ℕ) (d : Subscription Q) → k < length self.old
            → IsReady Q.shown Q.spare (key part.now) (slice_index_or self.old k d) }
        requires copies { AreOf part.now.part copies.old }
        requires many { open_count (map (entry_of Q.shown) self.old) ≤ length copies.old }
        ensures gave { Gave Q.shown Q.may_accept frontier (item_of part.now) self.old self.new }
        ensures spare { (k : ℕ) (d : Subscription Q) → k < length self.old
            → Q.spare (slice_index_or self.old k d).outlet
            ≤ Q.spare (slice_index_or self.new k d).outlet + 1 }
    {
        let left = give_each(&mut self.subs, needs, frontier, part, copies);
        self.open_len = left;
    }

    /// How many are open.
    pub(crate) fn open_len(&self) -> usize
        ensures { result ≡ open_count (map (entry_of Q.shown) self.now) }
    {
        self.open_len
    }

    /// Makes room for `more` items in the outlet of each open subscription; no spare falls.
    pub(crate) fn reserve_each(&mut self, more: usize) -> Result<(), NoMemory>
        ensures entries { map (entry_of Q.shown) self.new ≡ map (entry_of Q.shown) self.old }
        ensures gauges { map (gauge_of Q.shown) self.new ≡ map (gauge_of Q.shown) self.old }
        ensures spares { (k : ℕ) (d : Subscription Q) → k < length self.old
            → Q.spare (slice_index_or self.old k d).outlet ≤ Q.spare (slice_index_or self.new k d).outlet }
        ensures ok { OnOk result ((k : ℕ) (d : Subscription Q) → k < length self.old
            → (slice_index_or self.new k d).to ≡ None → more ≤ Q.spare (slice_index_or self.new k d).outlet) }
    {
        reserve_in_each(&mut self.subs, more)
    }

    /// How many more items the outlet of the subscription at an index takes, at least. It is told first how many were
    /// taken, where somebody says so.
    pub(crate) fn room(&mut self, needs: &Q::Needs, index: usize) -> usize
        requires { index < length self.old }
        ensures { (d : Subscription Q) → let sub = slice_index_or self.old index d in
            (outlet : Q) × HasHeard Q.shown Q.spare sub.outlet outlet × (result ≡ room (Q.shown outlet))
            × (self.new ≡ slice_set self.old index (record sub { outlet = outlet })) }
    {
        self.subs[index].outlet.room(needs)
    }
}

impl Subscriptions<VecOutlet> {
    /// Takes the next item of the subscription at an index, and returns its index.
    pub(crate) fn take(&mut self, index: usize) -> Option<usize>
        requires { index < length self.old }
        ensures next { (d : Subscription VecOutlet) → result
            ≡ next_index (shown_of (slice_index_or self.old index d).outlet) }
        ensures taken { (d : Subscription VecOutlet) → let sub = slice_index_or self.old index d in
            self.new ≡ slice_set self.old index (record sub { outlet = after_take sub.outlet }) }
    {
        self.subs[index].outlet.take()
    }
}

/// Gives each open subscription a copy of the part, and returns how many are open then.
fn give_each<Q: Outlet + Drop>(
    subs: &mut VecDeque<Subscription<Q>>,
    needs: &Q::Needs,
    frontier: Stamp,
    part: &PendingPart,
    copies: &mut Copies,
) -> usize
    requires ready { (k : ℕ) (d : Subscription Q) → k < length subs.old.items
        → IsReady Q.shown Q.spare (key part.now) (slice_index_or subs.old.items k d) }
    requires copies { AreOf part.now.part copies.old }
    requires many { open_count (map (entry_of Q.shown) subs.old.items) ≤ length copies.old }
    ensures gave { Gave Q.shown Q.may_accept frontier (item_of part.now) subs.old.items subs.new.items }
    ensures spare { (k : ℕ) (d : Subscription Q) → k < length subs.old.items
        → Q.spare (slice_index_or subs.old.items k d).outlet
        ≤ Q.spare (slice_index_or subs.new.items k d).outlet + 1 }
    ensures left { result ≡ endless_count subs.new.items }
{
    let mut left = 0;
    for i in 0..subs.len() {
        let sub = &mut subs[i];
        sub.give(needs, frontier, part, copies);
        if sub.to.is_none() {
            left += 1;
        }
    }
    left
}

/// Makes room for `more` items in the outlet of each open subscription.
fn reserve_in_each<Q: Outlet + Drop>(
    subs: &mut VecDeque<Subscription<Q>>,
    more: usize,
) -> Result<(), NoMemory>
    ensures entries { map (entry_of Q.shown) subs.new.items ≡ map (entry_of Q.shown) subs.old.items }
    ensures gauges { map (gauge_of Q.shown) subs.new.items ≡ map (gauge_of Q.shown) subs.old.items }
    ensures spares { (k : ℕ) (d : Subscription Q) → k < length subs.old.items
        → Q.spare (slice_index_or subs.old.items k d).outlet ≤ Q.spare (slice_index_or subs.new.items k d).outlet }
    ensures ok { OnOk result ((k : ℕ) (d : Subscription Q) → k < length subs.old.items
        → (slice_index_or subs.new.items k d).to ≡ None → more ≤ Q.spare (slice_index_or subs.new.items k d).outlet) }
{
    for i in 0..subs.len() {
        subs[i].reserve(more)?;
    }
    Ok(())
}

/// Gives the room of a list without items back.
fn free_empty<T: Drop>(list: &mut VecDeque<T>)
    ensures { list.new.items ≡ list.old.items }
{
    if list.is_empty() {
        *list = VecDeque::new(*list.allocator());
    }
}
