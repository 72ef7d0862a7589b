//! Room that is reserved at a topic, and who is waited for there.

ghost use Rattle.std.specs.Prelude.{◌≡◌, ◌≤◌, ◌<◌, ◌+◌, ◌^◌, ◌++◌, ◌==◌, ◌&&◌, nat_lt, ℕ, [], true, false, filter, not, Some, None, IfOk, IfErr, IfSome, IfNone, OnOk, OnErr, drop, take, length};
ghost use Rattle.std.specs.List.{find, list_any};
ghost use Rattle.mcast_txn.proofs.Rising.{Finds, IsGap};
ghost use Rattle.mcast_txn.specs.Lists.{In, RisesBy};
ghost use Rattle.mcast_group.specs.Group.{IsTold};
ghost use Rattle.broker_locks.specs.Inner.Waited.{HaveSpare, spare_after_enter, waited_number};
ghost use Rattle.broker_locks.specs.Room.{HasHeard, HasRoom, IsFirstOfLacking, IsPushed, asked_from, due_at, fits, is_waited_for};
ghost use Rattle.broker_locks.specs.Room.{lacking_room, one_given_back, one_reserved, passing_over, reserve_answer, room_after_enter, waiting_for, waiting_without, wanted};

use crate::part_octets::PartOctets;
use crate::place::Place;
use mcast_group::SubState;
use mcast_txn::NoMemory;
use std::alloc::Global;
use std::marker::Model;
use std::sync::Wait;

/// Room that is reserved at a topic for so many parts that weren't entered yet, and the numbers of the subscriptions
/// that are waited for there, rising: nobody enters a part with a reservation that one of them has no room for.
pub(crate) struct Room {
    alloc: Global,
    reserved: u64,
    waited: Vec<u64>,
}

impl Drop for Room {
    /// Written out, as at `Place`.
    fn drop(self) {
        let Room {
            alloc: _,
            reserved: _,
            waited,
        } = self;
        drop(waited);
    }
}

impl Model for Room {
    ghost use Rattle.mcast_txn.specs.Lists.{RisesBy};
    ghost use Rattle.broker_locks.specs.Inner.Waited.{waited_number};
    ghost use Rattle.broker_locks.specs.Room.{RoomState};

    ghost Value = { RoomState };

    ghost view = { λ r. record { reserved = r.reserved; waited = r.waited.items } };

    ghost invariant = { λ r. RisesBy waited_number r.waited.items };
}

impl Room {
    /// Nothing is reserved, and nobody is waited for. It takes no memory.
    pub(crate) fn new(alloc: Global) -> Room
        ensures { result ≡ record { reserved = 0; waited = [] } }
    {
        Room {
            alloc,
            reserved: 0,
            waited: Vec::new(alloc),
        }
    }

    /// How many parts are due at its topic: those that are pending, and those for which room is reserved.
    fn due<R: Wait>(&self, place: &Place<R>) -> u128
        ensures due { result ≡ due_at self.now place.now.cells.group }
        ensures few { result < 2 ^ 65 }
    {
        let pending = place.group().pending_len() as u64;
        u128::from(pending) + u128::from(self.reserved)
    }

    /// How many places have to be free in a queue of this capacity for one part more, of so many octets.
    fn wanted<R: Wait>(&self, capacity: usize, octets: PartOctets, place: &Place<R>) -> u128
        ensures { result ≡ wanted capacity octets.0 self.now place.now.cells.group }
    {
        self.due(place) + u128::from(octets.places(capacity))
    }

    /// Reserves room for one part more, of so many octets, where queues are of this capacity. `spare` is how many items
    /// more than parts are due each that is waited for takes at least: where that is too little, they are asked what was
    /// taken, from the number `start` on and then those below it, and it is found anew. Refused by the first of them that
    /// lacks room, or by none where a whole queue has too little beside what is due.
    pub(crate) fn reserve<R: Wait>(
        &mut self,
        rt: &R,
        capacity: usize,
        octets: PartOctets,
        start: u64,
        place: &mut Place<R>,
        spare: &mut u64,
    ) -> Result<(), Option<u64>>
        requires { HaveSpare spare.old self.old place.old.cells.group }
        ensures heard { HasHeard place.old place.new }
        ensures answer { result ≡ reserve_answer capacity octets.0 start self.old place.new.cells.group }
        ensures ok { OnOk result (self.new ≡ one_reserved self.old) }
        ensures spare { OnOk result (HaveSpare spare.new self.new place.new.cells.group) }
        ensures err { OnErr result (self.new ≡ self.old) }
        ensures same { OnErr result (spare.new ≡ spare.old) }
    {
        let due = self.due(place);
        let places = octets.places(capacity);
        let wanted = due + u128::from(places);
        if wanted > capacity as u128 {
            return Err(None);
        }
        if *spare >= places {
            *spare -= 1;
            self.reserved += 1;
            return Ok(());
        }
        match least_spare(rt, wanted, start, &self.waited, place) {
            Ok(least) => {
                *spare = least.saturating_add(places - 1);
                self.reserved += 1;
                Ok(())
            }
            Err(number) => Err(Some(number)),
        }
    }

    /// Gives back what was reserved for one part, where it is reserved.
    pub(crate) fn give_back(&mut self)
        ensures { self.new ≡ one_given_back self.old }
    {
        self.reserved = self.reserved.saturating_sub(1);
    }

    /// Whether a part that is entered with a reservation, or without, uses one up.
    fn has_reserved(&self, with_reserved: bool) -> bool
        ensures { result ≡ with_reserved && nat_lt 0 self.now.reserved }
    {
        with_reserved && self.reserved > 0
    }

    /// A part was entered: with a reservation, where there is one, that is used up; else the spare, of which one is
    /// used up; and else who has no room now is passed over.
    pub(crate) fn enter<R: Wait>(
        &mut self,
        rt: &R,
        with_reserved: bool,
        place: &mut Place<R>,
        spare: &mut u64,
    )
        requires { 0 < spare.old → HaveSpare 0 self.old place.old.cells.group }
        ensures heard { HasHeard place.old place.new }
        ensures room { self.new ≡ room_after_enter with_reserved place.new.cells.group self.old }
        ensures spare { spare.new ≡ spare_after_enter with_reserved self.old spare.old }
    {
        if self.has_reserved(with_reserved) {
            self.give_back();
            return;
        }
        if *spare > 0 {
            *spare -= 1;
            return;
        }
        self.pass_over_full(rt, place);
    }

    /// Those that are waited for and have no room for all parts that are due are passed over, once they were asked
    /// what was taken.
    pub(crate) fn pass_over_full<R: Wait>(&mut self, rt: &R, place: &mut Place<R>)
        ensures heard { HasHeard place.old place.new }
        ensures passed { self.new ≡ passing_over place.new.cells.group self.old }
    {
        let due = self.due(place);
        keep_fitting(rt, due, &mut self.waited, place);
        self.free_empty();
    }

    /// The index of the subscription of this number among those that are waited for, or else the one at which it would
    /// come.
    fn search(&self, number: u64) -> Result<usize, usize>
        ensures { Finds waited_number self.now.waited number result }
    {
        self.waited.binary_search_by_key(&number, |other| *other)
    }

    /// Whether this subscription is waited for.
    fn is_waited_for(&self, number: u64) -> bool
        ensures { result ≡ is_waited_for number self.now }
    {
        self.search(number).is_ok()
    }

    /// Whether the subscription is waited for from now on: it is open, and its queue, of this capacity, is known to be
    /// empty and takes all parts that are due, once it was asked what was taken; the spare is then no more than it has
    /// beside them. So it is where it was waited for. Not where there is no memory for one place more in the list of them.
    pub(crate) fn wait_for<R: Wait>(
        &mut self,
        rt: &R,
        capacity: usize,
        number: u64,
        place: &mut Place<R>,
        spare: &mut u64,
    ) -> bool
        ensures heard { HasHeard place.old place.new }
        ensures yes { result ≡ true → self.new ≡ waiting_for number self.old }
        ensures has { result ≡ true → is_waited_for number self.old ≡ false
            → HasRoom (due_at self.old place.new.cells.group + spare.new) place.new.cells.group number }
        ensures empty { result ≡ true → is_waited_for number self.old ≡ false
            → fits capacity place.new.cells.group number ≡ true }
        ensures was { result ≡ false → is_waited_for number self.old ≡ false }
        ensures no { result ≡ false → self.new ≡ self.old }
        ensures spare { spare.new ≤ spare.old }
    {
        let Err(index) = self.search(number) else {
            return true;
        };
        let due = self.due(place);
        let least = due.max(capacity as u128);
        let Some(more) = ready_spare(rt, least, number, place) else {
            return false;
        };
        if !self.put(index, number) {
            return false;
        }
        *spare = (*spare).min(more.saturating_add((least - due) as u64));
        true
    }

    /// Puts a number among those that are waited for, at the index where it comes. Not where there is no memory for
    /// it.
    fn put(&mut self, index: usize, number: u64) -> bool
        requires { IsGap waited_number self.old.waited number index }
        ensures yes { result ≡ true → self.new ≡ waiting_for number self.old }
        ensures no { result ≡ false → self.new ≡ self.old }
    {
        self.waited.insert(index, number).is_ok()
    }

    /// The subscription is waited for no longer.
    pub(crate) fn forget(&mut self, number: u64)
        ensures { self.new ≡ waiting_without number self.old }
    {
        if let Ok(index) = self.search(number) {
            self.waited.remove(index);
            self.free_empty();
        }
    }

    /// Adds the numbers of those that are waited for and lack room for one part more, of so many octets, to a list, where
    /// queues are of this capacity, once they were asked what was taken. Out of memory, the first of them were added.
    pub(crate) fn lacking<R: Wait>(
        &self,
        rt: &R,
        capacity: usize,
        octets: PartOctets,
        place: &mut Place<R>,
        list: &mut Vec<u64>,
    ) -> Result<(), NoMemory>
        ensures heard { HasHeard place.old place.new }
        ensures ok { OnOk result
            (list.new.items ≡ list.old.items ++ lacking_room capacity octets.0 place.new.cells.group self.now) }
        ensures err { OnErr result
            (IsFirstOfLacking capacity octets.0 place.new.cells.group self.now list.old.items list.new.items) }
    {
        let wanted = self.wanted(capacity, octets, place);
        if wanted > capacity as u128 {
            return Ok(());
        }
        add_lacking(rt, wanted, &self.waited, place, list)
    }

    /// Whether this subscription was waited for and lacked room for one part more, of so many octets, as `lacking` says:
    /// then it is waited for no longer.
    pub(crate) fn pass_over<R: Wait>(
        &mut self,
        rt: &R,
        capacity: usize,
        octets: PartOctets,
        number: u64,
        place: &mut Place<R>,
    ) -> bool
        ensures heard { HasHeard place.old place.new }
        ensures answer { result ≡ list_any (λ n. n == number) (lacking_room capacity octets.0 place.new.cells.group self.old) }
        ensures yes { result ≡ true → self.new ≡ waiting_without number self.old }
        ensures no { result ≡ false → self.new ≡ self.old }
    {
        let wanted = self.wanted(capacity, octets, place);
        if wanted > capacity as u128 {
            return false;
        }
        if !self.is_waited_for(number) {
            return false;
        }
        if takes(rt, wanted, number, place) {
            return false;
        }
        self.forget(number);
        true
    }

    /// Gives the memory of the list back where nobody is waited for: a small block that lies above others would keep
    /// all that the allocator has below it from the system.
    fn free_empty(&mut self)
        ensures { self.new ≡ self.old }
    {
        if self.waited.is_empty() {
            self.waited = Vec::new(self.alloc);
        }
    }
}

/// How many items more than these the outlet of the subscription of this number takes at least, where it is open and
/// takes these, once it was asked what was taken.
fn ready_spare<R: Wait>(rt: &R, due: u128, number: u64, place: &mut Place<R>) -> Option<u64>
    ensures heard { HasHeard place.old place.new }
    ensures has { IfSome result (λ more. HasRoom (due + more) place.new.cells.group number) }
{
    if place.state(number) != Some(SubState::Open) {
        return None;
    }
    spare_of(rt, due, number, place)
}

/// How many items more than these the outlet of the subscription of this number takes at least, if there is one that
/// takes these, once it was asked what was taken.
fn spare_of<R: Wait>(rt: &R, due: u128, number: u64, place: &mut Place<R>) -> Option<u64>
    ensures told { IsTold number place.old.cells.group place.new.cells.group }
    ensures heard { HasHeard place.old place.new }
    ensures some { IfSome result (λ more. fits (due + more) place.new.cells.group number ≡ true) }
    ensures none { IfNone result (fits due place.new.cells.group number ≡ false) }
{
    let room = place.room(rt, number)?;
    if room as u128 >= due {
        Some((room as u128 - due) as u64)
    } else {
        None
    }
}

/// Whether the outlet of the subscription of this number, if there is one, takes so many items more, once it was asked
/// what was taken.
fn takes<R: Wait>(rt: &R, due: u128, number: u64, place: &mut Place<R>) -> bool
    ensures told { IsTold number place.old.cells.group place.new.cells.group }
    ensures heard { HasHeard place.old place.new }
    ensures answer { result ≡ fits due place.new.cells.group number }
{
    spare_of(rt, due, number, place).is_some()
}

/// The index of the first of these subscriptions whose number is this one or above.
fn first_from(waited: &[u64], start: u64) -> usize
    requires { RisesBy waited_number waited.now }
    ensures within { result ≤ length waited.now }
    ensures parts { asked_from start waited.now ≡ drop result waited.now ++ take result waited.now }
{
    match waited.binary_search_by_key(&start, |other| *other) {
        Ok(index) => index,
        Err(index) => index,
    }
}

/// How many items more than these each of these subscriptions takes at least; or the first that doesn't take these, from
/// the number `start` on and then of those below it.
fn least_spare<R: Wait>(
    rt: &R,
    due: u128,
    start: u64,
    waited: &[u64],
    place: &mut Place<R>,
) -> Result<u64, u64>
    requires { RisesBy waited_number waited.now }
    ensures heard { HasHeard place.old place.new }
    ensures each { IfOk result (λ least. (n : ℕ) → In n waited.now
        → fits (due + least) place.new.cells.group n ≡ true) }
    ensures none { OnOk result
        (find (λ n. not (fits due place.new.cells.group n)) (asked_from start waited.now) ≡ None) }
    ensures first { IfErr result (λ number.
        find (λ n. not (fits due place.new.cells.group n)) (asked_from start waited.now) ≡ Some number) }
{
    let (below, above) = waited.split_at(first_from(waited, start));
    let least = least_among(rt, due, u64::MAX, above, place)?;
    least_among(rt, due, least, below, place)
}

/// How many items more than these each of these subscriptions takes at least, or this number where it is less; or the
/// first of them that doesn't take these.
fn least_among<R: Wait>(
    rt: &R,
    due: u128,
    most: u64,
    waited: &[u64],
    place: &mut Place<R>,
) -> Result<u64, u64>
    ensures heard { HasHeard place.old place.new }
    ensures at_most { IfOk result (λ least. least ≤ most) }
    ensures each { IfOk result (λ least. (n : ℕ) → In n waited.now
        → fits (due + least) place.new.cells.group n ≡ true) }
    ensures none { OnOk result (find (λ n. not (fits due place.new.cells.group n)) waited.now ≡ None) }
    ensures first { IfErr result
        (λ number. find (λ n. not (fits due place.new.cells.group n)) waited.now ≡ Some number) }
{
    let mut least = most;
    for &number in waited {
        match spare_of(rt, due, number, place) {
            Some(more) => least = least.min(more),
            None => return Err(number),
        }
    }
    Ok(least)
}

/// Keeps those that take so many items more.
fn keep_fitting<R: Wait>(rt: &R, due: u128, waited: &mut Vec<u64>, place: &mut Place<R>)
    requires { RisesBy waited_number waited.old.items }
    ensures heard { HasHeard place.old place.new }
    ensures kept { waited.new.items ≡ filter (fits due place.new.cells.group) waited.old.items }
{
    let mut kept = 0;
    for index in 0..waited.len() {
        let number = waited[index];
        if takes(rt, due, number, place) {
            waited[kept] = number;
            kept += 1;
        }
    }
    waited.truncate(kept);
}

/// Adds those that don't take so many items more to a list. Out of memory, the first of them were added.
fn add_lacking<R: Wait>(
    rt: &R,
    due: u128,
    waited: &[u64],
    place: &mut Place<R>,
    list: &mut Vec<u64>,
) -> Result<(), NoMemory>
    requires { RisesBy waited_number waited.now }
    ensures heard { HasHeard place.old place.new }
    ensures ok { OnOk result (list.new.items
        ≡ list.old.items ++ filter (λ n. not (fits due place.new.cells.group n)) waited.now) }
    ensures err { OnErr result (IsPushed (filter (λ n. not (fits due place.new.cells.group n)) waited.now)
        list.old.items list.new.items) }
{
    for &number in waited {
        if !takes(rt, due, number, place) {
            list.push(number)?;
        }
    }
    Ok(())
}
