//! A queue in memory of capacity 2 and one of capacity 0, row by row, and queues that two threads share. The tests hold
//! whichever one allocation fails (`rt try --test --fail-alloc N`): a refused `reserve` changes nothing that is shown,
//! and the same call then succeeds.

ghost use Rattle.std.specs.Prelude.{◌≡◌, ◌<◌, true, IfSome};
ghost use Rattle.sub_queue.specs.Shown.{IsAboveLast};

mod room;
mod shared;
mod told;

use crate::{Outlet, VecOutlet};
use mcast_txn::{Flight, Headers, Octets, Released, Sender, Stamp, Topic, Txn, TxnId};
use std::alloc::Global;

/// A call of a queue.
#[derive(Clone, Copy)]
enum Call {
    /// Push the item of this number.
    Push(u64),
    Take,
    Room,
}

/// What a call answered.
#[derive(Clone, Copy, PartialEq, Eq)]
enum Answer {
    Accepted,
    /// The item of this number was returned.
    Returned(u64),
    /// The item of this number was taken.
    Took(u64),
    Nothing,
    /// There is room for so many items.
    HasRoom(usize),
}

use Answer::{Accepted, HasRoom, Nothing, Returned, Took};
use Call::{Push, Room, Take};

/// The item of the transaction of this number, with a stamp of this number, if there is memory.
fn made(alloc: Global, n: u64) -> Option<Released>
    ensures { IfSome result (λ item. item.stamp.n ≡ n) }
{
    let sender = Sender(7);
    let topic = Topic(0);
    let flight = Flight::new(alloc, TxnId { sender, seq: n }).ok()?;
    let txn = Txn::single(alloc, topic, Headers::new(alloc), Octets::new(alloc)).ok()?;
    let mut parts = txn.split(alloc, &flight).ok()?;
    let part = parts.part(topic)?;
    let stamp = Stamp { n, topic };
    Some(Released { part, stamp })
}

/// The item of this number, as it is made the first or the second time.
fn item(alloc: Global, n: u64) -> Option<Released>
    ensures { IfSome result (λ item. item.stamp.n ≡ n) }
{
    match made(alloc, n) {
        Some(item) => Some(item),
        None => made(alloc, n),
    }
}

/// Whether there is room for one push, the first or the second time. Where it is refused, nothing shown has changed.
fn has_reserved(outlet: &mut VecOutlet) -> bool
    ensures spare { result ≡ true → 0 < outlet.new.spare }
{
    let (pushed, taken) = (outlet.pushed(), outlet.taken());
    if outlet.reserve(1).is_ok() {
        return true;
    }
    if outlet.pushed() != pushed || outlet.taken() != taken {
        return false;
    }
    outlet.reserve(1).is_ok()
}

/// Whether the stamp is above that of the last item that the queue accepted.
#[tactic(auto, using(crate::proofs::RisingItems::last_by_index))]
fn is_above_last(outlet: &VecOutlet, stamp: Stamp) -> bool
    ensures { result ≡ true → IsAboveLast outlet.now.accepted stamp }
{
    let len = outlet.pushed();
    if len == 0 {
        return true;
    }
    match outlet.get(len - 1) {
        Some(last) => last.stamp.is_before(stamp),
        None => false,
    }
}

/// What any outlet answers to a push.
fn pushed_to<Q: Outlet>(outlet: &mut Q, needs: &Q::Needs, item: Released) -> Answer
    requires spare { 0 < Q.spare outlet.old }
    requires above { IsAboveLast (Q.shown outlet.old).accepted item.stamp }
{
    match outlet.push(needs, item) {
        Ok(()) => Accepted,
        Err(item) => Returned(item.part.id().seq),
    }
}

/// What the queue answers to a push of the item of this number, which is above the last.
fn pushed(alloc: Global, outlet: &mut VecOutlet, n: u64) -> Option<Answer> {
    let item = item(alloc, n)?;
    if !has_reserved(outlet) || !is_above_last(outlet, item.stamp) {
        return None;
    }
    Some(pushed_to(outlet, &(), item))
}

/// What the queue answers to a take.
fn taken(outlet: &mut VecOutlet) -> Option<Answer> {
    let Some(index) = outlet.take() else {
        return Some(Nothing);
    };
    Some(Took(outlet.get(index)?.part.id().seq))
}

/// Whether an empty queue of this capacity answers each of these calls as is written beside it, and has then accepted
/// and given this many items.
fn answers(
    alloc: Global,
    capacity: usize,
    rows: &[(Call, Answer)],
    counts: (usize, usize),
) -> bool {
    let mut outlet = VecOutlet::new(alloc, capacity);
    for &(call, wanted) in rows {
        let answer = match call {
            Push(n) => pushed(alloc, &mut outlet, n),
            Take => taken(&mut outlet),
            Room => Some(HasRoom(outlet.room(&()))),
        };
        if answer != Some(wanted) {
            return false;
        }
    }
    (outlet.pushed(), outlet.taken()) == counts
}

/// At most two items are untaken. A full queue returns what it refuses, and has room again after a take.
const OF_TWO: [(Call, Answer); 12] = [
    (Take, Nothing),
    (Push(1), Accepted),
    (Push(2), Accepted),
    (Push(3), Returned(3)),
    (Take, Took(1)),
    (Push(4), Accepted),
    (Push(5), Returned(5)),
    (Take, Took(2)),
    (Take, Took(4)),
    (Take, Nothing),
    (Push(6), Accepted),
    (Take, Took(6)),
];

#[test]
fn at_most_the_capacity_is_untaken(rt: HostRuntime) {
    assert!(rt; answers(rt.alloc(), 2, &OF_TWO, (4, 4)));
}

#[test]
fn a_queue_of_no_capacity_refuses_each(rt: HostRuntime) {
    let rows = [
        (Push(1), Returned(1)),
        (Take, Nothing),
        (Push(2), Returned(2)),
    ];
    assert!(rt; answers(rt.alloc(), 0, &rows, (0, 0)));
}

#[test]
fn what_was_not_taken_is_left(rt: HostRuntime) {
    let rows = [(Push(1), Accepted), (Push(2), Accepted), (Take, Took(1))];
    assert!(rt; answers(rt.alloc(), 3, &rows, (2, 1)));
}

/// The room is the capacity less what is untaken, from an empty queue to a full one.
const ROOM_OF_TWO: [(Call, Answer); 11] = [
    (Room, HasRoom(2)),
    (Push(1), Accepted),
    (Room, HasRoom(1)),
    (Room, HasRoom(1)),
    (Push(2), Accepted),
    (Room, HasRoom(0)),
    (Push(3), Returned(3)),
    (Room, HasRoom(0)),
    (Take, Took(1)),
    (Room, HasRoom(1)),
    (Push(4), Accepted),
];

#[test]
fn the_room_is_what_the_capacity_leaves(rt: HostRuntime) {
    assert!(rt; answers(rt.alloc(), 2, &ROOM_OF_TWO, (3, 1)));
}

#[test]
fn a_queue_of_no_capacity_has_no_room(rt: HostRuntime) {
    let rows = [
        (Room, HasRoom(0)),
        (Push(1), Returned(1)),
        (Room, HasRoom(0)),
    ];
    assert!(rt; answers(rt.alloc(), 0, &rows, (0, 0)));
}
