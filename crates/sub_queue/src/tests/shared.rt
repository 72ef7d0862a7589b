//! Queues that two threads share. A taker may see any part of what is pushed while it looks; with what is left it has
//! seen all of it, in order.

ghost use Rattle.std.specs.Prelude.{◌≡◌, ◌<◌, [], None, IfSome, IfOk};
ghost use Rattle.std.proofs.Props.{props};
ghost use Rattle.std.specs.List.{last_or};

use super::Answer::{self, Accepted, Nothing, Returned, Took};
use super::item;
use crate::{Left, Outlet, Source, Taker, close, ruled};
use mcast_txn::{NoMemory, Released};
use std::alloc::Global;
use std::sync::Wait;
use std::thread;
use std::thread::Threads;

/// How many items are pushed at most.
const ITEMS: u64 = 1_000;

/// How often the taker looks.
const LOOKS: u64 = 10_000;

/// A source, and the number of its next item, which is above those that it pushed.
#[derive(Drop)]
pub(super) struct Pusher<R> {
    pub(super) source: Source<R>,
    pub(super) next: u64,
    pub(super) ghost below: { IfSome (last_or None source.items) (λ item. item.stamp.n < next) } by { Prim.hlevel props },
}

impl<R: Wait> Pusher<R> {
    /// What the queue answers to a push of the item of the next number, if there is memory for that.
    #[tactic(auto, using(crate::proofs::RisingItems::above_by_number, crate::proofs::RisingItems::last_after_push))]
    pub(super) fn push(&mut self, rt: &R, alloc: Global) -> Option<Answer>
        ensures { self.new.source.queue ≡ self.old.source.queue }
    {
        let number = self.next;
        let after = number.checked_add(1)?;
        let item = item(alloc, number)?;
        let Pusher { source, next } = self;
        let answer = match source.push(rt, item) {
            Ok(()) => Accepted,
            Err(item) => Returned(item.part.id().seq),
        };
        *next = after;
        Some(answer)
    }

    /// For how many items it finds room.
    pub(super) fn room(&mut self, rt: &R) -> usize
        ensures { self.new.source.queue ≡ self.old.source.queue }
    {
        self.source.room(rt)
    }
}

/// How many items were seen, and whether the k-th of them was item k, from 0.
#[derive(Clone, Copy, PartialEq, Eq)]
struct Seen {
    items: u64,
    in_order: bool,
}

impl Seen {
    fn and(self, item: &Released) -> Seen {
        Seen {
            items: self.items.saturating_add(1),
            in_order: self.in_order
                && item.part.id().seq == self.items
                && item.stamp.n == self.items,
        }
    }
}

/// Pushes item 0 and on, up to the first that is refused. How many entered.
fn push_all<R: Wait>(rt: &R, alloc: Global, pusher: Pusher<R>) -> (Pusher<R>, u64)
    ensures { result.0.source.queue ≡ pusher.source.queue }
{
    let mut pusher = pusher;
    for n in 0..ITEMS {
        if pusher.push(rt, alloc) != Some(Accepted) {
            return (pusher, n);
        }
    }
    (pusher, ITEMS)
}

/// Takes what comes while it looks.
fn take_all<R: Wait>(rt: &R, taker: Taker) -> (Taker, Seen)
    ensures { result.0.queue ≡ taker.queue }
{
    let mut taker = taker;
    let mut seen = Seen {
        items: 0,
        in_order: true,
    };
    for _ in 0..LOOKS {
        match taker.take(rt) {
            Some(item) => seen = seen.and(&item),
            None => thread::yield_now(),
        }
    }
    (taker, seen)
}

/// What was seen, and then what is left.
fn see_rest<R: Wait>(rt: &R, left: &mut Left, seen: Seen) -> Seen {
    let mut seen = seen;
    for _ in 0..ITEMS {
        match left.next(rt) {
            Some(item) => seen = seen.and(&item),
            None => return seen,
        }
    }
    seen
}

/// A queue of this capacity, the first or the second time.
pub(super) fn ends<R>(alloc: Global, capacity: usize) -> Result<(Source<R>, Taker), NoMemory>
    requires { 0 < capacity }
    ensures one { IfOk result (λ ends. ends.1.queue ≡ ends.0.queue) }
    ensures empty { IfOk result (λ ends. ends.0.items ≡ []) }
{
    match ruled(alloc, capacity) {
        Ok(ends) => Ok(ends),
        Err(NoMemory) => ruled(alloc, capacity),
    }
}

/// What two threads did to a queue: how many items were pushed, how many of them were taken and left, and what was seen
/// in all.
#[derive(Clone, Copy)]
struct Counts {
    pushed: u64,
    taken: u64,
    left: u64,
    seen: Seen,
    is_empty: bool,
}

/// One thread pushes into a queue of this capacity, and another takes.
fn pumped<R>(rt: &R, alloc: Global, capacity: usize) -> Option<Counts>
where
    R: Threads + Wait + Sync + Send,
    requires { 0 < capacity }
{
    let (source, taker) = ends::<R>(alloc, capacity).ok()?;
    let pusher = Pusher { source, next: 0 };
    let ((pusher, pushed), (taker, taken)) = thread::join(
        rt,
        move || -> (Pusher<R>, u64)
            ensures { result.0.source.queue ≡ pusher.source.queue }
        { push_all(rt, alloc, pusher) },
        move || -> (Taker, Seen)
            ensures { result.0.queue ≡ taker.queue }
        { take_all(rt, taker) },
    );
    let mut rest = close(pusher.source, taker);
    let left = rest.len(rt) as u64;
    let seen = see_rest(rt, &mut rest, taken);
    let is_empty = rest.next(rt).is_none() && rest.len(rt) == 0;
    Some(Counts {
        pushed,
        taken: taken.items,
        left,
        seen,
        is_empty,
    })
}

/// Whether all that was pushed was seen, in order, and at least `capacity` items were.
fn sees_all(counts: &Counts, capacity: u64) -> bool {
    let all = Seen {
        items: counts.pushed,
        in_order: true,
    };
    counts.seen == all
        && counts.pushed >= capacity
        && counts.taken.checked_add(counts.left) == Some(counts.pushed)
        && counts.left <= capacity
        && counts.is_empty
}

#[test]
fn two_threads_share_a_queue_of_64(rt: HostRuntime) {
    let counts = pumped(&rt, rt.alloc(), 64);
    assert!(rt; counts.is_some_and(|counts| sees_all(&counts, 64)));
}

#[test]
fn two_threads_share_a_queue_of_one(rt: HostRuntime) {
    let counts = pumped(&rt, rt.alloc(), 1);
    assert!(rt; counts.is_some_and(|counts| sees_all(&counts, 1)));
}

/// What a take answers.
pub(super) fn taken<R: Wait>(rt: &R, taker: &mut Taker) -> Answer
    ensures { taker.new.queue ≡ taker.old.queue }
{
    match taker.take(rt) {
        Some(item) => Took(item.part.id().seq),
        None => Nothing,
    }
}

/// What a queue answers to two takes, two pushes, two takes, a push and two takes.
fn nine_answers<R: Wait>(
    rt: &R,
    alloc: Global,
    pusher: &mut Pusher<R>,
    taker: &mut Taker,
) -> Option<[Answer; 9]> {
    Some([
        taken(rt, taker),
        taken(rt, taker),
        pusher.push(rt, alloc)?,
        pusher.push(rt, alloc)?,
        taken(rt, taker),
        taken(rt, taker),
        pusher.push(rt, alloc)?,
        taken(rt, taker),
        taken(rt, taker),
    ])
}

/// What a queue of capacity 1 answers to one thread.
fn queue_of_one<R: Wait>(rt: &R, alloc: Global) -> Option<[Answer; 9]> {
    let (source, mut taker) = ends::<R>(alloc, 1).ok()?;
    let mut pusher = Pusher { source, next: 0 };
    nine_answers(rt, alloc, &mut pusher, &mut taker)
}

#[test]
fn an_empty_queue_gives_nothing_and_a_full_one_returns(rt: HostRuntime) {
    let wanted = [
        Nothing,
        Nothing,
        Accepted,
        Returned(1),
        Took(0),
        Nothing,
        Accepted,
        Took(2),
        Nothing,
    ];
    assert!(rt; queue_of_one(&rt, rt.alloc()) == Some(wanted));
}
