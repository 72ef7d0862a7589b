//! A source goes on while its items are taken: however many it pushed, one is refused only where the queue is full.

ghost use Rattle.std.specs.Prelude.{◌≡◌, [], None, IfSome};
ghost use Rattle.std.specs.List.{last_or};

use super::Answer::{self, Accepted, Returned, Took};
use super::shared::{Pusher, ends, taken};
use crate::{Source, Taker};
use std::alloc::Global;
use std::sync::Wait;
use std::sync::atomic::{AtomicU64, Ordering};
use std::thread;
use std::thread::Threads;

/// How many items are pushed: 64 times the capacity.
const ITEMS: u64 = 256;

/// How many places the queue has.
const CAPACITY: u64 = 4;

/// What two threads tell each other.
#[derive(Drop)]
struct Counts {
    /// How many items were taken.
    taken: AtomicU64,
    /// 1 once no item is pushed any more.
    ended: AtomicU64,
}

/// A pusher of a new source, whose first item has number 0.
pub(super) fn first_pusher<R>(source: Source<R>) -> Pusher<R>
    requires { source.items ≡ [] }
    ensures { result.source.queue ≡ source.queue }
{
    Pusher { source, next: 0 }
}

/// Waits until an item may be pushed after these, of which fewer than the capacity are untaken then.
fn wait_for_room<R: Wait>(rt: &R, counts: &Counts, pushed: u64) {
    for _ in rt.forever() {
        if pushed.saturating_sub(counts.taken.load(Ordering::SeqCst)) < CAPACITY {
            return;
        }
        thread::yield_now();
    }
}

/// Pushes items where there is room, up to the first that is refused. How many entered.
fn push_where_room<R: Wait>(rt: &R, alloc: Global, pusher: Pusher<R>, counts: &Counts) -> u64 {
    let mut pusher = pusher;
    let mut entered = 0;
    for n in 0..ITEMS {
        wait_for_room(rt, counts, n);
        if pusher.push(rt, alloc) != Some(Accepted) {
            break;
        }
        entered = n.saturating_add(1);
    }
    counts.ended.store(1, Ordering::SeqCst);
    entered
}

/// Takes what comes, up to the end. How many items came.
fn take_until_end<R: Wait>(rt: &R, taker: Taker, counts: &Counts) -> u64 {
    let mut taker = taker;
    let mut taken: u64 = 0;
    for _ in rt.forever() {
        let ended = counts.ended.load(Ordering::SeqCst) == 1;
        if taker.take(rt).is_some() {
            taken = taken.saturating_add(1);
            counts.taken.store(taken, Ordering::SeqCst);
        } else if ended {
            return taken;
        } else {
            thread::yield_now();
        }
    }
    taken
}

/// How many items entered and how many were taken, where each thread does its part.
fn pumped<R>(rt: &R, alloc: Global) -> Option<(u64, u64)>
where
    R: Threads + Wait + Sync + Send,
{
    let (source, taker) = ends::<R>(alloc, CAPACITY as usize).ok()?;
    let pusher = first_pusher(source);
    let counts = Counts {
        taken: AtomicU64::new(0),
        ended: AtomicU64::new(0),
    };
    let seen = &counts;
    Some(thread::join(
        rt,
        move || push_where_room(rt, alloc, pusher, seen),
        move || take_until_end(rt, taker, seen),
    ))
}

/// A body that counts its pushes down and refuses all that follow fails here.
#[test]
fn none_is_refused_while_all_are_taken(rt: HostRuntime) {
    assert!(rt; pumped(&rt, rt.alloc()) == Some((ITEMS, ITEMS)));
}

/// What a queue answers to two pushes, and to a take; and, once its source is told of that, to two more pushes.
fn told_answers<R: Wait>(
    rt: &R,
    alloc: Global,
    pusher: &mut Pusher<R>,
    taker: &mut Taker,
) -> Option<[Answer; 5]>
    requires { taker.old.queue ≡ pusher.old.source.queue }
{
    let first = pusher.push(rt, alloc)?;
    let second = pusher.push(rt, alloc)?;
    let taken = taken(rt, taker);
    pusher.source.know_taken(taker.taken_so_far()?);
    Some([
        first,
        second,
        taken,
        pusher.push(rt, alloc)?,
        pusher.push(rt, alloc)?,
    ])
}

/// What a queue of one place answers to a source that is told of each take.
fn told_of_takes<R: Wait>(rt: &R, alloc: Global) -> Option<[Answer; 5]> {
    let (source, mut taker) = ends::<R>(alloc, 1).ok()?;
    let mut pusher = first_pusher(source);
    told_answers(rt, alloc, &mut pusher, &mut taker)
}

#[test]
fn a_source_that_is_told_goes_on(rt: HostRuntime) {
    let wanted = [Accepted, Returned(1), Took(0), Accepted, Returned(3)];
    assert!(rt; told_of_takes(&rt, rt.alloc()) == Some(wanted));
}
