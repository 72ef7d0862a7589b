//! The room of a source: what it was told by the taker of its queue is what it counts as taken.

ghost use Rattle.std.specs.Prelude.{◌≡◌, []};

use super::Answer::{self, Accepted, HasRoom, Nothing, Took};
use super::shared::{Pusher, ends, taken};
use super::told::first_pusher;
use crate::Taker;
use std::alloc::Global;
use std::sync::Wait;
use std::sync::atomic::{AtomicU64, Ordering};
use std::thread;
use std::thread::Threads;

/// How many places the queue has.
const CAPACITY: usize = 4;

/// How many items are pushed by a thread of its own: 64 times the capacity.
const ITEMS: u64 = 256;

/// A call of one of the two ends.
#[derive(Clone, Copy)]
enum EndCall {
    Push,
    Take,
    Tell,
    Room,
}

use EndCall::{Push, Room, Take, Tell};

/// What one end answers to a call; a tell answers nothing.
fn answer_of<R: Wait>(
    rt: &R,
    alloc: Global,
    pusher: &mut Pusher<R>,
    taker: &mut Taker,
    call: EndCall,
) -> Option<Answer> {
    Some(match call {
        Push => pusher.push(rt, alloc)?,
        Take => taken(rt, taker),
        Tell => {
            taker.tell(rt);
            Nothing
        }
        Room => HasRoom(pusher.room(rt)),
    })
}

/// Whether a queue of four places answers each of these calls as is written beside it.
fn answers<R: Wait>(rt: &R, alloc: Global, rows: &[(EndCall, Answer)]) -> bool {
    let Ok((source, taker)) = ends::<R>(alloc, CAPACITY) else {
        return false;
    };
    let mut pusher = first_pusher(source);
    let mut taker = taker;
    for &(call, wanted) in rows {
        if answer_of(rt, alloc, &mut pusher, &mut taker, call) != Some(wanted) {
            return false;
        }
    }
    true
}

/// A source that isn't told of a take has no more room by it. Once it is told it has, also of two tells at once, of
/// which it hears the last alone; a tell of nothing new changes nothing.
#[test]
fn a_source_has_the_room_that_it_is_told_of(rt: HostRuntime) {
    let rows = [
        (Room, HasRoom(4)),
        (Push, Accepted),
        (Push, Accepted),
        (Push, Accepted),
        (Room, HasRoom(1)),
        (Take, Took(0)),
        (Room, HasRoom(1)),
        (Tell, Nothing),
        (Room, HasRoom(2)),
        (Tell, Nothing),
        (Room, HasRoom(2)),
        (Take, Took(1)),
        (Tell, Nothing),
        (Take, Took(2)),
        (Tell, Nothing),
        (Room, HasRoom(4)),
        (Room, HasRoom(4)),
        (Take, Nothing),
        (Tell, Nothing),
        (Room, HasRoom(4)),
    ];
    assert!(rt; answers(&rt, rt.alloc(), &rows));
}

/// Without a tell the room shrinks to nothing, and stays so: no push is refused for that, where the queue has a place.
#[test]
fn a_source_that_is_told_nothing_has_no_more_room(rt: HostRuntime) {
    let rows = [
        (Push, Accepted),
        (Push, Accepted),
        (Push, Accepted),
        (Push, Accepted),
        (Room, HasRoom(0)),
        (Take, Took(0)),
        (Take, Took(1)),
        (Room, HasRoom(0)),
        (Push, Accepted),
        (Room, HasRoom(0)),
        (Take, Took(2)),
        (Tell, Nothing),
        (Room, HasRoom(2)),
    ];
    assert!(rt; answers(&rt, rt.alloc(), &rows));
}

/// Waits until the source has room.
fn wait_for_room<R: Wait>(rt: &R, pusher: &mut Pusher<R>) {
    for _ in rt.forever() {
        if pusher.room(rt) > 0 {
            return;
        }
        thread::yield_now();
    }
}

/// Pushes items where the source has room, up to the first that is refused. How many entered.
fn push_where_room<R: Wait>(rt: &R, alloc: Global, pusher: Pusher<R>, ended: &AtomicU64) -> u64 {
    let mut pusher = pusher;
    let mut entered = 0;
    for n in 0..ITEMS {
        wait_for_room(rt, &mut pusher);
        if pusher.push(rt, alloc) != Some(Accepted) {
            break;
        }
        entered = n.saturating_add(1);
    }
    ended.store(1, Ordering::SeqCst);
    entered
}

/// Takes what comes, up to the end, and tells of it where the queue is empty. How many items came.
fn take_and_tell<R: Wait>(rt: &R, taker: Taker, ended: &AtomicU64) -> u64 {
    let mut taker = taker;
    let mut taken: u64 = 0;
    for _ in rt.forever() {
        let ended = ended.load(Ordering::SeqCst) == 1;
        if taker.take(rt).is_some() {
            taken = taken.saturating_add(1);
        } else if ended {
            return taken;
        } else {
            taker.tell(rt);
            thread::yield_now();
        }
    }
    taken
}

/// How many items entered and how many were taken, where each thread does its part.
fn pumped<R>(rt: &R, alloc: Global) -> Option<(u64, u64)>
where
    R: Threads + Wait + Sync + Send,
{
    let (source, taker) = ends::<R>(alloc, CAPACITY).ok()?;
    let pusher = first_pusher(source);
    let ended = AtomicU64::new(0);
    let seen = &ended;
    Some(thread::join(
        rt,
        move || push_where_room(rt, alloc, pusher, seen),
        move || take_and_tell(rt, taker, seen),
    ))
}

/// A source that never hears what it is told stops behind its first four items here.
#[test]
fn a_source_goes_on_by_what_the_taker_tells(rt: HostRuntime) {
    assert!(rt; pumped(&rt, rt.alloc()) == Some((ITEMS, ITEMS)));
}
