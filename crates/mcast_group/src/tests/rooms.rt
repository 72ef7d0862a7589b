//! The room of a topic's subscriptions: what their queues hold less what isn't known to be taken.

use super::calls::{id, part_of, stamp, verdict_of};
use super::shared::{enter, released, subscribed, taken};
use crate::{CellGroup, Group};
use mcast_txn::Topic;
use std::alloc::Global;
use std::sync::Wait;
use sub_queue::{Source, Taker, VecOutlet};

/// The room of subscriptions 7, 9 and 8, of which there is no 8.
fn three_rooms(group: &mut Group<VecOutlet>) -> [Option<usize>; 3] {
    [group.room(&(), 7), group.room(&(), 9), group.room(&(), 8)]
}

/// Enters a transaction to topic 0, which is due then, and releases it.
fn enter_and_release(alloc: Global, group: &mut Group<VecOutlet>, seq: u64) -> Option<()> {
    let part = part_of(alloc, id(seq), &[0], group.topic())?;
    group.propose(stamp(0, 0), part).ok()?;
    let verdict = verdict_of(alloc, id(seq), &[(0, seq)])?;
    group.learn(id(seq), &verdict).ok()?;
    let _ = group.release(&())?;
    Some(())
}

/// A topic whose subscriptions 7 and 9 have queues of capacity 2 and 5.
fn two_subscriptions(alloc: Global) -> Option<Group<VecOutlet>> {
    let mut group = Group::new(alloc, Topic(0), 0, 8);
    group.subscribe(7, VecOutlet::new(alloc, 2)).ok()?;
    group.subscribe(9, VecOutlet::new(alloc, 5)).ok()?;
    Some(group)
}

/// Their rooms at the beginning, after two releases, and after a take of subscription 7.
fn rooms_of_two(alloc: Global) -> Option<[[Option<usize>; 3]; 3]> {
    let mut group = two_subscriptions(alloc)?;
    let empty = three_rooms(&mut group);
    enter_and_release(alloc, &mut group, 1)?;
    enter_and_release(alloc, &mut group, 2)?;
    let full = three_rooms(&mut group);
    let _ = group.take(7)?;
    Some([empty, full, three_rooms(&mut group)])
}

#[test]
fn each_subscription_has_its_own_room(rt: HostRuntime) {
    let empty = [Some(2), Some(5), None];
    let full = [Some(0), Some(3), None];
    let taken = [Some(1), Some(3), None];
    assert!(rt; rooms_of_two(rt.alloc()) == Some([empty, full, taken]));
}

/// The room of subscription 7, after two releases, after a take, and once the taker told of it.
fn rooms_told<R: Wait>(
    rt: &R,
    alloc: Global,
    group: &mut Group<Source<R>>,
    taker: &mut Taker,
) -> Option<[Option<usize>; 4]> {
    let empty = group.room(rt, 7);
    for seq in 1..3 {
        enter(alloc, group, seq)?;
        let _ = released(rt, group)?;
    }
    let full = group.room(rt, 7);
    let _ = taken(rt, taker)?;
    let untold = group.room(rt, 7);
    taker.tell(rt);
    Some([empty, full, untold, group.room(rt, 7)])
}

/// The same, of a queue of capacity 2 that two threads share.
fn rooms_of_shared<R: Wait>(rt: &R, alloc: Global) -> Option<[Option<usize>; 4]> {
    let mut group = Group::new(alloc, Topic(0), 0, 8);
    let mut taker = subscribed(alloc, &mut group)?;
    rooms_told(rt, alloc, &mut group, &mut taker)
}

#[test]
fn a_shared_queue_has_the_room_that_its_taker_tells(rt: HostRuntime) {
    let wanted = [Some(2), Some(0), Some(0), Some(1)];
    assert!(rt; rooms_of_shared(&rt, rt.alloc()) == Some(wanted));
}

/// The rooms that a topic whose parts learn from cells says its subscriptions 7 and 8 to have, of which there is no 8.
fn cell_rooms(alloc: Global) -> Option<[Option<usize>; 2]> {
    let mut group = CellGroup::<VecOutlet>::new(alloc, Topic(0), 0, 8);
    group.subscribe(7, VecOutlet::new(alloc, 3)).ok()?;
    Some([group.room(&(), 7), group.room(&(), 8)])
}

#[test]
fn a_topic_of_cells_has_the_room_of_its_group(rt: HostRuntime) {
    assert!(rt; cell_rooms(rt.alloc()) == Some([Some(3), None]));
}
