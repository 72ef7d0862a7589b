//! A topic over a queue that two threads share: what it releases, the taker takes, and a full queue lags.

ghost use Rattle.std.specs.Prelude.{◌≡◌};

use super::calls::{id, part_of, stamp, verdict_of};
use crate::{Group, SubState};
use mcast_txn::Topic;
use std::alloc::Global;
use std::sync::Wait;
use sub_queue::{Source, Taker, ruled};

/// Enters the transaction of this seq at topic 0, and learns that its number is its seq.
pub(super) fn enter<R: Wait>(alloc: Global, group: &mut Group<Source<R>>, seq: u64) -> Option<()> {
    let part = part_of(alloc, id(seq), &[0], group.topic())?;
    group.propose(stamp(0, 0), part).ok()?;
    let verdict = verdict_of(alloc, id(seq), &[(0, seq)])?;
    group.learn(id(seq), &verdict).ok()
}

/// The seq of the transaction that a release lets go.
pub(super) fn released<R: Wait>(rt: &R, group: &mut Group<Source<R>>) -> Option<u64> {
    let (id, _) = group.release(rt)?;
    Some(id.seq)
}

/// The seq of the item that a take gives.
pub(super) fn taken<R: Wait>(rt: &R, taker: &mut Taker) -> Option<u64> {
    let item = taker.take(rt)?;
    Some(item.part.id().seq)
}

/// Begins a subscription by a queue of capacity 2, whose taker is returned.
pub(super) fn subscribed<R: Wait>(alloc: Global, group: &mut Group<Source<R>>) -> Option<Taker> {
    let (source, taker) = ruled::<R>(alloc, 2).ok()?;
    group.subscribe(7, source).ok()?;
    Some(taker)
}

/// Enters three transactions.
fn enter_three<R: Wait>(alloc: Global, group: &mut Group<Source<R>>) -> Option<()> {
    for seq in 1..4 {
        enter(alloc, group, seq)?;
    }
    Some(())
}

/// What three releases give.
fn three_released<R: Wait>(rt: &R, group: &mut Group<Source<R>>) -> [Option<u64>; 3] {
    [
        released(rt, group),
        released(rt, group),
        released(rt, group),
    ]
}

/// What three takes give.
fn three_taken<R: Wait>(rt: &R, taker: &mut Taker) -> [Option<u64>; 3] {
    [taken(rt, taker), taken(rt, taker), taken(rt, taker)]
}

/// What three releases and takes give, at a topic with one subscription, of a queue of capacity 2; and its state then.
fn three_at_capacity_two<R: Wait>(
    rt: &R,
    alloc: Global,
) -> Option<([Option<u64>; 3], [Option<u64>; 3], Option<SubState>)> {
    let mut group = Group::new(alloc, Topic(0), 0, 8);
    let mut taker = subscribed(alloc, &mut group)?;
    enter_three(alloc, &mut group)?;
    let releases = three_released(rt, &mut group);
    let takes = three_taken(rt, &mut taker);
    Some((releases, takes, group.state(7)))
}

#[test]
fn a_full_queue_of_two_threads_lags(rt: HostRuntime) {
    let releases = [Some(1), Some(2), Some(3)];
    let takes = [Some(1), Some(2), None];
    let state = Some(SubState::Lag(stamp(2, 0)));
    assert!(rt; three_at_capacity_two(&rt, rt.alloc()) == Some((releases, takes, state)));
}
