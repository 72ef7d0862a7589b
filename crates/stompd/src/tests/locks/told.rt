//! Calls of a broker, none of which goes on where one finds no memory: `bench/refuse` refuses each growth in turn, and sees
//! that the test then fails each time. So a call that finds no memory, and answers as if it had, doesn't pass.

ghost use Rattle.std.specs.Prelude.{◌≡◌};

use super::flights::next_stamp;
use super::jobs::{Job, Opening, with_broker};
use broker_locks::{Broker, Side, Worker};
use mcast_txn::{NoMemory, Topic};
use std::alloc::Global;
use std::sync::Wait;
use std::sync::ledger::Blank;

/// A client claims a sender, subscribes at topic 0, and commits to it; its head turns that.
#[derive(Clone, Copy, Drop)]
struct Turn;

/// How many rows the turn releases, where all that comes before has memory, and it has some.
fn released_by<R: Wait, W: Side, T: Side>(
    rt: &R,
    alloc: Global,
    broker: &Broker<R, W, T>,
    worker: &mut Worker<W>,
) -> Option<u64> {
    let gate = broker.claim(rt, Some(b"c")).ok()?;
    next_stamp(rt, alloc, broker, worker, gate)?;
    broker.head_turn(rt, Topic(0)).ok()
}

/// The same by a worker of this broker, behind a subscription.
fn released<R: Wait, W: Side, T: Side>(
    rt: &R,
    alloc: Global,
    broker: &Broker<R, W, T>,
) -> Option<u64> {
    let mut worker = broker.join(rt).ok()?;
    let begun = broker.subscribe(rt, Topic(0)).ok()?;
    let released = released_by(rt, alloc, broker, &mut worker);
    drop(begun);
    drop(broker.leave(rt, worker));
    released
}

impl<R: Wait> Job<R> for Turn {
    type Answer = Option<u64>;

    fn run<W: Side, T: Side>(
        self,
        rt: &R,
        alloc: Global,
        opening: Opening,
        workers: Blank,
        tickets: Blank,
    ) -> Result<Option<u64>, NoMemory>
        requires workers { (workers.name ≡ W.name) × (workers.parts ≡ W.parts) × (W.parts ≡ W.all) × (W.all ≡ 257) }
        requires tickets { (tickets.name ≡ T.name) × (tickets.parts ≡ T.parts) × (T.parts ≡ T.all) × (T.all ≡ 1024) }
    {
        let broker = opening.begin::<R, W, T>(alloc, workers, tickets)?;
        Ok(released(rt, alloc, &broker))
    }
}

/// How many rows the turn releases, by a broker of one topic that keeps a trace or not.
fn released_with<R: Wait>(rt: &R, alloc: Global, keep_trace: bool) -> Option<u64> {
    let opening = Opening::new(alloc, &[0], 4, keep_trace).ok()?;
    with_broker(rt, alloc, opening, Turn).ok()?
}

#[test]
fn each_refusal_is_told_with_a_trace(rt: HostRuntime) {
    assert!(rt; released_with(&rt, rt.alloc(), true) == Some(1));
}

#[test]
fn each_refusal_is_told_without_a_trace(rt: HostRuntime) {
    assert!(rt; released_with(&rt, rt.alloc(), false) == Some(1));
}
