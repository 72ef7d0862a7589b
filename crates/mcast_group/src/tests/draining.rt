//! Logs that are drained.

use super::calls::{Answer, Call, SHOWN, answers};
use crate::{Cause, Group};
use Answer::{Done, Drained, Fault, From, Lagged, Left, Nothing, Open, Released, Took};
use Call::{Drain, Learn, Propose, Release, State, Subscribe, Take, Unsubscribe};
use mcast_txn::Topic;
use std::alloc::Global;
use sub_queue::VecOutlet;

/// Whether a new topic 0 of at most `limit` parts and rows answers each of these calls as is written beside it.
fn topic_answers(alloc: Global, limit: usize, rows: &[(Call, Answer)]) -> bool {
    let mut group = Group::new(alloc, Topic(0), 0, limit);
    answers(alloc, &mut group, rows)
}

/// Of three parts two are released and drained; pending parts count for the limit still, and have room.
const THREE: &[(Call, Answer)] = &[
    (Propose(1, &[0], 0), Answer::Ticket(1)),
    (Propose(2, &[0], 0), Answer::Ticket(2)),
    (Propose(3, &[0], 0), Answer::Ticket(3)),
    (Learn(2, &[(0, 2)]), Done),
    (Learn(1, &[(0, 1)]), Done),
    (Release, Released(1, 1, 0)),
    (Release, Released(2, 2, 0)),
    (Drain, Drained(2, [1, 2, 0, 0, 0, 0, 0, 0])),
    (Propose(4, &[0], 0), Answer::Ticket(4)),
    (Propose(5, &[0], 0), Answer::Ticket(5)),
    (Propose(6, &[0], 0), Fault(41)),
    (Learn(3, &[(0, 3)]), Done),
    (Release, Released(3, 3, 0)),
    (Drain, Drained(1, [3, 0, 0, 0, 0, 0, 0, 0])),
    (Drain, Drained(0, [0; SHOWN])),
];

#[test]
fn pending_parts_count_after_a_drain(rt: HostRuntime) {
    assert!(rt; topic_answers(rt.alloc(), 3, THREE));
}

/// Drains between releases change nothing that three subscriptions show: 8 lags, and 9 begins after a drain.
const SUBSCRIBED: &[(Call, Answer)] = &[
    (Subscribe(7, 4), From(0)),
    (Subscribe(8, 1), From(0)),
    (Propose(1, &[0], 0), Answer::Ticket(1)),
    (Propose(2, &[0], 0), Answer::Ticket(2)),
    (Propose(3, &[0], 0), Answer::Ticket(3)),
    (Learn(1, &[(0, 1)]), Done),
    (Learn(2, &[(0, 2)]), Done),
    (Learn(3, &[(0, 3)]), Done),
    (Release, Released(1, 1, 0)),
    (Drain, Drained(1, [1, 0, 0, 0, 0, 0, 0, 0])),
    (Subscribe(9, 4), From(1)),
    (State(8), Open),
    (Release, Released(2, 2, 0)),
    (State(8), Lagged(1)),
    (Release, Released(3, 3, 0)),
    (Drain, Drained(2, [2, 3, 0, 0, 0, 0, 0, 0])),
    (State(8), Lagged(1)),
    (Take(9), Took(2)),
    (Take(7), Took(1)),
    (Take(8), Took(1)),
    (Take(8), Nothing),
    (Take(9), Took(3)),
    (Unsubscribe(7), Left(3, Cause::Asked, 3)),
    (Unsubscribe(8), Left(1, Cause::Lag, 1)),
    (Unsubscribe(9), Left(3, Cause::Asked, 2)),
];

#[test]
fn subscriptions_show_what_they_showed(rt: HostRuntime) {
    assert!(rt; topic_answers(rt.alloc(), 8, SUBSCRIBED));
}
