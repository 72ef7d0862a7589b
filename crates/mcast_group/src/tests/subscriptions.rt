//! Subscriptions of a topic: what they get, how they lag, and how they end.

use super::calls::{Answer, Call, answers, reply};
use crate::{Cause, Group};
use Answer::{Done, Drained, Fault, From, Lagged, Left, Nothing, Open, Released, Took};
use Call::{Cancel, Drain, Learn, Propose, Release, State, Subscribe, Take, Unsubscribe};
use mcast_txn::Topic;
use std::alloc::Global;
use sub_queue::VecOutlet;

/// Whether a new topic 0 of at most eight parts and rows answers each of these calls as is written beside it.
fn topic_answers(alloc: Global, rows: &[(Call, Answer)]) -> bool {
    let mut group = Group::new(alloc, Topic(0), 0, 8);
    answers(alloc, &mut group, rows)
}

/// Three rows and a queue of two items, of which none was taken, and one that begins after the first row.
const LAG: &[(Call, Answer)] = &[
    (Subscribe(7, 2), From(0)),
    (Subscribe(7, 2), Fault(47)),
    (Propose(1, &[0], 0), Answer::Ticket(1)),
    (Learn(1, &[(0, 1)]), Done),
    (Release, Released(1, 1, 0)),
    (Subscribe(8, 2), From(1)),
    (Propose(2, &[0], 0), Answer::Ticket(2)),
    (Learn(2, &[(0, 2)]), Done),
    (Release, Released(2, 2, 0)),
    (State(7), Open),
    (Propose(3, &[0], 0), Answer::Ticket(3)),
    (Learn(3, &[(0, 3)]), Done),
    (Release, Released(3, 3, 0)),
    (State(7), Lagged(2)),
    (State(8), Open),
    (State(9), Nothing),
    (Take(8), Took(2)),
    (Take(7), Took(1)),
    (Take(7), Took(2)),
    (Take(7), Nothing),
    (Take(9), Nothing),
    (Unsubscribe(7), Left(2, Cause::Lag, 2)),
    (Unsubscribe(7), Fault(48)),
    (Unsubscribe(8), Left(3, Cause::Asked, 2)),
];

/// Whether a topic answers as it does there, and holds three rows then.
fn lags(alloc: Global) -> bool {
    let mut group = Group::new(alloc, Topic(0), 0, 8);
    answers(alloc, &mut group, LAG) && group.held_len() == 3
}

#[test]
fn a_full_queue_lags(rt: HostRuntime) {
    assert!(rt; lags(rt.alloc()));
}

/// Queues of two items, step by step.
const IN_STEPS: &[(Call, Answer)] = &[
    (Propose(1, &[0], 0), Answer::Ticket(1)),
    (Propose(2, &[0], 0), Answer::Ticket(2)),
    (Propose(3, &[0], 0), Answer::Ticket(3)),
    (Propose(4, &[0], 0), Answer::Ticket(4)),
    (Learn(1, &[(0, 1)]), Done),
    (Learn(2, &[(0, 2)]), Done),
    (Learn(3, &[(0, 3)]), Done),
    (Learn(4, &[(0, 4)]), Done),
    (Subscribe(7, 2), From(0)),
    (Release, Released(1, 1, 0)),
    (Subscribe(8, 2), From(1)),
    (Release, Released(2, 2, 0)),
    (Take(8), Took(2)),
    (Release, Released(3, 3, 0)),
    (State(7), Lagged(2)),
    (Take(7), Took(1)),
    (Take(7), Took(2)),
    (Release, Released(4, 4, 0)),
    (Unsubscribe(7), Left(2, Cause::Lag, 2)),
    (Unsubscribe(8), Left(4, Cause::Asked, 3)),
];

#[test]
fn queues_step_by_step(rt: HostRuntime) {
    assert!(rt; topic_answers(rt.alloc(), IN_STEPS));
}

/// A lagged subscription gets no row after it, though its items were taken and its queue has room.
const LAGGED: &[(Call, Answer)] = &[
    (Subscribe(7, 1), From(0)),
    (Propose(1, &[0], 0), Answer::Ticket(1)),
    (Propose(2, &[0], 0), Answer::Ticket(2)),
    (Propose(3, &[0], 0), Answer::Ticket(3)),
    (Learn(1, &[(0, 1)]), Done),
    (Learn(2, &[(0, 2)]), Done),
    (Learn(3, &[(0, 3)]), Done),
    (Release, Released(1, 1, 0)),
    (Release, Released(2, 2, 0)),
    (Take(7), Took(1)),
    (Release, Released(3, 3, 0)),
    (State(7), Lagged(1)),
    (Take(7), Nothing),
    (Unsubscribe(7), Left(1, Cause::Lag, 1)),
];

#[test]
fn a_lagged_one_gets_no_more(rt: HostRuntime) {
    assert!(rt; topic_answers(rt.alloc(), LAGGED));
}

/// A take between two releases keeps a full queue from lagging.
const TAKES: &[(Call, Answer)] = &[
    (Subscribe(7, 1), From(0)),
    (Propose(1, &[0], 0), Answer::Ticket(1)),
    (Propose(2, &[0], 0), Answer::Ticket(2)),
    (Learn(1, &[(0, 1)]), Done),
    (Learn(2, &[(0, 2)]), Done),
    (Release, Released(1, 1, 0)),
    (Take(7), Took(1)),
    (Release, Released(2, 2, 0)),
    (State(7), Open),
    (Take(7), Took(2)),
    (Take(7), Nothing),
    (Unsubscribe(7), Left(2, Cause::Asked, 2)),
];

#[test]
fn a_take_keeps_a_full_queue_from_lagging(rt: HostRuntime) {
    assert!(rt; topic_answers(rt.alloc(), TAKES));
}

/// A subscription that begins while three parts are pending gets all three, by stamp; one of them is decided already.
const BEGINS_LATE: &[(Call, Answer)] = &[
    (Propose(1, &[0, 1], 0), Answer::Ticket(1)),
    (Propose(2, &[0], 0), Answer::Ticket(2)),
    (Propose(3, &[0], 0), Answer::Ticket(3)),
    (Learn(2, &[(0, 2)]), Done),
    (Subscribe(5, 8), From(0)),
    (Learn(1, &[(0, 1), (1, 9)]), Done),
    (Learn(3, &[(0, 3)]), Done),
    (Take(5), Nothing),
    (Release, Released(2, 2, 0)),
    (Release, Released(3, 3, 0)),
    (Release, Released(1, 9, 1)),
    (Take(5), Took(2)),
    (Take(5), Took(3)),
    (Take(5), Took(1)),
    (Take(5), Nothing),
    (Unsubscribe(5), Left(9, Cause::Asked, 3)),
];

#[test]
fn pending_parts_go_to_a_new_subscription(rt: HostRuntime) {
    assert!(rt; topic_answers(rt.alloc(), BEGINS_LATE));
}

/// A subscription that ends between learn and release gets nothing, and the part is released; its number is free then.
const ENDS_BEFORE: &[(Call, Answer)] = &[
    (Subscribe(4, 8), From(0)),
    (Subscribe(5, 8), From(0)),
    (Propose(1, &[0], 0), Answer::Ticket(1)),
    (Learn(1, &[(0, 1)]), Done),
    (Unsubscribe(4), Left(0, Cause::Asked, 0)),
    (Release, Released(1, 1, 0)),
    (Take(4), Nothing),
    (Take(5), Took(1)),
    (Unsubscribe(4), Fault(48)),
    (Subscribe(4, 8), From(1)),
    (Unsubscribe(4), Left(1, Cause::Asked, 0)),
];

#[test]
fn one_that_ends_before_a_release_gets_nothing(rt: HostRuntime) {
    assert!(rt; topic_answers(rt.alloc(), ENDS_BEFORE));
}

/// A part that is taken out goes to nobody.
const CANCELLED: &[(Call, Answer)] = &[
    (Subscribe(3, 1), From(0)),
    (Propose(1, &[0], 0), Answer::Ticket(1)),
    (Propose(2, &[0], 0), Answer::Ticket(2)),
    (Cancel(1), Done),
    (Learn(2, &[(0, 2)]), Done),
    (Release, Released(2, 2, 0)),
    (Take(3), Took(2)),
];

#[test]
fn a_part_that_is_taken_out_goes_to_nobody(rt: HostRuntime) {
    assert!(rt; topic_answers(rt.alloc(), CANCELLED));
}

/// A topic of at most one part or row, with a second subscription of one number; its log is drained.
const OF_ONE: &[(Call, Answer)] = &[
    (Subscribe(7, 1), From(0)),
    (Propose(1, &[0], 0), Answer::Ticket(1)),
    (Propose(2, &[0], 0), Fault(41)),
    (Subscribe(7, 1), Fault(47)),
    (Learn(1, &[(0, 1)]), Done),
    (Release, Released(1, 1, 0)),
    (Propose(2, &[0], 0), Fault(41)),
    (Drain, Drained(1, [1, 0, 0, 0, 0, 0, 0, 0])),
    (Propose(2, &[0], 0), Answer::Ticket(2)),
    (Take(7), Took(1)),
    (Unsubscribe(7), Left(1, Cause::Asked, 1)),
];

#[test]
fn a_topic_of_one_part_is_full_until_its_row_is_drained(rt: HostRuntime) {
    let alloc = rt.alloc();
    let mut group = Group::new(alloc, Topic(0), 0, 1);
    assert!(rt; answers(alloc, &mut group, OF_ONE));
}

/// A queue with room for nothing lags at the first row, and ends with the frontier before it.
const OF_NONE: &[(Call, Answer)] = &[
    (Subscribe(7, 0), From(0)),
    (Propose(1, &[0], 0), Answer::Ticket(1)),
    (Learn(1, &[(0, 1)]), Done),
    (Release, Released(1, 1, 0)),
    (Take(7), Nothing),
    (Unsubscribe(7), Left(0, Cause::Lag, 0)),
];

#[test]
fn a_queue_of_no_room_lags_at_once(rt: HostRuntime) {
    assert!(rt; topic_answers(rt.alloc(), OF_NONE));
}

/// Whether the subscription of this number is refused by 47, and its outlet is returned as it was.
fn is_returned(alloc: Global, group: &mut Group<VecOutlet>, number: u64) -> bool {
    match group.subscribe(number, VecOutlet::new(alloc, 5)) {
        Ok(_) => false,
        Err((fault, outlet)) => fault.number() == 47 && outlet.pushed() == 0,
    }
}

#[test]
fn a_refused_subscription_returns_its_outlet(rt: HostRuntime) {
    let alloc = rt.alloc();
    let mut group = Group::new(alloc, Topic(0), 0, 8);
    assert!(rt; answers(alloc, &mut group, &[(Subscribe(7, 2), From(0))]));
    assert!(rt; is_returned(alloc, &mut group, 7));
    assert!(rt;
        answers(
            alloc,
            &mut group,
            &[(Unsubscribe(7), Left(0, Cause::Asked, 0))]
        )
    );
}

/// How many subscriptions a topic has at once in `each_has_its_own_queue`, a prime.
const MANY: u64 = 97;

/// The number of the subscription that begins at this index of an order, or at another step ends there: each once.
fn scrambled(index: u64, step: u64) -> u64 {
    index.wrapping_mul(step) % MANY
}

/// Whether subscriptions begin in one order, of which those of even numbers have no room.
fn all_begin(alloc: Global, group: &mut Group<VecOutlet>) -> bool {
    for index in 0..MANY {
        let number = scrambled(index, 31);
        if reply(alloc, group, Subscribe(number, (number % 2) as usize)) != Some(From(0)) {
            return false;
        }
    }
    true
}

/// Whether a subscription has taken the row, or lagged before it where its number is even, and ends so.
fn ends_as_its_own(alloc: Global, group: &mut Group<VecOutlet>, number: u64) -> bool {
    let calls = if number % 2 == 1 {
        [
            (State(number), Open),
            (Take(number), Took(1)),
            (Unsubscribe(number), Left(1, Cause::Asked, 1)),
            (State(number), Nothing),
        ]
    } else {
        [
            (State(number), Lagged(0)),
            (Take(number), Nothing),
            (Unsubscribe(number), Left(0, Cause::Lag, 0)),
            (Unsubscribe(number), Fault(48)),
        ]
    };
    answers(alloc, group, &calls)
}

/// Whether they end in another order, each with what its own queue shows.
fn all_end(alloc: Global, group: &mut Group<VecOutlet>) -> bool {
    (0..MANY).all(|index| ends_as_its_own(alloc, group, scrambled(index, 58)))
}

/// A row.
const ONE_ROW: &[(Call, Answer)] = &[
    (Propose(1, &[0], 0), Answer::Ticket(1)),
    (Learn(1, &[(0, 1)]), Done),
    (Release, Released(1, 1, 0)),
];

#[test]
fn each_has_its_own_queue(rt: HostRuntime) {
    let alloc = rt.alloc();
    let mut group = Group::new(alloc, Topic(0), 0, 8);
    assert!(rt; all_begin(alloc, &mut group));
    assert!(rt; answers(alloc, &mut group, ONE_ROW));
    assert!(rt; all_end(alloc, &mut group));
}
