//! Subscriptions that are closed oldest first, newest first and from the middle, some of which have lagged.

use super::calls::{Answer, Call, answers, reply};
use crate::{Cause, Group};
use Answer::{Done, Fault, From, Lagged, Left, Nothing, Open, Released, Took};
use Call::{Learn, Propose, Release, State, Subscribe, Take, Unsubscribe};
use mcast_txn::Topic;
use std::alloc::Global;
use sub_queue::VecOutlet;

/// Nine subscriptions, of which 1, 4 and 7 lag at the second row; a third part is pending then.
const NINE: &[(Call, Answer)] = &[
    (Subscribe(5, 4), From(0)),
    (Subscribe(1, 1), From(0)),
    (Subscribe(9, 4), From(0)),
    (Subscribe(2, 4), From(0)),
    (Subscribe(3, 4), From(0)),
    (Subscribe(4, 1), From(0)),
    (Subscribe(8, 4), From(0)),
    (Subscribe(6, 4), From(0)),
    (Subscribe(7, 1), From(0)),
    (Propose(1, &[0], 0), Answer::Ticket(1)),
    (Propose(2, &[0], 0), Answer::Ticket(2)),
    (Propose(3, &[0], 0), Answer::Ticket(3)),
    (Learn(1, &[(0, 1)]), Done),
    (Release, Released(1, 1, 0)),
    (Learn(2, &[(0, 2)]), Done),
    (Release, Released(2, 2, 0)),
];

/// The third row.
const THIRD: &[(Call, Answer)] = &[
    (Learn(3, &[(0, 3)]), Done),
    (Release, Released(3, 3, 0)),
    (Release, Nothing),
];

/// 1 to 4 are closed before the third row.
const OLDEST: &[(Call, Answer)] = &[
    (Unsubscribe(1), Left(1, Cause::Lag, 1)),
    (State(1), Nothing),
    (Unsubscribe(2), Left(2, Cause::Asked, 2)),
    (Unsubscribe(3), Left(2, Cause::Asked, 2)),
    (State(4), Lagged(1)),
    (Unsubscribe(4), Left(1, Cause::Lag, 1)),
    (Unsubscribe(4), Fault(48)),
    (State(5), Open),
    (State(7), Lagged(1)),
];

/// 5 to 9 are closed after it.
const OLDEST_LEFT: &[(Call, Answer)] = &[
    (Take(5), Took(1)),
    (Unsubscribe(5), Left(3, Cause::Asked, 3)),
    (Unsubscribe(6), Left(3, Cause::Asked, 3)),
    (Take(7), Took(1)),
    (Take(7), Nothing),
    (Unsubscribe(7), Left(1, Cause::Lag, 1)),
    (Unsubscribe(8), Left(3, Cause::Asked, 3)),
    (Take(9), Took(1)),
    (Take(9), Took(2)),
    (Take(9), Took(3)),
    (Unsubscribe(9), Left(3, Cause::Asked, 3)),
];

/// 9 to 6 are closed before the third row.
const NEWEST: &[(Call, Answer)] = &[
    (Unsubscribe(9), Left(2, Cause::Asked, 2)),
    (Unsubscribe(8), Left(2, Cause::Asked, 2)),
    (State(7), Lagged(1)),
    (Unsubscribe(7), Left(1, Cause::Lag, 1)),
    (Unsubscribe(6), Left(2, Cause::Asked, 2)),
    (State(6), Nothing),
    (State(5), Open),
    (State(4), Lagged(1)),
];

/// 5 to 1 are closed after it.
const NEWEST_LEFT: &[(Call, Answer)] = &[
    (Unsubscribe(5), Left(3, Cause::Asked, 3)),
    (Take(4), Took(1)),
    (Take(4), Nothing),
    (Unsubscribe(4), Left(1, Cause::Lag, 1)),
    (Unsubscribe(3), Left(3, Cause::Asked, 3)),
    (Take(2), Took(1)),
    (Unsubscribe(2), Left(3, Cause::Asked, 3)),
    (Unsubscribe(1), Left(1, Cause::Lag, 1)),
    (State(1), Nothing),
];

/// 3 to 7 are closed before the third row, those in the middle first.
const MIDDLE: &[(Call, Answer)] = &[
    (Unsubscribe(5), Left(2, Cause::Asked, 2)),
    (Unsubscribe(4), Left(1, Cause::Lag, 1)),
    (Unsubscribe(6), Left(2, Cause::Asked, 2)),
    (Unsubscribe(3), Left(2, Cause::Asked, 2)),
    (Unsubscribe(7), Left(1, Cause::Lag, 1)),
    (Unsubscribe(5), Fault(48)),
    (State(1), Lagged(1)),
    (State(8), Open),
];

/// The others are closed after it.
const MIDDLE_LEFT: &[(Call, Answer)] = &[
    (Unsubscribe(2), Left(3, Cause::Asked, 3)),
    (Take(8), Took(1)),
    (Take(8), Took(2)),
    (Unsubscribe(8), Left(3, Cause::Asked, 3)),
    (Unsubscribe(1), Left(1, Cause::Lag, 1)),
    (State(9), Open),
    (Unsubscribe(9), Left(3, Cause::Asked, 3)),
    (State(9), Nothing),
];

/// Whether nine subscriptions begin, of which six are open after the second row.
fn nine_begin(alloc: Global, group: &mut Group<VecOutlet>) -> bool {
    answers(alloc, group, NINE) && group.open_len() == 6
}

/// Whether the third row comes, before and after which so many are open.
fn third_comes(alloc: Global, group: &mut Group<VecOutlet>, open: usize) -> bool {
    group.open_len() == open && answers(alloc, group, THIRD) && group.open_len() == open
}

/// Whether nine subscriptions are closed, some before the third row, after which so many are open, and the others after it.
fn are_closed(
    alloc: Global,
    before: &[(Call, Answer)],
    open: usize,
    after: &[(Call, Answer)],
) -> bool {
    let mut group = Group::new(alloc, Topic(0), 0, 8);
    nine_begin(alloc, &mut group)
        && answers(alloc, &mut group, before)
        && third_comes(alloc, &mut group, open)
        && answers(alloc, &mut group, after)
        && group.open_len() == 0
}

#[test]
fn nine_are_closed_oldest_first(rt: HostRuntime) {
    assert!(rt; are_closed(rt.alloc(), OLDEST, 4, OLDEST_LEFT));
}

#[test]
fn nine_are_closed_newest_first(rt: HostRuntime) {
    assert!(rt; are_closed(rt.alloc(), NEWEST, 3, NEWEST_LEFT));
}

#[test]
fn nine_are_closed_from_the_middle(rt: HostRuntime) {
    assert!(rt; are_closed(rt.alloc(), MIDDLE, 3, MIDDLE_LEFT));
}

/// How many subscriptions a topic has at once in `many_are_closed_in_three_orders`.
const MANY: u64 = 300;

/// An order in which subscriptions are closed.
#[derive(Clone, Copy)]
enum Order {
    OldestFirst,
    NewestFirst,
    FromTheMiddle,
}

impl Order {
    /// The number of the subscription that is closed after so many others: from the middle, 150, 149, 151, 148 ..
    fn number(self, others: u64) -> u64 {
        match self {
            Order::OldestFirst => others,
            Order::NewestFirst => (MANY - 1).saturating_sub(others),
            Order::FromTheMiddle if others % 2 == 0 => (MANY / 2).saturating_add(others / 2),
            Order::FromTheMiddle => (MANY / 2 - 1).saturating_sub(others / 2),
        }
    }
}

/// Whether so many begin; every third has room for one item, the others for three.
fn many_begin(alloc: Global, group: &mut Group<VecOutlet>) -> bool {
    for number in 0..MANY {
        let capacity = if number % 3 == 0 { 1 } else { 3 };
        if reply(alloc, group, Subscribe(number, capacity)) != Some(From(0)) {
            return false;
        }
    }
    true
}

/// Two rows.
const TWO_ROWS: &[(Call, Answer)] = &[
    (Propose(1, &[0], 0), Answer::Ticket(1)),
    (Propose(2, &[0], 0), Answer::Ticket(2)),
    (Learn(1, &[(0, 1)]), Done),
    (Learn(2, &[(0, 2)]), Done),
    (Release, Released(1, 1, 0)),
    (Release, Released(2, 2, 0)),
];

/// Whether a subscription ends as its number says: every third lagged before the second row, the others have both.
fn ends_so(alloc: Global, group: &mut Group<VecOutlet>, number: u64) -> bool {
    let calls = if number % 3 == 0 {
        [
            (State(number), Lagged(1)),
            (Take(number), Took(1)),
            (Take(number), Nothing),
            (Unsubscribe(number), Left(1, Cause::Lag, 1)),
            (State(number), Nothing),
        ]
    } else {
        [
            (State(number), Open),
            (Take(number), Took(1)),
            (Take(number), Took(2)),
            (Unsubscribe(number), Left(2, Cause::Asked, 2)),
            (State(number), Nothing),
        ]
    };
    answers(alloc, group, &calls)
}

/// Whether all end in this order.
fn many_end(alloc: Global, group: &mut Group<VecOutlet>, order: Order) -> bool {
    for others in 0..MANY {
        if !ends_so(alloc, group, order.number(others)) {
            return false;
        }
    }
    true
}

/// Whether many subscriptions, a third of which have lagged, are closed in this order.
fn many_are_closed(alloc: Global, order: Order) -> bool {
    let mut group = Group::new(alloc, Topic(0), 0, 8);
    many_begin(alloc, &mut group)
        && group.open_len() == 300
        && answers(alloc, &mut group, TWO_ROWS)
        && group.open_len() == 200
        && many_end(alloc, &mut group, order)
        && group.open_len() == 0
}

#[test]
fn many_are_closed_in_three_orders(rt: HostRuntime) {
    let alloc = rt.alloc();
    assert!(rt; many_are_closed(alloc, Order::OldestFirst));
    assert!(rt; many_are_closed(alloc, Order::NewestFirst));
    assert!(rt; many_are_closed(alloc, Order::FromTheMiddle));
}
