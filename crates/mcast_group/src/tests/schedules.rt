//! Made schedules of one topic: what it answers to each of their calls, and what the plain program does.

use super::calls::{
    Answer, SHOWN, cancelled, drained, id, learnt, propose, proposed, released, state, subscribed,
    taken, turned, unsubscribed,
};
use super::made::{Drawn, Draws, MadeCall};
use super::plain::Past;
use crate::{Cause, Group};
use mcast_txn::Topic;
use std::alloc::Global;
use sub_queue::VecOutlet;

/// How many schedules there are, and how many calls each has.
const SCHEDULES: u32 = 400;

const CALLS: u32 = 48;

/// The least clock of a schedule's topic, and its limit of parts and rows.
const OPENING: u64 = 3;

const LIMIT: usize = SHOWN;

/// What the topic answers to a made verdict.
fn learnt_made(alloc: Global, group: &mut Group<VecOutlet>, made: Drawn) -> Option<Answer> {
    let rows = [(0, made.own), (1, made.other)];
    learnt(alloc, group, id(made.seq), &rows)
}

/// How many parts a turn releases that finds two made verdicts.
fn turned_made(
    alloc: Global,
    group: &mut Group<VecOutlet>,
    first: Drawn,
    second: Drawn,
) -> Option<Answer> {
    let one = [(0, first.own), (1, first.other)];
    let other = [(0, second.own), (1, second.other)];
    let count = turned(alloc, group, (first.seq, &one), (second.seq, &other))?;
    Some(Answer::Turned(count))
}

/// What the topic answers to a call; nothing where memory ran out before it.
fn reply(alloc: Global, group: &mut Group<VecOutlet>, call: MadeCall) -> Option<Answer> {
    match call {
        MadeCall::Propose(seq, floor) => {
            Some(proposed(propose(alloc, group, id(seq), &[0, 1], floor)?))
        }
        MadeCall::Learn(made) => learnt_made(alloc, group, made),
        MadeCall::Cancel(seq) => Some(cancelled(group, id(seq))),
        MadeCall::Release => Some(released(group)),
        MadeCall::Turn(first, second) => turned_made(alloc, group, first, second),
        MadeCall::Subscribe(number, capacity) => Some(subscribed(alloc, group, number, capacity)),
        MadeCall::Unsubscribe(number) => Some(unsubscribed(group, number)),
        MadeCall::Take(number) => taken(group, number),
        MadeCall::State(number) => Some(state(group, number)),
        MadeCall::Drain => drained(group),
    }
}

/// Whether the log is the released rows that weren't drained, sorted by stamp.
fn has_sorted_log(group: &Group<VecOutlet>, past: &Past) -> bool {
    for i in 0..past.undrained() {
        let Some((seq, stamp)) = past.held(i) else {
            return false;
        };
        match group.held(i) {
            Some(row) if row.id.seq == seq && row.stamp == stamp => {}
            _ => return false,
        }
    }
    group.held_len() == past.undrained()
}

/// Which answers came, by `kind_index`.
#[derive(Drop)]
struct Seen {
    came: [bool; 20],
}

/// The index of an answer among those that must come.
fn kind_index(answer: Answer) -> usize {
    match answer {
        Answer::Ticket(_) => 0,
        Answer::Released(_, _, _) => 1,
        Answer::Done => 2,
        Answer::Nothing => 3,
        Answer::From(_) => 4,
        Answer::Left(_, Cause::Asked, _) => 5,
        Answer::Left(_, Cause::Lag, _) => 6,
        Answer::Took(_) => 7,
        Answer::Open => 8,
        Answer::Lagged(_) => 9,
        Answer::Turned(0) => 10,
        Answer::Turned(_) => 11,
        Answer::Fault(41) => 12,
        Answer::Fault(43 | 44) => 13,
        Answer::Fault(45) => 14,
        Answer::Fault(46) => 15,
        Answer::Fault(47 | 48) => 16,
        Answer::Fault(_) => 17,
        Answer::Drained(0, _) => 18,
        Answer::Drained(_, _) => 19,
    }
}

/// Whether the topic and the plain program give the same answers to a schedule's calls, and have the same log after it.
fn agrees(alloc: Global, schedule: u32, seen: &mut Seen) -> bool {
    let mut group = Group::new(alloc, Topic(0), OPENING, LIMIT);
    let mut past = Past::new(alloc, OPENING, LIMIT);
    let mut draws = Draws::of(schedule);
    for _ in 0..CALLS {
        let call = draws.call(&past);
        let Some(answer) = reply(alloc, &mut group, call) else {
            return false;
        };
        if past.answer(call) != Some(answer) {
            return false;
        }
        if let Some(came) = seen.came.get_mut(kind_index(answer)) {
            *came = true;
        }
    }
    has_sorted_log(&group, &past)
}

/// Each answer is the one that the list of what happened before says, and each kind of answer comes.
#[test]
fn made_schedules(rt: HostRuntime) {
    let alloc = rt.alloc();
    let mut seen = Seen { came: [false; 20] };
    for schedule in 0..SCHEDULES {
        assert!(rt; agrees(alloc, schedule, &mut seen), "schedule {schedule}");
    }
    assert!(rt; seen.came.iter().all(|came| *came));
}
