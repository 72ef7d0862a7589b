//! Decision cells: what notes know before and after a decision, and two decisions of one flight.

ghost use Rattle.std.specs.Prelude.{◌≡◌};

use super::deciding::{ballot_to, stamp, ticket, verdict_of};
use super::sending::ID;
use crate::{Flight, Stamp, Verdict};
use std::alloc::Global;
use std::thread;
use std::thread::Threads;

/// A verdict whose only topic, 0, gave this number.
fn verdict(alloc: Global, n: u64) -> Option<Box<Verdict>> {
    verdict_of(ballot_to(alloc, &[0])?, &[ticket(0, n)])
}

/// What one decision gave: the stamp of the verdict that was returned, if one was, with the number of the fault, and
/// the stamp that is then read by the same note and by a new one.
#[derive(Clone, Copy, PartialEq, Eq)]
struct Decided {
    returned: Option<(Stamp, u32)>,
    read: Option<Stamp>,
    read_anew: Option<Stamp>,
}

/// The stamp that a new note reads.
fn read_anew(flight: &Flight) -> Option<Stamp> {
    let mut note = flight.note();
    let verdict = flight.read(&mut note)?;
    Some(verdict.stamp())
}

/// Decides a flight.
fn decide(flight: &Flight, verdict: Box<Verdict>) -> Decided {
    let mut note = flight.note();
    let returned = match flight.decide(&mut note, verdict) {
        Ok(()) => None,
        Err((verdict, fault)) => Some((verdict.stamp(), fault.number())),
    };
    let read = match flight.read(&mut note) {
        Some(verdict) => Some(verdict.stamp()),
        None => None,
    };
    Decided {
        returned,
        read,
        read_anew: read_anew(flight),
    }
}

/// What a decision gives that sets this stamp.
fn sets(n: u64) -> Decided {
    Decided {
        returned: None,
        read: Some(stamp(n, 0)),
        read_anew: Some(stamp(n, 0)),
    }
}

/// What a decision of the first stamp gives where the second was set.
fn finds(n: u64, set: u64) -> Decided {
    Decided {
        returned: Some((stamp(n, 0), 32)),
        read: Some(stamp(set, 0)),
        read_anew: Some(stamp(set, 0)),
    }
}

/// What is read before a decision, the decision of stamp 5, and then that of stamp 9.
fn two_decisions(alloc: Global, flight: &Flight) -> Option<(bool, Decided, Decided)> {
    let is_blank = read_anew(flight).is_none() && flight.see().is_none();
    let first = decide(flight, verdict(alloc, 5)?);
    let second = decide(flight, verdict(alloc, 9)?);
    Some((is_blank, first, second))
}

/// The stamp of the verdict that is seen, if one is set.
fn seen(flight: &Flight) -> Option<Stamp> {
    let (verdict, _seen) = flight.see()?;
    Some(verdict.stamp())
}

/// Those of a new flight, and the stamp that is seen in the end.
fn decided_once(alloc: Global) -> Option<((bool, Decided, Decided), Option<Stamp>)> {
    let flight = Flight::new(alloc, ID).ok()?;
    let decisions = two_decisions(alloc, &flight)?;
    Some((decisions, seen(&flight)))
}

#[test]
fn a_flight_is_decided_once(rt: HostRuntime) {
    let decisions = (true, sets(5), finds(9, 5));
    assert!(rt; decided_once(rt.alloc()) == Some((decisions, Some(stamp(5, 0)))));
}

/// What a note reads before a decision of stamp 3, and after it.
fn before_and_after(alloc: Global, flight: &Flight) -> Option<[Option<Stamp>; 2]> {
    let mut early = flight.note();
    let before = flight.read(&mut early).map(|verdict| verdict.stamp());
    decide(flight, verdict(alloc, 3)?);
    let after = flight.read(&mut early).map(|verdict| verdict.stamp());
    Some([before, after])
}

/// A note that knows nothing reads what another sets, whether it was made before or after.
fn reads_later(alloc: Global) -> Option<[Option<Stamp>; 2]> {
    let flight = Flight::new(alloc, ID).ok()?;
    before_and_after(alloc, &flight)
}

#[test]
fn an_early_note_reads_a_later_decision(rt: HostRuntime) {
    assert!(rt; reads_later(rt.alloc()) == Some([None, Some(stamp(3, 0))]));
}

/// What two threads' decisions give.
fn race<R: Threads + Sync>(rt: &R, alloc: Global, flight: &Flight) -> Option<(Decided, Decided)> {
    let one = verdict(alloc, 5)?;
    let other = verdict(alloc, 9)?;
    let decided = thread::join(
        rt,
        move || -> Decided { decide(flight, one) },
        move || -> Decided { decide(flight, other) },
    );
    Some(decided)
}

/// Those of a new flight.
fn raced<R: Threads + Sync>(rt: &R, alloc: Global) -> Option<(Decided, Decided)> {
    let flight = Flight::new(alloc, ID).ok()?;
    race(rt, alloc, &flight)
}

#[test]
fn two_threads_decide_once(rt: HostRuntime) {
    for _ in 0..100 {
        let decided = raced(&rt, rt.alloc());
        let first = Some((sets(5), finds(9, 5)));
        assert!(rt; decided == first || decided == Some((finds(5, 9), sets(9))));
    }
}
