//! Made traces: an explained one, spoilt in one place in each of some ways, and judged by a plain program too.

use super::slow::judged;
use super::{Row, trace_of};
use crate::audit;
use std::alloc::Global;
use std::test::Fail;

const ONE: &[u32] = &[0];

const TWO: &[u32] = &[0, 1];

const ALL: &[u32] = &[0, 1, 2];

/// A trace that its rows explain.
const GOOD: &[Row] = &[
    Row::Span(4, 0, (0, 0), None),
    Row::Span(7, 1, (3, 0), Some((6, 1))),
    Row::Span(9, 2, (0, 0), None),
    Row::Log(0, 1, 1, (2, 0), TWO),
    Row::Log(0, 2, 1, (3, 0), ONE),
    Row::Log(0, 1, 2, (4, 1), ALL),
    Row::Log(0, 2, 2, (6, 1), TWO),
    Row::Log(0, 3, 1, (7, 0), ONE),
    Row::Log(1, 1, 1, (2, 0), TWO),
    Row::Log(1, 1, 2, (4, 1), ALL),
    Row::Log(1, 2, 2, (6, 1), TWO),
    Row::Log(1, 3, 2, (8, 2), ALL),
    Row::Log(2, 1, 2, (4, 1), ALL),
    Row::Queue(4, 1, 1, (2, 0)),
    Row::Queue(4, 2, 1, (3, 0)),
    Row::Queue(7, 1, 2, (4, 1)),
    Row::Queue(4, 1, 2, (4, 1)),
    Row::Queue(9, 1, 2, (4, 1)),
    Row::Queue(4, 2, 2, (6, 1)),
    Row::Queue(7, 2, 2, (6, 1)),
    Row::Queue(4, 3, 1, (7, 0)),
];

/// The number one more.
fn more(number: u64) -> u64 {
    number.saturating_add(1)
}

/// A stamp spoilt in this way.
fn other_stamp(at: (u64, u32), way: u8) -> (u64, u32) {
    match way {
        3 => (more(at.0), at.1),
        4 => (at.0.saturating_sub(1), at.1),
        5 => (at.0, at.1.saturating_add(1)),
        _ => (9, 0),
    }
}

/// A row spoilt in this way.
fn spoilt(row: Row, way: u8) -> Row {
    match row {
        Row::Log(t, s, q, at, topics) => match way {
            3..=6 => Row::Log(t, s, q, other_stamp(at, way), topics),
            7 => Row::Log(t, more(s), q, at, topics),
            8 => Row::Log(t, s, more(q), at, topics),
            9 => Row::Log(t, s, q.saturating_sub(1), at, topics),
            10 => Row::Log(t, s, q, at, ALL),
            _ => Row::Log(t.saturating_add(1), s, q, at, topics),
        },
        Row::Span(sub, t, from, to) => match way {
            3..=6 => Row::Span(sub, t, other_stamp(from, way), to),
            7 => Row::Span(sub, t, from, None),
            8 => Row::Span(sub, t, from, Some((4, 1))),
            9 => Row::Span(sub, t, from, Some((4, 0))),
            10 => Row::Span(sub, t, (9, 0), Some((2, 0))),
            _ => Row::Span(sub, t.saturating_add(1), from, to),
        },
        Row::Queue(sub, s, q, at) => match way {
            3..=6 => Row::Queue(sub, s, q, other_stamp(at, way)),
            7 => Row::Queue(sub, more(s), q, at),
            8 => Row::Queue(sub, s, more(q), at),
            9 => Row::Queue(4, s, q, at),
            10 => Row::Queue(7, s, q, at),
            _ => Row::Queue(9, s, q, at),
        },
    }
}

/// Adds a row in this way, left out, twice, once or spoilt; whether there was memory.
fn has_put(rows: &mut Vec<Row>, row: Row, way: u8) -> bool {
    match way {
        0 => true,
        1 => rows.push(row).is_ok() && rows.push(row).is_ok(),
        2 => rows.push(row).is_ok(),
        _ => rows.push(spoilt(row, way)).is_ok(),
    }
}

/// Adds the good rows, the one at this place in this way; whether there was memory.
fn has_put_all(rows: &mut Vec<Row>, good: &[Row], place: usize, way: u8) -> bool {
    for index in 0..good.len() {
        let way = if index == place { way } else { 2 };
        if !has_put(rows, good[index], way) {
            return false;
        }
    }
    true
}

/// The good rows with the one at this place left out, twice there, after the next, or spoilt.
fn made(alloc: Global, place: usize, way: u8) -> Option<Vec<Row>> {
    let mut rows = Vec::new(alloc);
    if !has_put_all(&mut rows, GOOD, place, way) {
        return None;
    }
    if way == 2 && place < rows.len() && rows.len() - place > 1 {
        rows.swap(place, place + 1);
    }
    Some(rows)
}

/// The number of the auditor's fault, 0 for a yes, 98 where a row doesn't fit; `None` out of memory.
fn number(alloc: Global, rows: &[Row]) -> Option<u32> {
    let (trace, fault) = trace_of(alloc, rows)?;
    if let Some(fault) = fault {
        return Some(fault.number());
    }
    Some(match audit(alloc, &trace) {
        Ok(_) => 0,
        Err(fault) => fault.number(),
    })
}

/// The number of the made trace's fault by the auditor, where the plain program has the same, or its rows don't fit.
fn agreed(alloc: Global, place: usize, way: u8) -> Option<u32> {
    let rows = made(alloc, place, way)?;
    let own = number(alloc, &rows)?;
    let plain = judged(alloc, &rows)?;
    if own == 98 || own == plain {
        Some(own)
    } else {
        None
    }
}

#[test]
fn made_traces_are_judged_alike(rt: HostRuntime) -> Result<(), Fail> {
    let alloc = rt.alloc();
    let mut judged = 0u32;
    let mut seen = [false; 9];
    for made in 0..GOOD.len() * 12 {
        let way = (made % 12) as u8;
        let Some(number) = agreed(alloc, made / 12, way) else {
            return Err(Fail::new("judged otherwise"));
        };
        if number != 98 {
            judged = judged.saturating_add(1);
        }
        seen[(number % 9) as usize] = true;
    }
    assert!(rt; judged >= 200);
    // 0, and 92 to 98 as remainders of 9
    assert!(rt; seen == [true, false, true, true, true, true, true, true, true]);
    Ok(())
}
