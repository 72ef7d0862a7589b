//! Refused growths: they are made by `rt try --test --fail-alloc N`, and each test here holds whichever allocation
//! fails.

use super::{Row, row_of};
use crate::{Agreed, AuditFault, Trace, audit};
use std::alloc::Global;
use std::test::Fail;

/// How many transactions there are: sorts of more than 20 rows take memory.
const COUNT: u64 = 24;

/// The named topics of each transaction.
const ONE: &[u32] = &[0];

/// Whether the row is added.
fn adds(alloc: Global, trace: &mut Trace, row: Row) -> bool {
    match row_of(alloc, row) {
        Some(row) => trace.add(row).is_ok(),
        None => false,
    }
}

/// Whether the row is added the first or the second time.
fn adds_in_the_end(alloc: Global, trace: &mut Trace, row: Row) -> bool {
    adds(alloc, trace, row) || adds(alloc, trace, row)
}

/// One log of COUNT rows, and a subscription that has them all.
fn long_trace(alloc: Global) -> Option<Trace> {
    let mut trace = Trace::new(alloc);
    if !adds_in_the_end(alloc, &mut trace, Row::Span(3, 0, (0, 0), None)) {
        return None;
    }
    for seq in 1..=COUNT {
        let added = adds_in_the_end(alloc, &mut trace, Row::Log(0, 5, seq, (seq, 0), ONE))
            && adds_in_the_end(alloc, &mut trace, Row::Queue(3, 5, seq, (seq, 0)));
        if !added {
            return None;
        }
    }
    Some(trace)
}

/// Whether the list has the COUNT transactions, and is complete.
fn is_whole(agreed: &Agreed) -> bool {
    let mut seq = 0u64;
    for row in &agreed.rows {
        seq = seq.saturating_add(1);
        if row.id.seq != seq || row.stamp.n != seq || row.topics.len() != 1 {
            return false;
        }
    }
    seq == COUNT && agreed.complete
}

/// Whether the trace's answer has the COUNT transactions and is complete; `None` where memory ran out.
fn is_judged_whole(alloc: Global, trace: &Trace) -> Option<bool> {
    match audit(alloc, trace) {
        Ok(agreed) => Some(is_whole(&agreed)),
        Err(AuditFault::NoMemory) => None,
        Err(_) => Some(false),
    }
}

/// With one allocation refused, an audit says so, and is then the same as with ample memory.
#[test]
fn a_long_trace_is_judged_in_the_end(rt: HostRuntime) -> Result<(), Fail> {
    let alloc = rt.alloc();
    let Some(trace) = long_trace(alloc) else {
        return Err(Fail::new("a row is refused twice"));
    };
    let whole = match is_judged_whole(alloc, &trace) {
        Some(whole) => Some(whole),
        None => is_judged_whole(alloc, &trace),
    };
    assert!(rt; whole == Some(true));
    Ok(())
}
