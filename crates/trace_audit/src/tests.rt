//! Traces that are audited, and rows that don't fit.

use crate::{
    AddFault, Agreed, AuditFault, LogRow, QueueRow, Sender, SpanRow, Stamp, Topic, Trace, TraceRow,
    TxnId, audit,
};
use std::alloc::Global;

mod made;
mod memory;
mod slow;

/// A row with numbers alone.
#[derive(Clone, Copy)]
enum Row {
    /// A log's topic, sender, seq, stamp, and the transaction's topics.
    Log(u32, u64, u64, (u64, u32), &'static [u32]),
    /// A subscription's number, topic, beginning and end.
    Span(u64, u32, (u64, u32), Option<(u64, u32)>),
    /// A subscription's number, sender, seq and stamp.
    Queue(u64, u64, u64, (u64, u32)),
}

/// A stamp.
fn stamp(pair: (u64, u32)) -> Stamp {
    Stamp {
        n: pair.0,
        topic: Topic(pair.1),
    }
}

/// A transaction.
fn id(sender: u64, seq: u64) -> TxnId {
    TxnId {
        sender: Sender(sender),
        seq,
    }
}

/// The row of a trace.
fn row_of(alloc: Global, row: Row) -> Option<TraceRow> {
    Some(match row {
        Row::Log(topic, sender, seq, at, named) => {
            let mut topics = Vec::new(alloc);
            for &name in named {
                topics.push(Topic(name)).ok()?;
            }
            TraceRow::Log(LogRow {
                topic: Topic(topic),
                id: id(sender, seq),
                topics,
                stamp: stamp(at),
            })
        }
        Row::Span(sub, topic, from, to) => TraceRow::Span(SpanRow {
            sub,
            topic: Topic(topic),
            from: stamp(from),
            to: to.map(|end| stamp(end)),
        }),
        Row::Queue(sub, sender, seq, at) => TraceRow::Queue(QueueRow {
            sub,
            id: id(sender, seq),
            stamp: stamp(at),
        }),
    })
}

/// The trace of these rows, and the fault of the first that doesn't fit.
fn trace_of(alloc: Global, rows: &[Row]) -> Option<(Trace, Option<AddFault>)> {
    let mut trace = Trace::new(alloc);
    for &row in rows {
        if let Err(fault) = trace.add(row_of(alloc, row)?) {
            return Some((trace, Some(fault)));
        }
    }
    Some((trace, None))
}

/// The fault of adding these rows in order, if one has a fault; nothing where there is no memory for a row.
fn add_fault(alloc: Global, rows: &[Row]) -> Option<Option<AddFault>> {
    let (_, fault) = trace_of(alloc, rows)?;
    Some(fault)
}

/// The answer to these rows: whether they are complete, or why they are refused.
fn answer(alloc: Global, rows: &[Row]) -> Option<Result<bool, AuditFault>> {
    let (trace, fault) = trace_of(alloc, rows)?;
    if fault.is_some() {
        return None;
    }
    match audit(alloc, &trace) {
        Ok(agreed) => Some(Ok(agreed.complete)),
        Err(fault) => Some(Err(fault)),
    }
}

/// Why these rows are refused.
fn fault_of(alloc: Global, rows: &[Row]) -> Option<AuditFault> {
    answer(alloc, rows)?.err()
}

/// Whether these rows are complete, where they are explained.
fn completeness(alloc: Global, rows: &[Row]) -> Option<bool> {
    answer(alloc, rows)?.ok()
}

const BOTH: &[u32] = &[0, 1];

const ALL: &[u32] = &[0, 1, 2];

/// Two transactions to two topics, each topic with both: the rows of topic 0, and those of topic 1.
const FIRST: Row = Row::Log(0, 1, 1, (2, 0), BOTH);

const SECOND: Row = Row::Log(0, 0, 1, (2, 1), BOTH);

const THIRD: Row = Row::Log(1, 1, 1, (2, 0), BOTH);

const FOURTH: Row = Row::Log(1, 0, 1, (2, 1), BOTH);

const CROSSING: &[Row] = &[FIRST, SECOND, THIRD, FOURTH];

#[test]
fn crossing_is_complete(rt: HostRuntime) {
    assert!(rt; completeness(rt.alloc(), CROSSING) == Some(true));
}

/// Whether a row is of this sender's transaction 1, with this stamp, to topics 0 and 1.
fn is_of(row: &LogRow, sender: u64, at: (u64, u32)) -> bool {
    row.id == id(sender, 1)
        && row.stamp == stamp(at)
        && row.topics.as_slice() == [Topic(0), Topic(1)].as_slice()
}

/// Whether the list has two rows, which are those.
fn are_both(agreed: &Agreed) -> bool {
    let rows = agreed.rows.as_slice();
    rows.len() == 2 && is_of(rows[0], 1, (2, 0)) && is_of(rows[1], 0, (2, 1))
}

/// Whether the list of these rows has those two; nothing where they aren't explained.
fn agrees_on_both(alloc: Global, rows: &[Row]) -> Option<bool> {
    let (trace, fault) = trace_of(alloc, rows)?;
    if fault.is_some() {
        return None;
    }
    match audit(alloc, &trace) {
        Ok(agreed) => Some(are_both(&agreed)),
        Err(_) => None,
    }
}

#[test]
fn agreed_rows_rise_in_stamp(rt: HostRuntime) {
    assert!(rt; agrees_on_both(rt.alloc(), CROSSING) == Some(true));
}

#[test]
fn nothing_is_complete(rt: HostRuntime) {
    assert!(rt; completeness(rt.alloc(), &[]) == Some(true));
}

#[test]
fn a_row_that_a_topic_lacks_is_incomplete(rt: HostRuntime) {
    assert!(rt; completeness(rt.alloc(), &[FIRST, SECOND, THIRD]) == Some(false));
}

/// Rows, and why they are refused.
const REFUSED: &[(&[Row], AuditFault)] = &[
    (
        &[FIRST, SECOND, THIRD, Row::Log(1, 0, 1, (1, 1), BOTH)],
        AuditFault::TwoVerdicts,
    ),
    (
        &[FIRST, SECOND, THIRD, Row::Log(1, 0, 1, (2, 1), &[1])],
        AuditFault::TwoVerdicts,
    ),
    (
        &[FIRST, SECOND, THIRD, Row::Log(1, 2, 1, (2, 1), BOTH)],
        AuditFault::SameStamp,
    ),
    (&[FIRST, SECOND, FOURTH, THIRD], AuditFault::LogOrder),
    (&[FIRST, FIRST, THIRD, FOURTH], AuditFault::LogOrder),
    (
        &[FIRST, SECOND, Row::Log(0, 0, 0, (3, 0), &[0]), THIRD],
        AuditFault::SenderOrder,
    ),
    (
        &[FIRST, SECOND, FOURTH, Row::Log(0, 0, 2, (3, 0), &[0])],
        AuditFault::Hole(Topic(1)),
    ),
];

#[test]
fn logs_are_refused(rt: HostRuntime) {
    for &(rows, fault) in REFUSED {
        assert!(rt; fault_of(rt.alloc(), rows) == Some(fault));
    }
}

/// Three logs with two transactions, of which two logs lack the first.
const HOLES: &[Row] = &[
    Row::Log(2, 0, 2, (2, 0), ALL),
    Row::Log(0, 0, 1, (1, 0), ALL),
    Row::Log(1, 0, 2, (2, 0), ALL),
    Row::Log(0, 0, 2, (2, 0), ALL),
];

#[test]
fn the_least_hole_is_reported(rt: HostRuntime) {
    assert!(rt; fault_of(rt.alloc(), HOLES) == Some(AuditFault::Hole(Topic(1))));
}

/// A subscription to topic 0 or to no topic of the logs, the row of its queue, and whether that is the span's.
const SPANS: &[(Row, Row, bool)] = &[
    (
        Row::Span(7, 0, (0, 0), None),
        Row::Queue(7, 1, 1, (2, 0)),
        false,
    ),
    (
        Row::Span(7, 0, (0, 0), Some((2, 0))),
        Row::Queue(7, 1, 1, (2, 0)),
        true,
    ),
    (
        Row::Span(7, 0, (2, 0), None),
        Row::Queue(7, 0, 1, (2, 1)),
        true,
    ),
    (
        Row::Span(7, 0, (2, 0), None),
        Row::Queue(7, 1, 1, (2, 0)),
        false,
    ),
    (
        Row::Span(7, 0, (0, 0), Some((2, 0))),
        Row::Queue(7, 0, 1, (2, 1)),
        false,
    ),
    (
        Row::Span(7, 5, (0, 0), None),
        Row::Queue(7, 1, 1, (2, 0)),
        false,
    ),
];

/// Whether the rows of topic 0 and these are explained, or else the queue is the fault.
fn fits(alloc: Global, span: Row, queue: Row) -> Option<bool> {
    match answer(alloc, &[FIRST, SECOND, span, queue])? {
        Ok(_) => Some(true),
        Err(AuditFault::QueueRow(7)) => Some(false),
        Err(_) => None,
    }
}

#[test]
fn queues_are_their_spans(rt: HostRuntime) {
    for &(span, queue, wanted) in SPANS {
        assert!(rt; fits(rt.alloc(), span, queue) == Some(wanted));
    }
}

/// The rows of topic 0, and three subscriptions without queues, of which the second has nothing in its span.
const QUEUES: &[Row] = &[
    FIRST,
    SECOND,
    Row::Span(9, 0, (0, 0), None),
    Row::Span(4, 0, (2, 1), None),
    Row::Span(6, 0, (2, 0), None),
];

#[test]
fn the_least_queue_is_reported(rt: HostRuntime) {
    assert!(rt; fault_of(rt.alloc(), QUEUES) == Some(AuditFault::QueueRow(6)));
}

const SPAN: Row = Row::Span(3, 0, (0, 0), None);

const QUEUE: Row = Row::Queue(3, 0, 1, (1, 0));

/// Two rows, and whether each fits.
const PAIRS: &[(&[Row], bool)] = &[
    (&[SPAN, QUEUE], true),
    (&[SPAN, SPAN], false),
    (&[QUEUE, SPAN], false),
    (&[SPAN, Row::Queue(4, 0, 1, (1, 0))], false),
    (&[SPAN, Row::Log(2, 0, 1, (1, 0), BOTH)], false),
    (&[SPAN, Row::Log(1, 0, 1, (1, 0), &[1, 0])], false),
    (&[SPAN, Row::Log(1, 0, 1, (1, 0), &[1, 1])], false),
    (&[SPAN, Row::Log(1, 0, 1, (1, 0), &[])], false),
    (&[SPAN, Row::Log(1, 0, 1, (1, 0), BOTH)], true),
];

#[test]
fn misfits_are_refused(rt: HostRuntime) {
    for &(rows, fits) in PAIRS {
        let wanted = if fits { None } else { Some(AddFault::Misfit) };
        assert!(rt; add_fault(rt.alloc(), rows) == Some(wanted));
    }
}

/// Each fault of an audit, and its number.
const NUMBERS: &[(AuditFault, u32)] = &[
    (AuditFault::NoMemory, 91),
    (AuditFault::LogOrder, 92),
    (AuditFault::TwoVerdicts, 93),
    (AuditFault::SenderOrder, 94),
    (AuditFault::Hole(Topic(1)), 95),
    (AuditFault::QueueRow(1), 96),
    (AuditFault::SameStamp, 97),
];

#[test]
fn faults_have_their_numbers(rt: HostRuntime) {
    assert!(rt; AddFault::Misfit.number() == 98 && AddFault::NoMemory.number() == 91);
    for &(fault, number) in NUMBERS {
        assert!(rt; fault.number() == number, "{number}");
    }
}
