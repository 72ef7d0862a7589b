//! Whether queues are what their spans say.

ghost use Rattle.std.specs.Prelude.{◌≡◌, ◌==◌, ◌&&◌, ℕ, not, map, IfOk};
ghost use Rattle.std.specs.List.{filter};
ghost use lib.Pointwise.{pointwise};
ghost use Rattle.mcast_txn.specs.Span.{in_span, up_to, row_mark};
ghost use Rattle.trace_audit.specs.Faults.{astray_subs, least, lesser, same_mark};
ghost use Rattle.trace_audit.specs.Inner.Chained.{IsIndex, is_up_to_end, is_up_to_from};
ghost use Rattle.trace_audit.specs.Inner.Orders.{rows_of_refs, IsGroupingOf, RisesBySub};
ghost use Rattle.trace_audit.specs.Trace.{marks_in, queue_mark, queue_of};

use crate::references::references;
use crate::row::{LogRow, QueueRow, SpanRow};
use crate::trace::Trace;
use mcast_txn::{Mark, NoMemory, Stamp};
use std::alloc::Global;

/// The least subscription whose queue is astray.
pub(crate) fn first_astray(
    alloc: Global,
    trace: &Trace,
    by_topic: &[&LogRow],
) -> Result<Option<u64>, NoMemory>
    requires index { IsIndex by_topic.now }
    requires grouping { IsGroupingOf by_topic.now trace.now.logs }
    ensures { IfOk result (λ sub. sub ≡ least (astray_subs trace.now)) }
{
    let by_sub = queues_by_sub(alloc, &trace.queues)?;
    let mut best = None;
    for span in &trace.spans {
        if is_astray(span, &by_sub, by_topic) {
            best = lesser(best, Some(span.sub));
        }
    }
    Ok(best)
}

/// Whether a subscription's queue isn't its topic's log restricted to its span.
fn is_astray(span: &SpanRow, by_sub: &[&QueueRow], by_topic: &[&LogRow]) -> bool
    requires rises { RisesBySub by_sub.now }
    requires index { IsIndex by_topic.now }
    ensures { result ≡ not (pointwise same_mark
        (queue_of span.now.sub (rows_of_refs by_sub.now)) (marks_in span.now (rows_of_refs by_topic.now))) }
{
    let queue = queue_in(by_sub, span.sub);
    let log = log_in(by_topic, span);
    !are_marks(queue, log)
}

/// A subscription's queue.
fn queue_in<'a, 'b>(by_sub: &'a [&'b QueueRow], sub: u64) -> &'a [&'b QueueRow]
    requires { RisesBySub by_sub.now }
    ensures { rows_of_refs result.now ≡ filter (λ queued. queued.sub == sub) (rows_of_refs by_sub.now) }
{
    let start = by_sub.partition_point(|row| row.sub < sub);
    let rest = &by_sub[start..];
    let len = rest.partition_point(|row| row.sub <= sub);
    &rest[..len]
}

/// What of its topic's log lies in a span.
fn log_in<'a, 'b>(by_topic: &'a [&'b LogRow], span: &SpanRow) -> &'a [&'b LogRow]
    requires { IsIndex by_topic.now }
    ensures { rows_of_refs result.now ≡ filter
        (λ logged. logged.topic.0 == span.now.topic.0 && in_span span.now.from span.now.to logged.row.stamp)
        (rows_of_refs by_topic.now) }
{
    let start = by_topic.partition_point(|row| is_up_to_from(row, span));
    let rest = &by_topic[start..];
    let len = rest.partition_point(|row| is_up_to_end(row, span));
    &rest[..len]
}

/// Whether a row is of a lower topic than the span's, or of its topic and no later than its beginning.
fn is_up_to_from(row: &LogRow, span: &SpanRow) -> bool
    ensures { result ≡ is_up_to_from span.now row.now }
{
    row.topic.0 < span.topic.0 || (row.topic.0 == span.topic.0 && !span.from.is_before(row.stamp))
}

/// Whether a row is of a lower topic than the span's, or of its topic and no later than its end.
fn is_up_to_end(row: &LogRow, span: &SpanRow) -> bool
    ensures { result ≡ is_up_to_end span.now row.now }
{
    row.topic.0 < span.topic.0 || (row.topic.0 == span.topic.0 && is_up_to(span.to, row.stamp))
}

/// Whether a stamp is at most the end, where there is one.
fn is_up_to(to: Option<Stamp>, stamp: Stamp) -> bool
    ensures { result ≡ up_to to stamp }
{
    match to {
        None => true,
        Some(end) => !end.is_before(stamp),
    }
}

/// Whether a queue has just a log's transactions and stamps.
fn are_marks(queue: &[&QueueRow], log: &[&LogRow]) -> bool
    ensures { result ≡ pointwise same_mark
        (map queue_mark (rows_of_refs queue.now)) (map (λ logged. row_mark logged.row) (rows_of_refs log.now)) }
{
    if queue.len() != log.len() {
        return false;
    }
    for index in 0..queue.len() {
        if !is_mark(queue[index], log[index]) {
            return false;
        }
    }
    true
}

/// Whether a queue row has a log row's transaction and stamp.
fn is_mark(queued: &QueueRow, row: &LogRow) -> bool
    ensures { result ≡ same_mark (queue_mark queued.now) (row_mark row.now.row) }
{
    let own = Mark {
        id: queued.id,
        stamp: queued.stamp,
    };
    own == Mark {
        id: row.id,
        stamp: row.stamp,
    }
}

/// The queue rows by subscription, each queue in its order.
fn queues_by_sub(alloc: Global, queues: &[QueueRow]) -> Result<Vec<&QueueRow>, NoMemory>
    ensures rises { IfOk result (λ rows. RisesBySub rows.items) }
    ensures kept { IfOk result
        (λ rows. (sub : ℕ) → filter (λ queued. queued.sub == sub) (rows_of_refs rows.items)
        ≡ filter (λ queued. queued.sub == sub) queues.now) }
{
    let mut rows = references(alloc, queues)?;
    rows.sort_by_key(|row| row.sub)?;
    Ok(rows)
}

/// The smaller of two numbers, where there are two.
fn lesser(a: Option<u64>, b: Option<u64>) -> Option<u64>
    ensures { result ≡ lesser a b }
{
    match (a, b) {
        (None, _) => b,
        (Some(_), None) => a,
        (Some(x), Some(y)) => { if y < x { b } else { a } }
    }
}
