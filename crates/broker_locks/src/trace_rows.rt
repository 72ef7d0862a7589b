//! Rows that are added to a trace.

ghost use Rattle.std.specs.Prelude.{◌≡◌, ◌++◌, [], ◌∷◌, map, IfErr, IfOk, OnErr, OnOk};
ghost use Rattle.mcast_txn.specs.Lists.{Rises};
ghost use Rattle.mcast_txn.specs.Span.{row_stamp};
ghost use Rattle.trace_audit.specs.Rows.{is_misfit, says_misfit};
ghost use Rattle.broker_locks.specs.KeptTrace.{AddsAll, AddsFirst, marks_between};
ghost use Rattle.broker_locks.specs.Inner.KeptRows.{sub_in_log};
ghost use Rattle.broker_locks.specs.TopicTraces.{logged_row, log_rows, queue_row, sub_rows};

use crate::log_section::LogSection;
use crate::place::names;
use mcast_group::Row;
use mcast_txn::{NoMemory, Topic};
use std::alloc::Global;
use std::sync::Wait;
use trace_audit::{AddFault, LogRow, QueueRow, SpanRow, Trace, TraceRow};

/// A row of a topic's log as a row of a trace, with a copy of its topics.
fn log_row(alloc: Global, topic: Topic, row: &Row) -> Result<LogRow, NoMemory>
    ensures { IfOk result (λ logged. logged ≡ record { topic = topic; row = row.now }) }
{
    Ok(LogRow {
        topic,
        id: row.id,
        topics: Vec::from_slice(alloc, row.topics.as_slice())?,
        stamp: row.stamp,
    })
}

/// Adds a row of a topic's log. Whether it fits is tested before its topics are copied, so that 91 comes only where
/// it does.
fn add_log_row(alloc: Global, trace: &mut Trace, topic: Topic, row: &Row) -> Result<(), AddFault>
    ensures ok { OnOk result (AddsAll (logged_row topic row.now ∷ []) trace.old trace.new) }
    ensures fault { IfErr result
        (λ fault. is_misfit (logged_row topic row.now) trace.old ≡ says_misfit fault) }
    ensures err { OnErr result (trace.new ≡ trace.old) }
{
    if !names(topic, row.topics.as_slice()) {
        return Err(AddFault::Misfit);
    }
    let Ok(logged) = log_row(alloc, topic, row) else {
        return Err(AddFault::NoMemory);
    };
    trace.add(TraceRow::Log(logged))
}

/// Adds the rows of a section of a topic's log, in their order.
pub(crate) fn add_log<R: Wait>(
    alloc: Global,
    trace: &mut Trace,
    topic: Topic,
    log: &LogSection<R>,
) -> Result<(), AddFault>
    ensures ok { OnOk result (AddsAll (log_rows topic log.now) trace.old trace.new) }
    ensures err { IfErr result (λ fault. AddsFirst fault (log_rows topic log.now) trace.old trace.new) }
{
    for i in 0..log.len() {
        add_log_row(alloc, trace, topic, log.row(i).unwrap())?;
    }
    Ok(())
}

/// Adds the queue rows of a subscription: the rows of a section of the log that lie in its span, found by halving.
fn add_marks<R: Wait>(trace: &mut Trace, span: SpanRow, log: &LogSection<R>) -> Result<(), AddFault>
    requires { Rises row_stamp log.now }
    ensures ok { OnOk result
        (AddsAll (map (queue_row span.sub) (marks_between span.from span.to log.now)) trace.old trace.new) }
    ensures err { IfErr result
        (λ fault. AddsFirst fault (map (queue_row span.sub) (marks_between span.from span.to log.now))
        trace.old trace.new) }
{
    let end = log.count_up_to(span.to);
    for i in log.count_to(span.from)..end {
        let row = log.row(i).unwrap();
        let queued = QueueRow {
            sub: span.sub,
            id: row.id,
            stamp: row.stamp,
        };
        trace.add(TraceRow::Queue(queued))?;
    }
    Ok(())
}

/// Adds a subscription: its span, and the rows of both sections of the log that lie in it as its queue.
pub(crate) fn add_subscription<R: Wait>(
    trace: &mut Trace,
    span: SpanRow,
    drained: &LogSection<R>,
    held: &LogSection<R>,
) -> Result<(), AddFault>
    requires { Rises row_stamp (drained.now ++ held.now) }
    ensures ok { OnOk result
        (AddsAll (sub_rows span.topic (sub_in_log span (drained.now ++ held.now))) trace.old trace.new) }
    ensures err { IfErr result
        (λ fault. AddsFirst fault (sub_rows span.topic (sub_in_log span (drained.now ++ held.now)))
        trace.old trace.new) }
{
    trace.add(TraceRow::Span(span))?;
    add_marks(trace, span, drained)?;
    add_marks(trace, span, held)
}
