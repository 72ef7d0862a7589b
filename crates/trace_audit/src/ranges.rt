//! That a trace's numbers fit their types, which a contract knows of what was read.

ghost use Rattle.std.specs.Prelude.{◌≡◌, true, map};
ghost use Rattle.std.specs.List.{AllByRecursion, list_all};
ghost use Rattle.trace_audit.specs.PrintedRows.{rows_in};
ghost use Rattle.trace_audit.specs.Text.{IsTopicInRange, IsIdInRange, IsStampInRange, IsRowInRange};
ghost use Rattle.trace_audit.specs.Trace.{fits};
ghost use Rattle.trace_audit.specs.declared.row.TraceRow.TheVariants as row_kind;

use crate::row::{LogRow, QueueRow, SpanRow};
use crate::trace::Trace;
use mcast_txn::{Stamp, Topic, TxnId};

impl Trace {
    /// Each number of its rows fits its type, and each log's row names a topic. It reads the rows, and does nothing
    /// else.
    pub fn numbers_fit(&self)
        ensures { AllByRecursion IsRowInRange (rows_in self.now) }
    {
        logs_fit(&self.logs);
        spans_fit(&self.spans);
        queues_fit(&self.queues);
    }
}

/// Those of rows of logs do.
fn logs_fit(logs: &[LogRow])
    requires { list_all (λ logged. fits logged) logs.now ≡ true }
    ensures { AllByRecursion IsRowInRange (map (λ logged. row_kind.Log logged) logs.now) }
{
    for row in logs {
        log_fits(row);
    }
}

/// Those of spans do.
fn spans_fit(spans: &[SpanRow])
    ensures { AllByRecursion IsRowInRange (map (λ span. row_kind.Span span) spans.now) }
{
    for row in spans {
        span_fits(*row);
    }
}

/// Those of rows of queues do.
fn queues_fit(queues: &[QueueRow])
    ensures { AllByRecursion IsRowInRange (map (λ queued. row_kind.Queue queued) queues.now) }
{
    for row in queues {
        queue_fits(*row);
    }
}

/// Those of a row of a log do.
fn log_fits(row: &LogRow)
    requires { fits row.now ≡ true }
    ensures { IsRowInRange (row_kind.Log row.now) }
{
    topic_fits(row.topic);
    id_fits(row.id);
    stamp_fits(row.stamp);
    topics_fit(&row.topics);
}

/// Those of a span do.
fn span_fits(row: SpanRow)
    ensures { IsRowInRange (row_kind.Span row) }
{
    topic_fits(row.topic);
    stamp_fits(row.from);
    if let Some(to) = row.to {
        stamp_fits(to);
    }
}

/// Those of a row of a queue do.
fn queue_fits(row: QueueRow)
    ensures { IsRowInRange (row_kind.Queue row) }
{
    id_fits(row.id);
    stamp_fits(row.stamp);
}

/// Those of topics do.
fn topics_fit(topics: &[Topic])
    ensures { AllByRecursion IsTopicInRange topics.now }
{
    for topic in topics {
        topic_fits(*topic);
    }
}

/// That of a topic does.
fn topic_fits(topic: Topic)
    ensures { IsTopicInRange topic }
{
    let _number = topic.0;
}

/// Those of a transaction do.
fn id_fits(id: TxnId)
    ensures { IsIdInRange id }
{
    let _sender = id.sender.0;
    let _seq = id.seq;
}

/// Those of a stamp do.
fn stamp_fits(stamp: Stamp)
    ensures { IsStampInRange stamp }
{
    let _number = stamp.n;
    topic_fits(stamp.topic);
}
