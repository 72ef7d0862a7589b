//! Traces.

ghost use Rattle.std.specs.Prelude.{◌≡◌, ◌&&◌, ◌==◌, ℕ, true, false, None, IfErr, OnOk, OnErr};
ghost use Rattle.std.specs.List.{list_any};
ghost use Rattle.mcast_txn.specs.TopicSet.{names};
ghost use Rattle.trace_audit.specs.Trace.{no_trace_data, rise_after, fits, has_span};

use crate::fault::AddFault;
use crate::row::{LogRow, QueueRow, SpanRow, TraceRow};
use mcast_txn::Topic;
use std::alloc::Global;
use std::collections::BTreeSet;
use std::marker::Model;

/// What a run left: the rows of its topics' logs, and its subscriptions' spans and queues. In contracts it is these
/// three lists, each in the order in which the rows were added.
#[derive(Drop)]
pub struct Trace {
    pub(crate) logs: Vec<LogRow>,
    pub(crate) spans: Vec<SpanRow>,
    pub(crate) queues: Vec<QueueRow>,
    // The spans' subscriptions. (Ordered: whoever wrote the trace chose the numbers, and could choose them so that a
    // fixed hash sends all of them to one place.)
    subs: BTreeSet<u64>,
}

impl Model for Trace {
    ghost use Rattle.std.specs.Prelude.{◌≡◌, ℕ, true};
    ghost use Rattle.std.specs.Ordering.{nat_cmp};
    ghost use Rattle.std.specs.List.{list_all};
    ghost use Rattle.std.specs.BTreeSet.{contains};
    ghost use Rattle.trace_audit.specs.Trace.{TraceData, fits, has_span};

    ghost Value = { TraceData };

    ghost view = { λ t. record { logs = t.logs.items; spans = t.spans.items; queues = t.queues.items } };

    ghost invariant = { λ t. (list_all (λ logged. fits logged) t.logs.items ≡ true)
        × ((sub : ℕ) → contains nat_cmp t.subs sub ≡ has_span sub t.spans.items) };
}

impl Trace {
    ghost use Rattle.trace_audit.specs.Rows.{is_misfit, says_misfit, with_row};
    ghost use Rattle.trace_audit.specs.declared.row.TraceRow.TheVariants as row_kind;

    /// A trace without rows.
    pub fn new(alloc: Global) -> Trace
        ensures { result ≡ no_trace_data }
    {
        Trace {
            logs: Vec::new(alloc),
            spans: Vec::new(alloc),
            queues: Vec::new(alloc),
            subs: BTreeSet::new(alloc),
        }
    }

    /// Puts a row at the end of its log or queue, or opens its span.
    pub fn add(&mut self, row: TraceRow) -> Result<(), AddFault>
        ensures added { OnOk result (self.new ≡ with_row row self.old) }
        ensures fits { OnOk result (is_misfit row self.old ≡ false) }
        ensures fault { IfErr result (λ fault. is_misfit row self.old ≡ says_misfit fault) }
        ensures kept { OnErr result (self.new ≡ self.old) }
    {
        if self.is_misfit(&row) {
            return Err(AddFault::Misfit);
        }
        let added = match row {
            TraceRow::Log(row) => self.logs.push(row).is_ok(),
            TraceRow::Span(row) => self.opens(row),
            TraceRow::Queue(row) => self.queues.push(row).is_ok(),
        };
        if added {
            Ok(())
        } else {
            Err(AddFault::NoMemory)
        }
    }

    /// Opens a subscription's first span; whether there was memory. If not, the trace is as it was.
    fn opens(&mut self, row: SpanRow) -> bool
        requires { has_span row.sub self.old.spans ≡ false }
        ensures yes { result ≡ true → self.new ≡ with_row (row_kind.Span row) self.old }
        ensures no { result ≡ false → self.new ≡ self.old }
    {
        let Ok(()) = self.spans.push(row) else {
            return false;
        };
        match self.subs.insert(row.sub) {
            Ok(_) => true,
            Err(_) => {
                self.spans.pop();
                false
            }
        }
    }

    /// Whether a row doesn't fit.
    fn is_misfit(&self, row: &TraceRow) -> bool
        ensures { result ≡ is_misfit row.now self.now }
    {
        match row {
            TraceRow::Log(row) => !fits(row),
            TraceRow::Span(row) => self.has_span(row.sub),
            TraceRow::Queue(row) => !self.has_span(row.sub),
        }
    }

    /// Whether a subscription has a span.
    fn has_span(&self, sub: u64) -> bool
        ensures { result ≡ has_span sub self.now.spans }
    {
        self.subs.contains(&sub)
    }
}

/// Whether a log row's topics rise, and its log's own is one of them.
fn fits(row: &LogRow) -> bool
    ensures { result ≡ fits row.now }
{
    rise(&row.topics) && names(row.topic, &row.topics)
}

/// Whether the topics rise strictly.
fn rise(topics: &[Topic]) -> bool
    ensures { result ≡ rise_after None topics.now }
{
    let mut last: Option<Topic> = None;
    for &topic in topics {
        if last.is_some_and(|last| last.0 >= topic.0) {
            return false;
        }
        last = Some(topic);
    }
    true
}

/// Whether a topic is one of these.
pub(crate) fn names(topic: Topic, topics: &[Topic]) -> bool
    ensures { result ≡ names topic topics.now }
{
    topics.iter().any(|other| other.0 == topic.0)
}
