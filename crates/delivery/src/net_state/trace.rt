//! Traces of the core.

ghost use Rattle.std.specs.Prelude.{◌≡◌, ◌≤◌, ◌++◌, [], ◌∷◌, length, true, false, IfOk, OnOk};
ghost use Rattle.std.specs.List.{list_all};
ghost use Rattle.trace_audit.specs.Rows.{is_misfit, with_row};
ghost use Rattle.trace_audit.specs.Trace.{fits, has_span};
ghost use Rattle.delivery.specs.Topics.{max_topics};
ghost use Rattle.delivery.specs.Traces.{traced_log, traced_span, traced_queue, trace_of};

use crate::net_state::NetState;
use crate::net_state::queue_report::QueueReport;
use crate::net_state::report::Report;
use mcast_group::{Group, Row};
use mcast_txn::Topic;
use std::alloc::Global;
use stomp_frame::NoMemory;
use sub_queue::VecOutlet;
use trace_audit::{AddFault, LogRow, QueueRow, SpanRow, Trace, TraceRow};

/// Adds a row that fits.
fn put(trace: &mut Trace, row: TraceRow) -> Result<(), NoMemory>
    requires { is_misfit row trace.old ≡ false }
    ensures { OnOk result (trace.new ≡ with_row row trace.old) }
{
    match trace.add(row) {
        Ok(()) => Ok(()),
        Err(AddFault::NoMemory) => Err(NoMemory),
        Err(AddFault::Misfit) => unreachable!(),
    }
}

/// A row of a topic's log as a row of a trace, with a copy of its topics.
fn log_row(alloc: Global, topic: Topic, row: &Row) -> Result<LogRow, NoMemory>
    ensures { IfOk result (λ logged. logged ≡ record { topic = topic; row = row.now }) }
{
    Ok(LogRow {
        topic,
        id: row.id,
        topics: Vec::from_slice(alloc, row.topics.as_slice())?,
        stamp: row.stamp,
    })
}

/// Adds the rows of a topic's log, in their order.
fn add_log(
    alloc: Global,
    trace: &mut Trace,
    topic: Topic,
    group: &Group<VecOutlet>,
) -> Result<(), NoMemory>
    requires { list_all (λ logged. fits logged) (traced_log topic.0 group.now.topic.held) ≡ true }
    ensures { OnOk result (trace.new
        ≡ record trace.old { logs = trace.old.logs ++ traced_log topic.0 group.now.topic.held }) }
{
    for i in 0..group.held_len() {
        let logged = log_row(alloc, topic, group.held(i).unwrap())?;
        put(trace, TraceRow::Log(logged))?;
    }
    Ok(())
}

/// Adds what the queue of subscription `sub` accepted, in its order.
fn add_queue(trace: &mut Trace, sub: u64, queue: &QueueReport<'_>) -> Result<(), NoMemory>
    requires { has_span sub trace.old.spans ≡ true }
    ensures { OnOk result (trace.new
        ≡ record trace.old { queues = trace.old.queues ++ traced_queue sub queue.now }) }
{
    for i in 0..queue.queued_len() {
        let item = queue.queued(i).unwrap();
        let id = item.part.id();
        let stamp = item.stamp;
        put(trace, TraceRow::Queue(QueueRow { sub, id, stamp }))?;
    }
    Ok(())
}

/// Adds the span of subscription `sub`, and what its queue accepted.
fn add_subscription(trace: &mut Trace, sub: u64, queue: &QueueReport<'_>) -> Result<(), NoMemory>
    requires { has_span sub trace.old.spans ≡ false }
    ensures { OnOk result (trace.new ≡ record trace.old {
      spans = trace.old.spans ++ traced_span sub queue.now ∷ [];
      queues = trace.old.queues ++ traced_queue sub queue.now;
    }) }
{
    let span = SpanRow {
        sub,
        topic: queue.topic(),
        from: queue.from(),
        to: queue.to(),
    };
    put(trace, TraceRow::Span(span))?;
    add_queue(trace, sub, queue)
}

/// Adds each subscription, by its number.
fn add_subscriptions(trace: &mut Trace, report: &Report<'_>) -> Result<(), NoMemory>
    requires { trace.old.spans ≡ [] }
    ensures { OnOk result (trace.new ≡ record trace.old {
      spans = (trace_of report.now).spans;
      queues = trace.old.queues ++ (trace_of report.now).queues;
    }) }
{
    for sub in 0..report.subscriptions_len() {
        let queue = report.subscription(sub).unwrap();
        add_subscription(trace, sub as u64, &queue)?;
    }
    Ok(())
}

impl NetState {
    ghost use Rattle.delivery.specs.Inner.ViewReports.{report_in};

    /// Adds each topic's log, by the topics' numbers.
    fn add_logs(&self, trace: &mut Trace) -> Result<(), NoMemory>
        requires few { length self.now.groups ≤ max_topics }
        requires fit { list_all (λ logged. fits logged) (trace_of (report_in self.now)).logs ≡ true }
        ensures { OnOk result (trace.new
            ≡ record trace.old { logs = trace.old.logs ++ (trace_of (report_in self.now)).logs }) }
    {
        for i in 0..self.groups.len() {
            add_log(self.alloc, trace, Topic(i as u32), &self.groups[i])?;
        }
        Ok(())
    }

    /// The trace of what is held. Each row is made once, and only a log's row copies anything: its topics.
    pub(crate) fn trace(&self) -> Result<Trace, NoMemory>
        requires few { length self.now.groups ≤ max_topics }
        requires fit { list_all (λ logged. fits logged) (trace_of (report_in self.now)).logs ≡ true }
        ensures { IfOk result (λ trace. trace ≡ trace_of (report_in self.now)) }
    {
        let mut trace = Trace::new(self.alloc);
        self.add_logs(&mut trace)?;
        add_subscriptions(&mut trace, &Report { state: self })?;
        Ok(trace)
    }
}
