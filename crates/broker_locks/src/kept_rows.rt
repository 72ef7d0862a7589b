//! What a place stores for the trace of a run.

ghost use Rattle.std.specs.Prelude.{◌≡◌, ◌++◌, ◌==◌, ◌≤◌, ◌+◌, false, [], length, map, vec_capacity, vec_len, Some, None, if◌then◌else◌, IfErr, IfOk, IsOk, OnErr, OnOk};
ghost use Rattle.std.specs.List.{list_any};
ghost use Rattle.sub_queue.specs.Ends.{shown_of_source};
ghost use Rattle.mcast_group.specs.Group.{group_after_subscribe, sub_refusal};
ghost use Rattle.mcast_group.specs.Machine.{subscribe_fault};
ghost use Rattle.mcast_group.specs.Sound.{IsSound};
ghost use Rattle.mcast_txn.proofs.Rising.{Finds};
ghost use Rattle.mcast_txn.specs.Lists.{Rises};
ghost use Rattle.mcast_txn.specs.Span.{row_stamp};
ghost use Rattle.broker_locks.specs.KeptTrace.{AddsAll, AddsFirst, KeepsTrace, topic_trace};
ghost use Rattle.broker_locks.specs.Place.{cells_after_drain};
ghost use Rattle.broker_locks.specs.TopicTraces.{topic_rows};

use crate::kept_span::KeptSpan;
use crate::log_section::LogSection;
use crate::trace_rows::{add_log, add_subscription};
use mcast_group::{CellGroup, Group, LogRows, Row, SubFault, SubState};
use mcast_txn::{NoMemory, Stamp};
use std::alloc::Global;
use std::marker::Model;
use std::sync::Wait;
use sub_queue::Source;
use trace_audit::{AddFault, SpanRow, Trace};

/// The rows that were drained from a place's log, and the subscriptions that ever began there, by rising number, so
/// that one is found by halving.
pub(crate) struct KeptRows {
    alloc: Global,
    drained: Vec<Row>,
    spans: Vec<KeptSpan>,
}

impl Drop for KeptRows {
    /// Written out, as at `Place`.
    fn drop(self) {
        let KeptRows {
            alloc: _,
            drained,
            spans,
        } = self;
        drop(drained);
        drop(spans);
    }
}

impl Model for KeptRows {
    ghost use Rattle.mcast_txn.specs.Lists.{RisesBy};
    ghost use Rattle.broker_locks.specs.Inner.KeptRows.{RowsKept, span_number};

    ghost Value = { RowsKept };

    ghost view = { λ k. record { drained = k.drained.items; spans = k.spans.items } };

    ghost invariant = { λ k. RisesBy span_number k.spans.items };
}

impl KeptRows {
    ghost use Rattle.broker_locks.specs.Inner.KeptRows.{span_after_end, span_number, span_row, spans_rows, trace_kept};
    ghost use Rattle.mcast_txn.specs.Lists.{insert_by_number};

    /// Nothing yet, which takes no memory.
    pub(crate) fn new(alloc: Global) -> KeptRows
        ensures { result ≡ record { drained = []; spans = [] } }
    {
        KeptRows {
            alloc,
            drained: Vec::new(alloc),
            spans: Vec::new(alloc),
        }
    }

    /// The index of the subscription of this number, or else the one at which it would come.
    fn search(&self, number: u64) -> Result<usize, usize>
        ensures { Finds span_number self.now.spans number result }
    {
        self.spans.binary_search_by_key(&number, |span| span.number)
    }

    /// Drains the group's log into its rows. Returns what held them there, without a row. Out of memory, nothing has
    /// changed.
    pub(crate) fn drain<R: Wait>(
        &mut self,
        group: &mut CellGroup<Source<R>>,
    ) -> Result<LogRows, NoMemory>
        ensures none { IfOk result (λ rows. rows ≡ []) }
        ensures idle { group.old.group.topic.held ≡ [] → IsOk result }
        ensures rows { OnOk result (self.new
            ≡ record self.old { drained = self.old.drained ++ group.old.group.topic.held }) }
        ensures drained { OnOk result (group.new ≡ cells_after_drain group.old) }
        ensures err { OnErr result ((self.new ≡ self.old) × (group.new ≡ group.old)) }
    {
        self.drained.reserve(group.group().held_len())?;
        let mut rows = group.drain_log()?;
        put_rows(&mut self.drained, &mut rows);
        Ok(rows)
    }

    /// Begins a subscription of the group whose number was never used. Refused by 47 where it was, and as by the
    /// group; then nothing has changed, and the source is returned.
    pub(crate) fn subscribe<R: Wait>(
        &mut self,
        group: &mut CellGroup<Source<R>>,
        number: u64,
        source: Source<R>,
    ) -> Result<Stamp, (SubFault, Source<R>)>
        requires empty { source.items ≡ [] }
        requires traced { KeepsTrace group.old.group.topic (trace_kept group.old.group.topic.held self.old) }
        ensures from { IfOk result (λ from. from ≡ group.old.group.topic.frontier) }
        ensures unused { OnOk result (list_any (λ s. s.number == number) self.old.spans ≡ false) }
        ensures allowed { OnOk result (subscribe_fault number group.old.group.topic ≡ None) }
        ensures group { OnOk result (group.new
            ≡ record group.old {
              group = group_after_subscribe number (shown_of_source source).gauge group.old.group;
            }) }
        ensures spans { OnOk result (self.new ≡ record self.old {
          spans = insert_by_number span_number
              (record { number = number; from = group.old.group.topic.frontier; to = None }) self.old.spans;
        }) }
        ensures fault { IfErr result (λ e. e.0 ≡ sub_refusal
            (if list_any (λ s. s.number == number) self.old.spans then Some SubFault.SubInUse
            else subscribe_fault number group.old.group.topic)) }
        ensures back { IfErr result (λ e. shown_of_source e.1 ≡ shown_of_source source) }
        ensures err { OnErr result ((self.new ≡ self.old) × (group.new ≡ group.old)) }
    {
        let Err(index) = self.search(number) else {
            return Err((SubFault::SubInUse, source));
        };
        let Ok(()) = self.spans.reserve(1) else {
            return Err((SubFault::NoMemory, source));
        };
        let from = group.subscribe(number, source)?;
        let span = KeptSpan {
            number,
            from,
            to: None,
        };
        let Ok(()) = self.spans.insert(index, span) else {
            unreachable!();
        };
        Ok(from)
    }

    /// The subscription of this number was ended with this stamp, if there is one.
    pub(crate) fn end(&mut self, number: u64, to: Stamp)
        ensures { self.new ≡ record self.old { spans = map (span_after_end number to) self.old.spans } }
    {
        if let Ok(index) = self.search(number) {
            self.spans[index].to = Some(to);
        }
    }

    /// A subscription with this span, as it is now.
    fn span_row<R: Wait>(group: &Group<Source<R>>, span: KeptSpan) -> SpanRow
        ensures { result ≡ span_row group.now.topic span }
    {
        let to = match (span.to, group.state(span.number)) {
            (Some(to), _) => Some(to),
            (None, Some(SubState::Lag(to))) => Some(to),
            (None, _) => None,
        };
        SpanRow {
            sub: span.number,
            topic: group.topic(),
            from: span.from,
            to,
        }
    }

    /// Adds each subscription: its span, and the rows of the log, drained and held, that lie in it.
    fn add_subscriptions<R: Wait>(
        &self,
        group: &Group<Source<R>>,
        drained: &LogSection<R>,
        held: &LogSection<R>,
        trace: &mut Trace,
    ) -> Result<(), AddFault>
        requires { Rises row_stamp (drained.now ++ held.now) }
        ensures ok { OnOk result
            (AddsAll (spans_rows group.now.topic (drained.now ++ held.now) self.now.spans)
            trace.old trace.new) }
        ensures err { IfErr result
            (λ fault. AddsFirst fault (spans_rows group.now.topic (drained.now ++ held.now) self.now.spans)
            trace.old trace.new) }
    {
        for span in &self.spans {
            add_subscription(trace, KeptRows::span_row(group, *span), drained, held)?;
        }
        Ok(())
    }

    /// Adds what the topic leaves for a trace: its log, drained and held, and its subscriptions. Refused, by 98 where
    /// a row doesn't fit the trace, and by 91 out of memory, the rows before the refused one were added.
    pub(crate) fn rows<R: Wait>(
        &self,
        group: &Group<Source<R>>,
        trace: &mut Trace,
    ) -> Result<(), AddFault>
        requires sound { IsSound group.now.topic }
        requires traced { KeepsTrace group.now.topic (trace_kept group.now.topic.held self.now) }
        ensures ok { OnOk result
            (AddsAll (topic_rows (topic_trace group.now.topic (trace_kept group.now.topic.held self.now)))
            trace.old trace.new) }
        ensures err { IfErr result
            (λ fault. AddsFirst fault
            (topic_rows (topic_trace group.now.topic (trace_kept group.now.topic.held self.now)))
            trace.old trace.new) }
    {
        let drained = LogSection::of_drained(&self.drained);
        let held = LogSection::of_held(group);
        add_log(self.alloc, trace, group.topic(), &drained)?;
        add_log(self.alloc, trace, group.topic(), &held)?;
        self.add_subscriptions(group, &drained, &held, trace)
    }
}

/// Moves the rows to the end of those that were drained before, where there is room for them.
fn put_rows(drained: &mut Vec<Row>, rows: &mut LogRows)
    requires { vec_len drained.old + length rows.old ≤ vec_capacity drained.old }
    ensures all { drained.new.items ≡ drained.old.items ++ rows.old }
    ensures none { rows.new ≡ [] }
{
    while let Some(row) = rows.take_first() {
        drained.push_reserved(row);
    }
}
