//! Printing a trace.

ghost use Rattle.std.specs.Prelude.{◌≡◌, ◌++◌, List, map, IfOk, OnOk};
ghost use Rattle.trace_audit.specs.Inner.Printing.{row_of_ref};
ghost use Rattle.trace_audit.specs.PrintedRows.{text_of, IsReport, IsSortOf};
ghost use Rattle.trace_audit.specs.declared.row.TraceRow.{TraceRow};
ghost use Rattle.trace_audit.specs.declared.row.TraceRow.TheVariants as row;

use super::line_printing::put_row;
use super::row_ref::RowRef;
use crate::row::{LogRow, QueueRow, SpanRow};
use crate::trace::Trace;
use mcast_txn::{NoMemory, Octets};
use std::alloc::Global;

impl Trace {
    /// The text of the trace: a line for each row, ended by LF. First are the logs by topic, each in its order; then,
    /// by subscription, its span and its queue in its order.
    pub fn print(&self, alloc: Global) -> Result<Octets, NoMemory>
        ensures { IfOk result
            (λ text. (rows : List TraceRow) × IsReport rows self.now × (text ≡ text_of rows)) }
    {
        let mut refs = Vec::new(alloc);
        put_logs(&mut refs, &self.logs)?;
        put_spans(&mut refs, &self.spans)?;
        put_queues(&mut refs, &self.queues)?;
        sort(&mut refs)?;
        let mut text = Octets::new(alloc);
        put_rows(&mut text, &refs)?;
        Ok(text)
    }
}

/// Puts the rows of logs after these.
fn put_logs<'a>(refs: &mut Vec<RowRef<'a>>, logs: &'a [LogRow]) -> Result<(), NoMemory>
    ensures { OnOk result (map row_of_ref refs.new.items
        ≡ map row_of_ref refs.old.items ++ map (λ logged. row.Log logged) logs.now) }
{
    for row in logs {
        refs.push(RowRef::Log(row))?;
    }
    Ok(())
}

/// Puts spans after these.
fn put_spans<'a>(refs: &mut Vec<RowRef<'a>>, spans: &'a [SpanRow]) -> Result<(), NoMemory>
    ensures { OnOk result (map row_of_ref refs.new.items
        ≡ map row_of_ref refs.old.items ++ map (λ span. row.Span span) spans.now) }
{
    for row in spans {
        refs.push(RowRef::Span(row))?;
    }
    Ok(())
}

/// Puts the rows of queues after these.
fn put_queues<'a>(refs: &mut Vec<RowRef<'a>>, queues: &'a [QueueRow]) -> Result<(), NoMemory>
    ensures { OnOk result (map row_of_ref refs.new.items
        ≡ map row_of_ref refs.old.items ++ map (λ queued. row.Queue queued) queues.now) }
{
    for row in queues {
        refs.push(RowRef::Queue(row))?;
    }
    Ok(())
}

/// Sorts rows by where they are printed; those of one place keep their order.
fn sort(refs: &mut Vec<RowRef<'_>>) -> Result<(), NoMemory>
    ensures { OnOk result (IsSortOf (map row_of_ref refs.new.items) (map row_of_ref refs.old.items)) }
{
    refs.sort_by_key(|row_ref| row_ref.print_key())?;
    Ok(())
}

/// Writes the lines of these rows.
fn put_rows(out: &mut Octets, refs: &[RowRef<'_>]) -> Result<(), NoMemory>
    ensures { OnOk result (out.new ≡ out.old ++ text_of (map row_of_ref refs.now)) }
{
    for &row_ref in refs {
        put_row(out, row_ref)?;
    }
    Ok(())
}
