//! References to rows of a trace, of each kind.

ghost use Rattle.std.specs.Prelude.{◌≡◌};
ghost use Rattle.trace_audit.specs.Inner.Printing.{row_of_ref};
ghost use Rattle.trace_audit.specs.PrintedRows.{print_key};

use crate::row::{LogRow, QueueRow, SpanRow};

/// A reference to a row of a trace.
#[derive(Clone, Copy)]
pub(crate) enum RowRef<'a> {
    Log(&'a LogRow),
    Span(&'a SpanRow),
    Queue(&'a QueueRow),
}

impl<'a> RowRef<'a> {
    /// Where it is printed: logs come first, by topic, and then subscriptions, by number.
    pub(crate) fn print_key(self) -> (u64, u64)
        ensures { result ≡ print_key (row_of_ref self.entry) }
    {
        match self {
            RowRef::Log(row) => (0, row.topic.0 as u64),
            RowRef::Span(row) => (1, row.sub),
            RowRef::Queue(row) => (1, row.sub),
        }
    }
}
