//! Laws: functions that do nothing, whose contracts are theorems about the definitions.

ghost use Rattle.std.specs.Prelude.{◌≡◌, List};
ghost use Rattle.mcast_txn.specs.Span.{LogRow};
ghost use Rattle.trace_audit.specs.Explained.{IsExplainedBy};
ghost use Rattle.trace_audit.specs.Rereading.{PrintedIsRead, SortedIsReadAsItself};
ghost use Rattle.trace_audit.specs.Trace.{TraceData};

/// A trace is explained by one list of transactions at most.
pub fn one_list()
    ensures { (trace : TraceData) (rows others : List LogRow)
        → IsExplainedBy rows trace → IsExplainedBy others trace → rows ≡ others }
{}

/// What is printed of a trace is read again, as a trace with the same logs, spans and queues.
pub fn printed_is_read()
    ensures { PrintedIsRead }
{}

/// What is printed of a trace whose rows were added in a report's order is read again as the very same trace.
pub fn sorted_is_read_as_itself()
    ensures { SortedIsReadAsItself }
{}
