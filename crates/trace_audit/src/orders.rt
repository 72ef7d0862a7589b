//! The rows of logs in other orders.

ghost use Rattle.std.specs.Prelude.{◌≡◌, IfOk};
ghost use Rattle.std.specs.List.Sorted.{IsPermutation};
ghost use Rattle.trace_audit.specs.Inner.Orders.{rows_of_refs, IsOrderedById, RisesByStamp, RisesByTopic, IsGroupingOf, IsOrdersOf};

use crate::references::references;
use crate::row::LogRow;
use mcast_txn::NoMemory;
use std::alloc::Global;

// The rows of logs by their transactions, by stamp and by topic.
#[derive(Drop)]
pub(crate) struct Orders<'a> {
    pub(crate) by_id: Vec<&'a LogRow>,
    pub(crate) by_stamp: Vec<&'a LogRow>,
    pub(crate) by_topic: Vec<&'a LogRow>,
}

impl<'a> Orders<'a> {
    /// The orders of these rows.
    pub(crate) fn of(alloc: Global, logs: &'a [LogRow]) -> Result<Orders<'a>, NoMemory>
        ensures { IfOk result (λ orders.
            IsOrdersOf orders.by_id.items orders.by_stamp.items orders.by_topic.items logs.now) }
    {
        Ok(Orders {
            by_id: by_id(alloc, logs)?,
            by_stamp: by_stamp(alloc, logs)?,
            by_topic: by_topic(alloc, logs)?,
        })
    }

    /// The rows by stamp. The other orders are let go.
    pub(crate) fn into_by_stamp(self) -> Vec<&'a LogRow>
        ensures { result.items ≡ self.entry.by_stamp.items }
    {
        self.by_stamp
    }
}

/// The rows by sender, and each sender's by seq.
fn by_id(alloc: Global, logs: &[LogRow]) -> Result<Vec<&LogRow>, NoMemory>
    ensures rises { IfOk result (λ rows. IsOrderedById rows.items) }
    ensures moved { IfOk result (λ rows. IsPermutation logs.now (rows_of_refs rows.items)) }
{
    let mut rows = references(alloc, logs)?;
    rows.sort_unstable_by_key(|row| row.id);
    Ok(rows)
}

/// The rows by stamp.
fn by_stamp(alloc: Global, logs: &[LogRow]) -> Result<Vec<&LogRow>, NoMemory>
    ensures rises { IfOk result (λ rows. RisesByStamp rows.items) }
    ensures moved { IfOk result (λ rows. IsPermutation logs.now (rows_of_refs rows.items)) }
{
    let mut rows = references(alloc, logs)?;
    rows.sort_unstable_by_key(|row| row.stamp);
    Ok(rows)
}

/// The rows by their logs' topics, each log in its order.
fn by_topic(alloc: Global, logs: &[LogRow]) -> Result<Vec<&LogRow>, NoMemory>
    ensures rises { IfOk result (λ rows. RisesByTopic rows.items) }
    ensures grouping { IfOk result (λ rows. IsGroupingOf rows.items logs.now) }
{
    let mut rows = references(alloc, logs)?;
    rows.sort_by_key(|row| row.topic)?;
    Ok(rows)
}
