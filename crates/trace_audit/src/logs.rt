//! A topic's log among rows by topic and stamp.

ghost use Rattle.std.specs.Prelude.{◌≡◌, ◌≤◌, length, true, false};
ghost use Rattle.std.specs.List.{find};
ghost use Rattle.std.specs.List.Sorted.{IsPartitionPoint};
ghost use Rattle.std.specs.Option.{option_map};
ghost use Rattle.mcast_txn.specs.Lists.{In};
ghost use Rattle.trace_audit.specs.Faults.{is_hole, log_has_row};
ghost use Rattle.trace_audit.specs.Trace.{rows_of};
ghost use Rattle.trace_audit.specs.Inner.Chained.{IsIndex, comes_before, is_from};
ghost use Rattle.trace_audit.specs.Inner.Orders.{rows_of_refs};

use crate::row::LogRow;
use mcast_txn::{Stamp, Topic};

/// Whether a topic's log goes on to the row's stamp or beyond, and lacks the row.
pub(crate) fn is_hole(by_topic: &[&LogRow], row: &LogRow, topic: Topic) -> bool
    requires index { IsIndex by_topic.now }
    requires within { In row.now.row (rows_of (rows_of_refs by_topic.now)) }
    ensures { result ≡ is_hole (rows_of_refs by_topic.now) row.now.row topic }
{
    match stamp_at(by_topic, topic, row.stamp) {
        Some(found) => found != row.stamp,
        None => false, // the log ends before the row
    }
}

/// Whether a topic's log has the row.
pub(crate) fn has_row(by_topic: &[&LogRow], row: &LogRow, topic: Topic) -> bool
    requires index { IsIndex by_topic.now }
    requires within { In row.now.row (rows_of (rows_of_refs by_topic.now)) }
    ensures { result ≡ log_has_row topic row.now.row.id (rows_of_refs by_topic.now) }
{
    match stamp_at(by_topic, topic, row.stamp) {
        Some(found) => found == row.stamp,
        None => false,
    }
}

/// The first stamp of a topic's log that isn't before this one.
fn stamp_at(by_topic: &[&LogRow], topic: Topic, stamp: Stamp) -> Option<Stamp>
    requires { IsIndex by_topic.now }
    ensures { result ≡ option_map (λ logged. logged.row.stamp)
        (find (λ logged. is_from topic stamp logged) (rows_of_refs by_topic.now)) }
{
    let index = index_of(by_topic, topic, stamp);
    if index == by_topic.len() {
        return None;
    }
    let row: &LogRow = by_topic[index];
    if row.topic.0 == topic.0 {
        Some(row.stamp)
    } else {
        None
    }
}

/// Where the rows that come before this stamp of a topic's log end.
fn index_of(by_topic: &[&LogRow], topic: Topic, stamp: Stamp) -> usize
    requires { IsIndex by_topic.now }
    ensures within { result ≤ length by_topic.now }
    ensures point { IsPartitionPoint (λ row. comes_before topic stamp row.now ≡ true)
        (λ row. comes_before topic stamp row.now ≡ false) by_topic.now result }
{
    by_topic.partition_point(|row| {
        row.topic.0 < topic.0 || (row.topic.0 == topic.0 && row.stamp.is_before(stamp))
    })
}
