//! What may speak against logs, in their orders.

ghost use Rattle.std.specs.Prelude.{◌≡◌, false, map};
ghost use Rattle.std.specs.List.{filter, list_all};
ghost use Rattle.std.specs.List.Sorted.{IsPermutation};
ghost use Rattle.mcast_txn.specs.Lists.{In};
ghost use Rattle.trace_audit.specs.Faults.{are_colliding, are_different, are_falling, log_has_row, holes, is_whole, is_hole, least, lesser, is_out_of_order, are_disordered, some_two};
ghost use Rattle.trace_audit.specs.Inner.Chained.{IsIndex};
ghost use Rattle.trace_audit.specs.Inner.Orders.{rows_of_refs, IsOrderedById, RisesByStamp, RisesByTopic};
ghost use Rattle.trace_audit.specs.Trace.{rows_of};

use crate::logs::{has_row, is_hole};
use crate::row::LogRow;

/// Whether two rows of one transaction differ in stamp or topics.
pub(crate) fn has_two_verdicts(by_id: &[&LogRow]) -> bool
    requires { IsOrderedById by_id.now }
    ensures { result ≡ some_two are_different (rows_of_refs by_id.now) }
{
    !by_id.is_sorted_by(|a, b| !are_different(a, b))
}

/// Whether two rows are of one transaction, and differ.
fn are_different(a: &LogRow, b: &LogRow) -> bool
    ensures { result ≡ are_different a.now.row b.now.row }
{
    a.id == b.id && !(a.stamp == b.stamp && a.topics == b.topics)
}

/// Whether two transactions have one stamp.
pub(crate) fn has_same_stamp(by_stamp: &[&LogRow]) -> bool
    requires { RisesByStamp by_stamp.now }
    ensures { result ≡ some_two are_colliding (rows_of_refs by_stamp.now) }
{
    !by_stamp.is_sorted_by(|a, b| !are_colliding(a, b))
}

/// Whether two rows are of two transactions, and have one stamp.
fn are_colliding(a: &LogRow, b: &LogRow) -> bool
    ensures { result ≡ are_colliding a.now.row b.now.row }
{
    a.id != b.id && a.stamp == b.stamp
}

/// Whether some log doesn't rise.
pub(crate) fn is_out_of_order(by_topic: &[&LogRow]) -> bool
    requires { RisesByTopic by_topic.now }
    ensures { result ≡ is_out_of_order (rows_of_refs by_topic.now) }
{
    !by_topic.is_sorted_by(|a, b| !are_falling(a, b))
}

/// Whether the later row is of the first one's log, and not above it.
fn are_falling(a: &LogRow, b: &LogRow) -> bool
    ensures { result ≡ are_falling a.now b.now }
{
    a.topic.0 == b.topic.0 && !a.stamp.is_before(b.stamp)
}

/// Whether a sender's seqs don't rise with its stamps, where no transaction has two verdicts.
pub(crate) fn has_sender_disorder(by_id: &[&LogRow]) -> bool
    requires rises { IsOrderedById by_id.now }
    requires one_verdict { some_two are_different (rows_of_refs by_id.now) ≡ false }
    ensures { result ≡ some_two are_disordered (rows_of_refs by_id.now) }
{
    !by_id.is_sorted_by(|a, b| !are_disordered(b, a))
}

/// Whether the rows are of one sender, the first before the second, and its seq not below the other's.
fn are_disordered(a: &LogRow, b: &LogRow) -> bool
    ensures { result ≡ are_disordered a.now.row b.now.row }
{
    a.id.sender.0 == b.id.sender.0 && a.stamp.is_before(b.stamp) && a.id.seq >= b.id.seq
}

/// The least topic that has a hole.
pub(crate) fn first_hole(logs: &[LogRow], by_topic: &[&LogRow]) -> Option<u32>
    requires index { IsIndex by_topic.now }
    requires moved { IsPermutation logs.now (rows_of_refs by_topic.now) }
    ensures { result ≡ least (holes logs.now) }
{
    let mut best = None;
    for row in logs {
        best = lesser(best, hole_of(by_topic, row));
    }
    best
}

/// The least of a row's topics that lacks it.
fn hole_of(by_topic: &[&LogRow], row: &LogRow) -> Option<u32>
    requires index { IsIndex by_topic.now }
    requires within { In row.now.row (rows_of (rows_of_refs by_topic.now)) }
    ensures { result ≡ least (map (λ t. t.0)
        (filter (λ t. is_hole (rows_of_refs by_topic.now) row.now.row t) row.now.row.topics)) }
{
    let mut best = None;
    for &topic in &row.topics {
        if is_hole(by_topic, row, topic) {
            best = lesser(best, Some(topic.0));
        }
    }
    best
}

/// The smaller of two numbers, where there are two.
fn lesser(a: Option<u32>, b: Option<u32>) -> Option<u32>
    ensures { result ≡ lesser a b }
{
    match (a, b) {
        (None, _) => b,
        (Some(_), None) => a,
        (Some(x), Some(y)) => { if y < x { b } else { a } }
    }
}

/// Whether each row is in the log of each of its topics.
pub(crate) fn is_whole(logs: &[LogRow], by_topic: &[&LogRow]) -> bool
    requires index { IsIndex by_topic.now }
    requires moved { IsPermutation logs.now (rows_of_refs by_topic.now) }
    ensures { result ≡ is_whole logs.now }
{
    for row in logs {
        if !is_everywhere(by_topic, row) {
            return false;
        }
    }
    true
}

/// Whether a row is in the log of each of its topics.
fn is_everywhere(by_topic: &[&LogRow], row: &LogRow) -> bool
    requires index { IsIndex by_topic.now }
    requires within { In row.now.row (rows_of (rows_of_refs by_topic.now)) }
    ensures { result
        ≡ list_all (λ t. log_has_row t row.now.row.id (rows_of_refs by_topic.now)) row.now.row.topics }
{
    for &topic in &row.topics {
        if !has_row(by_topic, row, topic) {
            return false;
        }
    }
    true
}
