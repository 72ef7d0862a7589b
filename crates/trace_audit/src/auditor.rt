//! The auditor.

ghost use Rattle.std.specs.Prelude.{◌≡◌, ◌↔◌, false, IsTrue, IfOk, IfErr, OnOk, None};
ghost use Rattle.std.specs.List.{list_any};
ghost use Rattle.mcast_txn.specs.Lists.{Rises};
ghost use Rattle.mcast_txn.specs.Span.{row_stamp};
ghost use Rattle.mcast_txn.specs.Stamp.{same_stamp};
ghost use Rattle.trace_audit.specs.Answers.{IsRefusal, says_no_memory};
ghost use Rattle.trace_audit.specs.Explained.{IsCompleteBy, IsExplainedBy};
ghost use Rattle.trace_audit.specs.Faults.{audit_fault, is_whole};
ghost use Rattle.trace_audit.specs.Inner.Chained.{IsIndex};
ghost use Rattle.trace_audit.specs.Inner.LogFault.{log_fault};
ghost use Rattle.trace_audit.specs.Inner.Orders.{IsOrdersOf, RisesByStamp, rows_of_refs, log_rows_of_refs};
ghost use Rattle.trace_audit.specs.Inner.Sorting.{IsAtLeast, IsSortingOf, put_row};
ghost use Rattle.trace_audit.specs.Trace.{rows_of};

use crate::agreed::Agreed;
use crate::fault::AuditFault;
use crate::orders::Orders;
use crate::row::LogRow;
use crate::trace::Trace;
use crate::{log_checks, queue_checks};
use mcast_txn::{NoMemory, Stamp, Topic};
use std::alloc::Global;

/// Judges a trace: the list of transactions that explains it, or the first fault, where none does.
pub fn audit<'a>(alloc: Global, trace: &'a Trace) -> Result<Agreed<'a>, AuditFault>
    ensures explained { IfOk result (λ agreed. IsExplainedBy agreed.rows trace.now) }
    ensures complete { IfOk result
        (λ agreed. IsTrue agreed.complete ↔ IsCompleteBy agreed.rows trace.now) }
    ensures faultless { OnOk result (audit_fault trace.now ≡ None) }
    ensures refused { IfErr result
        (λ fault. says_no_memory fault ≡ false → IsRefusal fault trace.now) }
{
    let Ok(orders) = Orders::of(alloc, &trace.logs) else {
        return Err(AuditFault::NoMemory);
    };
    match find_fault(alloc, trace, &orders) {
        Ok(None) => {}
        Ok(Some(fault)) => return Err(fault),
        Err(NoMemory) => return Err(AuditFault::NoMemory),
    }
    match agree(alloc, &trace.logs, orders) {
        Ok(agreed) => Ok(agreed),
        Err(NoMemory) => Err(AuditFault::NoMemory),
    }
}

/// The first fault.
fn find_fault(
    alloc: Global,
    trace: &Trace,
    orders: &Orders<'_>,
) -> Result<Option<AuditFault>, NoMemory>
    requires { IsOrdersOf orders.now.by_id.items orders.now.by_stamp.items orders.now.by_topic.items
        trace.now.logs }
    ensures { IfOk result (λ fault. fault ≡ audit_fault trace.now) }
{
    if let Some(fault) = find_log_fault(&trace.logs, orders) {
        return Ok(Some(fault));
    }
    match queue_checks::first_astray(alloc, trace, &orders.by_topic)? {
        Some(sub) => Ok(Some(AuditFault::QueueRow(sub))),
        None => Ok(None),
    }
}

/// The first fault of the logs alone.
fn find_log_fault(logs: &[LogRow], orders: &Orders<'_>) -> Option<AuditFault>
    requires { IsOrdersOf orders.now.by_id.items orders.now.by_stamp.items orders.now.by_topic.items
        logs.now }
    ensures { result ≡ log_fault logs.now }
{
    if log_checks::has_two_verdicts(&orders.by_id) {
        return Some(AuditFault::TwoVerdicts);
    }
    if log_checks::has_same_stamp(&orders.by_stamp) {
        return Some(AuditFault::SameStamp);
    }
    if log_checks::is_out_of_order(&orders.by_topic) {
        return Some(AuditFault::LogOrder);
    }
    if log_checks::has_sender_disorder(&orders.by_id) {
        return Some(AuditFault::SenderOrder);
    }
    match log_checks::first_hole(logs, &orders.by_topic) {
        Some(topic) => Some(AuditFault::Hole(Topic(topic))),
        None => None,
    }
}

/// The transactions of logs that have no fault, and whether each is in the log of each of its topics.
fn agree<'a>(alloc: Global, logs: &[LogRow], orders: Orders<'a>) -> Result<Agreed<'a>, NoMemory>
    requires orders { IsOrdersOf orders.by_id.items orders.by_stamp.items orders.by_topic.items logs.now }
    requires index { IsIndex orders.by_topic.items }
    ensures sorted { IfOk result (λ agreed. IsSortingOf agreed.rows (rows_of logs.now)) }
    ensures complete { IfOk result (λ agreed. agreed.complete ≡ is_whole logs.now) }
{
    let complete = log_checks::is_whole(logs, &orders.by_topic);
    let by_stamp = orders.into_by_stamp();
    let rows = agreed_rows(alloc, &by_stamp)?;
    Ok(Agreed { rows, complete })
}

/// The rows of all logs by rising stamp, one of each stamp.
fn agreed_rows<'a>(alloc: Global, by_stamp: &[&'a LogRow]) -> Result<Vec<&'a LogRow>, NoMemory>
    requires { RisesByStamp by_stamp.now }
    ensures { IfOk result
        (λ rows. IsSortingOf (log_rows_of_refs rows.items) (rows_of (rows_of_refs by_stamp.now))) }
{
    let mut rows = Vec::new(alloc);
    for &row in by_stamp {
        put(&mut rows, row)?;
    }
    Ok(rows)
}

/// Puts a row at the end of others that rise, unless its stamp is there.
fn put<'a>(rows: &mut Vec<&'a LogRow>, row: &'a LogRow) -> Result<(), NoMemory>
    requires rises { Rises row_stamp (log_rows_of_refs rows.old.items) }
    requires below { IsAtLeast row.now.row.stamp (log_rows_of_refs rows.old.items) }
    ensures { OnOk result
        (log_rows_of_refs rows.new.items ≡ put_row row.now.row (log_rows_of_refs rows.old.items)) }
{
    if !ends_at(rows, row.stamp) {
        rows.push(row)?;
    }
    Ok(())
}

/// Whether the last row has the stamp, and so whether any has it.
fn ends_at(rows: &[&LogRow], stamp: Stamp) -> bool
    requires rises { Rises row_stamp (log_rows_of_refs rows.now) }
    requires below { IsAtLeast stamp (log_rows_of_refs rows.now) }
    ensures { result ≡ list_any (λ own. same_stamp own.stamp stamp) (log_rows_of_refs rows.now) }
{
    match rows.last() {
        Some(&own) => own.stamp == stamp,
        None => false,
    }
}
