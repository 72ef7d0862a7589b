//! References to rows.

ghost use Rattle.std.specs.Prelude.{◌≡◌, IfOk};
ghost use Rattle.trace_audit.specs.Inner.Orders.{rows_of_refs};

use mcast_txn::NoMemory;
use std::alloc::Global;

/// A reference to each of these.
pub(crate) fn references<T>(alloc: Global, rows: &[T]) -> Result<Vec<&T>, NoMemory>
    ensures { IfOk result (λ references. rows_of_refs references.items ≡ rows.now) }
{
    Ok(rows.iter().collect(alloc)?)
}
