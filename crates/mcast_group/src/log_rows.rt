//! Rows that were drained from a topic's log.

ghost use Rattle.std.specs.Prelude.{◌≡◌, length, slice_get, IfNone, IfSome, [], ◌∷◌};
ghost use Rattle.std.specs.Option.{option_map};
ghost use Rattle.mcast_txn.specs.Span.{LogRow};

use crate::log::Log;
use crate::row::Row;
use crate::segment_rows::SegmentRows;
use std::alloc::Global;
use std::collections::VecDeque;
use std::marker::Model;

/// Rows that were drained from a topic's log, in their order. In contracts it is the list of those that weren't taken.
pub struct LogRows {
    /// The row of a log that had no other: it takes no memory of its own, and then there are no others here.
    only: Option<Row>,
    /// The rows of a log that had several.
    many: SegmentRows,
}

impl Drop for LogRows {
    /// Written out, so that letting rows go is one call for the prover wherever it happens.
    fn drop(self) {
        let LogRows { only, many } = self;
        drop(only);
        drop(many);
    }
}

impl Model for LogRows {
    ghost use Rattle.std.specs.Prelude.{◌≡◌, ◌++◌, [], IfSome, List};
    ghost use Rattle.std.specs.Option.{option_to_list};
    ghost use Rattle.mcast_txn.specs.Span.{LogRow};

    ghost Value = { List LogRow };

    ghost view = { λ r. option_to_list r.only ++ r.many };

    ghost invariant = { λ r. IfSome r.only (λ _. r.many ≡ []) };
}

impl LogRows {
    /// These.
    pub(crate) fn of_many(many: SegmentRows) -> LogRows
        ensures { result ≡ many }
    {
        LogRows { only: None, many }
    }

    /// This row alone.
    pub(crate) fn of_one(alloc: Global, row: Row) -> LogRows
        ensures { result ≡ row ∷ [] }
    {
        let none = SegmentRows::new(VecDeque::new(alloc), Log::new(alloc));
        LogRows {
            only: Some(row),
            many: none,
        }
    }

    /// How many rows there are.
    pub fn len(&self) -> usize
        ensures { result ≡ length self.now }
    {
        match &self.only {
            Some(_) => 1,
            None => self.many.len(),
        }
    }

    /// The row at index `i`, from 0, or `None` past the last.
    pub fn row(&self, i: usize) -> Option<&Row>
        ensures { option_map (λ row. row.now) result ≡ slice_get self.now i }
    {
        match &self.only {
            Some(row) if i == 0 => Some(row),
            Some(_) => None,
            None => self.many.row(i),
        }
    }

    /// Takes out the first row: `None` exactly where there is none.
    pub fn take_first(&mut self) -> Option<Row>
        ensures some { IfSome result (λ row. self.old ≡ row ∷ self.new) }
        ensures none { IfNone result ((self.old ≡ []) × (self.new ≡ [])) }
    {
        match self.only.take() {
            Some(row) => Some(row),
            None => self.many.take_first(),
        }
    }
}
