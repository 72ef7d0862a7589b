//! Rows of segments that were drained from a topic's log.

ghost use Rattle.std.specs.Prelude.{◌≡◌, ◌+◌, ◌++◌, ◌<◌, ◌^◌, length, slice_get, IfNone, IfSome, [], ◌∷◌};
ghost use Rattle.std.specs.Option.{option_map};
ghost use Rattle.mcast_txn.specs.Span.{LogRow};

use crate::log::Log;
use crate::row::Row;
use std::collections::VecDeque;
use std::marker::Model;

/// Rows of segments that were drained from a topic's log, in their order. In contracts it is the list of those that
/// weren't taken.
pub(crate) struct SegmentRows {
    /// What is left of the segment whose rows are taken.
    first: VecDeque<Row>,
    rest: Log,
}

impl Drop for SegmentRows {
    /// Written out, so that letting rows go is one call for the prover wherever it happens.
    fn drop(self) {
        let SegmentRows { first, rest } = self;
        drop(first);
        drop(rest);
    }
}

impl Model for SegmentRows {
    ghost use Rattle.std.specs.Prelude.{◌+◌, ◌++◌, ◌<◌, ◌^◌, List, length};
    ghost use Rattle.mcast_txn.specs.Span.{LogRow};

    ghost Value = { List LogRow };

    ghost view = { λ r. r.first.items ++ r.rest.items };

    ghost invariant = { λ r. length r.first.items + length r.rest.items < 2 ^ 64 };
}

impl SegmentRows {
    /// The first rows, and the rest of them, which are moved and not copied.
    pub(crate) fn new(first: VecDeque<Row>, rest: Log) -> SegmentRows
        requires fits { length first.items + length rest.items < 2 ^ 64 }
        ensures { result ≡ first.items ++ rest.items }
    {
        SegmentRows { first, rest }
    }

    /// How many rows there are.
    pub(crate) fn len(&self) -> usize
        ensures { result ≡ length self.now }
    {
        self.first.len() + self.rest.len()
    }

    /// The row at index `i`, from 0, or `None` past the last.
    pub(crate) fn row(&self, i: usize) -> Option<&Row>
        ensures { option_map (λ row. row.now) result ≡ slice_get self.now i }
    {
        match i.checked_sub(self.first.len()) {
            None => self.first.get(i),
            Some(past) => self.rest.row(past),
        }
    }

    /// Takes out the first row: `None` exactly where there is none.
    pub(crate) fn take_first(&mut self) -> Option<Row>
        ensures some { IfSome result (λ row. self.old ≡ row ∷ self.new) }
        ensures none { IfNone result ((self.old ≡ []) × (self.new ≡ [])) }
    {
        if self.first.is_empty()
            && let Some(rows) = self.rest.take_segment()
        {
            self.first = rows;
        }
        self.first.pop_front()
    }
}
