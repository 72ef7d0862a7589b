//! Segments of a topic's log.

ghost use Rattle.std.specs.Prelude.{◌≡◌, ◌<◌, ◌++◌, ◌∷◌, [], length, slice_get, IfOk, OnErr, OnOk};
ghost use Rattle.std.specs.Option.{option_map};

use crate::row::Row;
use mcast_txn::NoMemory;
use std::alloc::Global;
use std::collections::VecDeque;
use std::marker::Model;

/// How many rows a segment has room for.
pub(crate) const SEGMENT_ROWS: usize = 256;

/// Rows of a log that follow one another, in room for 256 that never moves. In contracts it is the list of them.
pub(crate) struct Segment {
    rows: VecDeque<Row>,
}

impl Drop for Segment {
    /// Written out, so that letting a segment go is one call for the prover wherever it happens.
    fn drop(self) {
        let Segment { rows } = self;
        drop(rows);
    }
}

impl Model for Segment {
    ghost use Rattle.std.specs.Prelude.{◌≤◌, List};
    ghost use Rattle.std.specs.VecDeque.{deque_capacity};
    ghost use Rattle.mcast_txn.specs.Span.{LogRow};

    ghost Value = { List LogRow };

    ghost view = { λ s. s.rows.items };

    ghost invariant = { λ s. 256 ≤ deque_capacity s.rows };
}

impl Segment {
    /// One without rows.
    pub(crate) fn new(alloc: Global) -> Result<Segment, NoMemory>
        ensures { IfOk result (λ segment. segment ≡ []) }
    {
        let rows = VecDeque::with_capacity(alloc, SEGMENT_ROWS)?;
        Ok(Segment { rows })
    }

    /// How many rows it has.
    pub(crate) fn len(&self) -> usize
        ensures { result ≡ length self.now }
    {
        self.rows.len()
    }

    /// The row at index `i`, from 0, or `None` past the last.
    pub(crate) fn row(&self, i: usize) -> Option<&Row>
        ensures { option_map (λ row. row.now) result ≡ slice_get self.now i }
    {
        self.rows.get(i)
    }

    /// One row more, with no memory.
    pub(crate) fn push(&mut self, row: Row)
        requires { length self.old < 256 }
        ensures { self.new ≡ self.old ++ row ∷ [] }
    {
        self.rows.push_back_reserved(row);
    }

    /// Moves its rows out into room of their number; its own room stays.
    pub(crate) fn take_rows(&mut self, alloc: Global) -> Result<VecDeque<Row>, NoMemory>
        ensures rows { IfOk result (λ rows. rows.items ≡ self.old) }
        ensures none { OnOk result (self.new ≡ []) }
        ensures err { OnErr result (self.new ≡ self.old) }
    {
        let mut rows = VecDeque::with_capacity(alloc, self.rows.len())?;
        rows.append(&mut self.rows)?;
        Ok(rows)
    }

    /// Takes its only row out, with no memory; its room stays.
    pub(crate) fn take_only(&mut self) -> Row
        requires { length self.old ≡ 1 }
        ensures row { self.old ≡ result ∷ [] }
        ensures none { self.new ≡ [] }
    {
        self.rows.pop_back().unwrap()
    }

    /// Its rows, which aren't moved.
    pub(crate) fn into_rows(self) -> VecDeque<Row>
        ensures { result.items ≡ self }
    {
        let Segment { rows } = self;
        rows
    }
}
