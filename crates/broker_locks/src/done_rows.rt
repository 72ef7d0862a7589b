//! Rows of what was done at places.

ghost use Rattle.std.specs.Prelude.{◌≡◌, ◌++◌, ◌+◌, ◌≤◌, [], ◌∷◌, length, true, OnOk};
ghost use Rattle.mcast_txn.specs.Part.{data_of};
ghost use Rattle.broker_locks.specs.Inner.Done.{done_row};
ghost use Rattle.broker_locks.specs.Rows.{Entered, Cancelled, is_uncancelled, uncancelled_after};

use mcast_txn::{NoMemory, Part, Sender, Stamp, Topic, TxnId};
use smallvec::SmallVec;
use std::alloc::Global;
use std::default::MadeWith;
use std::marker::Model;
use std::snapshot::Snapshot;

/// What was done at a place.
#[derive(Drop)]
pub(crate) enum DoneRow {
    Entered {
        part: Snapshot<Part>,
        floor: Stamp,
        n: u64,
    },
    Cancelled {
        topic: Topic,
        id: TxnId,
    },
}

/// A row, as contracts see it: it takes no bytes.
#[derive(Drop)]
pub(crate) struct ShownRow {
    row: Snapshot<DoneRow>,
}

impl Model for ShownRow {
    ghost use Rattle.broker_locks.specs.Inner.Done.{done_row};
    ghost use Rattle.broker_locks.specs.Rows.{PlaceRow};

    ghost Value = { PlaceRow };

    ghost view = { λ s. done_row s.row.value };
}

impl ShownRow {
    /// This row.
    fn of(row: &DoneRow) -> ShownRow
        ensures { result ≡ done_row row.now }
    {
        ShownRow {
            row: Snapshot::of(row),
        }
    }
}

impl MadeWith<Global> for ShownRow {
    /// What lies in a place of a list that isn't used.
    fn made_with(_alloc: Global) -> Self {
        let id = TxnId {
            sender: Sender(0),
            seq: 0,
        };
        ShownRow::of(&DoneRow::Cancelled {
            topic: Topic(0),
            id,
        })
    }
}

/// What was done at places, with room for the cancelling of each part that was entered. It serves contracts alone, so
/// its rows take no bytes, and up to eight of them no memory. In contracts it is the list of these rows, and for how
/// many more there is room.
pub(crate) struct DoneRows {
    rows: SmallVec<ShownRow, 8>,
}

impl Drop for DoneRows {
    /// Written out, as at `Place`.
    fn drop(self) {
        let DoneRows { rows } = self;
        drop(rows);
    }
}

impl Model for DoneRows {
    ghost use Rattle.std.specs.Prelude.{◌-◌, ◌≤◌, [], length};
    ghost use Rattle.broker_locks.specs.Inner.Done.{RowsDone};
    ghost use Rattle.broker_locks.specs.Rows.{uncancelled_after};

    ghost Value = { RowsDone };

    ghost view = { λ d. record { rows = d.rows.items; spare = d.rows.capacity - length d.rows.items } };

    ghost invariant = { λ d. length (uncancelled_after [] d.rows.items)
        ≤ d.rows.capacity - length d.rows.items };
}

impl DoneRows {
    /// No rows. It takes no memory yet.
    pub(crate) fn new(alloc: Global) -> DoneRows
        ensures { result.rows ≡ [] }
    {
        DoneRows {
            rows: SmallVec::new(alloc),
        }
    }

    /// Makes room for a part's entering and its cancelling.
    pub(crate) fn reserve(&mut self) -> Result<(), NoMemory>
        ensures rows { self.new.rows ≡ self.old.rows }
        ensures room { OnOk result (length (uncancelled_after [] self.new.rows) + 2 ≤ self.new.spare) }
    {
        let Some(more) = self.rows.len().checked_add(2) else {
            return Err(NoMemory);
        };
        self.rows.reserve(more)?;
        Ok(())
    }

    /// A part was entered.
    pub(crate) fn enter(&mut self, part: Snapshot<Part>, floor: Stamp, n: u64)
        requires { length (uncancelled_after [] self.old.rows) + 2 ≤ self.old.spare }
        ensures { self.new.rows ≡ self.old.rows ++ Entered (data_of part.value) floor n ∷ [] }
    {
        let row = DoneRow::Entered { part, floor, n };
        self.rows.push_reserved(ShownRow::of(&row));
    }

    /// A part that was entered was cancelled.
    pub(crate) fn cancel(&mut self, topic: Topic, id: TxnId)
        requires { is_uncancelled topic id self.old.rows ≡ true }
        ensures { self.new.rows ≡ self.old.rows ++ Cancelled topic id ∷ [] }
    {
        let row = DoneRow::Cancelled { topic, id };
        self.rows.push_reserved(ShownRow::of(&row));
    }
}
