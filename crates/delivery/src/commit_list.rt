//! The commit list.

ghost use Rattle.std.specs.Prelude.{◌≡◌, ◌<◌, ◌+◌, ◌-◌, ◌++◌, ◌∷◌, [], OnOk, OnErr};

use mcast_group::Row;
use std::alloc::Global;
use std::marker::Model;
use stomp_frame::NoMemory;

/// The rows of the commit list in the order of Decide, with room for those that are promised. In contracts it is its
/// rows, and how many more are promised.
#[derive(Drop)]
pub(crate) struct CommitList {
    rows: Vec<Row>,
    promised: usize,
}

impl Model for CommitList {
    ghost use Rattle.std.specs.Prelude.{◌≤◌, ◌+◌, vec_len, vec_capacity};
    ghost use Rattle.delivery.specs.Inner.Rooms.{PromisedRows};

    ghost Value = { PromisedRows };

    ghost view = { λ l. record { rows = l.rows.items; promised = l.promised } };

    ghost invariant = { λ l. vec_len l.rows + l.promised ≤ vec_capacity l.rows };
}

impl CommitList {
    /// No rows, and none promised. It takes no memory.
    pub(crate) fn new(alloc: Global) -> CommitList
        ensures { result ≡ record { rows = []; promised = 0 } }
    {
        CommitList {
            rows: Vec::new(alloc),
            promised: 0,
        }
    }

    /// Its rows.
    pub(crate) fn rows(&self) -> &[Row]
        ensures { result.now ≡ self.now.rows }
    {
        self.rows.as_slice()
    }

    /// Promises one more row. After `NoMemory` it is what it was.
    pub(crate) fn promise(&mut self) -> Result<(), NoMemory>
        ensures ok { OnOk result (self.new ≡ record self.old { promised = self.old.promised + 1 }) }
        ensures err { OnErr result (self.new ≡ self.old) }
    {
        self.rows.reserve(self.promised + 1)?;
        self.promised += 1;
        Ok(())
    }

    /// Keeps a promised row, at the end. It takes no memory.
    pub(crate) fn keep(&mut self, row: Row)
        requires { 0 < self.old.promised }
        ensures { self.new ≡ record { rows = self.old.rows ++ row ∷ []; promised = self.old.promised - 1 } }
    {
        self.promised -= 1;
        self.rows.push_reserved(row);
    }

    /// Promises one row fewer. It takes no memory.
    pub(crate) fn forgo(&mut self)
        requires { 0 < self.old.promised }
        ensures { self.new ≡ record self.old { promised = self.old.promised - 1 } }
    {
        self.promised -= 1;
    }
}
