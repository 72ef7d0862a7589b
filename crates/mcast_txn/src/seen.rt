//! Notes that know a verdict.

ghost use Rattle.std.specs.Prelude.{◌≡◌, true};
ghost use Rattle.std.specs.Option.{is_some};

use crate::ballot::Verdict;
use once_cell::race::Note;
use std::marker::Model;

/// A note of a flight's cell that knows its verdict. It takes no bytes. In contracts it is the cell's name and the
/// verdict.
#[derive(Drop)]
pub struct Seen {
    note: Note<Verdict>,
}

impl Model for Seen {
    ghost use Rattle.std.specs.Prelude.{◌≡◌, true};
    ghost use Rattle.std.specs.Option.{is_some};
    ghost use Rattle.mcast_txn.specs.Flight.{Sight};

    ghost Value = { Sight };

    ghost view = { λ s. record { cell = s.note.cell; known = s.note.known } };

    ghost invariant = { λ s. is_some s.note.known ≡ true };
}

impl Seen {
    /// A note that knows a verdict.
    pub fn new(note: Note<Verdict>) -> Seen
        requires { is_some note.known ≡ true }
        ensures { result ≡ record { cell = note.cell; known = note.known } }
    {
        Seen { note }
    }

    /// A note that says the same. It takes no memory.
    pub fn again(&mut self) -> Seen
        ensures same { result ≡ self.old }
        ensures kept { self.new ≡ self.old }
    {
        Seen {
            note: self.note.again(),
        }
    }

    /// Two notes of one cell know the same verdict, in whichever threads they were made.
    pub fn agree(&mut self, other: Seen)
        requires { other.cell ≡ self.old.cell }
        ensures known { is_some self.old.known ≡ true }
        ensures same { other ≡ self.old }
        ensures kept { self.new ≡ self.old }
    {
        let Seen { note } = other;
        self.note.compare(note);
    }
}
