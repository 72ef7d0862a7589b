//! Ledgers by which tickets are counted.

use std::marker::Brand;
use std::sync::ledger::Ledger;

/// A ledger by which a broker's tickets are counted. A broker has two: one whose shares its workers have, and one whose
/// shares its topics have.
pub trait Side: Ledger {
    ghost use Rattle.std.specs.Prelude.{ℕ};

    /// Into how many parts its shares are cut, all together.
    ghost all: { ℕ };
}

impl Side for Brand {
    ghost all = { 0 };
}
