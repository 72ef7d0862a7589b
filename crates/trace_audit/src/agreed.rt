//! What an auditor's yes gives.

use crate::row::LogRow;
use std::marker::Model;

/// The transactions of a trace by rising stamp, each by a row of one of its logs, and whether each is in the log of
/// each of its topics. It lends the trace's own rows. In contracts it is the rows, and whether they are complete.
#[derive(Drop)]
pub struct Agreed<'a> {
    pub rows: Vec<&'a LogRow>,
    pub complete: bool,
}

impl<'a> Model for Agreed<'a> {
    ghost use Rattle.std.specs.Prelude.{map};
    ghost use Rattle.trace_audit.specs.Answers.{Agreement};

    ghost Value = { Agreement };

    ghost view = { λ a. record { rows = map (λ r. r.now.row) a.rows.items; complete = a.complete } };
}
