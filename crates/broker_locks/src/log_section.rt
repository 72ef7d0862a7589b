//! The rows that a topic released, in two sections.

ghost use Rattle.std.specs.Prelude.{◌≡◌, ℕ, ◌<◌, ◌≤◌, true, false, length, get_or, slice_get};
ghost use Rattle.std.specs.Option.{option_map};
ghost use Rattle.mcast_txn.specs.Lists.{Rises};
ghost use Rattle.mcast_txn.specs.Span.{LogRow, row_stamp, up_to};
ghost use Rattle.mcast_txn.specs.Stamp.{stamp_lt};

use mcast_group::{Group, Row};
use mcast_txn::Stamp;
use std::marker::Model;
use std::sync::Wait;
use sub_queue::Source;

/// Rows that a topic released, in order: those that were drained, or else those that its group holds. In contracts it
/// is the list of them.
#[derive(Drop)]
pub(crate) struct LogSection<'a, R: Wait> {
    drained: &'a [Row],
    holder: Option<&'a Group<Source<R>>>,
}

impl<'a, R: Wait> Model for LogSection<'a, R> {
    ghost use Rattle.std.specs.Prelude.{List, Some, None};
    ghost use Rattle.mcast_txn.specs.Span.{LogRow};

    ghost Value = { List LogRow };

    ghost view = { λ l. elim l.holder [ None ↦ l.drained.now | Some group ↦ group.now.topic.held ] };
}

impl<'a, R: Wait> LogSection<'a, R> {
    /// The rows that were drained.
    pub(crate) fn of_drained(drained: &'a [Row]) -> LogSection<'a, R>
        ensures { result ≡ drained.now }
    {
        LogSection {
            drained,
            holder: None,
        }
    }

    /// The rows that the group holds.
    pub(crate) fn of_held(group: &'a Group<Source<R>>) -> LogSection<'a, R>
        ensures { result ≡ group.now.topic.held }
    {
        LogSection {
            drained: &[],
            holder: Some(group),
        }
    }

    /// How many rows it has.
    pub(crate) fn len(&self) -> usize
        ensures { result ≡ length self.now }
    {
        match self.holder {
            Some(group) => group.held_len(),
            None => self.drained.len(),
        }
    }

    /// The row at index `i`, from 0, or `None` past the last.
    pub(crate) fn row(&self, i: usize) -> Option<&Row>
        ensures { option_map (λ row. row.now) result ≡ slice_get self.now i }
    {
        match self.holder {
            Some(group) => group.held(i),
            None => self.drained.get(i),
        }
    }

    /// How many of its rows have at most this stamp; they are the first ones. It halves.
    pub(crate) fn count_to(&self, stamp: Stamp) -> usize
        requires { Rises row_stamp self.now }
        ensures within { result ≤ length self.now }
        ensures past { (i : ℕ) (d : LogRow) → i < result
            → stamp_lt stamp (get_or self.now i d).stamp ≡ false }
        ensures above { (i : ℕ) (d : LogRow) → result ≤ i → i < length self.now
            → stamp_lt stamp (get_or self.now i d).stamp ≡ true }
    {
        let mut low = 0;
        let mut high = self.len();
        while low < high {
            let middle = low + (high - low) / 2;
            let row = self.row(middle).unwrap();
            if stamp.is_before(row.stamp) {
                high = middle;
            } else {
                low = middle + 1;
            }
        }
        low
    }

    /// How many of its rows aren't past the end, where there is one; they are the first ones.
    pub(crate) fn count_up_to(&self, to: Option<Stamp>) -> usize
        requires { Rises row_stamp self.now }
        ensures within { result ≤ length self.now }
        ensures before { (i : ℕ) (d : LogRow) → i < result → up_to to (get_or self.now i d).stamp ≡ true }
        ensures after { (i : ℕ) (d : LogRow) → result ≤ i → i < length self.now
            → up_to to (get_or self.now i d).stamp ≡ false }
    {
        match to {
            Some(to) => self.count_to(to),
            None => self.len(),
        }
    }
}
