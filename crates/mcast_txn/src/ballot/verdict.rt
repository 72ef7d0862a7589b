//! What the tickets of a transaction decide.

ghost use Rattle.std.specs.Prelude.{◌≡◌, ◌≤◌, map, IfNone, IfOk, IfSome, HoldsAt, slice_set};
ghost use Rattle.mcast_txn.specs.Ballot.{row_at};
ghost use Rattle.mcast_txn.specs.Inner.RowIndex.{IsRowOf, HasNoRow};
ghost use Rattle.mcast_txn.specs.Inner.TicketSlots.{unset_row};
ghost use Rattle.mcast_txn.specs.Stamp.{greatest};
ghost use Rattle.mcast_txn.specs.Lists.{RisesBy};

use crate::id::{Topic, TxnId};
use crate::stamp::Stamp;
use smallvec::SmallVec;
use std::alloc::Global;
use std::marker::Model;
use stomp_frame::NoMemory;

/// What the tickets of a transaction decide: each of its topics with the number that it gave, and the greatest of
/// these as its stamp. In contracts it is the transaction and these rows.
#[derive(Drop)]
pub struct Verdict {
    id: TxnId,
    rows: SmallVec<Stamp, 2>,
    stamp: Stamp,
}

impl Model for Verdict {
    ghost use Rattle.mcast_txn.specs.Ballot.{Decision};
    ghost use Rattle.mcast_txn.specs.Inner.Decided.{IsDecided};

    ghost Value = { Decision };

    ghost view = { λ v. record { id = v.id; rows = v.rows.items } };

    ghost invariant = { λ v. IsDecided v.rows.items v.stamp };
}

impl Verdict {
    /// What is decided where none of these topics has given its number: each has 0 until it is put.
    #[inline(always)]
    pub(crate) fn unset(alloc: Global, id: TxnId, topics: &[Topic]) -> Result<Verdict, NoMemory>
        requires { RisesBy (λ t. t.0) topics.now }
        ensures { IfOk result
            (λ verdict. verdict ≡ record { id = id; rows = map unset_row topics.now }) }
    {
        let mut rows = SmallVec::with_capacity(alloc, topics.len())?;
        let mut stamp = Stamp::ZERO;
        for &topic in topics {
            let row = Stamp { n: 0, topic };
            rows.push_reserved(row);
            stamp = stamp.later(row);
        }
        Ok(Verdict { id, rows, stamp })
    }

    /// Puts the row of a topic in place of the one that is there, whose number is at most its own.
    #[inline(always)]
    pub(crate) fn put(&mut self, index: usize, row: Stamp)
        requires of_topic { IsRowOf row.topic self.old.rows index }
        requires raised { HoldsAt (λ old. old.n ≤ row.n) self.old.rows index }
        ensures { self.new ≡ record self.old { rows = slice_set self.old.rows index row } }
    {
        self.rows[index] = row;
        self.stamp = self.stamp.later(row);
    }

    /// The index of the topic's row.
    #[inline(always)]
    pub(crate) fn index_of(&self, topic: Topic) -> Option<usize>
        ensures found { IfSome result (IsRowOf topic self.now.rows) }
        ensures absent { IfNone result (HasNoRow topic self.now.rows) }
        ensures rising { RisesBy (λ row. row.topic.0) self.now.rows }
    {
        self.rows
            .binary_search_by_key(&topic.0, |row| row.topic.0)
            .ok()
    }

    /// Its rows.
    pub(crate) fn into_rows(self) -> SmallVec<Stamp, 2>
        ensures { result.items ≡ self.rows }
    {
        let Verdict {
            id: _,
            rows,
            stamp: _,
        } = self;
        rows
    }

    /// The transaction.
    pub fn id(&self) -> TxnId
        ensures { result ≡ self.now.id }
    {
        self.id
    }

    /// Its topics, rising, each with the number that it gave, as the stamp that the transaction would have by that
    /// alone.
    pub fn rows(&self) -> &[Stamp]
        ensures value { result.now ≡ self.now.rows }
        ensures rising { RisesBy (λ row. row.topic.0) self.now.rows }
    {
        self.rows.as_slice()
    }

    /// The number that the topic gave, or `None` where it is none of the transaction's topics.
    pub fn row(&self, topic: Topic) -> Option<u64>
        ensures { result ≡ row_at topic self.now.rows }
    {
        let index = self.index_of(topic)?;
        Some(self.rows[index].n)
    }

    /// The transaction's stamp: the greatest of its rows.
    pub fn stamp(&self) -> Stamp
        ensures { result ≡ greatest self.now.rows }
    {
        self.stamp
    }
}
