//! Lists of tickets.

ghost use Rattle.std.specs.Prelude.{◌≡◌, ◌<◌, ◌↔◌, [], IsTrue, length, Some, slice_get, map};

use crate::ballot::Ticket;
use crate::id::TxnId;
use crate::stamp::Stamp;
use smallvec::SmallVec;
use std::marker::Model;

/// Tickets of one transaction. In contracts it is their list.
#[derive(Drop)]
pub struct Tickets {
    pub(crate) id: TxnId,
    pub(crate) rows: SmallVec<Stamp, 2>,
}

impl Model for Tickets {
    ghost use Rattle.std.specs.Prelude.{List, map};
    ghost use Rattle.mcast_txn.specs.declared.ballot.ticket.Ticket.{Ticket};

    ghost Value = { List Ticket };

    ghost view = { λ t. map (λ row. record { id = t.id; topic = row.topic; n = row.n }) t.rows.items };
}

impl Tickets {
    /// How many there are.
    pub fn len(&self) -> usize
        ensures { result ≡ length self.now }
    {
        self.rows.len()
    }

    /// Whether there is none.
    pub fn is_empty(&self) -> bool
        ensures { IsTrue result ↔ (self.now ≡ []) }
    {
        self.rows.is_empty()
    }

    /// The ticket at index `i`, from 0.
    pub fn get(&self, i: usize) -> Ticket
        requires { i < length self.now }
        ensures { slice_get self.now i ≡ Some result }
    {
        let row = self.rows[i];
        Ticket {
            id: self.id,
            topic: row.topic,
            n: row.n,
        }
    }
}
