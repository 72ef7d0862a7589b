//! Pending parts on the heap.

ghost use Rattle.std.specs.Prelude.{◌≡◌, IfOk, Some};
ghost use Rattle.mcast_txn.specs.Ids.{id_lt};
ghost use Rattle.mcast_group.specs.Machine.{Pending};

use crate::pending::PendingPart;
use mcast_txn::{NoMemory, Stamp, TxnId};
use std::alloc::Global;
use std::marker::Model;

/// A pending part on the heap, beside its id: so little is moved where others are put in or taken out, and a search
/// reads no part. In contracts it is the part.
pub(crate) struct BoxedPart {
    id: TxnId,
    part: Box<PendingPart>,
}

impl Drop for BoxedPart {
    /// Written out, so that letting a part go is one call for the prover wherever it happens.
    fn drop(self) {
        let BoxedPart { id: _, part } = self;
        drop(part);
    }
}

impl Model for BoxedPart {
    ghost use Rattle.std.specs.Prelude.{◌≡◌};
    ghost use Rattle.mcast_group.specs.Machine.{Pending};

    ghost Value = { Pending };

    ghost view = { λ b. b.part.value };

    ghost invariant = { λ b. b.id ≡ b.part.value.part.id };
}

impl BoxedPart {
    /// The part, moved to the heap.
    pub(crate) fn new(alloc: Global, part: PendingPart) -> Result<BoxedPart, NoMemory>
        ensures { IfOk result (λ boxed. boxed ≡ part) }
    {
        let id = part.id();
        let part = Box::new(alloc, part)?;
        Ok(BoxedPart { id, part })
    }

    /// The transaction.
    pub(crate) fn id(&self) -> TxnId
        ensures { result ≡ self.now.part.id }
    {
        self.id
    }

    /// Whether its id is below this one.
    pub(crate) fn is_before(&self, id: TxnId) -> bool
        ensures { result ≡ id_lt self.now.part.id id }
    {
        self.id < id
    }

    /// The part.
    pub(crate) fn part(&self) -> &PendingPart
        ensures { result.now ≡ self.now }
    {
        &self.part
    }

    /// Its ticket has this number.
    pub(crate) fn number_as(&mut self, number: u64)
        ensures { self.new ≡ record self.old { number = number } }
    {
        self.part.number_as(number);
    }

    /// The part takes its stamp.
    pub(crate) fn learn(&mut self, stamp: Stamp)
        ensures { self.new ≡ record self.old { learnt = Some stamp } }
    {
        self.part.learn(stamp);
    }

    /// The part, moved out.
    pub(crate) fn into_part(self) -> PendingPart
        ensures { result ≡ self }
    {
        let BoxedPart { id: _, part } = self;
        Box::into_inner(part)
    }
}
