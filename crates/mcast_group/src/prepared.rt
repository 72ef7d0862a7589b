//! Parts with all that their entering needs.

ghost use Rattle.std.specs.Prelude.{◌≡◌, ◌≤◌, length, None, IfOk};
ghost use Rattle.std.specs.Arc.{arc_value};
ghost use Rattle.mcast_txn.specs.Part.{data_of};
ghost use Rattle.mcast_group.specs.Inner.Copies.{AreOf};

use crate::boxed_part::BoxedPart;
use crate::copies::Copies;
use crate::pending::PendingPart;
use mcast_txn::{NoMemory, Part};
use std::alloc::Global;
use std::marker::Model;
use std::sync::Arc;

/// A part on the heap, as it will be among those that are pending, and a copy for each of so many subscriptions. In
/// contracts it is what the part says.
pub(crate) struct Prepared {
    part: BoxedPart,
    copies: Copies,
    many: usize,
}

impl Drop for Prepared {
    /// Written out, so that letting a part go is one call for the prover wherever it happens.
    fn drop(self) {
        let Prepared {
            part,
            copies,
            many: _,
        } = self;
        drop(part);
        drop(copies);
    }
}

impl Model for Prepared {
    ghost use Rattle.mcast_txn.specs.Transaction.{TopicPart};
    ghost use Rattle.mcast_group.specs.Inner.Copies.{IsPrepared};

    ghost Value = { TopicPart };

    ghost view = { λ p. p.part.part };

    ghost invariant = { λ p. IsPrepared p.part p.copies p.many };
}

impl Prepared {
    /// A part without copies.
    #[inline(always)]
    pub(crate) fn new(alloc: Global, part: Arc<Part>) -> Result<Prepared, NoMemory>
        ensures { IfOk result (λ prepared. prepared ≡ data_of (arc_value part)) }
    {
        let boxed = BoxedPart::new(alloc, PendingPart::new(part, 0)?)?;
        let copies = Copies::of(alloc, boxed.part(), 0)?;
        Ok(Prepared {
            part: boxed,
            copies,
            many: 0,
        })
    }

    /// The part.
    pub(crate) fn part(&self) -> &Part
        ensures { data_of result.now ≡ self.now }
    {
        self.part.part().part()
    }

    /// Makes a copy for each of so many subscriptions, where it has fewer.
    pub(crate) fn copy_for(&mut self, alloc: Global, many: usize) -> Result<(), NoMemory>
        ensures { self.new ≡ self.old }
    {
        if self.many < many {
            self.copies = Copies::of(alloc, self.part.part(), many)?;
            self.many = many;
        }
        Ok(())
    }

    /// The part with the number of its ticket, and a copy for each of so many subscriptions: with no memory where it
    /// had them.
    #[inline(always)]
    pub(crate) fn into_numbered(
        self,
        alloc: Global,
        number: u64,
        many: usize,
    ) -> Result<(BoxedPart, Copies), NoMemory>
        ensures part { IfOk result
            (λ made. made.0 ≡ record { part = self; number = number; learnt = None }) }
        ensures many { IfOk result (λ made. length made.1 ≡ many) }
        ensures copies { IfOk result (λ made. AreOf self made.1) }
    {
        let Prepared {
            part: mut boxed,
            copies,
            many: had,
        } = self;
        let copies = enough(alloc, boxed.part(), copies, had, many)?;
        boxed.number_as(number);
        Ok((boxed, copies))
    }
}

/// A copy for each of so many subscriptions: of these ones, where there are so many of them.
fn enough(
    alloc: Global,
    part: &PendingPart,
    copies: Copies,
    had: usize,
    many: usize,
) -> Result<Copies, NoMemory>
    requires of { AreOf part.now.part copies }
    requires had { had ≤ length copies }
    ensures many { IfOk result (λ made. length made ≡ many) }
    ensures copies { IfOk result (λ made. AreOf part.now.part made) }
{
    if had < many {
        return Copies::of(alloc, part, many);
    }
    let mut copies = copies;
    copies.keep(many);
    Ok(copies)
}
