//! What counts a topic's tickets for a worker.

ghost use Rattle.std.specs.Prelude.{◌≡◌, ◌+◌, ◌<◌};

use crate::side::Side;
use crate::total::Total;
use mcast_group::{ProposeFault, TicketCounter};
use std::sync::ledger::Share;
use std::sync::{Mutex, Wait};

/// Counts the tickets that a topic gives to a worker, by the shares of both, in the total: it takes the total's lock
/// for the count alone.
#[derive(Drop)]
pub(crate) struct TotalCounter<'a, R: Wait, W: Side, T: Side> {
    rt: &'a R,
    total: &'a Mutex<Total<W, T>>,
    mine: Share<W>,
    here: Share<T>,
    ghost some: { 0 < mine.parts },
    ghost one: { 0 < here.parts },
}

impl<'a, R: Wait, W: Side, T: Side> TotalCounter<'a, R, W, T> {
    /// One of this worker's share, and this topic's.
    pub(crate) fn new(
        rt: &'a R,
        total: &'a Mutex<Total<W, T>>,
        mine: Share<W>,
        here: Share<T>,
    ) -> TotalCounter<'a, R, W, T>
        requires { (0 < mine.parts) × (0 < here.parts) }
        ensures mine { (result.mine.parts ≡ mine.parts) × (result.mine.amount ≡ mine.amount) }
        ensures here { (result.here.parts ≡ here.parts) × (result.here.amount ≡ here.amount) }
    {
        TotalCounter {
            rt,
            total,
            mine,
            here,
        }
    }

    /// The shares.
    pub(crate) fn into_shares(self) -> (Share<W>, Share<T>)
        ensures mine { (result.0.parts ≡ self.entry.mine.parts) × (result.0.amount ≡ self.entry.mine.amount) }
        ensures here { (result.1.parts ≡ self.entry.here.parts) × (result.1.amount ≡ self.entry.here.amount) }
    {
        let TotalCounter {
            rt: _,
            total: _,
            mine,
            here,
        } = self;
        (mine, here)
    }
}

impl<'a, R: Wait, W: Side, T: Side> TicketCounter for TotalCounter<'a, R, W, T> {
    ghost use Rattle.std.specs.Prelude.{◌≡◌, ◌+◌};
    ghost use Rattle.mcast_group.specs.declared.fault.ProposeFault.TheVariants.{ClockFull};

    ghost counted = { λ old new. (new.mine.parts ≡ old.mine.parts) × (new.here.parts ≡ old.here.parts)
        × (new.mine.amount ≡ old.mine.amount + 1) × (new.here.amount ≡ old.here.amount + 1) };

    ghost refused = { λ old new fault. (fault ≡ ClockFull)
        × (new.mine.parts ≡ old.mine.parts) × (new.here.parts ≡ old.here.parts)
        × (new.mine.amount ≡ old.mine.amount) × (new.here.amount ≡ old.here.amount) };

    /// Counts a ticket in the total. Refused by 40 where that is full.
    fn count(&mut self) -> Result<(), ProposeFault> {
        let TotalCounter {
            rt,
            total,
            mine,
            here,
        } = self;
        total.lock(*rt).count(mine, here)
    }
}
