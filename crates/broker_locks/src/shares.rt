//! Shares of workers.

ghost use Rattle.std.specs.Prelude.{◌≡◌, ◌+◌};

use crate::side::Side;
use std::marker::Model;
use std::sync::ledger::Share;

/// The shares of workers that left: of how many workers they are, and how many tickets these were given, as a ledger
/// counts them. In contracts it is these two numbers.
#[derive(Drop)]
pub struct Shares<W: Side> {
    /// As many as the share has parts (fewer past 2^64, which no broker reaches).
    pub(crate) workers: u64,
    pub(crate) share: Share<W>,
}

impl<W: Side> Model for Shares<W> {
    ghost use Rattle.std.specs.Prelude.{◌≤◌};
    ghost use Rattle.broker_locks.specs.Tickets.{SharesState};

    ghost Value = { SharesState };

    ghost view = { λ s. record { workers = s.share.parts; tickets = s.share.amount } };

    ghost invariant = { λ s. s.workers ≤ s.share.parts };
}

impl<W: Side> Shares<W> {
    /// The shares of the workers of both, with no memory.
    pub fn add(self, other: Shares<W>) -> Shares<W>
        ensures workers { result.workers ≡ self.workers + other.workers }
        ensures tickets { result.tickets ≡ self.tickets + other.tickets }
    {
        let Shares { workers, mut share } = self;
        let Shares {
            workers: more,
            share: theirs,
        } = other;
        share.merge(theirs);
        Shares {
            workers: workers.saturating_add(more),
            share,
        }
    }
}
