//! Workers of a broker.

ghost use Rattle.std.specs.Prelude.{◌≡◌};

use crate::shares::Shares;
use crate::side::Side;
use std::marker::Model;
use std::sync::ledger::Share;

/// A worker of a broker: whoever commits lends it to each commit. It is its share of the tickets. In contracts it is of
/// how many workers it is, one, and how many tickets its commits were given.
#[derive(Drop)]
pub struct Worker<W: Side> {
    pub(crate) shares: Shares<W>,
}

impl<W: Side> Model for Worker<W> {
    ghost use Rattle.std.specs.Prelude.{◌≡◌};
    ghost use Rattle.broker_locks.specs.Tickets.{SharesState};

    ghost Value = { SharesState };

    ghost view = { λ w. w.shares };

    ghost invariant = { λ w. w.shares.workers ≡ 1 };
}

impl<W: Side> Worker<W> {
    /// A worker with this share.
    pub(crate) fn new(share: Share<W>) -> Worker<W>
        requires { share.parts ≡ 1 }
        ensures { result ≡ record { workers = 1; tickets = share.amount } }
    {
        Worker {
            shares: Shares { workers: 1, share },
        }
    }

    /// Its share, once it commits no more.
    pub(crate) fn into_shares(self) -> Shares<W>
        ensures { result ≡ self }
    {
        let Worker { shares } = self;
        shares
    }
}
