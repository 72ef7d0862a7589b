//! A seat in its topic's list.

ghost use Rattle.std.specs.Prelude.{◌≡◌, Bool, None};
ghost use Rattle.broker_server.specs.Purses.{account_at_look};
ghost use Rattle.broker_server.specs.declared.serving.pace.Pace.{Pace};

use crate::serving::account::Account;
use crate::serving::look::Look;
use crate::serving::moment::Moment;
use crate::serving::seat::Seat;
use crate::serving::span::Span;
use std::alloc::AllocError;
use std::sync::{Arc, Wait};

/// A seat in its topic's list, and what waiting for it has cost.
#[derive(Drop)]
pub(crate) struct SeatEntry {
    pub(crate) seat: Arc<Seat>,
    pub(crate) account: Account,
}

impl SeatEntry {
    /// That of a seat for which nobody has waited.
    pub(crate) fn new(seat: Arc<Seat>) -> SeatEntry
        ensures seat { result.seat ≡ seat }
        ensures account { result.account
            ≡ record { behind = None; spared = record { 0 = 0 }; late = None } }
    {
        SeatEntry {
            seat,
            account: Account::new(),
        }
    }

    /// It lacks room, and joins what a look finds at this moment. So much time in which somebody waited at its topic hasn't
    /// been paid yet; or nobody waited there before.
    pub(crate) fn join_look<R: Wait>(
        &mut self,
        rt: &R,
        now: Moment,
        unpaid: Span,
        is_first: bool,
        look: &mut Look,
    ) -> Result<(), AllocError>
        ensures seat { self.new.seat ≡ self.old.seat }
        ensures account { (pace : Pace) × (fresh : Bool)
            × (self.new.account ≡ account_at_look self.old.account pace now unpaid.0 fresh) }
        ensures may_wait { look.new.may_wait ≡ look.old.may_wait }
        ensures trusts { look.new.trusts ≡ look.old.trusts }
    {
        let fresh = self.seat.take_taken() || is_first;
        let pace = self.seat.intake().pace(rt);
        let mut price = self.account.looks(now, &pace, unpaid, fresh);
        if look.trusts && pace.is_trusted(now) {
            price = price.as_trusted();
        }
        let connection = self.seat.connection();
        look.finds(self.seat.sub(), connection, price, pace.has_given_up())
    }
}
