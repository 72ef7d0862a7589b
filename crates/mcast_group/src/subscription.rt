//! A subscription of a topic.

ghost use Rattle.std.specs.Prelude.{◌≡◌, ◌+◌, ◌<◌, ◌≤◌, length, None, IfSome, OnOk};
ghost use Rattle.mcast_txn.specs.Lists.{In};
ghost use Rattle.mcast_txn.specs.Transaction.{TopicPart};
ghost use Rattle.mcast_group.specs.Machine.{entry_after, end_of, item_of, key, state_of_entry};
ghost use Rattle.mcast_group.specs.Inner.Copies.{AreOf};
ghost use Rattle.mcast_group.specs.Inner.GroupInvariant.{IsReady, entry_of, gauge_of};
ghost use Rattle.mcast_group.specs.declared.subscription.Subscription.{Subscription};

use crate::cause::Cause;
use crate::copies::Copies;
use crate::ended::Ended;
use crate::pending::PendingPart;
use crate::state::SubState;
use mcast_txn::{NoMemory, Released, Stamp};
use sub_queue::Outlet;

/// A subscription that wasn't asked to end: its number, the frontier when it began, where it lagged if it did, and
/// the outlet that takes its items.
#[derive(Drop)]
pub(crate) struct Subscription<Q> {
    pub(crate) number: u64,
    pub(crate) from: Stamp,
    pub(crate) to: Option<Stamp>,
    pub(crate) outlet: Q,
}

impl<Q: Outlet + Drop> Subscription<Q> {
    ghost use Rattle.mcast_group.specs.Inner.GroupInvariant.{entry_of, gauge_of};

    /// What it leaves at this frontier.
    pub(crate) fn end(self, frontier: Stamp) -> Ended<Q>
        ensures outlet { result.outlet ≡ self.outlet }
        ensures to { result.to ≡ (end_of frontier (entry_of Q.shown self)).to }
        ensures cause { result.cause ≡ (end_of frontier (entry_of Q.shown self)).cause }
    {
        match self.to {
            None => Ended {
                to: frontier,
                outlet: self.outlet,
                cause: Cause::Asked,
            },
            Some(to) => Ended {
                to,
                outlet: self.outlet,
                cause: Cause::Lag,
            },
        }
    }

    /// Whether it is open or has lagged.
    pub(crate) fn state(&self) -> SubState
        ensures { result ≡ state_of_entry (entry_of Q.shown self.now) }
    {
        match self.to {
            None => SubState::Open,
            Some(to) => SubState::Lag(to),
        }
    }

    /// Makes room for `more` items in an open outlet.
    pub(crate) fn reserve(&mut self, more: usize) -> Result<(), NoMemory>
        ensures entry { entry_of Q.shown self.new ≡ entry_of Q.shown self.old }
        ensures gauge { gauge_of Q.shown self.new ≡ gauge_of Q.shown self.old }
        ensures spare { Q.spare self.old.outlet ≤ Q.spare self.new.outlet }
        ensures ok { OnOk result (self.new.to ≡ None → more ≤ Q.spare self.new.outlet) }
    {
        if self.to.is_none() {
            self.outlet.reserve(more)?;
        }
        Ok(())
    }

    /// Gives it a copy of the part, if it is open; where its outlet doesn't take it, it ends with the frontier. Returns
    /// whether it has the item.
    pub(crate) fn give(
        &mut self,
        needs: &Q::Needs,
        frontier: Stamp,
        part: &PendingPart,
        copies: &mut Copies,
    ) -> bool
        requires ready { IsReady Q.shown Q.spare (key part.now) self.old }
        requires some { self.old.to ≡ None → 0 < length copies.old }
        requires copies { AreOf part.now.part copies.old }
        ensures entry { entry_of Q.shown self.new
            ≡ entry_after (λ _. result) frontier (item_of part.now) (entry_of Q.shown self.old) }
        ensures gauge { gauge_of Q.shown self.new ≡ gauge_of Q.shown self.old }
        ensures answer { self.old.to ≡ None → Q.may_accept (Q.shown self.old.outlet) result }
        ensures spare { Q.spare self.old.outlet ≤ Q.spare self.new.outlet + 1 }
        ensures copies { AreOf part.now.part copies.new }
        ensures many { length copies.old ≤ length copies.new + 1 }
        ensures lagged { IfSome self.old.to (λ _. copies.new ≡ copies.old) }
    {
        if self.to.is_some() {
            return false;
        }
        let Some(copy) = copies.take() else {
            return false;
        };
        let item = Released {
            part: copy,
            stamp: part.key(),
        };
        match self.outlet.push(needs, item) {
            Ok(()) => true,
            Err(_) => {
                self.to = Some(frontier);
                false
            }
        }
    }
}
