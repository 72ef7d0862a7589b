//! The steps of a connection's leaving.

ghost use Rattle.std.specs.Prelude.{◌≡◌, ◌<◌, length, get_or, slice_get, true, false, is_err, OnErr};
ghost use Rattle.std.specs.Option.{option_map_or};
ghost use Rattle.delivery.specs.Core.State.{Core};
ghost use Rattle.delivery.specs.Inner.Clients.{AreClients, MakesBoth};
ghost use Rattle.delivery.specs.Inner.Stands.{IsReached, IsChecked};
ghost use Rattle.delivery.specs.Inner.View.{view_of, no_endpoint};
ghost use Rattle.delivery.specs.Inner.Leaving.{is_busy, leave_objection, oldest_end, oldest_closed, has_parting, gone_view};
ghost use Rattle.delivery.specs.declared.event.Event.{Event as Asked};

use crate::net_state::NetState;
use crate::outcome::Outcome;
use crate::refusal::Refusal;
use crate::stage::Stage;
use mcast_txn::Stamp;
use sender_gate::Senders;
use stomp_frame::NoMemory;

impl NetState {
    /// Whether there is this sender and it has an undecided transaction or tickets to cancel.
    fn is_busy(&self, sender: u64) -> bool
        ensures { result ≡ option_map_or is_busy (slice_get self.now.senders sender) false }
    {
        match self.senders.get(sender as usize) {
            Some(sender) => sender.is_busy(),
            None => false,
        }
    }

    /// Whether the connection takes the next step of its leaving: 80 where there is none, 87 where it is gone, 79
    /// where it is open, 81 where it has no subscription that isn't closed and its sender is busy.
    fn check_leaving(&self, connection: u64) -> Result<(), Refusal>
        ensures { IsChecked result
            (leave_objection self.now.senders (slice_get self.now.endpoints connection)) }
    {
        let Some(endpoint) = self.endpoints.get(connection as usize) else {
            return Err(Refusal::NoConn);
        };
        match endpoint.stage {
            Stage::Open(_) => Err(Refusal::NotLeaving),
            Stage::Leaving(_)
                if endpoint.live.is_empty() && self.is_busy(self.number_of(endpoint)) => {
                Err(Refusal::Busy)
            }
            Stage::Leaving(_) => Ok(()),
            Stage::Gone => Err(Refusal::Gone),
        }
    }

    /// Ends the connection's oldest subscription that isn't closed, if there is one: its number and where its span
    /// ends.
    fn close_oldest(&mut self, connection: u64) -> Option<(u64, Stamp)>
        requires { connection < length self.old.endpoints }
        ensures end { result ≡ oldest_end self.old connection }
        ensures closed { self.new ≡ oldest_closed self.old connection }
    {
        let sub = *self.endpoints[connection as usize].live.first()?;
        let to = self.close(sub)?;
        Some((sub, to))
    }

    /// The connection is gone. The RECEIPT of its DISCONNECT is written, if it asked for one; after `NoMemory` it is
    /// left out.
    fn depart(&mut self, connection: u64) -> Result<(), NoMemory>
        requires { connection < length self.old.endpoints }
        ensures gone { self.new ≡ gone_view (is_err result) connection self.old }
        ensures asked { OnErr result (has_parting (get_or self.old.endpoints connection no_endpoint).stage
            ≡ true) }
    {
        let endpoint = &mut self.endpoints[connection as usize];
        endpoint.depart()
    }

    /// The next step of a connection's leaving: its oldest subscription is closed, or else it is gone. 80 where there
    /// is none, 87 where it is gone, 79 where it is open, 81 where all its subscriptions are closed and its sender
    /// has an undecided transaction or tickets to cancel. As it is gone, its sender's gate is given back. It takes no
    /// memory but for a RECEIPT.
    pub(crate) fn leave(&mut self, connection: u64, clients: &mut Senders) -> Outcome
        ensures { (k : Core) → IsReached k → self.old ≡ view_of k → AreClients k clients.old
            → MakesBoth k (Asked.Leave connection) result self.new clients.new }
    {
        if let Err(refusal) = self.check_leaving(connection) {
            return Outcome::Refused(refusal);
        }
        if let Some((sub, to)) = self.close_oldest(connection) {
            return Outcome::Unsubscribed(sub, to);
        }
        self.give_back(connection, clients);
        match self.depart(connection) {
            Ok(()) => Outcome::Gone { cut: false },
            Err(NoMemory) => Outcome::Gone { cut: true },
        }
    }
}
