//! Events.

ghost use Rattle.std.specs.Prelude.{◌≡◌};
ghost use Rattle.delivery.specs.Core.State.{Core};
ghost use Rattle.delivery.specs.Inner.Clients.{AreClients, AreHeld, MakesBoth};
ghost use Rattle.delivery.specs.Inner.Stands.{IsReached};
ghost use Rattle.delivery.specs.Inner.View.{view_of};

use crate::event::Event;
use crate::net_state::NetState;
use crate::outcome::Outcome;
use sender_gate::Senders;

impl NetState {
    /// What comes of an event. A CONNECT claims its sender of these, and a connection that is gone gives its gate back
    /// to them.
    pub(crate) fn answer(&mut self, event: &Event, clients: &mut Senders) -> Outcome
        requires { AreHeld self.old clients.old }
        ensures { (k : Core) → IsReached k → self.old ≡ view_of k → AreClients k clients.old
            → MakesBoth k event.now result self.new clients.new }
    {
        match event {
            Event::Open => self.open(),
            Event::Piece(connection, octets) => self.piece(*connection, octets.as_slice()),
            Event::Next(connection) => self.next(*connection, clients),
            Event::Propose(connection, topic) => self.propose(*connection, *topic),
            Event::Decide(connection) => self.decide(*connection),
            Event::Withdraw(connection) => self.withdraw(*connection),
            Event::Cancel(connection, topic) => self.cancel(*connection, *topic),
            Event::Learn(topic, id) => self.learn(*topic, *id),
            Event::Release(topic) => self.release(*topic),
            Event::Turn(topic) => self.turn(*topic),
            Event::Take(sub) => self.take(*sub),
            Event::Leave(connection) => self.leave(*connection, clients),
            Event::Lost(connection) => self.lost(*connection),
        }
    }
}
