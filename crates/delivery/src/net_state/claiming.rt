//! The claim of a CONNECT, and the gate that its connection gives back.

ghost use Rattle.std.specs.Prelude.{◌≡◌, ◌<◌, ℕ, List, Option, None, length, get_or, set, IfOk, IfErr, OnOk, OnErr};
ghost use Rattle.std.specs.Option.{option_map};
ghost use Rattle.sender_gate.specs.Gate.{GateState};
ghost use Rattle.sender_gate.specs.Senders.{after_claim, claim_refusal, claimed_gate};
ghost use Rattle.stomp_frame.specs.declared.raw_frame.RawFrame.{RawFrame as Frame};
ghost use Rattle.stomp_frame.specs.Reader.{Unread};
ghost use Rattle.stomp_session.specs.declared.action.Action.TheVariants as actions;
ghost use Rattle.delivery.specs.Core.State.{Core};
ghost use Rattle.delivery.specs.declared.event.Event.{Event as Asked};
ghost use Rattle.delivery.specs.Inner.Clients.{AreClients, MakesBoth, MayResume, gate_at, given_back, refused_claim, rested_view, with_sender_of};
ghost use Rattle.delivery.specs.Inner.Nexts.{Asks, MayEnd};
ghost use Rattle.delivery.specs.Inner.View.{EndpointView, no_endpoint};

use super::NetState;
use super::frames::FRAME_NO_MEMORY;
use crate::connection_fault::ConnectionFault;
use crate::outcome::Outcome;
use crate::sender_state::SenderState;
use mcast_txn::Sender;
use sender_gate::{ClaimFault, Gate, Senders};
use stomp_frame::{NoMemory, Octets, ServerFrame};

/// A refused claim's fault, as that of its connection.
fn refused_claim(fault: ClaimFault) -> ConnectionFault
    ensures { result ≡ refused_claim fault }
{
    match fault {
        ClaimFault::SenderInUse => ConnectionFault::SenderInUse,
        ClaimFault::TooManyClients => ConnectionFault::TooManyClients,
        ClaimFault::NoMemory => FRAME_NO_MEMORY,
    }
}

/// A client-id, if there is one, as a slice.
fn id_of(client: &Option<Octets>) -> Option<&[u8]>
    ensures { option_map (λ id. id.now) result ≡ client.now }
{
    match client {
        Some(id) => Some(id.as_slice()),
        None => None,
    }
}

impl NetState {
    /// Claims the sender of this client-id, which takes its gate back, or a new one, and returns it. Room for a new one
    /// is made before it is claimed. After `NoMemory` all is what it was.
    fn claim(&mut self, client: Option<&[u8]>, clients: &mut Senders) -> Result<Sender, NoMemory>
        requires { MayResume (option_map (λ id. id.now) client) clients.old self.old }
        ensures ok { IfOk result
            (λ s. (claimed_gate (option_map (λ id. id.now) client.entry) clients.old).sender.0 ≡ s.0) }
        ensures claimed { OnOk result
            (clients.new ≡ after_claim (option_map (λ id. id.now) client.entry) clients.old) }
        ensures held { OnOk result (self.new
            ≡ with_sender_of (claimed_gate (option_map (λ id. id.now) client.entry) clients.old) self.old) }
        ensures err { OnErr result (self.new ≡ self.old) }
        ensures unclaimed { OnErr result (clients.new ≡ clients.old) }
    {
        self.senders.reserve(1)?;
        self.table.add_sender(self.alloc)?;
        let Ok(gate) = clients.claim(client) else {
            self.table.drop_sender();
            return Err(NoMemory);
        };
        let sender = gate.sender();
        let index = sender.0 as usize;
        if index < self.senders.len() {
            self.table.drop_sender();
            let state = &mut self.senders[index];
            state.resume(gate);
        } else {
            self.senders
                .push_reserved(SenderState::new(self.alloc, gate));
        }
        Ok(sender)
    }

    /// The connection speaks for this sender.
    fn speak_for(&mut self, connection: u64, sender: Sender)
        requires { connection < length self.old.endpoints }
        ensures { (d : EndpointView) → self.new ≡ record self.old {
          endpoints = set self.old.endpoints connection
              (record (get_or self.old.endpoints connection d) { sender = Some sender.0 });
        } }
    {
        let endpoint = &mut self.endpoints[connection as usize];
        endpoint.sender = Some(sender.0);
    }

    /// Takes a CONNECT: its connection speaks for the sender of its client-id, or for a new one. Refused: 77 where
    /// another connection speaks for that sender, 78 where there would be one client-id or one sender too many, and
    /// then 72. After a refusal all is what it was. Its CONNECTED is written before anything is claimed.
    pub(super) fn connect(
        &mut self,
        connection: u64,
        client: &Option<Octets>,
        clients: &mut Senders,
    ) -> Result<Outcome, ConnectionFault>
        requires there { connection < length self.old.endpoints }
        requires asks { (k : Core) × (f : Frame) × (left : Unread) × (receipt : Option (List ℕ))
            × Asks k connection f left (actions.Connected client.now) receipt self.old × AreClients k clients.old }
        ensures ok { IfOk result
            (λ outcome. (k : Core) (f : Frame) (left : Unread) (receipt : Option (List ℕ))
            → Asks k connection f left (actions.Connected client.now) receipt self.old → AreClients k clients.old
            → MakesBoth k (Asked.Next connection) outcome self.new clients.new) }
        ensures fault { IfErr result
            (λ fault. (k : Core) (f : Frame) (left : Unread) (receipt : Option (List ℕ))
            → Asks k connection f left (actions.Connected client.now) receipt self.old → AreClients k clients.old
            → MayEnd k connection f fault) }
        ensures err { OnErr result (self.new ≡ self.old) }
        ensures unclaimed { OnErr result (clients.new ≡ clients.old) }
    {
        let id = id_of(client);
        if let Err(fault) = clients.check(id) {
            return Err(refused_claim(fault));
        }
        let len = self.written(connection);
        let Ok(()) = self.write(connection, &ServerFrame::Connected) else {
            return Err(FRAME_NO_MEMORY);
        };
        match self.claim(id, clients) {
            Ok(sender) => {
                self.speak_for(connection, sender);
                Ok(Outcome::Done)
            }
            Err(NoMemory) => {
                self.take_back(connection, len);
                Err(FRAME_NO_MEMORY)
            }
        }
    }

    /// Takes the gate of the connection's sender out, if it has one that is between two transactions.
    fn take_gate(&mut self, connection: u64) -> Option<Gate>
        requires { connection < length self.old.endpoints }
        ensures gate { result ≡ gate_at self.old connection }
        ensures rested { self.new ≡ rested_view connection self.old }
    {
        let endpoint = &self.endpoints[connection as usize];
        let Some(sender) = endpoint.sender else {
            return None;
        };
        let index = sender as usize;
        if index >= self.senders.len() {
            return None;
        }
        let state = &mut self.senders[index];
        state.rest()
    }

    /// Gives the gate of the connection's sender back, if it has one that is between two transactions: the sender is
    /// resting then. It takes no memory.
    pub(super) fn give_back(&mut self, connection: u64, clients: &mut Senders)
        requires { connection < length self.old.endpoints }
        ensures given { clients.new ≡ given_back self.old connection clients.old }
        ensures rested { self.new ≡ rested_view connection self.old }
    {
        if let Some(gate) = self.take_gate(connection) {
            clients.give_back(gate);
        }
    }
}
