//! Senders that outlive a connection.

ghost use Rattle.std.specs.Prelude.{◌≡◌, ◌+◌, true, [], slice_get, Some, None, is_some, IfOk, IfErr, IfSome, OnOk, OnErr};
ghost use Rattle.std.specs.Option.{option_and_then, option_map};
ghost use Rattle.std.specs.Result.{result_err};
ghost use Rattle.sender_gate.specs.Senders.{KeptSender, MayRefuse, after_claim, after_give_back, claim_refusal};
ghost use Rattle.sender_gate.specs.Senders.{claimed, claimed_gate, new_gate, with_new_sender};
ghost use Rattle.sender_gate.specs.Inner.Claims.{IsClaim, IsClaimedAt, IsNextSender, with_used_at};
ghost use Rattle.sender_gate.specs.Inner.Stored.{begun_before};
ghost use Rattle.sender_gate.specs.declared.fault.ClaimFault.TheVariants.{NoMemory};

use crate::claim::Claim;
use crate::fault::ClaimFault;
use crate::gate::Gate;
use crate::kept_gate::KeptGate;
use indexmap::IndexMap;
use mcast_txn::Sender;
use std::alloc::Global;
use std::marker::Model;

/// The most client-ids that are kept (our choice).
const MAX_CLIENTS: usize = 65_536;

/// The senders that have begun, by their numbers, and those of them that outlive a connection: these are kept by
/// client-id, each with its gate while no connection uses it. In contracts it is how many have begun, and the list of
/// those that are kept.
#[derive(Drop)]
pub struct Senders {
    alloc: Global,
    next: Option<Sender>,
    kept: IndexMap<Vec<u8>, KeptGate>,
}

impl Model for Senders {
    ghost use Rattle.sender_gate.specs.Senders.{SendersState};
    ghost use Rattle.sender_gate.specs.Inner.Stored.{AreNumbered, begun_before, senders_of};

    ghost Value = { SendersState };

    ghost view = { λ s. senders_of s.next s.kept.entries };

    ghost invariant = { λ s. AreNumbered (begun_before s.next) s.kept.entries };
}

/// The sender of the next number, if there is one.
fn sender_after(sender: Sender) -> Option<Sender>
    ensures { begun_before result ≡ sender.0 + 1 }
{
    let number = sender.0.checked_add(1)?;
    Some(Sender(number))
}

impl Senders {
    /// No senders. It takes no memory.
    pub fn new(alloc: Global) -> Senders
        ensures { result ≡ record { begun = 0; kept = [] } }
    {
        Senders {
            alloc,
            next: Some(Sender(0)),
            kept: IndexMap::new(alloc),
        }
    }

    /// Why a claim of this client-id would be refused now, but for memory: 77 where its sender is in use, 78 where
    /// there would be one client-id or one sender too many. It takes no memory.
    pub fn check(&self, client: Option<&[u8]>) -> Result<(), ClaimFault>
        ensures { result_err result ≡ claim_refusal (option_map (λ id. id.now) client.entry) self.now }
    {
        self.judge(client)?;
        Ok(())
    }

    /// Claims the sender of this client-id: its gate as it was given back last, or that of a new sender, which is kept.
    /// Without a client-id it is always a new sender, which isn't kept. Refused: 77 where the sender is in use, 78
    /// where there would be one client-id or one sender too many, and then 55, for a new client-id alone. After a
    /// refusal nothing has changed, and no number is used up.
    pub fn claim(&mut self, client: Option<&[u8]>) -> Result<Gate, ClaimFault>
        ensures gate { IfOk result
            (λ gate. gate ≡ claimed_gate (option_map (λ id. id.now) client.entry) self.old) }
        ensures allowed { OnOk result
            (claim_refusal (option_map (λ id. id.now) client.entry) self.old ≡ None) }
        ensures after { OnOk result
            (self.new ≡ after_claim (option_map (λ id. id.now) client.entry) self.old) }
        ensures fault { IfErr result (MayRefuse (option_map (λ id. id.now) client.entry) self.old) }
        ensures err { OnErr result (self.new ≡ self.old) }
    {
        match self.judge(client)? {
            Claim::Kept(index) => Ok(self.take(index)),
            Claim::New(sender) => self.add(sender, client),
        }
    }

    /// Gives a gate back, with no memory: where its sender is kept and in use, it is the gate that the next claim of
    /// that client-id gets. Any other gate is dropped, and nothing changes.
    pub fn give_back(&mut self, gate: Gate)
        ensures { self.new ≡ after_give_back gate self.old }
    {
        let number = gate.sender().0;
        let found = self
            .kept
            .binary_search_by_key(&number, |_: &Vec<u8>, kept: &KeptGate| kept.sender.0);
        if let Ok(index) = found {
            let kept = self.kept.get_index_mut(index).unwrap();
            if kept.gate.is_none() {
                kept.gate = Some(gate);
            }
        }
    }

    /// The index of the kept sender that such a claim goes on with, if there is one. It is found without a walk.
    fn index_of(&self, client: Option<&[u8]>) -> Option<usize>
        ensures none { is_some result ≡ is_some (claimed (option_map (λ id. id.now) client.entry) self.now) }
        ensures at { IfSome result (IsClaimedAt (option_map (λ id. id.now) client.entry) self.now) }
    {
        self.kept.get_index_of(client?)
    }

    /// What such a claim goes on with, or why it is refused but for memory.
    fn judge(&self, client: Option<&[u8]>) -> Result<Claim, ClaimFault>
        ensures fault { result_err result ≡ claim_refusal (option_map (λ id. id.now) client.entry) self.now }
        ensures claim { IfOk result (IsClaim (option_map (λ id. id.now) client.entry) self.now) }
    {
        if let Some(index) = self.index_of(client) {
            if self.kept[index].gate.is_none() {
                return Err(ClaimFault::SenderInUse);
            }
            return Ok(Claim::Kept(index));
        }
        if client.is_some() && self.kept.len() >= MAX_CLIENTS {
            return Err(ClaimFault::TooManyClients);
        }
        match self.next {
            Some(sender) => Ok(Claim::of_new(sender)),
            None => Err(ClaimFault::TooManyClients),
        }
    }

    /// Takes the gate of the kept sender at an index, which has one: it is then in use.
    fn take(&mut self, index: usize) -> Gate
        requires { is_some (option_and_then (λ k. k.gate) (slice_get self.old.kept index)) ≡ true }
        ensures gate { option_and_then (λ k. k.gate) (slice_get self.old.kept index) ≡ Some result }
        ensures after { (k : KeptSender) → slice_get self.old.kept index ≡ Some k
            → self.new ≡ with_used_at index k self.old }
    {
        self.kept.get_index_mut(index).unwrap().gate.take().unwrap()
    }

    /// Adds the next sender, which is kept where it has a client-id; this isn't kept yet.
    fn add(&mut self, sender: Sender, client: Option<&[u8]>) -> Result<Gate, ClaimFault>
        requires { IsNextSender (option_map (λ id. id.now) client) self.old sender }
        ensures gate { IfOk result (λ gate. gate ≡ new_gate sender) }
        ensures ok { OnOk result
            (self.new ≡ with_new_sender (option_map (λ id. id.now) client.entry) self.old) }
        ensures fault { IfErr result
            (λ fault. (fault ≡ NoMemory) × (is_some (option_map (λ id. id.now) client.entry) ≡ true)) }
        ensures err { OnErr result (self.new ≡ self.old) }
    {
        if let Some(id) = client {
            let Ok(id) = Vec::from_slice(self.alloc, id) else {
                return Err(ClaimFault::NoMemory);
            };
            let kept = KeptGate { sender, gate: None };
            let Ok(_) = self.kept.insert(id, kept) else {
                return Err(ClaimFault::NoMemory);
            };
        }
        self.next = sender_after(sender);
        Ok(Gate::new(sender))
    }
}
