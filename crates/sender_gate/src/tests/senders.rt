//! Senders that outlive a connection.

use super::flights::{begun, decided, stamp};
use crate::{ClaimFault, Gate, Senders};
use mcast_txn::{Sender, Stamp};
use std::alloc::Global;

/// Whether the gate is of this sender, with this seq and this floor.
pub(super) fn is_at(gate: &Gate, sender: u64, seq: u64, floor: Stamp) -> bool {
    gate.sender() == Sender(sender) && gate.seq() == seq && gate.floor() == floor
}

/// Whether a claim of this client-id gets the gate of this sender, with this seq and this floor.
pub(super) fn gets(
    senders: &mut Senders,
    client: Option<&[u8]>,
    sender: u64,
    seq: u64,
    floor: Stamp,
) -> bool {
    match senders.claim(client) {
        Ok(gate) => is_at(&gate, sender, seq, floor),
        Err(_) => false,
    }
}

/// Whether a claim of this client-id gets the gate of this sender, which has sent nothing.
fn gets_new(senders: &mut Senders, client: Option<&[u8]>, sender: u64) -> bool {
    gets(senders, client, sender, 0, Stamp::ZERO)
}

/// Whether a claim of this client-id has this fault.
fn refuses(senders: &mut Senders, client: &[u8], fault: ClaimFault) -> bool {
    senders.claim(Some(client)).err() == Some(fault)
}

/// Whether a claim of this client-id would have this fault.
fn would_refuse(senders: &Senders, client: &[u8], fault: ClaimFault) -> bool {
    senders.check(Some(client)) == Err(fault)
}

/// The gate after a transaction to topics 0 and 1, whose tickets are these.
fn after(alloc: Global, gate: Gate, tickets: [u64; 2]) -> Option<Gate> {
    let flying = begun(alloc, gate, &[0, 1])?;
    let (gate, _stamp) = decided(flying, &[(0, tickets[0]), (1, tickets[1])])?;
    Some(gate)
}

/// Claims `p` and gives it back after a transaction with these tickets: whether it had this seq and this floor.
fn goes_on(
    alloc: Global,
    senders: &mut Senders,
    seq: u64,
    floor: Stamp,
    tickets: [u64; 2],
) -> Option<bool> {
    let gate = senders.claim(Some(b"p")).ok()?;
    let is_there = is_at(&gate, 0, seq, floor);
    senders.give_back(after(alloc, gate, tickets)?);
    Some(is_there)
}

/// Whether `p` goes on twice where it was given back, and another sender begins.
fn goes_on_twice(alloc: Global, senders: &mut Senders) -> bool {
    goes_on(alloc, senders, 0, Stamp::ZERO, [10, 1]) == Some(true)
        && goes_on(alloc, senders, 1, stamp(10, 0), [11, 12]) == Some(true)
        && gets(senders, Some(b"p"), 0, 2, stamp(12, 1))
        && gets_new(senders, None, 1)
}

#[test]
fn a_sender_goes_on_where_it_was_given_back(rt: HostRuntime) {
    let mut senders = Senders::new(rt.alloc());
    assert!(rt; goes_on_twice(rt.alloc(), &mut senders));
}

/// Claims `p` and gives it back after a transaction that is withdrawn: whether it then has seq 1, and no floor.
fn withdraws(alloc: Global, senders: &mut Senders) -> Option<bool> {
    let gate = senders.claim(Some(b"p")).ok()?;
    let (gate, _tickets) = begun(alloc, gate, &[0])?.withdraw();
    senders.give_back(gate);
    Some(gets(senders, Some(b"p"), 0, 1, Stamp::ZERO))
}

/// A withdrawn transaction's number stays used, and the floor stays what it was.
#[test]
fn a_withdrawn_number_stays_used(rt: HostRuntime) {
    let mut senders = Senders::new(rt.alloc());
    assert!(rt; withdraws(rt.alloc(), &mut senders) == Some(true));
}

/// Whether `p` is in use, and `P` isn't.
fn is_in_use(senders: &mut Senders) -> bool {
    would_refuse(senders, b"p", ClaimFault::SenderInUse)
        && refuses(senders, b"p", ClaimFault::SenderInUse)
        && senders.check(Some(b"P")) == Ok(())
}

/// Whether `p` isn't in use: it is sender 0, which has sent nothing, and `P` is sender 1.
fn is_free(senders: &mut Senders) -> bool {
    senders.check(Some(b"p")) == Ok(())
        && gets_new(senders, Some(b"p"), 0)
        && gets_new(senders, Some(b"P"), 1)
}

/// Whether `p` is in use while it is claimed, and isn't once it is given back.
fn is_in_use_while_claimed(senders: &mut Senders) -> Option<bool> {
    let gate = senders.claim(Some(b"p")).ok()?;
    let in_use = is_in_use(senders);
    senders.give_back(gate);
    Some(in_use && is_free(senders))
}

#[test]
fn a_client_id_in_use_is_77(rt: HostRuntime) {
    let mut senders = Senders::new(rt.alloc());
    assert!(rt; is_in_use_while_claimed(&mut senders) == Some(true));
}

/// Claims without a client-id, and gives the first back after a transaction: whether each is a new sender, and an empty
/// client-id is another, which is then in use.
fn are_new(alloc: Global, senders: &mut Senders) -> Option<bool> {
    let gate = senders.claim(None).ok()?;
    let are_two = is_at(&gate, 0, 0, Stamp::ZERO) && gets_new(senders, None, 1);
    senders.give_back(after(alloc, gate, [10, 1])?);
    let are_four = gets_new(senders, None, 2) && gets_new(senders, Some(b""), 3);
    let is_used = refuses(senders, b"", ClaimFault::SenderInUse);
    Some(are_two && are_four && is_used && senders.check(None) == Ok(()))
}

/// An empty client-id is one as any other.
#[test]
fn without_a_client_id_it_is_a_new_sender(rt: HostRuntime) {
    let mut senders = Senders::new(rt.alloc());
    assert!(rt; are_new(rt.alloc(), &mut senders) == Some(true));
}

/// Claims four client-ids, each before one without; whether each is claimed.
fn claims_each(senders: &mut Senders) -> bool {
    for client in [b"p", b"q", b"r", b"s"] {
        if senders.claim(Some(client.as_slice())).is_err() || senders.claim(None).is_err() {
            return false;
        }
    }
    true
}

/// Whether all but `r` are in use.
fn are_in_use(senders: &Senders) -> bool {
    would_refuse(senders, b"p", ClaimFault::SenderInUse)
        && would_refuse(senders, b"q", ClaimFault::SenderInUse)
        && would_refuse(senders, b"s", ClaimFault::SenderInUse)
}

/// Gives one gate back of those; whether its own client-id gets it.
fn gives_one_back(senders: &mut Senders) -> bool {
    if !claims_each(senders) {
        return false;
    }
    senders.give_back(Gate::resume(Sender(4), 9, stamp(7, 1)));
    are_in_use(senders) && gets(senders, Some(b"r"), 4, 9, stamp(7, 1))
}

/// Among several that are kept, with others between them that aren't, the gate's own sender gets it.
#[test]
fn each_gets_its_own_gate(rt: HostRuntime) {
    let mut senders = Senders::new(rt.alloc());
    assert!(rt; gives_one_back(&mut senders));
}

/// A gate that nobody claimed.
fn stranger(sender: u64) -> Gate {
    Gate::resume(Sender(sender), 4, stamp(10, 0))
}

/// Gives gates back that nobody claimed, while `p` is in use and after it; whether nothing changes.
fn takes_no_strangers(senders: &mut Senders) -> Option<bool> {
    senders.give_back(stranger(0));
    let gate = senders.claim(Some(b"p")).ok()?;
    let is_new = is_at(&gate, 0, 0, Stamp::ZERO) && senders.claim(None).is_ok();
    senders.give_back(stranger(1));
    senders.give_back(stranger(2));
    let is_used = would_refuse(senders, b"p", ClaimFault::SenderInUse);
    senders.give_back(gate);
    senders.give_back(stranger(0));
    let are_next = gets_new(senders, Some(b"p"), 0) && gets_new(senders, Some(b"q"), 2);
    Some(is_new && is_used && are_next)
}

#[test]
fn a_strangers_gate_changes_nothing(rt: HostRuntime) {
    let mut senders = Senders::new(rt.alloc());
    assert!(rt; takes_no_strangers(&mut senders) == Some(true));
}

/// Claims 65,536 client-ids, of two octets each, and gives the one of these octets back; whether each is claimed.
fn fills(senders: &mut Senders, free: [u8; 2]) -> bool {
    for n in 0..=65_535_u16 {
        let client = n.to_be_bytes();
        let Ok(gate) = senders.claim(Some(&client)) else {
            return false;
        };
        if client == free {
            senders.give_back(gate);
        }
    }
    true
}

/// Whether no further client-id is kept, those that are go on, and one without is a new sender.
fn is_full(senders: &mut Senders) -> bool {
    would_refuse(senders, b"new", ClaimFault::TooManyClients)
        && refuses(senders, b"new", ClaimFault::TooManyClients)
        && refuses(senders, &[255, 255], ClaimFault::SenderInUse)
        && gets_new(senders, Some(&[3, 7]), 775)
        && gets_new(senders, None, 65_536)
        && refuses(senders, b"new", ClaimFault::TooManyClients)
}

#[test]
fn one_client_id_too_many_is_78(rt: HostRuntime) {
    let mut senders = Senders::new(rt.alloc());
    assert!(rt; fills(&mut senders, [3, 7]) && is_full(&mut senders));
}
