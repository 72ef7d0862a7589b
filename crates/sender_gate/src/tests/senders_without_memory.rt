//! `Senders::claim` without memory. The test holds whichever one allocation fails (`rt try --test --fail-alloc N`).

use super::flights::stamp;
use super::senders::{gets, is_at};
use crate::{ClaimFault, Gate, Senders};
use mcast_txn::{Sender, Stamp};
use std::test::Fail;

/// Whether a claim of `rests` gets sender 0's gate, with this seq and this floor.
fn rests_at(senders: &mut Senders, seq: u64, floor: Stamp) -> bool {
    gets(senders, Some(b"rests"), 0, seq, floor)
}

/// The gate that `rests` is given back with.
fn resting() -> Gate {
    Gate::resume(Sender(0), 4, stamp(10, 0))
}

/// Whether the senders are as they were before a new client-id was refused: the one of a client-id that isn't in use,
/// and one that is.
fn are_as_before(senders: &mut Senders, client: &[u8], before: Option<&[u8]>) -> bool {
    if senders.check(Some(client)).is_err() || !rests_at(senders, 4, stamp(10, 0)) {
        return false;
    }
    senders.give_back(resting());
    before.is_none() || senders.check(before) == Err(ClaimFault::SenderInUse)
}

/// Claims a new client-id. Where there is no memory, the senders are as they were, and the same claim then succeeds.
fn claimed(senders: &mut Senders, client: &[u8], before: Option<&[u8]>) -> Result<Gate, Fail> {
    match senders.claim(Some(client)) {
        Ok(gate) => return Ok(gate),
        Err(ClaimFault::NoMemory) => {}
        Err(_) => return Err(Fail::new("refused for another cause")),
    }
    if !are_as_before(senders, client, before) {
        return Err(Fail::new("the senders aren't as they were"));
    }
    Ok(senders.claim(Some(client))?)
}

/// Claims `rests` the first or the second time, and gives it back with seq 4; whether it was a new sender.
fn comes_to_rest(senders: &mut Senders) -> bool {
    if !rests_at(senders, 0, Stamp::ZERO) && !rests_at(senders, 0, Stamp::ZERO) {
        return false;
    }
    senders.give_back(resting());
    true
}

/// Claims sixty client-ids; whether each new sender has the next number.
fn claims_sixty(senders: &mut Senders) -> Result<bool, Fail> {
    for n in 1..=60_u8 {
        let before = [b'c', n - 1];
        let before: Option<&[u8]> = if n > 1 { Some(&before) } else { None };
        let gate = claimed(senders, &[b'c', n], before)?;
        if !is_at(&gate, n as u64, 0, Stamp::ZERO) {
            return Ok(false);
        }
    }
    Ok(true)
}

/// Whether the next sender has the next number, and `rests` rests as it did.
fn go_on(senders: &mut Senders) -> bool {
    gets(senders, None, 61, 0, Stamp::ZERO) && rests_at(senders, 4, stamp(10, 0))
}

/// Sixty client-ids, so that their map grows several times: each new sender has the next number.
#[test]
fn a_claim_succeeds_in_the_end(rt: HostRuntime) -> Result<(), Fail> {
    let mut senders = Senders::new(rt.alloc());
    assert!(rt; comes_to_rest(&mut senders) && claims_sixty(&mut senders)? && go_on(&mut senders));
    Ok(())
}
