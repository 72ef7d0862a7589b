//! The faults' numbers, and their messages, which begin with number and name.

use crate::{ClaimFault, GateFault};
use mcast_txn::BallotFault;
use std::alloc::Global;

/// Each fault of a gate, its number, and how its message begins.
const OF_GATES: &[(GateFault, u32, &[u8])] = &[
    (GateFault::NotNamed, 50, b"50 NotNamed: "),
    (GateFault::Twice, 51, b"51 Twice: "),
    (GateFault::Incomplete, 52, b"52 Incomplete: "),
    (GateFault::SeqFull, 53, b"53 SeqFull: "),
    (GateFault::BelowFloor, 54, b"54 BelowFloor: "),
    (GateFault::NoMemory, 55, b"55 NoMemory: "),
];

/// Whether a gate's fault has this number, and a message that begins so.
fn is_of_gate(alloc: Global, fault: GateFault, number: u32, front: &[u8]) -> bool {
    match format!(in alloc; "{fault}") {
        Ok(message) => fault.number() == number && message.as_bytes().starts_with(front),
        Err(_) => false,
    }
}

#[test]
fn faults_have_their_numbers(rt: HostRuntime) {
    for &(fault, number, front) in OF_GATES {
        assert!(rt; is_of_gate(rt.alloc(), fault, number, front), "{number}");
    }
}

/// Each fault of a claim, its number, and how its message begins.
const OF_CLAIMS: &[(ClaimFault, u32, &[u8])] = &[
    (ClaimFault::SenderInUse, 77, b"77 SenderInUse: "),
    (ClaimFault::TooManyClients, 78, b"78 TooManyClients: "),
    (ClaimFault::NoMemory, 55, b"55 NoMemory: "),
];

/// Whether a claim's fault has this number, and a message that begins so.
fn is_of_claim(alloc: Global, fault: ClaimFault, number: u32, front: &[u8]) -> bool {
    match format!(in alloc; "{fault}") {
        Ok(message) => fault.number() == number && message.as_bytes().starts_with(front),
        Err(_) => false,
    }
}

#[test]
fn a_claims_faults_have_their_numbers(rt: HostRuntime) {
    for &(fault, number, front) in OF_CLAIMS {
        assert!(rt; is_of_claim(rt.alloc(), fault, number, front), "{number}");
    }
}

/// A ballot's fault keeps its number at the gate.
#[test]
fn a_ballots_fault_keeps_its_number(rt: HostRuntime) {
    for &fault in &[BallotFault::NotNamed, BallotFault::Twice] {
        assert!(rt; GateFault::from(fault).number() == fault.number());
    }
}
