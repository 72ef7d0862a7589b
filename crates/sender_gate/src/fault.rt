//! What a gate refuses, and a claim of a sender.

ghost use Rattle.std.specs.Prelude.{◌≡◌};
ghost use Rattle.sender_gate.specs.Faults.{claim_number, gate_number, gate_fault};

use mcast_txn::BallotFault;
use thiserror::Error;

/// Why a gate or its flight refuses a call.
#[derive(Clone, Copy, Debug, PartialEq, Eq, Error)]
pub enum GateFault {
    /// 50: the ticket is of another transaction, or of a topic that the transaction doesn't name.
    #[error("50 NotNamed: put the tickets of this transaction's own topics")]
    NotNamed,
    /// 51: the topic gave its ticket before.
    #[error("51 Twice: put one ticket for each topic")]
    Twice,
    /// 52: a topic of the transaction gave no ticket yet.
    #[error("52 Incomplete: put the tickets of all topics first, or withdraw")]
    Incomplete,
    /// 53: the sender has used its last number, 2^64 - 1.
    #[error("53 SeqFull: go on as another sender")]
    SeqFull,
    /// 54: the ticket's number is at most the floor's.
    #[error("54 BelowFloor: propose with the flight's floor")]
    BelowFloor,
    /// 55: there was no memory; gate and transaction are as they were.
    #[error("55 NoMemory: out of memory for the transaction; send it again, or a smaller one")]
    NoMemory,
}

impl GateFault {
    /// Its number, 50 to 55.
    pub fn number(self) -> u32
        ensures { result ≡ gate_number self }
    {
        match self {
            GateFault::NotNamed => 50,
            GateFault::Twice => 51,
            GateFault::Incomplete => 52,
            GateFault::SeqFull => 53,
            GateFault::BelowFloor => 54,
            GateFault::NoMemory => 55,
        }
    }
}

impl From<BallotFault> for GateFault {
    ghost from_gives = { λ fault e. e ≡ gate_fault fault };

    /// The gate's fault for a fault of its ballot.
    fn from(fault: BallotFault) -> GateFault {
        match fault {
            BallotFault::NotNamed => GateFault::NotNamed,
            BallotFault::Twice => GateFault::Twice,
        }
    }
}

/// Why a sender can't be claimed.
#[derive(Clone, Copy, Debug, PartialEq, Eq, Error)]
pub enum ClaimFault {
    /// 77: the sender of this client-id is in use.
    #[error("77 SenderInUse: wait until the connection of this client-id is gone, or take another client-id")]
    SenderInUse,
    /// 78: as many client-ids are kept as may be, or no number is left for a sender.
    #[error("78 TooManyClients: take a client-id that is kept, or none")]
    TooManyClients,
    /// 55: there was no memory to keep the client-id; nothing changed.
    #[error("55 NoMemory: out of memory for the client-id; claim it again")]
    NoMemory,
}

impl ClaimFault {
    /// Its number: 77, 78 or 55.
    pub fn number(self) -> u32
        ensures { result ≡ claim_number self }
    {
        match self {
            ClaimFault::SenderInUse => 77,
            ClaimFault::TooManyClients => 78,
            ClaimFault::NoMemory => 55,
        }
    }
}
