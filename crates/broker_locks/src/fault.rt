//! What a commit refuses.

ghost use Rattle.std.specs.Prelude.{◌≡◌};
ghost use Rattle.broker_locks.specs.Faults.{commit_fault, commit_number, commit_title};

use mcast_group::ProposeFault;
use thiserror::Error;

/// Why a transaction isn't committed. The parts that were entered are cancelled.
#[derive(Clone, Copy, Debug, PartialEq, Eq, Error)]
pub enum CommitFault {
    /// 40: a topic has no number left above its clock and the floor, or the broker's topics gave 2^64 - 1 tickets.
    #[error("40 ClockFull: no number is left; send to other topics or as another sender, or begin a new broker")]
    ClockFull,
    /// 41: a topic's pending parts and undrained rows are at their limit.
    #[error("41 LogFull: turn the topic and drain its log before sending more")]
    LogFull,
    /// 42: out of memory for a part, or for the commit itself.
    #[error("42 NoMemory: out of memory for the transaction; send it again, or a smaller one")]
    NoMemory,
    /// 49: a part of this transaction is pending at a topic, or there is no such topic.
    #[error("49 Twice: commit a transaction once, and to topics that are there")]
    Twice,
    /// 32: the transaction's flight has another verdict.
    #[error("32 AlreadySet: commit each flight once")]
    AlreadySet,
}

impl CommitFault {
    /// Its number, 40, 41, 42, 49 or 32.
    pub fn number(self) -> u32
        ensures { result ≡ commit_number self }
    {
        match self {
            CommitFault::ClockFull => 40,
            CommitFault::LogFull => 41,
            CommitFault::NoMemory => 42,
            CommitFault::Twice => 49,
            CommitFault::AlreadySet => 32,
        }
    }

    /// Its number, a space and its name, as in the message of an ERROR frame.
    pub fn title(self) -> &'static [u8]
        ensures { result.now ≡ commit_title self }
    {
        match self {
            CommitFault::ClockFull => b"40 ClockFull".as_slice(),
            CommitFault::LogFull => b"41 LogFull".as_slice(),
            CommitFault::NoMemory => b"42 NoMemory".as_slice(),
            CommitFault::Twice => b"49 Twice".as_slice(),
            CommitFault::AlreadySet => b"32 AlreadySet".as_slice(),
        }
    }
}

impl From<ProposeFault> for CommitFault {
    ghost from_gives = { λ fault e. e ≡ commit_fault fault };

    /// The commit's fault for a topic's.
    fn from(fault: ProposeFault) -> CommitFault {
        match fault {
            ProposeFault::Twice => CommitFault::Twice,
            ProposeFault::ClockFull => CommitFault::ClockFull,
            ProposeFault::LogFull => CommitFault::LogFull,
            ProposeFault::NoMemory => CommitFault::NoMemory,
        }
    }
}
