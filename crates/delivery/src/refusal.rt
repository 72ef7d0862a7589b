//! Why an event of the core has no effect.

ghost use Rattle.std.specs.Prelude.{◌≡◌};
ghost use Rattle.delivery.specs.Faults.{refusal_number, refusal_title};

use thiserror::Error;

/// Why an event has no effect. The checks stand in the order of each event's own list.
#[derive(Clone, Copy, Debug, PartialEq, Eq, Error)]
pub enum Refusal {
    /// 43: no part of this transaction is pending at the topic.
    #[error("43 NotPending: name a transaction that is pending at this topic")]
    NotPending,
    /// 48: there is no subscription of this number.
    #[error("48 NoSub: name a subscription that was answered")]
    NoSub,
    /// 51: the topic gave a ticket before.
    #[error("51 Twice: propose a transaction once at each of its topics")]
    Twice,
    /// 52: a named topic gave no ticket yet.
    #[error("52 Incomplete: propose the transaction at each of its topics first")]
    Incomplete,
    /// 79: the connection is open.
    #[error("79 NotLeaving: a connection leaves once it has disconnected, failed or is lost")]
    NotLeaving,
    /// 80: there is no such connection.
    #[error("80 NoConn: name a connection that was opened")]
    NoConn,
    /// 81: no frame is read while the connection is leaving or has an undecided transaction; one that is leaving
    /// can't be lost; and it isn't gone before its transaction was decided or withdrawn and all was cancelled.
    #[error("81 Busy: let the connection's transaction end first; nothing is read once it is leaving")]
    Busy,
    /// 82: the octets that the connection was fed hold no further frame yet.
    #[error("82 NoFrame: feed the rest of the frame first")]
    NoFrame,
    /// 83: the connection has no undecided transaction.
    #[error("83 NoFlight: read a frame that commits a transaction first")]
    NoFlight,
    /// 84: there is no such topic, or the transaction doesn't name it, or the connection has no ticket of it to cancel.
    #[error("84 NotNamed: name a topic that exists and that the transaction names")]
    NotNamed,
    /// 85: the transaction has no verdict.
    #[error("85 NotDecided: decide the transaction first")]
    NotDecided,
    /// 86: nothing is due.
    #[error("86 NothingDue: wait until something is released here")]
    NothingDue,
    /// 87: the connection is gone, or the subscription has ended.
    #[error("87 Gone: name a connection or a subscription that hasn't ended")]
    Gone,
    /// 88: a topic refused the transaction.
    #[error("88 Marked: withdraw the transaction, which a topic refused")]
    Marked,
    /// 89: no topic refused the transaction.
    #[error("89 NotMarked: decide the transaction; only one that a topic refused is withdrawn")]
    NotMarked,
}

impl Refusal {
    /// Its number, which its text begins with.
    pub fn number(self) -> u32
        ensures { result ≡ refusal_number self }
    {
        match self {
            Refusal::NotPending => 43,
            Refusal::NoSub => 48,
            Refusal::Twice => 51,
            Refusal::Incomplete => 52,
            Refusal::NotLeaving => 79,
            Refusal::NoConn => 80,
            Refusal::Busy => 81,
            Refusal::NoFrame => 82,
            Refusal::NoFlight => 83,
            Refusal::NotNamed => 84,
            Refusal::NotDecided => 85,
            Refusal::NothingDue => 86,
            Refusal::Gone => 87,
            Refusal::Marked => 88,
            Refusal::NotMarked => 89,
        }
    }

    /// Its number, a space and its name.
    pub fn title(self) -> &'static [u8]
        ensures { result.now ≡ refusal_title self }
    {
        match self {
            Refusal::NotPending => b"43 NotPending".as_slice(),
            Refusal::NoSub => b"48 NoSub".as_slice(),
            Refusal::Twice => b"51 Twice".as_slice(),
            Refusal::Incomplete => b"52 Incomplete".as_slice(),
            Refusal::NotLeaving => b"79 NotLeaving".as_slice(),
            Refusal::NoConn => b"80 NoConn".as_slice(),
            Refusal::Busy => b"81 Busy".as_slice(),
            Refusal::NoFrame => b"82 NoFrame".as_slice(),
            Refusal::NoFlight => b"83 NoFlight".as_slice(),
            Refusal::NotNamed => b"84 NotNamed".as_slice(),
            Refusal::NotDecided => b"85 NotDecided".as_slice(),
            Refusal::NothingDue => b"86 NothingDue".as_slice(),
            Refusal::Gone => b"87 Gone".as_slice(),
            Refusal::Marked => b"88 Marked".as_slice(),
            Refusal::NotMarked => b"89 NotMarked".as_slice(),
        }
    }
}
