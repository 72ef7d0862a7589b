//! Why a session refuses a frame.

ghost use Rattle.std.specs.Prelude.{◌≡◌};
ghost use Rattle.stomp_session.specs.Faults.{number_of, session_title};
ghost use Rattle.stomp_session.specs.declared.fault.SessionFault.TheVariants as faults;

use stomp_frame::NoMemory;
use thiserror::Error;

/// Why a session refuses a frame; any but `Closed` closes it.
#[derive(Clone, Copy, Debug, PartialEq, Eq, Error)]
pub enum SessionFault {
    /// 60: another frame than CONNECT or STOMP comes first.
    #[error("60 NotConnected: begin with a CONNECT")]
    NotConnected,
    /// 61: a CONNECT came before.
    #[error("61 AlreadyConnected: send one CONNECT in a connection")]
    AlreadyConnected,
    /// 62: accept-version doesn't have 1.2.
    #[error("62 NoVersion: this server speaks STOMP 1.2 alone; name it in accept-version")]
    NoVersion,
    /// 63: a subscription of this id is open.
    #[error("63 SubIdInUse: give each open subscription an id of its own")]
    SubIdInUse,
    /// 64: no subscription of this id is open.
    #[error("64 NoSuchSub: unsubscribe with the id of an open subscription")]
    NoSuchSub,
    /// 65: a transaction of this name is open.
    #[error("65 TxnInUse: give each open transaction a name of its own")]
    TxnInUse,
    /// 66: no transaction of this name is open.
    #[error("66 NoSuchTxn: begin the transaction first")]
    NoSuchTxn,
    /// 68: an ack other than auto.
    #[error("68 AckMode: subscribe with ack:auto, or without ack")]
    AckMode,
    /// 69: 64 subscriptions are open.
    #[error("69 TooManySubs: at most 64 subscriptions are open in a connection")]
    TooManySubs,
    /// 70: 64 transactions are open.
    #[error("70 TooManyTxns: at most 64 transactions are open in a connection")]
    TooManyTxns,
    /// 71: the transaction has 64 SENDs.
    #[error("71 TooManySends: a transaction has at most 64 SENDs")]
    TooManySends,
    /// 72: there was no memory for a SUBSCRIBE, a BEGIN, a SEND, or a COMMIT of a transaction with SENDs; the frame
    /// had no effect, and the session is closed.
    #[error("72 NoMemory: out of memory for the frame; connect again")]
    NoMemory,
    /// 73: the session is closed.
    #[error("73 Closed: the session has ended; connect again")]
    Closed,
    /// 75: the destination is no topic, and there are 1,024 topics.
    #[error("75 TooManyTopics: at most 1,024 topics are made; name one that is there")]
    TooManyTopics,
    /// 76: the destination is no topic, and can't be the name of one.
    #[error("76 BadDestination: name a topic with octets from 33 to 126 alone, at least one")]
    BadDestination,
}

impl SessionFault {
    /// Its number: 60 to 66, 68 to 73, 75 or 76.
    pub fn number(self) -> u32
        ensures { result ≡ number_of self }
    {
        match self {
            SessionFault::NotConnected => 60,
            SessionFault::AlreadyConnected => 61,
            SessionFault::NoVersion => 62,
            SessionFault::SubIdInUse => 63,
            SessionFault::NoSuchSub => 64,
            SessionFault::TxnInUse => 65,
            SessionFault::NoSuchTxn => 66,
            SessionFault::AckMode => 68,
            SessionFault::TooManySubs => 69,
            SessionFault::TooManyTxns => 70,
            SessionFault::TooManySends => 71,
            SessionFault::NoMemory => 72,
            SessionFault::Closed => 73,
            SessionFault::TooManyTopics => 75,
            SessionFault::BadDestination => 76,
        }
    }

    /// Its number, a space and its name, as in the message of an ERROR frame.
    pub fn title(self) -> &'static [u8]
        ensures { result.now ≡ session_title self }
    {
        match self {
            SessionFault::NotConnected => b"60 NotConnected".as_slice(),
            SessionFault::AlreadyConnected => b"61 AlreadyConnected".as_slice(),
            SessionFault::NoVersion => b"62 NoVersion".as_slice(),
            SessionFault::SubIdInUse => b"63 SubIdInUse".as_slice(),
            SessionFault::NoSuchSub => b"64 NoSuchSub".as_slice(),
            SessionFault::TxnInUse => b"65 TxnInUse".as_slice(),
            SessionFault::NoSuchTxn => b"66 NoSuchTxn".as_slice(),
            SessionFault::AckMode => b"68 AckMode".as_slice(),
            SessionFault::TooManySubs => b"69 TooManySubs".as_slice(),
            SessionFault::TooManyTxns => b"70 TooManyTxns".as_slice(),
            SessionFault::TooManySends => b"71 TooManySends".as_slice(),
            SessionFault::NoMemory => b"72 NoMemory".as_slice(),
            SessionFault::Closed => b"73 Closed".as_slice(),
            SessionFault::TooManyTopics => b"75 TooManyTopics".as_slice(),
            SessionFault::BadDestination => b"76 BadDestination".as_slice(),
        }
    }
}

impl From<NoMemory> for SessionFault {
    ghost from_gives = { λ _ fault. fault ≡ faults.NoMemory };

    /// The fault where there is no memory.
    fn from(_e: NoMemory) -> SessionFault {
        SessionFault::NoMemory
    }
}
