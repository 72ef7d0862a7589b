//! Why a connection ends by an ERROR.

ghost use Rattle.std.specs.Prelude.{◌≡◌};
ghost use Rattle.std.specs.Option.{option_map};
ghost use Rattle.broker_server.specs.ConversationFaults.{conversation_title, fault_of_reader, tells_version};
ghost use Rattle.broker_server.specs.declared.conversation.conversation_fault.ConversationFault.TheVariants as faults;

use broker_locks::CommitFault;
use delivery::ConnectionFault;
use mcast_group::SubFault;
use mcast_txn::Topic;
use sender_gate::{ClaimFault, GateFault};
use stomp_frame::{CaseFault, Check, FrameFault, NoMemory, RawFrame};
use stomp_session::SessionFault;

/// Why a connection of the server ends by an ERROR.
#[derive(Clone, Copy, Debug, PartialEq, Eq)]
pub enum ConversationFault {
    /// What came can't be read on, isn't a client's frame, or is refused by the session.
    Connection(ConnectionFault),
    /// The sender of the CONNECT can't be claimed: 77 or 78; 55 is told as 72.
    Claim(ClaimFault),
    /// The sender can't begin the transaction: 53 and 55, told as 72.
    Begin(GateFault),
    /// The broker refuses the transaction: 40, 41 or 42; 49 and 32 are told as 72.
    Commit(CommitFault),
    /// The broker refuses the subscription: 47 and 42, told as 72.
    Subscribe(SubFault),
    /// 74: a subscription has lagged, and all that it had accepted was sent.
    Lagged {
        /// The subscription's topic.
        topic: Topic,
        /// How many items were taken of its queue since that was last seen empty.
        items: u64,
    },
    /// 72: there was no memory for what a frame asks for, which had no effect.
    NoMemory,
    /// 72: there was no memory for a reply, or for a MESSAGE of an item, of which those before it are out.
    NoReply,
}

impl ConversationFault {
    /// Its number, a space and its name, as in the message of the ERROR.
    pub fn title(self) -> &'static [u8]
        ensures { result.now ≡ conversation_title self }
    {
        match self {
            ConversationFault::Connection(fault) => fault.title(),
            ConversationFault::Claim(ClaimFault::SenderInUse) => b"77 SenderInUse".as_slice(),
            ConversationFault::Claim(ClaimFault::TooManyClients) => b"78 TooManyClients".as_slice(),
            ConversationFault::Commit(CommitFault::ClockFull) => CommitFault::ClockFull.title(),
            ConversationFault::Commit(CommitFault::LogFull) => CommitFault::LogFull.title(),
            ConversationFault::Commit(CommitFault::NoMemory) => CommitFault::NoMemory.title(),
            ConversationFault::Lagged { .. } => b"74 Lagged".as_slice(),
            _ => b"72 NoMemory".as_slice(),
        }
    }

    /// Whether its ERROR says which version is supported, where it is a fault of this frame, if one was read.
    pub(crate) fn says_version(self, read: Option<&RawFrame>) -> bool
        ensures { result ≡ tells_version (option_map (λ f. f.now) read.entry) self }
    {
        match self {
            ConversationFault::Connection(fault) => fault.says_version(read),
            _ => false,
        }
    }

    /// A reader's fault, as that of its connection.
    pub(crate) fn of_reader(fault: FrameFault) -> ConversationFault
        ensures { result ≡ fault_of_reader fault }
    {
        ConversationFault::Connection(match fault {
            FrameFault::BadCommand => ConnectionFault::Stream(Check::BadCommand),
            FrameFault::BadLine => ConnectionFault::Stream(Check::BadLine),
            FrameFault::BadHeader => ConnectionFault::Stream(Check::BadHeader),
            FrameFault::BadEscape => ConnectionFault::Stream(Check::BadEscape),
            FrameFault::BadText => ConnectionFault::Stream(Check::BadText),
            FrameFault::BadLength => ConnectionFault::Stream(Check::BadLength),
            FrameFault::BadEnd => ConnectionFault::Stream(Check::BadEnd),
            FrameFault::LineTooLong => ConnectionFault::Stream(Check::LineTooLong),
            FrameFault::TooManyHeaders => ConnectionFault::Stream(Check::TooManyHeaders),
            FrameFault::BodyTooLong => ConnectionFault::Stream(Check::BodyTooLong),
            FrameFault::NoMemory => ConnectionFault::ReaderNoMemory,
        })
    }
}

impl From<NoMemory> for ConversationFault {
    ghost from_gives = { λ _ e. e ≡ faults.NoMemory };

    /// The fault where there is no memory.
    fn from(_e: NoMemory) -> ConversationFault {
        ConversationFault::NoMemory
    }
}

impl From<CaseFault> for ConversationFault {
    ghost use Rattle.delivery.specs.declared.connection_fault.ConnectionFault.TheVariants as connection;

    ghost from_gives = { λ fault e. e ≡ faults.Connection (connection.Frame fault) };

    /// The fault of a frame that isn't a client's.
    fn from(fault: CaseFault) -> ConversationFault {
        ConversationFault::Connection(ConnectionFault::Frame(fault))
    }
}

impl From<SessionFault> for ConversationFault {
    ghost use Rattle.delivery.specs.declared.connection_fault.ConnectionFault.TheVariants as connection;

    ghost from_gives = { λ fault e. e ≡ faults.Connection (connection.Session fault) };

    /// The fault of a frame that the session refuses.
    fn from(fault: SessionFault) -> ConversationFault {
        ConversationFault::Connection(ConnectionFault::Session(fault))
    }
}
