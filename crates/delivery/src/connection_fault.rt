//! Why a connection ends by an ERROR.

ghost use Rattle.std.specs.Prelude.{◌≡◌};
ghost use Rattle.std.specs.Option.{option_map};
ghost use Rattle.delivery.specs.Core.Output.{offers_ours, says_version};
ghost use Rattle.delivery.specs.Faults.{connection_number, connection_title};

use stomp_frame::{CaseFault, Check, RawFrame, RequiredHeader};
use stomp_session::{SessionFault, has_version};
use thiserror::Error;

/// Why a connection ends by an ERROR. That of a transaction which a topic refused isn't among these: its outcome is the
/// refused proposal's.
#[derive(Clone, Copy, Debug, PartialEq, Eq, Error)]
pub enum ConnectionFault {
    /// 1 to 10: what it was fed fails this check of the reader.
    #[error("the stream can't be read on: send frames as STOMP 1.2 has them, and connect again")]
    Stream(Check),
    /// 20 to 23: the frame isn't one that a client may send.
    #[error("the frame isn't a client's: send what the command's section of STOMP 1.2 requires")]
    Frame(CaseFault),
    /// 60 to 66, 68 to 71, 75 and 76: the session refuses the frame. 72: the frame found no memory, in the session, at
    /// its topic or for its sender.
    #[error("the frame is refused as the session stands: see its own fault, and connect again")]
    Session(SessionFault),
    /// 77: the sender of a CONNECT's client-id is spoken for by another connection, which isn't gone.
    #[error("77 SenderInUse: another connection has this client-id; connect again once it is gone")]
    SenderInUse,
    /// 78: a CONNECT has a client-id that isn't kept where 65,536 are, or would begin a sender where no number is left.
    #[error("78 TooManyClients: no more client-ids are kept; connect with one that is, or without")]
    TooManyClients,
    /// 74: the subscription's queue was full when an item was due, and all that it had accepted was delivered.
    #[error("74 Lagged: take from the subscription's queue before it is full; subscribe again")]
    Lagged,
    /// 72: the reader found no memory, so no frame was read.
    #[error("72 NoMemory: out of memory before a frame was read; connect again")]
    ReaderNoMemory,
}

/// Whether the client of this CONNECT offers our version.
fn offers_ours(frame: &RawFrame) -> bool
    ensures { result ≡ offers_ours frame.now }
{
    match frame.headers.first(b"accept-version") {
        Some(versions) => has_version(b"1.2", versions),
        None => false,
    }
}

impl ConnectionFault {
    /// Its number: 1 to 10, 20 to 23, 60 to 66, 68 to 72 or 74 to 78.
    pub fn number(self) -> u32
        ensures { result ≡ connection_number self }
    {
        match self {
            ConnectionFault::Stream(check) => check.fault().number(),
            ConnectionFault::Frame(fault) => fault.number(),
            ConnectionFault::Session(fault) => fault.number(),
            ConnectionFault::SenderInUse => 77,
            ConnectionFault::TooManyClients => 78,
            ConnectionFault::Lagged => 74,
            ConnectionFault::ReaderNoMemory => 72,
        }
    }

    /// Its number, a space and its name, as in the message of the ERROR.
    pub fn title(self) -> &'static [u8]
        ensures { result.now ≡ connection_title self }
    {
        match self {
            ConnectionFault::Stream(check) => check.fault().title(),
            ConnectionFault::Frame(fault) => fault.title(),
            ConnectionFault::Session(fault) => fault.title(),
            ConnectionFault::SenderInUse => b"77 SenderInUse".as_slice(),
            ConnectionFault::TooManyClients => b"78 TooManyClients".as_slice(),
            ConnectionFault::Lagged => b"74 Lagged".as_slice(),
            ConnectionFault::ReaderNoMemory => b"72 NoMemory".as_slice(),
        }
    }

    /// Whether its ERROR says which version is supported: where the client's have none in common with ours (STOMP 1.2,
    /// "Protocol Negotiation"), also where a CONNECT lacks what those since 1.1 have. It is of this frame, if one was
    /// read.
    pub fn says_version(self, read: Option<&RawFrame>) -> bool
        ensures { result ≡ says_version (option_map (λ f. f.now) read.entry) self }
    {
        match self {
            ConnectionFault::Session(SessionFault::NoVersion) => true,
            ConnectionFault::Frame(CaseFault::Missing(RequiredHeader::AcceptVersion)) => true,
            ConnectionFault::Frame(CaseFault::Missing(RequiredHeader::Host)) => match read {
                Some(frame) => !offers_ours(frame),
                None => false,
            },
            _ => false,
        }
    }
}
