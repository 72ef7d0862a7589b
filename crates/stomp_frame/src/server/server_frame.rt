//! The frames that a server sends.

ghost use Rattle.std.specs.Prelude.{◌≡◌, [], IfOk};
ghost use Rattle.stomp_frame.specs.ServerFrames.{raw_of_server, IsRenderable};
ghost use Rattle.stomp_frame.specs.Writing.{IsWritable};

use crate::command::Command;
use crate::headers::Headers;
use crate::raw_frame::RawFrame;
use crate::server::server_headers::{
    connected_headers, error_headers, message_headers, message_id, receipt_headers,
};
use std::alloc::Global;
use stomp_escape::{NoMemory, Octets};

/// A frame that a server sends (STOMP 1.2, "Server Frames"). It borrows what it is made of: texts, and a SEND's headers
/// and body.
#[derive(Clone, Copy)]
pub enum ServerFrame<'a> {
    /// The answer to a CONNECT: version 1.2, and no heart-beats (STOMP 1.2, "CONNECTED Frame").
    Connected,
    /// A SEND as a subscriber gets it (STOMP 1.2, "MESSAGE").
    Message {
        /// The subscription's id.
        subscription: &'a [u8],
        /// The number of the message's stamp.
        n: u64,
        /// The topic of the message's stamp.
        topic: u32,
        /// The SEND's index in its transaction, from 0.
        index: u32,
        /// The headers of the SEND.
        headers: &'a Headers,
        /// The body of the SEND.
        body: &'a [u8],
    },
    /// The report that a client's frame has had its effect (STOMP 1.2, "RECEIPT").
    Receipt {
        /// The receipt that the frame asked for.
        id: &'a [u8],
    },
    /// The last frame of a connection that went wrong (STOMP 1.2, "ERROR").
    Error {
        /// What went wrong: a number, a space and a name.
        message: &'a [u8],
        /// The receipt that the faulty frame asked for.
        receipt: Option<&'a [u8]>,
        /// Whether the frame says which version is supported.
        version: bool,
    },
}

/// The raw frame of a server's frame (STOMP 1.2, "Server Frames"), which can be written. A MESSAGE has
/// subscription, message-id (the numbers of the stamp, of its topic and of the index, with dots
/// between them), the SEND's first destination where it has one, content-length, and then the first
/// entry of each other header of the SEND, without transaction, receipt and ack. An ERROR has message,
/// receipt-id and version where there are such, and content-length 0.
pub fn render(alloc: Global, frame: &ServerFrame) -> Result<RawFrame, NoMemory>
    requires { IsRenderable frame.now }
    ensures value { IfOk result (λ f. f ≡ raw_of_server frame.now) }
    ensures writable { IfOk result (λ f. IsWritable f) }
{
    macro_rules! frames {
        ($($command:ident $fields:tt => [$headers:expr, $body:expr];)*) => {
            match frame {
                $(ServerFrame::$command $fields => Ok(RawFrame {
                    command: Command::$command,
                    headers: $headers,
                    body: $body,
                }),)*
            }
        };
    }
    frames! {
        Connected {} => [connected_headers(alloc)?, Octets::new(alloc)];
        Message { subscription, n, topic, index, headers, body } => [
            {
                let id = message_id(alloc, *n, *topic, *index)?;
                message_headers(alloc, subscription, id.as_slice(), headers, body.len())?
            },
            Octets::from_slice(alloc, body)?
        ];
        Receipt { id } => [receipt_headers(alloc, id)?, Octets::new(alloc)];
        Error { message, receipt, version } => [
            error_headers(alloc, message, *receipt, *version)?,
            Octets::new(alloc)
        ];
    }
}
