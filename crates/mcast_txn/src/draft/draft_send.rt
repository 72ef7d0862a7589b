//! A SEND as a draft stores it.

ghost use Rattle.std.specs.Prelude.{◌≡◌, IfOk, IfErr};
ghost use Rattle.mcast_txn.specs.Inner.DraftSends.{message_of};

use crate::id::Topic;
use crate::parts::PartMessage;
use std::alloc::{AllocFailed, Global};
use std::sync::Arc;
use stomp_frame::{Headers, NoMemory, Octets};

/// A SEND with the topic of its destination. It is shared, so that the transaction's part takes it without a copy.
#[derive(Drop)]
pub(crate) struct DraftSend {
    pub(crate) topic: Topic,
    pub(crate) message: Arc<PartMessage>,
}

impl DraftSend {
    /// A SEND as a draft stores it. Out of memory, its headers and body are returned.
    pub(crate) fn new(
        alloc: Global,
        topic: Topic,
        index: u32,
        headers: Headers,
        body: Octets,
    ) -> Result<DraftSend, (Headers, Octets, NoMemory)>
        ensures message { IfOk result
            (λ send. message_of send ≡ record { topic = topic; headers = headers; body = body }) }
        ensures index { IfOk result (λ send. send.message.value.index ≡ index) }
        ensures back { IfErr result (λ refused. (refused.0 ≡ headers) × (refused.1 ≡ body)) }
    {
        let message = PartMessage {
            index,
            headers,
            body,
        };
        match Arc::new(alloc, message) {
            Ok(message) => Ok(DraftSend { topic, message }),
            Err(refused) => {
                let AllocFailed {
                    value: PartMessage {
                        index: _,
                        headers,
                        body,
                    },
                } = refused;
                Err((headers, body, NoMemory))
            }
        }
    }
}
