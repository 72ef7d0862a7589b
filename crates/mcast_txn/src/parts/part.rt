//! A transaction's part at a topic.

ghost use Rattle.std.specs.Prelude.{◌≡◌, ◌∷◌, [], IfErr, IfOk, OnOk};
ghost use Rattle.std.specs.Arc.{arc_value};
ghost use Rattle.mcast_txn.specs.Flight.{flight_id};
ghost use Rattle.mcast_txn.specs.Part.{data_of, flight_of_part};

use crate::draft::TopicSet;
use crate::flight::Flight;
use crate::id::{Topic, TxnId};
use crate::parts::{PartMessage, PartSends};
use std::alloc::Global;
use std::sync::Arc;
use stomp_frame::NoMemory;

/// A transaction's part at a topic: its SENDs to that topic, with what the topic must know of the whole.
#[derive(Drop)]
pub struct Part {
    pub topic: Topic,
    /// All topics of the transaction.
    pub topics: Arc<TopicSet>,
    pub sends: PartSends,
    /// The transaction's own flight.
    pub flight: Arc<Flight>,
}

impl Part {
    /// The transaction.
    pub fn id(&self) -> TxnId
        ensures { result ≡ (data_of self.now).id }
    {
        self.flight.id()
    }

    /// The flight's part at a topic.
    #[inline(always)]
    pub(crate) fn at(
        alloc: Global,
        flight: &Arc<Flight>,
        topics: &Arc<TopicSet>,
        topic: Topic,
        sends: PartSends,
    ) -> Result<Arc<Part>, NoMemory>
        ensures data { IfOk result (λ part. data_of (arc_value part)
            ≡ record {
              id = flight_id (arc_value flight.now);
              topic = topic;
              topics = arc_value topics.now;
              sends = sends;
            }) }
        ensures own { IfOk result (λ part. flight_of_part (arc_value part) ≡ arc_value flight.now) }
    {
        let part = Part {
            topic,
            topics: topics.clone()?,
            sends,
            flight: flight.clone()?,
        };
        Ok(Arc::new(alloc, part)?)
    }

    /// Has the part that nobody else has yet this SEND alone; where somebody has it, the SEND is returned.
    pub(crate) fn put_one(part: &mut Arc<Part>, send: PartMessage) -> Result<(), PartMessage>
        ensures data { OnOk result (data_of (arc_value part.new)
            ≡ record (data_of (arc_value part.old)) { sends = send ∷ [] }) }
        ensures own { flight_of_part (arc_value part.new) ≡ flight_of_part (arc_value part.old) }
        ensures back { IfErr result (λ refused. refused ≡ send) }
    {
        match Arc::get_mut(part) {
            Some(part) => {
                part.sends = PartSends::one(send);
                Ok(())
            }
            None => Err(send),
        }
    }
}
