//! A transaction whose SENDs are all there.

ghost use Rattle.std.specs.Prelude.{◌≡◌, ◌<◌, ◌≤◌, ◌∷◌, ◌-◌, ◌^◌, [], length, min, vec_capacity, IfOk, IfErr};
ghost use Rattle.std.specs.Arc.{arc_value};
ghost use Rattle.mcast_txn.specs.Flight.{flight_id};
ghost use Rattle.mcast_txn.specs.Part.{parts_of};
ghost use Rattle.mcast_txn.specs.TopicSet.{IsTopicSet};
ghost use Rattle.mcast_txn.specs.Inner.Sealed.{IsSealed};
ghost use Rattle.mcast_txn.specs.Inner.SealedSends.{all_sends};
ghost use Rattle.mcast_txn.specs.Transaction.{is_light, octets_at, topics_of, weight};

use crate::charge::Charge;
use crate::draft::sealed_sends::{LIGHT, SealedSends, is_one_light, weight_of};
use crate::draft::{SentMessage, TopicSet};
use crate::flight::Flight;
use crate::id::Topic;
use crate::parts::Parts;
use std::alloc::Global;
use std::marker::Model;
use std::sync::Arc;
use stomp_frame::{Headers, NoMemory, Octets};

/// A transaction that is committed (STOMP 1.2, "COMMIT"): its SENDs, at least one. In contracts it is their list, in
/// order.
pub struct Txn {
    sends: SealedSends,
    topics: Arc<TopicSet>,
    /// What it is counted as from now on, if it is. No contract speaks of it.
    charge: Option<Arc<Charge>>,
}

impl Drop for Txn {
    /// Written out, so that letting a transaction go is one call for the prover wherever it happens.
    fn drop(self) {
        let Txn {
            sends,
            topics,
            charge,
        } = self;
        drop(sends);
        drop(topics);
        drop(charge);
    }
}

impl Model for Txn {
    ghost use Rattle.std.specs.Prelude.{List};
    ghost use Rattle.mcast_txn.specs.declared.draft.sent_message.SentMessage.{SentMessage};
    ghost use Rattle.mcast_txn.specs.Inner.Sealed.{IsSealed};
    ghost use Rattle.mcast_txn.specs.Inner.SealedSends.{all_sends};

    ghost Value = { List SentMessage };

    ghost view = { λ t. all_sends t.sends };

    ghost invariant = { λ t. IsSealed t.sends t.topics.value };
}

impl Txn {
    /// The transaction of these SENDs, to these topics.
    pub(crate) fn of(sends: SealedSends, topics: Arc<TopicSet>) -> Txn
        requires { IsSealed sends topics.value }
        ensures { result ≡ all_sends sends }
    {
        Txn {
            sends,
            topics,
            charge: None,
        }
    }

    /// The transaction of one SEND, as we make of each SEND outside a transaction. Out of memory, its headers and body
    /// are returned.
    pub fn single(
        alloc: Global,
        topic: Topic,
        headers: Headers,
        body: Octets,
    ) -> Result<Txn, (Headers, Octets, NoMemory)>
        ensures ok { IfOk result
            (λ txn. txn ≡ record { topic = topic; headers = headers; body = body } ∷ []) }
        ensures back { IfErr result (λ refused. (refused.0 ≡ headers) × (refused.1 ≡ body)) }
    {
        let Ok(topics) = one_topic(alloc, topic) else {
            return Err((headers, body, NoMemory));
        };
        let send = SentMessage {
            topic,
            headers,
            body,
        };
        Ok(Txn::of(SealedSends::One(send), topics))
    }

    /// Its topics: the destinations of its SENDs.
    pub fn topics(&self) -> &TopicSet
        ensures value { result.now ≡ topics_of self.now }
        ensures rising { IsTopicSet result.now }
    {
        &self.topics
    }

    /// Its topics, shared: they aren't copied.
    pub fn share_topics(&self) -> Result<Arc<TopicSet>, NoMemory>
        ensures { IfOk result (λ topics. arc_value topics ≡ topics_of self.now) }
    {
        Ok(self.topics.clone()?)
    }

    /// Its parts, each of which has this flight. Out of memory, the transaction is returned.
    pub fn split(self, alloc: Global, flight: &Arc<Flight>) -> Result<Parts, (Txn, NoMemory)>
        ensures parts { IfOk result
            (λ parts. parts.slots ≡ parts_of (flight_id (arc_value flight.now)) self) }
        ensures flight { IfOk result (λ parts. parts.flight ≡ arc_value flight.now) }
        ensures back { IfErr result (λ refused. refused.0 ≡ self) }
    {
        let Txn {
            sends,
            topics,
            charge: _,
        } = self;
        match sends {
            SealedSends::One(send) => match Parts::of_one(alloc, flight, topics, send) {
                Ok(parts) => Ok(parts),
                Err((topics, send)) => Err((Txn::of(SealedSends::One(send), topics), NoMemory)),
            },
            SealedSends::Many(sends, weight) => match Parts::of(alloc, flight, &topics, &sends) {
                Ok(parts) => Ok(parts),
                Err(NoMemory) => {
                    let sends = SealedSends::Many(sends, weight);
                    Err((Txn::of(sends, topics), NoMemory))
                }
            },
        }
    }

    /// How many octets its SENDs to this topic have: their bodies, and the names and values of their headers. 2^64 - 1
    /// where they have more.
    #[inline(always)]
    pub fn octets_at(&self, topic: Topic) -> u64
        ensures { result ≡ min (octets_at topic self.now) (2 ^ 64 - 1) }
    {
        self.sends.octets_at(topic)
    }

    /// What it weighs: its SENDs' octets, and 128 for each of them and of their headers. 2^64 - 1 where it weighs more.
    pub fn weight(&self) -> u64
        ensures { result ≡ min (weight self.now) (2 ^ 64 - 1) }
    {
        match &self.sends {
            SealedSends::One(send) => weight_of(&send.headers, &send.body),
            SealedSends::Many(_, weight) => *weight,
        }
    }

    /// Whether it is light, so that what it weighs is counted with others: it weighs less than 32,768; of a single SEND its body has
    /// fewer octets than that, where 4,224 are taken for each of its headers.
    pub fn is_light(&self) -> bool
        ensures { result ≡ is_light self.now }
    {
        match &self.sends {
            SealedSends::One(send) => is_one_light(&send.headers, &send.body),
            SealedSends::Many(sends, weight) => match sends.as_slice() {
                [send] => is_one_light(&send.message.headers, &send.message.body),
                _ => *weight < LIGHT,
            },
        }
    }

    /// It is counted so from now on, until the last of its parts is let go.
    pub fn put_charge(&mut self, charge: Arc<Charge>)
        ensures { self.new ≡ self.old }
    {
        self.charge = Some(charge);
    }

    /// What it is counted as, which is taken out, if it is.
    pub fn take_charge(&mut self) -> Option<Arc<Charge>>
        ensures { self.new ≡ self.old }
    {
        self.charge.take()
    }

    /// How many SENDs it has, at least one.
    pub fn len(&self) -> usize
        ensures value { result ≡ length self.now }
        ensures some { 0 < result }
    {
        self.sends.len()
    }
}

/// One topic, shared.
fn one_topic(alloc: Global, topic: Topic) -> Result<Arc<TopicSet>, NoMemory>
    ensures { IfOk result (λ topics. topics.value ≡ topic ∷ []) }
{
    Ok(Arc::new(alloc, TopicSet::one(alloc, topic)?)?)
}
