//! A connection's open subscription.

use crate::conversation::broker_calls::BrokerCalls;
use crate::conversation::item_rest::ItemRest;
use mcast_txn::Topic;
use std::marker::Model;
use stomp_frame::Octets;

/// A connection's open subscription. In contracts it is its id, whether it asked for parts, which one of the broker it
/// is, how many more items are to be taken before it can have lagged, whether the broker said that it has, and the
/// MESSAGEs that aren't written yet of the item that was taken last.
#[derive(Drop)]
pub(crate) struct OpenSub<C: BrokerCalls> {
    /// The id that its SUBSCRIBE gave it.
    pub(crate) id: Octets,
    /// Whether its SUBSCRIBE asked for parts.
    pub(crate) parts: bool,
    pub(crate) topic: Topic,
    pub(crate) sub: C::Sub,
    /// How many items were taken since its queue was seen empty.
    pub(crate) run: u64,
    /// How many more are to be taken before it can have lagged: at first, and once its queue was seen empty, as many as
    /// that holds.
    pub(crate) until_lag: u64,
    /// Whether the broker said that it has lagged: what is left of its queue is taken, and then the connection ends.
    pub(crate) lagged: bool,
    /// What isn't written yet of the item that was taken last, if something isn't.
    pub(crate) rest: Option<ItemRest>,
}

impl<C: BrokerCalls> Model for OpenSub<C> {
    ghost use Rattle.broker_server.specs.Conversations.{OpenSubState, unwritten};

    ghost Value = { OpenSubState };

    ghost view = { λ o. record {
      id = o.id;
      parts = o.parts;
      sub = C.name o.sub;
      until_lag = o.until_lag;
      lagged = o.lagged;
      left = unwritten o.parts o.id o.rest;
    } };
}
