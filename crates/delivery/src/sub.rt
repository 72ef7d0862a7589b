//! Subscriptions of the core.

use mcast_group::Ended;
use mcast_txn::{Stamp, Topic};
use std::marker::Model;
use stomp_frame::Octets;
use sub_queue::VecOutlet;

/// A subscription: its connection, its id there, whether it asked for parts, its topic, the stamp after which its span
/// begins, and what it left if it was closed. Until then its queue is at its topic.
#[derive(Drop)]
pub(crate) struct Sub {
    pub(crate) connection: u64,
    pub(crate) id: Octets,
    pub(crate) parts: bool,
    pub(crate) topic: Topic,
    pub(crate) from: Stamp,
    pub(crate) left: Option<Ended<VecOutlet>>,
}

impl Model for Sub {
    ghost use Rattle.std.specs.Option.{option_map};
    ghost use Rattle.delivery.specs.Inner.View.{SubView, left_of};

    ghost Value = { SubView };

    ghost view = { λ s. record {
      connection = s.connection;
      id = s.id;
      parts = s.parts;
      topic = s.topic;
      from = s.from;
      left = option_map left_of s.left;
    } };
}
