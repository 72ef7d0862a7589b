//! Topics of a transaction that are shared.

use mcast_txn::TopicSet;
use std::marker::Model;
use std::sync::Arc;

/// A transaction's topics, which others have too: they aren't copied. In contracts it is their list.
#[derive(Drop)]
pub(crate) struct SharedTopics {
    pub(crate) topics: Arc<TopicSet>,
}

impl Model for SharedTopics {
    ghost use Rattle.std.specs.Prelude.{List};
    ghost use Rattle.std.specs.Arc.{arc_value};
    ghost use Rattle.mcast_txn.specs.declared.id.Topic.{Topic};

    ghost Value = { List Topic };

    ghost view = { λ s. arc_value s.topics };
}
