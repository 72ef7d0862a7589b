//! Which topics a connection's transactions were proposed at.

ghost use Rattle.std.specs.Prelude.{◌≡◌, true};
ghost use Rattle.broker_server.specs.UnturnedTopics.{each_once, is_unturned, none_unturned};

use broker_locks::Point;
use mcast_txn::Topic;
use std::alloc::Global;
use std::marker::Model;

/// The topics at which a connection's transactions were proposed since they were turned, or their heads told.
#[derive(Drop)]
pub(crate) struct Unturned {
    topics: Vec<Topic>,
    /// Whether there was no memory for one.
    lost: bool,
}

impl Model for Unturned {
    ghost use Rattle.std.specs.Prelude.{◌≡◌, true};
    ghost use Rattle.broker_server.specs.UnturnedTopics.{UnturnedTopics, each_once};

    ghost Value = { UnturnedTopics };

    ghost view = { λ u. record { topics = u.topics.items; any = u.lost } };

    ghost invariant = { λ u. each_once u.topics.items ≡ true };
}

impl Unturned {
    /// None yet.
    pub(crate) fn new(alloc: Global) -> Unturned
        ensures { result ≡ none_unturned }
    {
        Unturned {
            topics: Vec::new(alloc),
            lost: false,
        }
    }

    /// These topics, each once.
    pub(crate) fn topics(&self) -> &[Topic]
        ensures all { result.now ≡ self.now.topics }
        ensures once { each_once result.now ≡ true }
    {
        self.topics.as_slice()
    }

    /// Whether any topic may be one of them, since there was no memory for one.
    pub(crate) fn may_be_any(&self) -> bool
        ensures { result ≡ self.now.any }
    {
        self.lost
    }

    /// They were turned, or their heads told.
    pub(crate) fn clear(&mut self)
        ensures { self.new ≡ none_unturned }
    {
        self.topics.clear();
        self.lost = false;
    }
}

/// Whether this topic is one of these.
fn is_unturned(topics: &[Topic], topic: Topic) -> bool
    ensures { result ≡ is_unturned topic topics.now }
{
    topics.iter().any(|other| other.0 == topic.0)
}

impl Point for Unturned {
    ghost use Rattle.broker_server.specs.UnturnedTopics.{AddsUnturned};

    ghost told = { λ old topic k new. AddsUnturned old topic new };

    /// Adds the topic. A proposal that is then refused adds it too: cancelling what was proposed may leave another part
    /// the least.
    #[tactic(auto, using(crate::proofs::UnturnedLemmas::once_behind))]
    fn before(&mut self, topic: Topic, _k: usize) {
        if is_unturned(self.topics.as_slice(), topic) {
            return;
        }
        if self.topics.push(topic).is_err() {
            self.lost = true;
        }
    }
}
