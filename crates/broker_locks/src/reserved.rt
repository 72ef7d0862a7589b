//! Room that is reserved.

ghost use Rattle.std.specs.Prelude.{◌≡◌, ◌∷◌, ◌++◌, [], drop, take, IfSome, OnOk, OnErr, slice_get};
ghost use Rattle.std.specs.List.{remove};

use mcast_txn::{NoMemory, Topic};
use smallvec::SmallVec;
use std::alloc::Global;
use std::marker::Model;

/// Room that is reserved for one part at each of these topics, as often as the topic is listed. It can't be let go of:
/// `Broker::commit_reserved` or `Broker::release_room` takes it, so that no room stays reserved for nobody. In
/// contracts it is the list of the topics. One or two of them take no memory.
pub struct Reserved {
    topics: SmallVec<Topic, 2>,
    /// So many of them, the first, are used up.
    used: usize,
}

impl Model for Reserved {
    ghost use Rattle.std.specs.Prelude.{◌≤◌, List, drop, length};
    ghost use Rattle.mcast_txn.specs.declared.id.Topic.{Topic};

    ghost Value = { List Topic };

    ghost view = { λ r. drop r.used r.topics.items };

    ghost invariant = { λ r. r.used ≤ length r.topics.items };
}

impl Reserved {
    /// At no topic. It takes no memory.
    pub(crate) fn none(alloc: Global) -> Reserved
        ensures { result ≡ [] }
    {
        Reserved {
            topics: SmallVec::new(alloc),
            used: 0,
        }
    }

    /// The topics, in the order in which room was reserved there.
    pub fn topics(&self) -> &[Topic]
        ensures { result.now ≡ self.now }
    {
        &self.topics.as_slice()[self.used..]
    }

    /// The topics behind so many.
    pub(crate) fn behind(&self, kept: usize) -> &[Topic]
        ensures { result.now ≡ drop kept self.now }
    {
        let topics = self.topics();
        &topics[kept.min(topics.len())..]
    }

    /// At this topic too, behind the others.
    pub(crate) fn push(&mut self, topic: Topic) -> Result<(), NoMemory>
        ensures ok { OnOk result (self.new ≡ self.old ++ topic ∷ []) }
        ensures err { OnErr result (self.new ≡ self.old) }
    {
        self.topics.push(topic)?;
        Ok(())
    }

    /// At the first so many alone: the caller gave it back at those behind them, or took none there.
    pub(crate) fn truncate(&mut self, kept: usize)
        ensures { self.new ≡ take kept self.old }
    {
        if kept < self.topics.len() - self.used {
            self.topics.truncate(self.used + kept);
        }
    }

    /// The index of this topic among them, if it is one.
    pub(crate) fn index_of(&self, topic: Topic) -> Option<usize>
        ensures { IfSome result (λ index. slice_get self.now index ≡ Some topic) }
    {
        self.topics().iter().position(|other| *other == topic)
    }

    /// What is reserved at the topic of this index is used up.
    #[inline(always)]
    pub(crate) fn use_up(&mut self, index: usize)
        ensures { self.new ≡ remove self.old index }
    {
        if index >= self.topics.len() - self.used {
            return;
        }
        if index == 0 {
            self.used += 1;
        } else {
            self.topics.remove(self.used + index);
        }
    }

    /// Nothing is reserved any more: the caller gave it back at each of them.
    pub(crate) fn close(self) {
        let Reserved { topics, used: _ } = self;
        drop(topics);
    }
}
