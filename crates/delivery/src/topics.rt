//! The topics that a core begins with.

ghost use Rattle.std.specs.Prelude.{◌≡◌, ◌≢◌, ◌↔◌, ◌<◌, ◌≤◌, ◌++◌, ◌∷◌, [], false, IsTrue, length, slice_get, Some, OnOk, OnErr};
ghost use Rattle.stomp_session.specs.Names.{is_known};
ghost use Rattle.delivery.specs.Topics.{TopicList, no_topics, max_topics, MayAdd};

use mcast_txn::Topic;
use std::alloc::Global;
use std::marker::Model;
use stomp_frame::NoMemory;
use stomp_session::{MAX_TOPICS, Names};

/// The topics that a core begins with, numbered from 0 in the order in which they were added: of each its name, which
/// no other has, and the number that its clock begins at. In contracts it is the list of the names and that of the
/// clocks.
#[derive(Drop)]
pub struct Topics {
    names: Names,
    clocks: Vec<u64>,
}

impl Model for Topics {
    ghost use Rattle.std.specs.Prelude.{◌≡◌, ◌≤◌, length};
    ghost use Rattle.delivery.specs.Topics.{TopicList, max_topics};

    ghost Value = { TopicList };

    ghost view = { λ t. record { names = t.names; clocks = t.clocks.items } };

    ghost invariant = { λ t. (length t.clocks.items ≡ length t.names) × (length t.names ≤ max_topics) };
}

impl Topics {
    /// No topics. It takes no memory yet.
    pub fn new(alloc: Global) -> Topics
        ensures { result ≡ no_topics }
    {
        Topics {
            names: Names::new(alloc),
            clocks: Vec::new(alloc),
        }
    }

    /// Its names and its clocks.
    pub(crate) fn into_parts(self) -> (Names, Vec<u64>)
        ensures names { result.0 ≡ self.names }
        ensures clocks { result.1.items ≡ self.clocks }
        ensures as_many { length self.clocks ≡ length self.names }
        ensures few { length self.clocks ≤ max_topics }
    {
        let Topics { names, clocks } = self;
        (names, clocks)
    }

    /// Whether a topic of this name may be added: the name isn't empty, no topic has it, and there are fewer than
    /// 1,024.
    pub fn may_add(&self, name: &[u8]) -> bool
        ensures { IsTrue result ↔ MayAdd name.now self.now }
    {
        !name.is_empty() && self.names.find(name).is_none() && self.names.len() < MAX_TOPICS
    }

    /// Adds a topic of this name, whose clock begins at this number. After `NoMemory` the topics are what they were.
    pub fn add(&mut self, name: &[u8], clock: u64) -> Result<(), NoMemory>
        requires { MayAdd name.now self.old }
        ensures ok { OnOk result (self.new ≡ record {
          names = self.old.names ++ name.now ∷ [];
          clocks = self.old.clocks ++ clock ∷ [];
        }) }
        ensures err { OnErr result (self.new ≡ self.old) }
    {
        self.clocks.reserve(1)?;
        self.names.add(name)?;
        self.clocks.push_reserved(clock);
        Ok(())
    }

    /// How many topics there are, at most 1,024.
    pub fn len(&self) -> usize
        ensures value { result ≡ length self.now.names }
        ensures few { length self.now.names ≤ max_topics }
    {
        self.names.len()
    }

    /// Whether there is none.
    pub fn is_empty(&self) -> bool
        ensures { IsTrue result ↔ (self.now.names ≡ []) }
    {
        self.names.is_empty()
    }

    /// The name of the topic at index `i`, from 0.
    pub fn name(&self, i: usize) -> &[u8]
        requires { i < length self.now.names }
        ensures { slice_get self.now.names i ≡ Some result.now }
    {
        self.names.name(Topic(i as u32)).unwrap()
    }

    /// The number that the clock of the topic at index `i`, from 0, begins at.
    pub fn clock(&self, i: usize) -> u64
        requires { i < length self.now.names }
        ensures { slice_get self.now.clocks i ≡ Some result }
    {
        self.clocks[i]
    }
}
