//! The subscriptions that are open.

ghost use Rattle.std.specs.Prelude.{◌≡◌, false, [], ◌∷◌, ◌++◌, OnOk};
ghost use Rattle.std.specs.Map.{lookup};
ghost use Rattle.std.specs.Option.{unwrap_or};
ghost use Rattle.std.specs.Str.{bytes_eq};
ghost use Rattle.stomp_session.specs.Inner.Effects.{entries_without};
ghost use Rattle.stomp_session.specs.Refusals.{is_open, is_full};

use crate::opened::Opened;
use crate::subscription::Subscription;
use mcast_txn::Topic;
use std::alloc::Global;
use std::marker::Model;
use stomp_frame::NoMemory;

/// The subscriptions of a connection that are open, in the order in which they were opened. In contracts it is the list
/// of their ids with their topics, and that of their ids with whether they asked for parts.
#[derive(Drop)]
pub(crate) struct Subscriptions {
    opened: Opened<Subscription>,
}

impl Model for Subscriptions {
    ghost use Rattle.stomp_session.specs.Inner.Stored.{OpenSubscriptions, both_of};

    ghost Value = { OpenSubscriptions };

    ghost view = { λ s. both_of s.opened };
}

impl Subscriptions {
    /// None. It takes no memory.
    pub(crate) fn new(alloc: Global) -> Subscriptions
        ensures topics { result.topics ≡ [] }
        ensures parts { result.parts ≡ [] }
    {
        Subscriptions {
            opened: Opened::new(alloc),
        }
    }

    /// Whether one of this id is open.
    pub(crate) fn is_open(&self, id: &[u8]) -> bool
        ensures { result ≡ is_open id.now self.now.topics }
    {
        self.opened.is_open(id)
    }

    /// Whether no more may be opened.
    pub(crate) fn is_full(&self) -> bool
        ensures { result ≡ is_full self.now.topics }
    {
        self.opened.is_full()
    }

    /// Whether the one of this id asked for parts; not where it isn't open.
    pub(crate) fn asks_parts(&self, id: &[u8]) -> bool
        ensures { result ≡ unwrap_or (lookup (bytes_eq id.now) self.now.parts) false }
    {
        match self.opened.get(id) {
            Some(subscription) => subscription.parts,
            None => false,
        }
    }

    /// Opens one of this id, after the others.
    pub(crate) fn open(&mut self, id: &[u8], topic: Topic, parts: bool) -> Result<(), NoMemory>
        requires { is_open id.now self.old.topics ≡ false }
        ensures topics { OnOk result (self.new.topics ≡ self.old.topics ++ (id.now, topic) ∷ []) }
        ensures parts { OnOk result (self.new.parts ≡ self.old.parts ++ (id.now, parts) ∷ []) }
    {
        self.opened.open(id, Subscription { topic, parts })
    }

    /// Ends the one of this id; whether it was open. It takes no memory.
    pub(crate) fn end(&mut self, id: &[u8]) -> bool
        ensures was_open { result ≡ is_open id.now self.old.topics }
        ensures topics { self.new.topics ≡ entries_without id.now self.old.topics }
        ensures parts { self.new.parts ≡ entries_without id.now self.old.parts }
    {
        self.opened.take(id).is_some()
    }

    /// Ends all.
    pub(crate) fn clear(&mut self)
        ensures topics { self.new.topics ≡ [] }
        ensures parts { self.new.parts ≡ [] }
    {
        self.opened.clear();
    }
}
