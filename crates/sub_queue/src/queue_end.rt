//! A queue under the rule, with what one end knows of it.

ghost use Rattle.std.specs.Prelude.{◌≡◌, ◌<◌, ◌≤◌, ◌+◌, true, false, [], ◌∷◌, length, IfOk, MatchOption, MatchResult};
ghost use Rattle.crossbeam_queue.specs.Passes.{IsPassOf, ruled_capacity};
ghost use Rattle.mcast_txn.specs.Lists.{Rises};
ghost use Rattle.mcast_txn.specs.Span.{item_stamp};
ghost use Rattle.sub_queue.specs.Rule.{IsFront, knowledge, knowledge_of, pusher_knowledge, rest_of, taker_knowledge, witness_knowledge};
ghost use Rattle.sub_queue.specs.Shown.{IsAboveLast};
ghost use Rattle.sub_queue.specs.Inner.EndState.{EndState, end_after_push, end_after_take, end_knowing_taken, with_knowledge};

use crate::rule::{EndPass, Pushes, SharedQueue, Takes, TakesLeft, TwoEnds, Witnesses};
use mcast_txn::{NoMemory, Released};
use std::alloc::Global;
use std::marker::Model;
use std::sync::{Arc, Wait};

/// An end of a queue: the queue, and what carries the end's knowledge, which has no bytes.
pub(crate) struct QueueEnd {
    queue: Arc<SharedQueue>,
    pass: EndPass,
}

impl Drop for QueueEnd {
    /// Written out, so that letting an end go is one call for the prover wherever it happens.
    fn drop(self) {
        let QueueEnd { queue, pass } = self;
        drop(queue);
        drop(pass);
    }
}

impl Model for QueueEnd {
    ghost Value = { EndState };

    ghost view = { λ e. record {
      queue = e.pass.table_id;
      capacity = ruled_capacity e.queue.value;
      knows = knowledge_of e.pass;
    } };

    ghost invariant = { λ e. IsPassOf e.queue.value e.pass };
}

impl QueueEnd {
    /// An empty queue of this capacity, as the two ends of it: one that pushes, and one that takes.
    pub(crate) fn two(alloc: Global, capacity: usize) -> Result<(QueueEnd, QueueEnd), NoMemory>
        requires { 0 < capacity }
        ensures one { IfOk result (λ ends. ends.1 ≡ with_knowledge (taker_knowledge []) ends.0) }
        ensures knows { IfOk result (λ ends. ends.0.knows ≡ pusher_knowledge []) }
        ensures capacity { IfOk result (λ ends. ends.0.capacity ≡ capacity) }
    {
        let (queue, mut pass) = SharedQueue::ruled(alloc, capacity)?;
        let theirs = queue.another::<TwoEnds>(&mut pass);
        let queue = Arc::new(alloc, queue)?;
        let other = QueueEnd {
            queue: Arc::try_clone(&queue)?,
            pass: theirs,
        };
        Ok((QueueEnd { queue, pass }, other))
    }

    /// What carries its knowledge.
    fn into_pass(self) -> EndPass
        ensures queue { result.table_id ≡ self.queue }
        ensures whole { result.me.1 ≡ [] }
        ensures knows { knowledge_of result ≡ self.knows }
    {
        let QueueEnd { queue, pass } = self;
        drop(queue);
        pass
    }

    /// This end, which pushes, and one that takes from the same queue, as one end that does both.
    pub(crate) fn join(self, other: QueueEnd) -> QueueEnd
        requires queue { other.queue ≡ self.queue }
        requires rights { (self.knows.pushes ≡ true) × (other.knows.takes ≡ true) }
        ensures both { result
            ≡ with_knowledge (knowledge true self.knows.pushed true other.knows.taken) self }
        ensures front { IsFront result.knows }
        ensures rises { Rises item_stamp result.knows.pushed }
    {
        let QueueEnd { queue, mut pass } = self;
        queue.absorb::<TwoEnds>(&mut pass, other.into_pass());
        queue.learn_as::<TakesLeft>(&mut pass);
        QueueEnd { queue, pass }
    }

    /// Puts the item at the end, or returns it where the queue was full at one moment of the call.
    pub(crate) fn push<R: Wait>(&mut self, rt: &R, item: Released) -> Result<(), Released>
        requires right { self.old.knows.pushes ≡ true }
        requires above { IsAboveLast self.old.knows.pushed item.stamp }
        ensures { MatchResult result (λ _. self.new ≡ end_after_push item self.old)
            (λ back. (back ≡ item) × (self.new ≡ self.old)
            × (length self.old.knows.taken + self.old.capacity ≤ length self.old.knows.pushed)) }
    {
        self.queue.push_as::<Pushes, R>(rt, &mut self.pass, item)
    }

    /// Takes the next item, or none where the queue was empty at one moment of the call.
    pub(crate) fn take<R: Wait>(&mut self, rt: &R) -> Option<Released>
        requires right { self.old.knows.takes ≡ true }
        ensures taken { MatchOption result (self.new ≡ self.old)
            (λ item. self.new ≡ end_after_take item self.old) }
        ensures rises { Rises item_stamp self.new.knows.taken }
    {
        self.queue.pop_as::<Takes, R>(rt, &mut self.pass)
    }

    /// What this end knows to be taken, beside it.
    pub(crate) fn witness(&mut self) -> EndPass
        ensures same { self.new ≡ self.old }
        ensures queue { result.table_id ≡ self.old.queue }
        ensures whole { result.me.1 ≡ [] }
        ensures knows { knowledge_of result ≡ witness_knowledge self.old.knows.taken }
    {
        self.queue.another::<Witnesses>(&mut self.pass)
    }

    /// This end, which pushes, knows from now on that the items were taken of which the witness knows that. They are
    /// among those that it pushed.
    pub(crate) fn hear(&mut self, witness: EndPass)
        requires queue { witness.table_id ≡ self.old.queue }
        requires whole { witness.me.1 ≡ [] }
        requires rights { (self.old.knows.pushes ≡ true) × (self.old.knows.takes ≡ false) }
        ensures knows { self.new ≡ end_knowing_taken (knowledge_of witness).taken self.old }
        ensures pushed { length self.new.knows.taken ≤ length self.new.knows.pushed }
    {
        self.queue.absorb::<Witnesses>(&mut self.pass, witness);
        self.queue.learn_as::<Witnesses>(&mut self.pass);
    }

    /// Takes the first item of those that are left.
    pub(crate) fn take_left<R: Wait>(&mut self, rt: &R) -> Option<Released>
        requires rights { (self.old.knows.pushes ≡ true) × (self.old.knows.takes ≡ true) }
        requires front { IsFront self.old.knows }
        ensures none { MatchOption result ((self.new ≡ self.old) × (rest_of self.old.knows ≡ []))
            (λ item. (self.new ≡ end_after_take item self.old)
            × (rest_of self.old.knows ≡ item ∷ rest_of self.new.knows)) }
        ensures front { IsFront self.new.knows }
    {
        self.queue.pop_as::<TakesLeft, R>(rt, &mut self.pass)
    }

    /// How many items are left.
    pub(crate) fn len<R: Wait>(&mut self, rt: &R) -> usize
        requires rights { (self.old.knows.pushes ≡ true) × (self.old.knows.takes ≡ true) }
        ensures len { result ≡ length (rest_of self.old.knows) }
        ensures same { self.new ≡ self.old }
    {
        self.queue.len_as::<TakesLeft, R>(rt, &mut self.pass)
    }
}
