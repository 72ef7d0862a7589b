//! What is known of a queue's taken items.

ghost use Rattle.std.specs.Prelude.{◌≡◌, [], length};
ghost use Rattle.sub_queue.specs.Rule.{knowledge_of};

use crate::rule::EndPass;
use std::marker::Model;

/// That so many items of a queue were taken, for the end that pushes (`Source::know_taken`): the count, and what shows
/// it, which has no bytes. In contracts it is the queue, and how many items were taken when it was made.
pub struct TakenSoFar {
    pub(crate) witness: EndPass,
    pub(crate) count: u64,
}

impl Drop for TakenSoFar {
    /// Written out, so that letting it go is one call for the prover wherever it happens.
    fn drop(self) {
        let TakenSoFar { witness, count: _ } = self;
        drop(witness);
    }
}

impl Model for TakenSoFar {
    ghost use Rattle.std.specs.Prelude.{◌≡◌, [], length};
    ghost use Rattle.sub_queue.specs.Ends.{TakenCount};
    ghost use Rattle.sub_queue.specs.Rule.{knowledge_of};

    ghost Value = { TakenCount };

    ghost view = { λ t. record { queue = t.witness.table_id; count = t.count } };

    ghost invariant = { λ t. (t.witness.me.1 ≡ []) × (length (knowledge_of t.witness).taken ≡ t.count) };
}

impl TakenSoFar {
    /// How many items were taken.
    pub(crate) fn count(&self) -> u64
        ensures { result ≡ self.now.count }
    {
        self.count
    }

    /// What carries it.
    pub(crate) fn into_witness(self) -> EndPass
        ensures queue { result.table_id ≡ self.queue }
        ensures whole { result.me.1 ≡ [] }
        ensures count { length (knowledge_of result).taken ≡ self.count }
    {
        let TakenSoFar { witness, count: _ } = self;
        witness
    }
}
