//! The points of a commit between its proposals.

use mcast_txn::Topic;

/// What is done before each proposal of a commit, while no lock is held.
pub trait Point {
    ghost use Rattle.std.specs.Prelude.{ℕ};
    ghost use Rattle.mcast_txn.specs.declared.id.Topic.{Topic};

    /// What a point may be after it was told a topic with its place among those of the transaction, by what it was.
    ghost told: { Self → Topic → ℕ → Self → Type 0 };

    /// The transaction's topic of place `k`, from 0, is next to be proposed at. It may wait for another thread, and
    /// the commit's topics wait for it.
    fn before(&mut self, topic: Topic, k: usize)
        ensures { told self.old topic k self.new };
}
