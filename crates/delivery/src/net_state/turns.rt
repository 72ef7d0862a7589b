//! What topics learn, and their turns.

ghost use Rattle.std.specs.Prelude.{◌≡◌, ◌<◌, length, get_or};
ghost use Rattle.mcast_group.specs.Group.{GroupState};
ghost use Rattle.delivery.specs.Core.State.{Core};
ghost use Rattle.delivery.specs.Inner.Stands.{IsHeld, IsReached, Makes};
ghost use Rattle.delivery.specs.Inner.TopicSteps.{verdict_held, learn_result, group_turn_count, after_learn_at, after_turn_at};
ghost use Rattle.delivery.specs.Inner.View.{view_of};
ghost use Rattle.delivery.specs.declared.event.Event.{Event as Asked};

use crate::net_state::NetState;
use crate::outcome::Outcome;
use crate::refusal::Refusal;
use mcast_group::LearnFault;
use mcast_txn::{Topic, TxnId};

impl NetState {
    /// What the topic of this index answers to the verdict of this transaction: it learns its stamp, or refuses it.
    /// `None` where there is no verdict.
    fn learn_at(&mut self, index: usize, id: TxnId) -> Option<Result<(), LearnFault>>
        requires { index < length self.old.groups }
        ensures answer { (d : GroupState) → result
            ≡ learn_result id (verdict_held self.old id) (get_or self.old.groups index d) }
        ensures groups { (d : GroupState) → self.new ≡ after_learn_at self.old index id d }
    {
        let verdict = self.table.verdict(id)?;
        let group = &mut self.groups[index];
        Some(group.learn(id, verdict))
    }

    /// The topic learns the stamp of this transaction: 84 where there is no such topic, 85 where the transaction has no
    /// verdict, 43 where no part of it is pending there. In a run no topic answers 44 or 45, since a verdict that is
    /// found is the part's own. It takes no memory.
    pub(crate) fn learn(&mut self, topic: Topic, id: TxnId) -> Outcome
        requires { IsHeld self.old }
        ensures { (k : Core) → IsReached k → self.old ≡ view_of k
            → Makes k (Asked.Learn topic id) result self.new }
    {
        let index = topic.0 as usize;
        if index >= self.groups.len() {
            return Outcome::Refused(Refusal::NotNamed);
        }
        match self.learn_at(index, id) {
            None => Outcome::Refused(Refusal::NotDecided),
            Some(Ok(())) => Outcome::Learnt,
            Some(Err(LearnFault::NotPending)) => Outcome::Refused(Refusal::NotPending),
            Some(Err(LearnFault::Foreign)) => unreachable!(),
            Some(Err(LearnFault::Clash)) => unreachable!(),
        }
    }

    /// The topic of this index learns each stamp that is decided, and releases what is due: how many parts.
    fn turn_at(&mut self, index: usize) -> u64
        requires { index < length self.old.groups }
        ensures count { (d : GroupState) → result
            ≡ group_turn_count (verdict_held self.old) (get_or self.old.groups index d) }
        ensures groups { (d : GroupState) → self.new ≡ after_turn_at self.old index d }
    {
        let group = &mut self.groups[index];
        group.turn_counted(&self.table)
    }

    /// The topic learns each stamp that is decided, and releases what is due: 84 where there is no such topic. It
    /// takes no memory.
    pub(crate) fn turn(&mut self, topic: Topic) -> Outcome
        ensures { (k : Core) → IsReached k → self.old ≡ view_of k
            → Makes k (Asked.Turn topic) result self.new }
    {
        let index = topic.0 as usize;
        if index >= self.groups.len() {
            return Outcome::Refused(Refusal::NotNamed);
        }
        Outcome::Turned(self.turn_at(index))
    }
}
