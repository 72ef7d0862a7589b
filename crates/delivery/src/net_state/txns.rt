//! The life of a sender's transaction.

ghost use Rattle.std.specs.Prelude.{◌≡◌, ◌<◌, ◌≤◌, true, false, length, get_or, Some, IfOk, OnOk, OnErr};
ghost use Rattle.std.specs.Option.{is_some};
ghost use Rattle.std.specs.Result.{result_err};
ghost use Rattle.mcast_txn.specs.Transaction.{TopicPart};
ghost use Rattle.mcast_group.specs.Machine.{last_number};
ghost use Rattle.delivery.specs.Core.State.{Core};
ghost use Rattle.delivery.specs.Inner.Senders.{sender_in, speaker_at, launched_id, launched_view, decide_refusal, decided_row, decided_view, receipt_in, confirmed_view, propose_refusal_in, part_in, IsProposed, taken_view, is_group, cancel_refusal_in, cancelled_view, withdraw_refusal, failure_of, withdrawn_view, reads_frames, refused_view};
ghost use Rattle.delivery.specs.Inner.Stands.{IsHeld, IsReached, Makes};
ghost use Rattle.delivery.specs.Inner.View.{view_of, no_endpoint, is_idle};
ghost use Rattle.delivery.specs.declared.event.Event.{Event as Asked};

use crate::net_state::NetState;
use crate::outcome::Outcome;
use crate::refusal::Refusal;
use mcast_group::{CancelFault, Group, ProposeFault};
use mcast_txn::{Stamp, Topic, Txn, TxnId};
use stomp_frame::NoMemory;
use sub_queue::VecOutlet;

impl NetState {
    /// The connection's sender, which is between two transactions, launches one, with all the room that the
    /// transaction's later events need. Out of memory, and where the sender has used its last number, all is what it
    /// was.
    pub(super) fn launch(&mut self, connection: u64, txn: Txn) -> Result<TxnId, NoMemory>
        requires there { connection < length self.old.endpoints }
        requires begun { speaker_at self.old connection < length self.old.senders }
        requires idle { is_idle (sender_in self.old (speaker_at self.old connection)).sending ≡ true }
        ensures id { IfOk result (λ id. id ≡ launched_id self.old connection) }
        ensures last { IfOk result (λ id. id.seq ≤ last_number) }
        ensures ok { OnOk result (self.new ≡ launched_view txn connection self.old) }
        ensures err { OnErr result (self.new ≡ self.old) }
    {
        let index = self.number_of(&self.endpoints[connection as usize]) as usize;
        self.commits.promise()?;
        let Ok(()) = self.table.add_seq(index) else {
            self.commits.forgo();
            return Err(NoMemory);
        };
        let state = &mut self.senders[index];
        match state.launch(self.alloc, txn) {
            Ok(id) => Ok(id),
            Err(NoMemory) => {
                self.table.drop_seq(index);
                self.commits.forgo();
                Err(NoMemory)
            }
        }
    }

    /// Decides the sender's transaction, and its stamp: the verdict and the row of the commit list are kept. It takes
    /// no memory. Refused where none is undecided (83), where a topic refused it (88), and where a topic gave no
    /// ticket yet (52).
    fn decide_of(&mut self, sender: u64) -> Result<Stamp, Refusal>
        ensures refused { result_err result ≡ decide_refusal (sender_in self.old sender).sending }
        ensures stamp { IfOk result (λ stamp. stamp
            ≡ (decided_row (sender_in self.old sender).sending).stamp) }
        ensures ok { OnOk result (self.new ≡ decided_view sender self.old) }
        ensures err { OnErr result (self.new ≡ self.old) }
    {
        let index = sender as usize;
        if index >= self.senders.len() {
            return Err(Refusal::NoFlight);
        }
        let state = &mut self.senders[index];
        let (verdict, row) = state.decide()?;
        let stamp = row.stamp;
        self.table.set(index, verdict);
        self.commits.keep(row);
        Ok(stamp)
    }

    /// The transaction of the connection's sender is decided: the RECEIPT is written, if it asked for one and the
    /// connection is open. Whether there was no memory for it: then it is left out, and the connection is leaving.
    fn confirm(&mut self, connection: u64) -> bool
        requires { connection < length self.old.endpoints }
        ensures asked { result ≡ true
            → is_some (receipt_in (get_or self.old.endpoints connection no_endpoint).stage) ≡ true }
        ensures new { self.new ≡ confirmed_view result connection self.old }
    {
        let endpoint = &mut self.endpoints[connection as usize];
        endpoint.confirm()
    }

    /// The undecided transaction of the connection's sender is decided: 80 where there is no such connection, 87
    /// where it is gone, 83 where no transaction is undecided, 88 where a topic refused it, 52 where a topic gave no
    /// ticket yet. It takes no memory but for a RECEIPT.
    pub(crate) fn decide(&mut self, connection: u64) -> Outcome
        ensures { (k : Core) → IsReached k → self.old ≡ view_of k
            → Makes k (Asked.Decide connection) result self.new }
    {
        let sender = match self.check_there(connection) {
            Ok(sender) => sender,
            Err(refusal) => return Outcome::Refused(refusal),
        };
        match self.decide_of(sender) {
            Ok(stamp) => Outcome::Decided {
                stamp,
                cut: self.confirm(connection),
            },
            Err(refusal) => Outcome::Refused(refusal),
        }
    }

    /// Proposes the sender's transaction at the topic: the number of its ticket, or why there is none; then the
    /// transaction has failed. Refused where none is undecided (83), where a topic refused it (88), where there is no
    /// such topic or it isn't named (84), and where the topic gave a ticket before (51). In a run the transaction takes
    /// each ticket that a topic gives.
    fn propose_of(
        &mut self,
        sender: u64,
        topic: Topic,
    ) -> Result<Result<u64, ProposeFault>, Refusal>
        requires { IsHeld self.old }
        ensures refused { result_err result ≡ propose_refusal_in topic sender self.old }
        ensures made { IfOk result (λ made. (part : TopicPart)
            → part_in topic (sender_in self.old sender).sending ≡ Some part
            → IsProposed topic sender part made self.old self.new) }
        ensures err { OnErr result (self.new ≡ taken_view topic sender self.old) }
    {
        let index = sender as usize;
        if index >= self.senders.len() {
            return Err(Refusal::NoFlight);
        }
        let state = &mut self.senders[index];
        state.check_flying()?;
        if !has_group(&self.groups, topic) {
            return Err(Refusal::NotNamed);
        }
        let (floor, part) = state.take_part(topic)?;
        let group = &mut self.groups[topic.0 as usize];
        match group.propose(floor, part) {
            Ok(ticket) => {
                state.put(ticket);
                Ok(Ok(ticket.n))
            }
            Err(fault) => {
                state.fail(fault);
                self.commits.forgo();
                Ok(Err(fault))
            }
        }
    }

    /// The undecided transaction of the connection's sender is proposed at the topic: 80 where there is no such
    /// connection, 87 where it is gone, 83 where no transaction is undecided, 88 where a topic refused it, 84 where
    /// there is no such topic or it isn't named, 51 where the topic gave a ticket before.
    pub(crate) fn propose(&mut self, connection: u64, topic: Topic) -> Outcome
        requires { IsHeld self.old }
        ensures { (k : Core) → IsReached k → self.old ≡ view_of k
            → Makes k (Asked.Propose connection topic) result self.new }
    {
        let sender = match self.check_there(connection) {
            Ok(sender) => sender,
            Err(refusal) => return Outcome::Refused(refusal),
        };
        match self.propose_of(sender, topic) {
            Ok(Ok(n)) => Outcome::Proposed(n),
            Ok(Err(fault)) => Outcome::Failed(fault),
            Err(refusal) => Outcome::Refused(refusal),
        }
    }

    /// Cancels the first of the sender's tickets at the topic. It takes no memory. Refused where there is no such
    /// topic, or no ticket of it (84). In a run no topic answers 43 or 46, since the ticket's part is pending there and
    /// has learnt no stamp.
    fn cancel_of(&mut self, sender: u64, topic: Topic) -> Result<(), Refusal>
        requires { IsHeld self.old }
        ensures refused { result_err result ≡ cancel_refusal_in topic sender self.old }
        ensures ok { OnOk result (self.new ≡ cancelled_view topic sender self.old) }
        ensures err { OnErr result (self.new ≡ self.old) }
    {
        let index = sender as usize;
        if index >= self.senders.len() || !has_group(&self.groups, topic) {
            return Err(Refusal::NotNamed);
        }
        let state = &mut self.senders[index];
        let Some((at, id)) = state.leftover(topic) else {
            return Err(Refusal::NotNamed);
        };
        let group = &mut self.groups[topic.0 as usize];
        match group.cancel(id) {
            Ok(()) => {
                state.drop_leftover(at);
                Ok(())
            }
            Err(CancelFault::NotPending) => unreachable!(),
            Err(CancelFault::Decided) => unreachable!(),
        }
    }

    /// A ticket that the topic gave to a withdrawn transaction of the connection's sender is cancelled: 80 where
    /// there is no such connection, 87 where it is gone, 84 where there is no such topic, or no such ticket. It takes
    /// no memory.
    pub(crate) fn cancel(&mut self, connection: u64, topic: Topic) -> Outcome
        requires { IsHeld self.old }
        ensures { (k : Core) → IsReached k → self.old ≡ view_of k
            → Makes k (Asked.Cancel connection topic) result self.new }
    {
        let sender = match self.check_there(connection) {
            Ok(sender) => sender,
            Err(refusal) => return Outcome::Refused(refusal),
        };
        match self.cancel_of(sender, topic) {
            Ok(()) => Outcome::Cancelled,
            Err(refusal) => Outcome::Refused(refusal),
        }
    }

    /// Withdraws the sender's transaction, which a topic refused, and why: its tickets are to be cancelled. It takes no
    /// memory. Refused where none is undecided (83), and where no topic refused it (89).
    fn withdraw_of(&mut self, sender: u64) -> Result<ProposeFault, Refusal>
        ensures refused { result_err result ≡ withdraw_refusal (sender_in self.old sender).sending }
        ensures fault { IfOk result (λ fault. Some fault ≡ failure_of (sender_in self.old sender).sending) }
        ensures ok { OnOk result (self.new ≡ withdrawn_view sender self.old) }
        ensures err { OnErr result (self.new ≡ self.old) }
    {
        let index = sender as usize;
        if index >= self.senders.len() {
            return Err(Refusal::NoFlight);
        }
        let state = &mut self.senders[index];
        state.withdraw()
    }

    /// The transaction of the connection's sender is withdrawn: an open connection is leaving, with an ERROR of this
    /// message. Whether there was no memory for it: then it is left out.
    fn end_by_error(&mut self, connection: u64, message: &[u8]) -> bool
        requires { connection < length self.old.endpoints }
        ensures asked { result ≡ true
            → reads_frames (get_or self.old.endpoints connection no_endpoint).stage ≡ true }
        ensures new { self.new ≡ refused_view result message.now connection self.old }
    {
        let endpoint = &mut self.endpoints[connection as usize];
        endpoint.refuse(message)
    }

    /// The undecided transaction of the connection's sender, which a topic refused, is withdrawn, and the connection
    /// ends by an ERROR: 80 where there is no such connection, 87 where it is gone, 83 where no transaction is
    /// undecided, 89 where no topic refused it. It takes no memory but for the ERROR.
    pub(crate) fn withdraw(&mut self, connection: u64) -> Outcome
        ensures { (k : Core) → IsReached k → self.old ≡ view_of k
            → Makes k (Asked.Withdraw connection) result self.new }
    {
        let sender = match self.check_there(connection) {
            Ok(sender) => sender,
            Err(refusal) => return Outcome::Refused(refusal),
        };
        match self.withdraw_of(sender) {
            Ok(fault) => Outcome::Withdrawn {
                cut: self.end_by_error(connection, fault.title()),
            },
            Err(refusal) => Outcome::Refused(refusal),
        }
    }
}

/// Whether there is a group of this topic.
fn has_group(groups: &[Group<VecOutlet>], topic: Topic) -> bool
    ensures { result ≡ is_group topic groups.now }
{
    let index = topic.0 as usize;
    index < groups.len() && groups[index].topic().0 == topic.0
}
