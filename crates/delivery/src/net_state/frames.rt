//! The event Next: the next frame of a connection.

ghost use Rattle.std.specs.Prelude.{◌≡◌, ◌<◌, ◌-◌, ℕ, List, Option, length, get_or, set, slice_get, take, nat_lt, true, None, IfOk, IfErr, OnOk, OnErr};
ghost use Rattle.std.specs.Option.{is_some, option_map};
ghost use Rattle.stomp_frame.specs.declared.raw_frame.RawFrame.{RawFrame as Frame};
ghost use Rattle.stomp_frame.specs.Reader.{Unread};
ghost use Rattle.stomp_session.specs.declared.action.Action.{Action};
ghost use Rattle.stomp_session.specs.declared.action.Action.TheVariants as actions;
ghost use Rattle.delivery.specs.Core.Output.{is_cut};
ghost use Rattle.delivery.specs.Core.State.{Core, is_faulted};
ghost use Rattle.delivery.specs.Topics.{max_topics};
ghost use Rattle.delivery.specs.declared.event.Event.{Event as Asked};
ghost use Rattle.delivery.specs.declared.outcome.Outcome.TheVariants as outcomes;
ghost use Rattle.delivery.specs.Inner.Clients.{AreClients, AreHeld, MakesBoth};
ghost use Rattle.delivery.specs.Inner.Nexts.{Asks, AsksNamed, AsksUnnamed, JudgesAt, MayEnd, MayLack, claims_none, idle_objection, is_sending, staged_endpoint, failed_endpoint, shortened_endpoint, error_text, receipt_text, HasFault};
ghost use Rattle.delivery.specs.Inner.Senders.{asked_view};
ghost use Rattle.delivery.specs.Inner.Stands.{IsReached, IsChecked, Makes};
ghost use Rattle.delivery.specs.Inner.View.{EndpointView, view_of, written_endpoint, grouped_view};

use super::{LOG_LIMIT, NetState};
use crate::connection_fault::ConnectionFault;
use crate::outcome::Outcome;
use crate::refusal::Refusal;
use mcast_group::Group;
use mcast_txn::{Topic, Txn};
use sender_gate::Senders;
use stomp_frame::{NoMemory, Octets, RawFrame, ServerFrame};
use stomp_session::{Action, SessionFault, Step};

/// A frame that was read finds no memory.
pub(super) const FRAME_NO_MEMORY: ConnectionFault = ConnectionFault::Session(
    SessionFault::NoMemory,
);

impl NetState {
    /// Whether the sender has an undecided transaction; one that isn't there has none.
    fn is_sending(&self, sender: u64) -> bool
        ensures { result ≡ is_sending (slice_get self.now.senders sender) }
    {
        match self.senders.get(sender as usize) {
            Some(state) => state.is_undecided(),
            None => false,
        }
    }

    /// Whether the connection's frames may be read: 80 where there is none, 87 where it is gone, 81 where it is
    /// leaving or has an undecided transaction.
    fn check_idle(&self, connection: u64) -> Result<(), Refusal>
        ensures { IsChecked result (idle_objection self.now connection) }
    {
        self.check_open(connection)?;
        if self.is_sending(self.number_of(&self.endpoints[connection as usize])) {
            return Err(Refusal::Busy);
        }
        Ok(())
    }

    /// What the connection's next frame asks for, if it is open. The topics' names get the frame's destination, where
    /// it is accepted and has a new one.
    fn next_step(
        &mut self,
        connection: u64,
    ) -> Result<Option<Step>, (ConnectionFault, Option<RawFrame>)>
        requires { connection < length self.old.endpoints }
        ensures stays { (d : EndpointView) → self.new ≡ record self.old {
          names = self.new.names;
          endpoints = set self.old.endpoints connection
              (staged_endpoint (get_or self.new.endpoints connection d).stage (get_or self.old.endpoints connection d));
        } }
        ensures judges { (d : EndpointView)
            → JudgesAt self.old.names (get_or self.old.endpoints connection d).stage result
            (get_or self.new.endpoints connection d).stage self.new.names }
    {
        let alloc = self.alloc;
        let endpoint = &mut self.endpoints[connection as usize];
        endpoint.next_step(alloc, &mut self.names)
    }

    /// The connection ends by an ERROR of this fault, with this receipt, which says our version or doesn't; out of
    /// memory the ERROR is left out.
    fn fail(
        &mut self,
        connection: u64,
        fault: ConnectionFault,
        receipt: Option<&[u8]>,
        version: bool,
    ) -> Outcome
        requires { connection < length self.old.endpoints }
        ensures answer { result ≡ outcomes.Faulted fault (is_cut result) }
        ensures endpoint { (d : EndpointView) → self.new ≡ record self.old {
          endpoints = set self.old.endpoints connection (failed_endpoint (is_cut result)
              (error_text fault (option_map (λ r. r.now) receipt.entry) version)
              (get_or self.old.endpoints connection d));
        } }
    {
        let error = ServerFrame::Error {
            message: fault.title(),
            receipt,
            version,
        };
        let cut = self.write(connection, &error).is_err();
        self.begin_leaving(connection, None);
        Outcome::Faulted { fault, cut }
    }

    /// Writes the RECEIPT that was asked for, if one was. After `NoMemory` all is what it was.
    fn write_receipt(&mut self, connection: u64, receipt: &Option<Octets>) -> Result<(), NoMemory>
        requires { connection < length self.old.endpoints }
        ensures ok { OnOk result ((d : EndpointView) → self.new ≡ record self.old {
          endpoints = set self.old.endpoints connection
              (written_endpoint (receipt_text receipt.now) (get_or self.old.endpoints connection d));
        }) }
        ensures asked { OnErr result (is_some receipt.now ≡ true) }
        ensures err { OnErr result (self.new ≡ self.old) }
    {
        match receipt {
            Some(id) => self.write(connection, &ServerFrame::Receipt { id: id.as_slice() }),
            None => Ok(()),
        }
    }

    /// The frame that its session accepted has no effect: the connection ends by the ERROR of this fault, with the
    /// frame's receipt and without our version, which the frame had.
    fn end_with(
        &mut self,
        connection: u64,
        fault: ConnectionFault,
        receipt: &Option<Octets>,
    ) -> Outcome
        requires { connection < length self.old.endpoints }
        ensures faulted { is_faulted result ≡ true }
        ensures ended { (k : Core) (f : Frame) (left : Unread) (action : Action)
            → AsksUnnamed k connection f left action receipt.now self.old → MayEnd k connection f fault
            → Makes k (Asked.Next connection) result self.new }
    {
        match receipt {
            Some(id) => self.fail(connection, fault, Some(id.as_slice()), false),
            None => self.fail(connection, fault, None, false),
        }
    }

    /// Makes the group of the last name, where it has none yet, with clock 0: whether it was made. After `NoMemory` all
    /// is what it was.
    fn make_topic(&mut self) -> Result<bool, NoMemory>
        requires { length self.old.groups < length self.old.names → length self.old.groups < max_topics }
        ensures made { IfOk result (λ made. made ≡ nat_lt (length self.old.groups) (length self.old.names)) }
        ensures ok { OnOk result (self.new ≡ grouped_view self.old) }
        ensures lacks { OnErr result (length self.old.groups < length self.old.names) }
        ensures err { OnErr result (self.new ≡ self.old) }
    {
        let index = self.groups.len();
        if index >= self.names.len() {
            return Ok(false);
        }
        self.groups.reserve(1)?;
        let topic = Topic(index as u32);
        self.groups
            .push_reserved(Group::new(self.alloc, topic, 0, LOG_LIMIT));
        Ok(true)
    }

    /// Takes back the last name, whose topic wasn't made. It takes no memory.
    fn forget_name(&mut self)
        requires { 0 < length self.old.names }
        ensures { self.new ≡ record self.old { names = take (length self.old.names - 1) self.old.names } }
    {
        self.names.take_back();
    }

    /// Takes back the last topic that was made, its name and its group. It takes no memory.
    fn forget_topic(&mut self)
        requires groups { 0 < length self.old.groups }
        requires names { 0 < length self.old.names }
        ensures { self.new ≡ record self.old {
          names = take (length self.old.names - 1) self.old.names;
          groups = take (length self.old.groups - 1) self.old.groups;
        } }
    {
        self.groups.pop();
        self.names.take_back();
    }

    /// Answers a frame that needs no more than its RECEIPT. After `NoMemory` all is what it was.
    fn acknowledge(
        &mut self,
        connection: u64,
        receipt: &Option<Octets>,
    ) -> Result<Outcome, NoMemory>
        requires { connection < length self.old.endpoints }
        ensures ok { IfOk result (λ outcome. (k : Core) (f : Frame) (left : Unread)
            → Asks k connection f left actions.Nothing receipt.now self.old
            → Makes k (Asked.Next connection) outcome self.new) }
        ensures asked { OnErr result (is_some receipt.now ≡ true) }
        ensures err { OnErr result (self.new ≡ self.old) }
    {
        self.write_receipt(connection, receipt)?;
        Ok(Outcome::Done)
    }

    /// Takes a DISCONNECT: the connection is leaving, and its RECEIPT is due once it is gone. It takes no memory.
    fn disconnect(&mut self, connection: u64, receipt: Option<Octets>) -> Outcome
        requires { connection < length self.old.endpoints }
        ensures { (k : Core) (f : Frame) (left : Unread)
            → Asks k connection f left actions.Disconnect receipt self.old
            → Makes k (Asked.Next connection) result self.new }
    {
        self.begin_leaving(connection, receipt);
        Outcome::Leaving
    }

    /// How many octets were written to the connection.
    pub(super) fn written(&self, connection: u64) -> usize
        requires { connection < length self.now.endpoints }
        ensures { (d : EndpointView) → result ≡ length (get_or self.now.endpoints connection d).output }
    {
        let endpoint = &self.endpoints[connection as usize];
        endpoint.output.len()
    }

    /// Takes back what was written to the connection after this many octets.
    pub(super) fn take_back(&mut self, connection: u64, len: usize)
        requires { connection < length self.old.endpoints }
        ensures { (d : EndpointView) → self.new ≡ record self.old {
          endpoints = set self.old.endpoints connection
              (shortened_endpoint len (get_or self.old.endpoints connection d));
        } }
    {
        let endpoint = &mut self.endpoints[connection as usize];
        endpoint.take_back(len);
    }

    /// Takes a SUBSCRIBE. Its RECEIPT is written first, and taken back where the subscription finds no memory: then all
    /// is what it was. Its topic is there, and none has the new number.
    fn start_subscription(
        &mut self,
        connection: u64,
        id: Octets,
        topic: Topic,
        receipt: &Option<Octets>,
    ) -> Result<Outcome, NoMemory>
        requires there { connection < length self.old.endpoints }
        requires asks { (k : Core) × (f : Frame) × (left : Unread)
            × Asks k connection f left (actions.Subscribe id topic) receipt.now self.old }
        ensures ok { IfOk result (λ outcome. (k : Core) (f : Frame) (left : Unread)
            → Asks k connection f left (actions.Subscribe id topic) receipt.now self.old
            → Makes k (Asked.Next connection) outcome self.new) }
        ensures err { OnErr result (self.new ≡ self.old) }
    {
        let len = self.written(connection);
        self.write_receipt(connection, receipt)?;
        match self.subscribe(connection, id, topic) {
            Ok((sub, from)) => Ok(Outcome::Subscribed(sub, from)),
            Err(NoMemory) => {
                self.take_back(connection, len);
                Err(NoMemory)
            }
        }
    }

    /// Takes an UNSUBSCRIBE: its RECEIPT is written first, and the subscription's end takes no memory. The session has
    /// accepted it, so the subscription is there. After `NoMemory` all is what it was.
    fn end_subscription(
        &mut self,
        connection: u64,
        id: &[u8],
        receipt: &Option<Octets>,
    ) -> Result<Outcome, NoMemory>
        requires there { connection < length self.old.endpoints }
        requires asks { (k : Core) × (f : Frame) × (left : Unread)
            × Asks k connection f left (actions.Unsubscribe id.now) receipt.now self.old }
        ensures ok { IfOk result (λ outcome. (k : Core) (f : Frame) (left : Unread)
            → Asks k connection f left (actions.Unsubscribe id.now) receipt.now self.old
            → Makes k (Asked.Next connection) outcome self.new) }
        ensures asked { OnErr result (is_some receipt.now ≡ true) }
        ensures err { OnErr result (self.new ≡ self.old) }
    {
        self.write_receipt(connection, receipt)?;
        let Some(sub) = self.find_sub(connection, id) else {
            unreachable!();
        };
        match self.close(sub) {
            Some(to) => Ok(Outcome::Unsubscribed(sub, to)),
            None => unreachable!(),
        }
    }

    /// Keeps the receipt that the frame of the connection's transaction asked for.
    fn keep_receipt(&mut self, connection: u64, receipt: Option<Octets>)
        requires { connection < length self.old.endpoints }
        ensures { self.new ≡ asked_view receipt connection self.old }
    {
        let endpoint = &mut self.endpoints[connection as usize];
        endpoint.keep_receipt(receipt);
    }

    /// Takes a frame that makes a transaction. Its RECEIPT is due once the transaction is decided. Its sender is there,
    /// and has none undecided. Out of memory, and of numbers, all is what it was, and the receipt comes back.
    fn start_txn(
        &mut self,
        connection: u64,
        txn: Txn,
        receipt: Option<Octets>,
    ) -> Result<Outcome, Option<Octets>>
        requires there { connection < length self.old.endpoints }
        requires asks { (k : Core) × (f : Frame) × (left : Unread)
            × Asks k connection f left (actions.Commit txn) receipt self.old }
        ensures ok { IfOk result (λ outcome. (k : Core) (f : Frame) (left : Unread)
            → Asks k connection f left (actions.Commit txn) receipt self.old
            → Makes k (Asked.Next connection) outcome self.new) }
        ensures back { IfErr result (λ back. back ≡ receipt) }
        ensures err { OnErr result (self.new ≡ self.old) }
    {
        match self.launch(connection, txn) {
            Ok(id) => {
                self.keep_receipt(connection, receipt);
                Ok(Outcome::Flying(id))
            }
            Err(NoMemory) => Err(receipt),
        }
    }

    /// Does what an accepted frame other than a CONNECT asks for, whose destination has its topic. Out of memory all is
    /// what it was, and the receipt comes back.
    fn try_other(
        &mut self,
        connection: u64,
        action: Action,
        receipt: Option<Octets>,
    ) -> Result<Outcome, Option<Octets>>
        requires there { connection < length self.old.endpoints }
        requires asks { (k : Core) × (f : Frame) × (left : Unread)
            × Asks k connection f left action receipt self.old }
        requires other { claims_none action ≡ true }
        ensures ok { IfOk result (λ outcome. (k : Core) (f : Frame) (left : Unread)
            → Asks k connection f left action receipt self.old
            → Makes k (Asked.Next connection) outcome self.new) }
        ensures back { IfErr result (λ back. back ≡ receipt) }
        ensures err { OnErr result (self.new ≡ self.old) }
        ensures lacks { OnErr result ((k : Core) (f : Frame) (left : Unread)
            → Asks k connection f left action receipt self.old → MayLack k connection f) }
    {
        match action {
            Action::Connected(_) => unreachable!(),
            Action::Nothing => match self.acknowledge(connection, &receipt) {
                Ok(outcome) => Ok(outcome),
                Err(NoMemory) => Err(receipt),
            },
            Action::Subscribe(id, topic) => {
                match self.start_subscription(connection, id, topic, &receipt) {
                    Ok(outcome) => Ok(outcome),
                    Err(NoMemory) => Err(receipt),
                }
            }
            Action::Unsubscribe(id) => {
                match self.end_subscription(connection, id.as_slice(), &receipt) {
                    Ok(outcome) => Ok(outcome),
                    Err(NoMemory) => Err(receipt),
                }
            }
            Action::Commit(txn) => self.start_txn(connection, txn, receipt),
            Action::Disconnect => Ok(self.disconnect(connection, receipt)),
        }
    }

    /// Does what an accepted frame asks for, whose destination has its topic. Where it can't be done all is what it
    /// was, and its fault and the receipt come back: 77 and 78 of a CONNECT, and 72.
    fn try_act(
        &mut self,
        connection: u64,
        action: Action,
        receipt: Option<Octets>,
        clients: &mut Senders,
    ) -> Result<Outcome, (ConnectionFault, Option<Octets>)>
        requires there { connection < length self.old.endpoints }
        requires asks { (k : Core) × (f : Frame) × (left : Unread)
            × Asks k connection f left action receipt self.old × AreClients k clients.old }
        ensures ok { IfOk result (λ outcome. (k : Core) (f : Frame) (left : Unread)
            → Asks k connection f left action receipt self.old → AreClients k clients.old
            → MakesBoth k (Asked.Next connection) outcome self.new clients.new) }
        ensures back { IfErr result (λ e. e.1 ≡ receipt) }
        ensures err { OnErr result (self.new ≡ self.old) }
        ensures unclaimed { OnErr result (clients.new ≡ clients.old) }
        ensures fault { IfErr result (λ e. (k : Core) (f : Frame) (left : Unread)
            → Asks k connection f left action receipt self.old → AreClients k clients.old
            → MayEnd k connection f e.0) }
    {
        match action {
            Action::Connected(client) => match self.connect(connection, &client, clients) {
                Ok(outcome) => Ok(outcome),
                Err(fault) => Err((fault, receipt)),
            },
            other => match self.try_other(connection, other, receipt) {
                Ok(outcome) => Ok(outcome),
                Err(receipt) => Err((FRAME_NO_MEMORY, receipt)),
            },
        }
    }

    /// Does what an accepted frame asks for, once its destination has its topic. Where it can't be done the frame has
    /// no effect, a topic that was made for it is taken back, and the connection ends by an ERROR.
    fn act(&mut self, connection: u64, step: Step, clients: &mut Senders) -> Outcome
        requires there { connection < length self.old.endpoints }
        requires asks { (k : Core) × (f : Frame) × (left : Unread)
            × AsksNamed k connection f left step.action step.receipt self.old × AreClients k clients.old }
        ensures { (k : Core) (f : Frame) (left : Unread)
            → AsksNamed k connection f left step.action step.receipt self.old → AreClients k clients.old
            → MakesBoth k (Asked.Next connection) result self.new clients.new }
    {
        let Step { action, receipt } = step;
        let Ok(made) = self.make_topic() else {
            self.forget_name();
            return self.end_with(connection, FRAME_NO_MEMORY, &receipt);
        };
        match self.try_act(connection, action, receipt, clients) {
            Ok(outcome) => outcome,
            Err((fault, receipt)) => {
                if made {
                    self.forget_topic();
                }
                self.end_with(connection, fault, &receipt)
            }
        }
    }

    /// The connection ends by an ERROR of this fault of its reader or of this frame.
    fn refuse(
        &mut self,
        connection: u64,
        fault: ConnectionFault,
        frame: Option<RawFrame>,
    ) -> Outcome
        requires { connection < length self.old.endpoints }
        ensures faulted { is_faulted result ≡ true }
        ensures ended { (k : Core) → IsReached k → HasFault k connection fault frame self.old
            → Makes k (Asked.Next connection) result self.new }
    {
        match frame {
            Some(frame) => {
                let version = fault.says_version(Some(&frame));
                self.fail(connection, fault, frame.receipt(), version)
            }
            None => self.fail(connection, fault, None, fault.says_version(None)),
        }
    }

    /// Reads the next frame of a connection that is idle.
    fn read_frame(&mut self, connection: u64, clients: &mut Senders) -> Outcome
        requires there { connection < length self.old.endpoints }
        requires idle { (k : Core) × IsReached k × (idle_objection (view_of k) connection ≡ None)
            × (self.old ≡ view_of k) × AreClients k clients.old }
        ensures { (k : Core) → IsReached k → idle_objection (view_of k) connection ≡ None → self.old
            ≡ view_of k → AreClients k clients.old
            → MakesBoth k (Asked.Next connection) result self.new clients.new }
    {
        match self.next_step(connection) {
            Ok(None) => Outcome::Refused(Refusal::NoFrame),
            Ok(Some(step)) => self.act(connection, step, clients),
            Err((fault, frame)) => self.refuse(connection, fault, frame),
        }
    }

    /// Reads the connection's next frame, which has its effect or is answered by an ERROR: 80 where there is no such
    /// connection, 87 where it is gone, 81 where it is leaving or has an undecided transaction, 82 where no whole
    /// frame is there yet. A CONNECT claims its sender.
    pub(crate) fn next(&mut self, connection: u64, clients: &mut Senders) -> Outcome
        requires { AreHeld self.old clients.old }
        ensures { (k : Core) → IsReached k → self.old ≡ view_of k → AreClients k clients.old
            → MakesBoth k (Asked.Next connection) result self.new clients.new }
    {
        match self.check_idle(connection) {
            Ok(()) => self.read_frame(connection, clients),
            Err(refusal) => Outcome::Refused(refusal),
        }
    }
}
