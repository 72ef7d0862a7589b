//! A connection's session.

ghost use Rattle.std.specs.Prelude.{◌≡◌, ◌<◌, ◌∷◌, [], ◌++◌, ◌-◌, ◌^◌, codes, length, min, not, ℕ, List, false, true, Some, None, IfSome, IfOk, IfErr, OnOk, OnErr};
ghost use Rattle.stomp_frame.specs.declared.command.Command.TheVariants as commands;
ghost use Rattle.stomp_frame.specs.declared.raw_frame.RawFrame.{RawFrame as Frame};
ghost use Rattle.stomp_frame.specs.ClientFrames.{raw_of};
ghost use Rattle.stomp_frame.specs.Headers.{IsText, first_of};
ghost use Rattle.stomp_session.specs.declared.action.Action.TheVariants as actions;
ghost use Rattle.stomp_session.specs.declared.phase.Phase.TheVariants as phases;
ghost use Rattle.stomp_session.specs.declared.fault.SessionFault.TheVariants as faults;
ghost use Rattle.stomp_session.specs.Names.{index_of, is_known, max_topics, with_name};
ghost use Rattle.stomp_session.specs.Frames.{field, wants_parts, with_destination};
ghost use Rattle.stomp_session.specs.Open.{after_close, asks_parts, held_after, open_weight, StandsFor};
ghost use Rattle.mcast_txn.specs.Checks.{first_refusal};
ghost use Rattle.stomp_session.specs.Refusals.{is_closed, is_new, has_other_ack};
ghost use Rattle.stomp_session.specs.Answers.{Accepts, AreTexts, Refuses};
ghost use Rattle.stomp_session.specs.Inner.Effects.{AcceptsAs, Handles, IsRouteOf, RefusesAs, destination_fault, held_with, is_send_frame, refusal_by};

use crate::action::{Action, Step};
use crate::destination::Destination;
use crate::fault::SessionFault;
use crate::found_last::FoundLast;
use crate::judged::Judged;
use crate::names::Names;
use crate::opened::Opened;
use crate::phase::Phase;
use crate::route::Route;
use crate::subscriptions::Subscriptions;
use crate::versions::has_version;
use mcast_txn::{Draft, Topic, Txn};
use std::alloc::Global;
use std::marker::Model;
use stomp_frame::{
    AbortFrame, BeginFrame, ClientFrame, CommitFrame, ConnectFrame, DisconnectFrame, Headers,
    NoMemory, Octets, RawFrame, SendFrame, SubscribeFrame, UnsubscribeFrame,
};

/// The session of one connection: how far it is, and what its frames have opened. In contracts it is what it holds. The
/// topics' names aren't its own: each step is lent them.
pub struct Session {
    alloc: Global,
    phase: Phase,
    subscriptions: Subscriptions,
    transactions: Opened<Draft>,
    /// Which of the names its frames named last.
    found: FoundLast,
}

impl Drop for Session {
    /// Written out, so that letting a session go is one call for the prover wherever it happens.
    fn drop(self) {
        let Session {
            alloc: _,
            phase: _,
            subscriptions,
            transactions,
            found: _,
        } = self;
        drop(subscriptions);
        drop(transactions);
    }
}

impl Model for Session {
    ghost use Rattle.stomp_session.specs.Open.{SessionState};
    ghost use Rattle.stomp_session.specs.Inner.Sound.{IsSoundSession};

    ghost Value = { SessionState };

    ghost view = { λ s. record {
      phase = s.phase;
      subscriptions = s.subscriptions.topics;
      parts = s.subscriptions.parts;
      transactions = s.transactions;
    } };

    ghost invariant = { λ s.
        IsSoundSession s.phase s.subscriptions.topics s.subscriptions.parts s.transactions };
}

/// Whether the frame has an ack of another mode than auto.
fn has_other_ack(frame: &RawFrame) -> bool
    ensures { result ≡ has_other_ack frame.now }
{
    match frame.headers.first(b"ack") {
        Some(ack) => ack != b"auto".as_slice(),
        None => false,
    }
}

/// Whether the first header `part` of a SUBSCRIBE is `yes`.
fn wants_parts(frame: &RawFrame) -> bool
    ensures { result ≡ wants_parts frame.now }
{
    match frame.headers.first(b"part") {
        Some(part) => part == b"yes".as_slice(),
        None => false,
    }
}

/// A copy of the receipt that a SEND asks for, whose headers are moved whole.
fn receipt(alloc: Global, headers: &Headers) -> Result<Option<Octets>, NoMemory>
    ensures value { IfOk result (λ receipt. receipt ≡ first_of (codes "receipt") headers.now) }
    ensures text { IfOk result (λ receipt. IfSome receipt IsText) }
{
    match headers.first(b"receipt") {
        Some(receipt) => Ok(Some(Octets::from_slice(alloc, receipt)?)),
        None => Ok(None),
    }
}

/// The transaction of a SEND outside a transaction. Its headers and body are returned when there is no memory.
fn single(
    alloc: Global,
    topic: Topic,
    headers: Headers,
    body: Octets,
) -> Result<Action, (Headers, Octets)>
    ensures ok { IfOk result
        (λ action. action ≡ actions.Commit (record { topic = topic; headers = headers; body = body } ∷ [])) }
    ensures back { IfErr result (λ refused. refused ≡ (headers, body)) }
{
    match Txn::single(alloc, topic, headers, body) {
        Ok(txn) => Ok(Action::Commit(txn)),
        Err((headers, body, NoMemory)) => Err((headers, body)),
    }
}

impl Session {
    /// A session before its first frame. It takes no memory.
    pub fn new(alloc: Global) -> Session
        ensures { (names : List (List ℕ)) → StandsFor result names [] }
    {
        Session {
            alloc,
            phase: Phase::New,
            subscriptions: Subscriptions::new(alloc),
            transactions: Opened::new(alloc),
            found: FoundLast::new(),
        }
    }

    /// Closes it for a cause from outside: its open subscriptions end, and its open transactions are
    /// aborted. It takes no memory.
    pub fn end(&mut self)
        ensures { self.new ≡ after_close self.old }
    {
        self.phase = Phase::Closed;
        self.subscriptions.clear();
        self.transactions.clear();
    }

    /// Whether the open subscription of this id asked that each MESSAGE say which of its transaction's MESSAGEs at its
    /// topic it is: its SUBSCRIBE has `part:yes` (our own header, not the standard's; the first one counts). Not where
    /// none of this id is open.
    pub fn asks_parts(&self, id: &[u8]) -> bool
        ensures { result ≡ asks_parts id.now self.now }
    {
        self.subscriptions.asks_parts(id)
    }

    /// Whether this is one of the names. It is no search where its frames named it last, or before that.
    #[inline(always)]
    pub fn knows(&self, names: &Names, name: &[u8]) -> bool
        ensures { result ≡ is_known name.now names.now }
    {
        names.find_by(&self.found, name).is_some()
    }

    /// What a destination names: 76 where no topic has the name and none is made for it, 75 where none has it and there are
    /// 1,024. It changes nothing, and takes no memory.
    #[inline(always)]
    fn destination(&self, names: &Names, name: &[u8]) -> Result<Destination, SessionFault>
        ensures topic { IfOk result (λ d. d.topic.0 ≡ index_of name.now names.now) }
        ensures is_new { IfOk result (λ d. d.is_new ≡ not (is_known name.now names.now)) }
        ensures few { IfOk result (λ d. d.is_new ≡ true → length names.now < max_topics) }
        ensures ok { OnOk result (destination_fault name.now names.now ≡ None) }
        ensures err { IfErr result (λ fault. destination_fault name.now names.now ≡ Some fault) }
    {
        names.judge(&self.found, name)
    }

    /// What the SENDs of its open transactions weigh: their octets, and 128 for each of them and of their headers. 2^64 - 1
    /// where they weigh more.
    pub fn open_weight(&self) -> u64
        ensures { result ≡ min (open_weight self.now) (2 ^ 64 - 1) }
    {
        self.transactions.weight()
    }

    /// Whether it is connected: 60 before a CONNECT, 73 where it is closed.
    fn connected(&self) -> Result<(), SessionFault>
        ensures ok { OnOk result (self.now.phase ≡ phases.Connected) }
        ensures err { IfErr result (λ fault. Some fault ≡ first_refusal
            ((is_closed self.now.phase, faults.Closed) ∷ (is_new self.now.phase, faults.NotConnected) ∷ [])) }
    {
        match self.phase {
            Phase::New => Err(SessionFault::NotConnected),
            Phase::Connected => Ok(()),
            Phase::Closed => Err(SessionFault::Closed),
        }
    }

    /// Judges a CONNECT or a STOMP, and connects.
    fn connect(&mut self, frame: &ConnectFrame) -> Result<Judged, SessionFault>
        ensures { (names : List (List ℕ))
            → Handles commands.Connect (held_with names self.old) frame.now.raw result self.new }
    {
        match self.phase {
            Phase::New => {}
            Phase::Connected => return Err(SessionFault::AlreadyConnected),
            Phase::Closed => return Err(SessionFault::Closed),
        }
        if !has_version(b"1.2", frame.accept_version()) {
            return Err(SessionFault::NoVersion);
        }
        self.phase = Phase::Connected;
        Ok(Judged::Connected)
    }

    /// Judges a SUBSCRIBE, and opens its subscription; where its topic is new, its name is added last.
    fn subscribe(
        &mut self,
        frame: &SubscribeFrame,
        names: &mut Names,
    ) -> Result<Judged, SessionFault>
        ensures handles { Handles commands.Subscribe (held_with names.old self.old) frame.now.raw
            result self.new }
        ensures named { OnOk result
            (names.new ≡ with_name (field (codes "destination") frame.now.raw) names.old) }
        ensures unnamed { OnErr result (names.new ≡ names.old) }
    {
        self.connected()?;
        if has_other_ack(&frame.raw) {
            return Err(SessionFault::AckMode);
        }
        let Destination { topic, is_new } = self.destination(names, frame.destination())?;
        let id = frame.id();
        if self.subscriptions.is_open(id) {
            return Err(SessionFault::SubIdInUse);
        }
        if self.subscriptions.is_full() {
            return Err(SessionFault::TooManySubs);
        }
        self.subscriptions.open(id, topic, wants_parts(&frame.raw))?;
        if is_new {
            names.add(frame.destination())?;
        }
        Ok(Judged::Subscribe(topic))
    }

    /// Judges an UNSUBSCRIBE, and ends its subscription.
    fn unsubscribe(&mut self, frame: &UnsubscribeFrame) -> Result<Judged, SessionFault>
        ensures { (names : List (List ℕ))
            → Handles commands.Unsubscribe (held_with names self.old) frame.now.raw result self.new }
    {
        self.connected()?;
        if !self.subscriptions.end(frame.id()) {
            return Err(SessionFault::NoSuchSub);
        }
        Ok(Judged::Unsubscribe)
    }

    /// Judges a DISCONNECT, and closes.
    fn disconnect(&mut self, _frame: &DisconnectFrame) -> Result<Judged, SessionFault>
        ensures { (names : List (List ℕ))
            → Handles commands.Disconnect (held_with names self.old) _frame.now.raw result self.new }
    {
        self.connected()?;
        self.end();
        Ok(Judged::Disconnect)
    }

    /// Judges a BEGIN, and opens its transaction.
    fn begin(&mut self, frame: &BeginFrame) -> Result<Judged, SessionFault>
        ensures { (names : List (List ℕ))
            → Handles commands.Begin (held_with names self.old) frame.now.raw result self.new }
    {
        self.connected()?;
        let name = frame.transaction();
        if self.transactions.is_open(name) {
            return Err(SessionFault::TxnInUse);
        }
        if self.transactions.is_full() {
            return Err(SessionFault::TooManyTxns);
        }
        self.transactions.open(name, Draft::new(self.alloc))?;
        Ok(Judged::Nothing)
    }

    /// Judges a COMMIT, and takes its transaction out.
    fn commit(&mut self, frame: &CommitFrame) -> Result<Judged, SessionFault>
        ensures { (names : List (List ℕ))
            → Handles commands.Commit (held_with names self.old) frame.now.raw result self.new }
    {
        self.connected()?;
        let Some(draft) = self.transactions.take(frame.transaction()) else {
            return Err(SessionFault::NoSuchTxn);
        };
        match draft.seal() {
            Ok(Some(txn)) => Ok(Judged::Commit(txn)),
            Ok(None) => Ok(Judged::Nothing),
            Err((_, NoMemory)) => Err(SessionFault::NoMemory),
        }
    }

    /// Judges an ABORT, and drops its transaction.
    fn abort(&mut self, frame: &AbortFrame) -> Result<Judged, SessionFault>
        ensures { (names : List (List ℕ))
            → Handles commands.Abort (held_with names self.old) frame.now.raw result self.new }
    {
        self.connected()?;
        if self.transactions.take(frame.transaction()).is_none() {
            return Err(SessionFault::NoSuchTxn);
        }
        Ok(Judged::Nothing)
    }

    /// Judges a SEND: where it goes, and the receipt that it asks for.
    fn accepts_send(
        &self,
        frame: &SendFrame,
        names: &Names,
    ) -> Result<(Route, Option<Octets>), SessionFault>
        ensures accepted { OnOk result
            (refusal_by commands.Send (held_with names.now self.now) frame.now.raw ≡ None) }
        ensures route { IfOk result (λ sent. IsRouteOf (held_with names.now self.now) frame.now.raw sent.0) }
        ensures receipt { IfOk result (λ sent. sent.1 ≡ first_of (codes "receipt") frame.now.raw.headers) }
        ensures text { IfOk result (λ sent. IfSome sent.1 IsText) }
        ensures refused { IfErr result
            (RefusesAs commands.Send (held_with names.now self.now) frame.now.raw) }
    {
        self.connected()?;
        let Destination { topic, is_new } = self.destination(names, frame.destination())?;
        let transaction = match frame.raw.headers.first(b"transaction") {
            Some(name) => Some(self.transactions.index_for_send(name)?),
            None => None,
        };
        let receipt = receipt(self.alloc, &frame.raw.headers)?;
        let route = Route {
            topic,
            is_new,
            transaction,
        };
        Ok((route, receipt))
    }

    /// Judges a SEND, and moves its content to where it goes; where its topic is new, its name is added first. A
    /// refused one is returned as it came, and the names are what they were.
    #[tactic(auto, using(crate::proofs::Later::taken_back))]
    fn send(
        &mut self,
        frame: SendFrame,
        names: &mut Names,
    ) -> Result<Step, (SendFrame, SessionFault)>
        ensures accepted { IfOk result
            (λ step. AcceptsAs commands.Send (held_with names.old self.old) frame.raw step self.new) }
        ensures texts { IfOk result AreTexts }
        ensures refused { IfErr result
            (λ e. RefusesAs commands.Send (held_with names.old self.old) frame.raw e.1) }
        ensures back { IfErr result (λ e. e.0 ≡ frame) }
        ensures named { OnOk result
            (names.new ≡ with_name (field (codes "destination") frame.raw) names.old) }
        ensures unnamed { OnErr result (names.new ≡ names.old) }
    {
        let (route, receipt) = match self.accepts_send(&frame, names) {
            Ok(accepted) => accepted,
            Err(fault) => return Err((frame, fault)),
        };
        if route.is_new && names.add(frame.destination()).is_err() {
            return Err((frame, SessionFault::NoMemory));
        }
        let RawFrame {
            command,
            headers,
            body,
        } = frame.raw;
        let sent = match route.transaction {
            Some(index) => self
                .transactions
                .add(index, route.topic, headers, body)
                .map(|()| Action::Nothing),
            None => single(self.alloc, route.topic, headers, body),
        };
        match sent {
            Ok(action) => Ok(Step { action, receipt }),
            Err((headers, body)) => {
                if route.is_new {
                    names.take_back();
                }
                let raw = RawFrame {
                    command,
                    headers,
                    body,
                };
                Err((SendFrame { raw }, SessionFault::NoMemory))
            }
        }
    }

    /// Judges another frame than a SEND, and does what it asks of the session; the names are what they were where it is
    /// refused.
    #[inline(never)]
    fn judge(&mut self, frame: &ClientFrame, names: &mut Names) -> Result<Judged, SessionFault>
        requires { is_send_frame frame.now ≡ false }
        ensures handles { Handles (raw_of frame.now).command (held_with names.old self.old)
            (raw_of frame.now) result self.new }
        ensures named { OnOk result (names.new ≡ with_destination (raw_of frame.now) names.old) }
        ensures unnamed { OnErr result (names.new ≡ names.old) }
    {
        match frame {
            ClientFrame::Send(_) => unreachable!(),
            ClientFrame::Connect(frame) => self.connect(frame),
            ClientFrame::Subscribe(frame) => self.subscribe(frame, names),
            ClientFrame::Unsubscribe(frame) => self.unsubscribe(frame),
            ClientFrame::Begin(frame) => self.begin(frame),
            ClientFrame::Commit(frame) => self.commit(frame),
            ClientFrame::Abort(frame) => self.abort(frame),
            ClientFrame::Disconnect(frame) => self.disconnect(frame),
        }
    }

    /// A refusal closes the session.
    fn refused(
        &mut self,
        refused: ClientFrame,
        fault: SessionFault,
    ) -> Result<Step, (ClientFrame, SessionFault)>
        ensures refused { result ≡ Err (refused, fault) }
        ensures after { self.new ≡ after_close self.old }
    {
        self.end();
        Err((refused, fault))
    }

    /// Takes a frame: what the connection has to do for it, or the first of its refusals with the frame as it came.
    ///
    /// `names` are the names of all topics so far. A SUBSCRIBE or a SEND to a destination that isn't among them adds
    /// it, as the next topic's, where it is accepted; a refused frame leaves them as they were.
    ///
    /// 73 where the session is closed. A CONNECT is refused by 61 and 62, any other frame before it by 60.
    /// SUBSCRIBE: 68, 76, 75, 63, 69. UNSUBSCRIBE: 64. BEGIN: 65, 70. SEND: 76, 75, 66, 71. COMMIT and ABORT: 66. Out
    /// of memory, 72, comes last, and only at SUBSCRIBE, BEGIN, SEND and a COMMIT whose transaction has SENDs. Each
    /// refusal but 73 closes the session, as DISCONNECT does: its open subscriptions end, and its open transactions
    /// are aborted.
    pub fn step(
        &mut self,
        frame: ClientFrame,
        names: &mut Names,
    ) -> Result<Step, (ClientFrame, SessionFault)>
        ensures accepted { IfOk result (λ step. (frames : List Frame) → StandsFor self.old names.old frames
            → Accepts (held_after names.old frames) (raw_of frame) step
            × StandsFor self.new names.new (frames ++ raw_of frame ∷ [])) }
        ensures named { OnOk result (names.new ≡ with_destination (raw_of frame) names.old) }
        ensures texts { IfOk result AreTexts }
        ensures refused { IfErr result (λ e. (frames : List Frame) → StandsFor self.old names.old frames
            → Refuses (held_after names.old frames) (raw_of frame) e.1) }
        ensures back { IfErr result (λ e. e.0 ≡ frame) }
        ensures closes { OnErr result (self.new ≡ after_close self.old) }
        ensures unnamed { OnErr result (names.new ≡ names.old) }
        ensures stays_closed { self.old.phase ≡ phases.Closed
            → (result ≡ Err (frame, faults.Closed)) × (self.new ≡ self.old) }
    {
        if let Phase::Closed = self.phase {
            return Err((frame, SessionFault::Closed));
        }
        match frame {
            ClientFrame::Send(frame) => match self.send(frame, names) {
                Ok(step) => Ok(step),
                Err((frame, fault)) => self.refused(ClientFrame::Send(frame), fault),
            },
            other => match self.judge(&other, names) {
                Ok(judged) => Ok(judged.into_step(other.into_raw())),
                Err(fault) => self.refused(other, fault),
            },
        }
    }
}
