//! What one connection of the server does, without its socket.

ghost use Rattle.std.specs.Prelude.{◌≡◌, ◌<◌, ◌≤◌, ◌&&◌, ◌+◌, ◌-◌, ◌^◌, min, Bool, true, false, List, [], ◌∷◌, map, length, nat_lt, slice_get, None, IfSome, IfOk, IfErr, OnOk, OnErr};
ghost use Rattle.std.specs.List.{position};
ghost use Rattle.std.specs.Option.{is_none, is_some, option_map};
ghost use Rattle.stomp_frame.specs.declared.fault.FrameFault.{FrameFault};
ghost use Rattle.stomp_frame.specs.declared.raw_frame.RawFrame.{RawFrame};
ghost use Rattle.stomp_frame.specs.ClientFrames.{raw_of};
ghost use Rattle.broker_server.specs.BrokerRows.{AsksInOrder, BrokerRow};
ghost use Rattle.broker_server.specs.Conversations.{PutsFrames, EndsByError, EndsSaying, Connects, Begins, EndsSub, CommitsSends, CommitsBy, Acts, Answers, Concludes, IsLost, is_waiting};
ghost use Rattle.broker_server.specs.ConversationFaults.{tells_version};
ghost use Rattle.broker_server.specs.Delivering.{DeliversRound, may_read, writes_on};
ghost use Rattle.delivery.specs.Core.Outcomes.{is_any};
ghost use Rattle.stomp_session.specs.Open.{IsKnownTo};
ghost use Rattle.broker_server.specs.Hearing.{AcceptsFrame, DeniesFrame, Finishes, GoesOn, GoesOnHalfway, HearsOrKeeps, IsNewTo, Rests, TakesAll, TakesFrame, TakesFrames, kept_by};
ghost use Rattle.broker_server.specs.Holding.{IsRefusedMemory, MakesRoom, held_weight, uncommitted};
ghost use Rattle.broker_server.specs.Wires.{GoesOut};
ghost use Rattle.broker_server.specs.Conversations.{closed, IsNew, closing_rows, gate_rows, is_of_id, next_without, replies};
ghost use Rattle.stomp_session.specs.declared.action.Action.TheVariants as actions;
ghost use Rattle.broker_server.specs.declared.conversation.held.Held.TheVariants as helds;

mod broker_calls;
mod closing;
mod conversation_fault;
mod drained;
mod exit;
mod extent;
mod held;
mod ignored;
mod ignored_so_far;
mod item_rest;
mod open_sub;
mod taking;

use crate::draining::drain_wire;
use crate::program_fault::ProgramFault;
use crate::wire::Wire;
pub use broker_calls::BrokerCalls;
use closing::end_subs;
pub use conversation_fault::ConversationFault;
use drained::Taking;
pub use exit::Exit;
use extent::Extent;
use held::Held;
pub use ignored::Ignored;
use ignored_so_far::IgnoredSoFar;
use mcast_txn::{Topic, Txn};
use open_sub::OpenSub;
use sender_gate::Gate;
use std::alloc::Global;
use std::io::Write;
use std::marker::Model;
use std::mem;
use stomp_frame::{
    ClientFrame, FrameFault, FrameReader, Limits, NoMemory, Octets, RawFrame, ServerFrame, classify,
};
use stomp_session::{Action, Names, Session, Step};
use taking::drain_queues;

/// From as many octets that wait on, nothing more is read (our choice).
const MOST: usize = 1_048_576;

/// One connection of the server, without its socket. In contracts it is what came and isn't read yet, its session, its
/// sender's gate, its open subscriptions, what it goes on with later, the octets that wait to be written to it, why it
/// leaves, once it does, whether a reply was left out, whether items may be left in its queues, whether one is half out,
/// how many each queue holds, which of them is looked at first, and the flags of those that may have something.
pub struct Conversation<C: BrokerCalls> {
    alloc: Global,
    reader: FrameReader,
    session: Session,
    /// The names of the topics that it knows, the first of those of all.
    names: Names,
    /// The gate of its sender, from its CONNECT to its end.
    gate: Option<Gate>,
    subs: Vec<OpenSub<C>>,
    /// The accepted COMMIT, or SEND outside a transaction, that waits for room, or whose answer is owed, if one is.
    held: Option<Held>,
    wire: Wire,
    /// Why it leaves, once it does.
    exit: Option<Exit>,
    /// Whether a reply was left out, since there was no memory for it.
    cut: bool,
    /// Whether items may be left in the queues.
    more: bool,
    /// Whether an item is half out: the rest of it comes before anything else.
    half: bool,
    /// The index of the subscription whose queue is taken next.
    next: usize,
    /// How many items a queue holds at most.
    capacity: u64,
    /// The flags of the subscriptions whose queues may have something, as far as the broker was asked.
    flags: u64,
    /// How many SENDs it committed, for the server's figures: no contract speaks of it.
    sends: u64,
    /// What it asked for that is ignored, for the log: no contract speaks of it.
    ignored: IgnoredSoFar,
}

impl<C: BrokerCalls> Drop for Conversation<C> {
    /// Written out, so that letting a conversation go is one call for the prover wherever it happens.
    fn drop(self) {
        let Conversation {
            alloc: _,
            reader,
            session,
            names,
            gate,
            subs,
            held,
            wire,
            exit: _,
            cut: _,
            more: _,
            half: _,
            next: _,
            capacity: _,
            flags: _,
            sends: _,
            ignored: _,
        } = self;
        drop(reader);
        drop(session);
        drop(names);
        drop(gate);
        drop(subs);
        drop(held);
        drop(wire);
    }
}

impl<C: BrokerCalls> Model for Conversation<C> {
    ghost use Rattle.broker_server.specs.Conversations.{ConversationState};

    ghost Value = { ConversationState };

    ghost view = { λ c. record {
      reader = c.reader;
      session = c.session;
      names = c.names;
      gate = c.gate;
      subs = c.subs.items;
      held = c.held;
      wire = c.wire;
      exit = c.exit;
      cut = c.cut;
      more = c.more;
      half = c.half;
      capacity = c.capacity;
      next = c.next;
      flags = c.flags;
    } };
}

impl<C: BrokerCalls> Conversation<C> {
    /// A connection that has said nothing yet, of a broker whose queues have this capacity. It takes no memory yet.
    pub fn new(alloc: Global, capacity: u64) -> Conversation<C>
        ensures { IsNew capacity result }
    {
        Conversation {
            alloc,
            reader: FrameReader::new(alloc, Limits::standard()),
            session: Session::new(alloc),
            names: Names::new(alloc),
            gate: None,
            subs: Vec::new(alloc),
            held: None,
            wire: Wire::new(alloc),
            exit: None,
            cut: false,
            more: false,
            half: false,
            next: 0,
            capacity,
            flags: 0,
            sends: 0,
            ignored: IgnoredSoFar::new(),
        }
    }

    /// The name of a topic, where the connection knows it.
    pub fn name(&self, topic: Topic) -> Option<&[u8]>
        ensures { option_map (λ name. name.now) result ≡ slice_get self.now.names topic.0 }
    {
        self.names.name(topic)
    }

    /// The open subscription at this index, if there is one.
    pub(crate) fn sub_at(&self, at: usize) -> Option<&C::Sub>
        ensures { option_map (λ sub. C.name sub.now) result
            ≡ option_map (λ o. o.sub) (slice_get self.now.subs at) }
    {
        match self.subs.get(at) {
            Some(open) => Some(&open.sub),
            None => None,
        }
    }

    /// How many SENDs it committed.
    pub(crate) fn sends(&self) -> u64 {
        self.sends
    }

    /// What it asked for so far that is ignored.
    pub(crate) fn ignored(&self) -> Ignored {
        self.ignored.asked
    }

    /// Notes what a frame asks for that is ignored.
    fn note_ignored(&mut self, frame: &RawFrame)
        ensures { self.new ≡ self.old }
    {
        self.ignored.look(frame);
    }

    /// What waits to be written.
    pub fn wire(&self) -> &Wire
        ensures { result.now ≡ self.now.wire }
    {
        &self.wire
    }

    /// Writes what waits, as `drain_wire` does, and returns how many octets went out.
    pub fn drain<W: Write>(&mut self, writer: &mut W) -> Result<usize, ProgramFault>
        ensures out { GoesOut self.old.wire self.new.wire (W.contents writer.old) (W.contents writer.new)
            result }
        ensures same { self.new ≡ record self.old { wire = self.new.wire } }
    {
        drain_wire(&mut self.wire, writer)
    }

    /// Drops what waits to be written.
    pub(crate) fn drop_waiting(&mut self)
        ensures { self.new ≡ record self.old { wire = [] } }
    {
        let waits = self.wire.len();
        self.wire.wrote(waits);
    }

    /// Why it leaves, once it does: it is closed when what waits is written.
    pub fn exit(&self) -> Option<Exit>
        ensures { result ≡ self.now.exit }
    {
        self.exit
    }

    /// Whether it leaves.
    pub fn is_leaving(&self) -> bool
        ensures { result ≡ is_some self.now.exit }
    {
        self.exit.is_some()
    }

    /// Whether a reply was left out, since there was no memory for it: the ERROR by which it leaves, or the RECEIPT of
    /// its DISCONNECT.
    pub fn is_cut(&self) -> bool
        ensures { result ≡ self.now.cut }
    {
        self.cut
    }

    /// Whether its sender is claimed: it is from its CONNECT to its end.
    pub(crate) fn is_connected(&self) -> bool
        ensures { result ≡ is_some self.now.gate }
    {
        self.gate.is_some()
    }

    /// Whether a transaction waits for room, or its answer is owed behind an item that is half out: no frame behind it is
    /// taken before `go_on` has done with it.
    pub fn is_held(&self) -> bool
        ensures { result ≡ is_some self.now.held }
    {
        self.held.is_some()
    }

    /// Whether a transaction waits for room.
    pub fn waits_for_room(&self) -> bool
        ensures { result ≡ is_waiting self.now.held }
    {
        match &self.held {
            Some(Held::Waits(_, _)) => true,
            Some(Held::Owes(_, _)) => false,
            None => false,
        }
    }

    /// Whether more may be read: it doesn't leave, nothing is held, no item is half out, and fewer than 1,048,576 octets
    /// wait to be written.
    pub fn may_read(&self) -> bool
        ensures { result ≡ may_read self.now }
    {
        self.exit.is_none() && self.held.is_none() && !self.half && self.wire.len() < MOST
    }

    /// Whether items, or MESSAGEs of one, may be left in the queues of its subscriptions, since too many octets waited:
    /// `deliver` is to be called again once some were written.
    pub fn has_more(&self) -> bool
        ensures { result ≡ self.now.more }
    {
        self.more
    }

    /// How many octets it holds that aren't committed: those that weren't read yet, and what its open transactions weigh,
    /// and the one that waits for room. 2^64 - 1 where it holds more.
    pub fn uncommitted(&self) -> u64
        ensures { result ≡ min (uncommitted self.now) (2 ^ 64 - 1) }
    {
        let unread = self.reader.unread() as u64;
        unread
            .saturating_add(self.session.open_weight())
            .saturating_add(held_weight(&self.held))
    }

    /// Takes a piece that came, and does what each frame that it ends asks for. Once it leaves, the rest is dropped;
    /// while a transaction waits for room, what is behind it is kept; and while an item is half out, so is all, which
    /// `go_on` then takes. Where the broker doesn't grant the memory for it, the connection leaves, as where there is none.
    pub fn hear(&mut self, calls: &mut C, piece: &[u8])
        ensures hears { (asked : List BrokerRow) × AsksInOrder C.called calls.old asked calls.new
            × HearsOrKeeps piece.now self.old asked self.new }
        ensures asks { self.old.exit ≡ None → (granted : Bool)
            × C.grants calls.old (min (uncommitted self.old + length piece.now) (2 ^ 64 - 1)) granted
            × (granted ≡ false → (asked : List BrokerRow) × IsRefusedMemory self.old asked self.new) }
    {
        if self.exit.is_some() {
            return;
        }
        if !self.is_granted(calls, piece) {
            self.fail(calls, ConversationFault::NoMemory, None);
            return;
        }
        match self.reader.feed(piece) {
            Ok(()) if self.half => self.keep(),
            Ok(()) => self.hear_all(calls),
            Err(NoMemory) => self.fail(calls, ConversationFault::NoMemory, None),
        }
    }

    /// Whether the broker grants the memory for this piece, beside what it holds.
    fn is_granted(&self, calls: &C, piece: &[u8]) -> bool
        ensures { C.grants calls.now (min (uncommitted self.now + length piece.now) (2 ^ 64 - 1)) result }
    {
        calls.may_hold(self.uncommitted().saturating_add(piece.len() as u64))
    }

    /// It makes room for others: it leaves by `72 NoMemory`, unless it leaves already.
    pub fn make_room(&mut self, calls: &mut C)
        ensures { (asked : List BrokerRow) × AsksInOrder C.called calls.old asked calls.new
            × MakesRoom self.old asked self.new }
    {
        if self.exit.is_none() {
            self.fail(calls, ConversationFault::NoMemory, None);
        }
    }

    /// What came is kept while an item is half out: it is heard behind that.
    fn keep(&mut self)
        ensures { self.new ≡ record self.old { held = kept_by self.old.held } }
    {
        if self.held.is_none() {
            self.held = Some(Held::Owes(Ok(()), None));
        }
    }

    /// Asks again for the room of the transaction that waits for it, if one does. Where there is some, it is committed
    /// and answered, and the frames behind it that came are taken. While an item is half out, the answer is owed, and
    /// given, before those frames are taken, by the first call behind the item.
    pub fn go_on(&mut self, calls: &mut C)
        ensures { (asked : List BrokerRow) × AsksInOrder C.called calls.old asked calls.new
            × GoesOn self.old asked self.new }
    {
        let Some(held) = self.held.take() else {
            return;
        };
        if self.half {
            self.go_on_halfway(calls, held);
            return;
        }
        self.finish(calls, held);
        self.hear_all(calls);
    }

    /// Asks for room while an item is half out: where there is some, the transaction is committed at once, as others may
    /// wait behind it, and its answer is owed.
    fn go_on_halfway(&mut self, calls: &mut C, held: Held)
        ensures { (asked : List BrokerRow) × AsksInOrder C.called calls.old asked calls.new
            × GoesOnHalfway held self.old asked self.new }
    {
        match held {
            Held::Waits(txn, receipt) => match calls.reserve(&txn) {
                Some(room) => {
                    let came_to = self.commit(calls, txn, room);
                    self.hold(Held::Owes(came_to, receipt));
                }
                None => {
                    self.hold(Held::Waits(txn, receipt));
                }
            },
            Held::Owes(done, receipt) => self.hold(Held::Owes(done, receipt)),
        }
    }

    /// Commits and answers what waited for room, or holds it again; or gives the answer that is owed.
    fn finish(&mut self, calls: &mut C, held: Held)
        ensures { (asked : List BrokerRow) × AsksInOrder C.called calls.old asked calls.new
            × Finishes held self.old asked self.new }
    {
        match held {
            Held::Waits(txn, receipt) => self.send(calls, txn, receipt),
            Held::Owes(done, receipt) => self.conclude(calls, done, false, &receipt),
        }
    }

    /// Takes the frames that its reader has, and does what they ask for, until it leaves or a transaction waits.
    fn hear_all(&mut self, calls: &mut C)
        ensures { (asked : List BrokerRow) × AsksInOrder C.called calls.old asked calls.new
            × TakesAll self.old asked self.new }
    {
        'frames: loop {
            if self.exit.is_some() || self.held.is_some() {
                return;
            }
            if !self.hear_next(calls) {
                return;
            }
        }
    }

    /// Takes the next frame; whether there was one.
    fn hear_next(&mut self, calls: &mut C) -> bool
        requires open { self.old.exit ≡ None }
        requires free { self.old.held ≡ None }
        ensures took { result ≡ true → (asked : List BrokerRow)
            × AsksInOrder C.called calls.old asked calls.new
            × (f : RawFrame) × TakesFrames (f ∷ []) self.old asked self.new }
        ensures rests { result ≡ false → (asked : List BrokerRow)
            × AsksInOrder C.called calls.old asked calls.new
            × Rests self.old asked self.new }
    {
        match self.reader.next(self.alloc) {
            Ok(Some(frame)) => {
                self.take_frame(calls, frame);
                true
            }
            Ok(None) => false,
            Err(fault) => {
                if !is_idle(&self.reader, fault) {
                    self.fail(calls, ConversationFault::of_reader(fault), None);
                }
                false
            }
        }
    }

    /// Takes a frame by the case table and the session, and does what it asks for.
    fn take_frame(&mut self, calls: &mut C, frame: RawFrame)
        ensures { (asked : List BrokerRow) × AsksInOrder C.called calls.old asked calls.new
            × TakesFrame frame self.old asked self.new }
    {
        self.note_ignored(&frame);
        let frame = match classify(frame) {
            Ok(frame) => frame,
            Err((frame, fault)) => {
                let fault = ConversationFault::from(fault);
                let version = fault.says_version(Some(&frame));
                self.fail_saying(calls, version, fault, frame.receipt());
                return;
            }
        };
        match self.judge(calls, frame) {
            Ok(step) => self.act(calls, step),
            Err((frame, fault)) => self.fail(calls, fault, frame.receipt()),
        }
    }

    /// Has the session take a frame: by the names that it knows, or, where its destination is none of them, by all.
    fn judge(
        &mut self,
        calls: &mut C,
        frame: ClientFrame,
    ) -> Result<Step, (ClientFrame, ConversationFault)>
        ensures back { IfErr result (λ e. e.0 ≡ frame) }
        ensures accepted { IfOk result (λ step. (asked : List BrokerRow)
            × AsksInOrder C.called calls.old asked calls.new
            × AcceptsFrame (raw_of frame) step self.old asked self.new) }
        ensures refused { IfErr result (λ e. (asked : List BrokerRow)
            × AsksInOrder C.called calls.old asked calls.new
            × DeniesFrame (raw_of frame) e.1 self.old asked self.new) }
    {
        if is_known(&self.session, &self.names, &frame) {
            match self.session.step(frame, &mut self.names) {
                Ok(step) => return Ok(step),
                Err((frame, fault)) => return Err((frame, ConversationFault::from(fault))),
            }
        }
        match calls.step(&mut self.session, frame, &mut self.names) {
            Ok(step) => return Ok(step),
            Err((frame, fault)) => return Err((frame, fault)),
        }
    }

    /// Does what an accepted frame asks for, and answers it; a transaction that finds no room is held.
    #[inline(always)]
    fn act(&mut self, calls: &mut C, step: Step)
        ensures { (asked : List BrokerRow) × AsksInOrder C.called calls.old asked calls.new
            × Acts step self.old asked self.new }
    {
        let Step { action, receipt } = step;
        match action {
            Action::Connected(client) => {
                let done = self.connect(calls, client);
                self.conclude(calls, done, true, &receipt);
            }
            Action::Nothing => self.answer(calls, false, &receipt),
            Action::Subscribe(id, topic) => {
                let done = self.subscribe(calls, id, topic);
                self.conclude(calls, done, false, &receipt);
            }
            Action::Unsubscribe(id) => {
                self.unsubscribe(calls, id);
                self.answer(calls, false, &receipt);
            }
            Action::Commit(txn) => self.send(calls, txn, receipt),
            Action::Disconnect => {
                self.close(calls, Exit::Disconnect);
                self.answer(calls, false, &receipt);
            }
        }
    }

    /// A COMMIT, or a SEND outside a transaction: commits the transaction, and answers it, or holds it where it finds
    /// no room.
    #[inline(always)]
    fn send(&mut self, calls: &mut C, txn: Txn, receipt: Option<Octets>)
        ensures { (asked : List BrokerRow) × AsksInOrder C.called calls.old asked calls.new
            × Acts (record { action = actions.Commit txn; receipt = receipt }) self.old asked self.new }
    {
        match calls.reserve(&txn) {
            Some(room) => {
                let done = self.commit(calls, txn, room);
                self.conclude(calls, done, false, &receipt);
            }
            None => self.hold(Held::Waits(txn, receipt)),
        }
    }

    /// It goes on with this later.
    fn hold(&mut self, held: Held)
        ensures { self.new ≡ record self.old { held = Some held } }
    {
        self.held = Some(held);
    }

    /// What follows an action: its answer, or the connection leaves by its fault.
    #[inline(always)]
    fn conclude(
        &mut self,
        calls: &mut C,
        done: Result<(), ConversationFault>,
        connects: bool,
        receipt: &Option<Octets>,
    )
        ensures { (asked : List BrokerRow) × AsksInOrder C.called calls.old asked calls.new
            × Concludes done (replies connects receipt.now) receipt.now self.old asked self.new }
    {
        match done {
            Ok(()) => self.answer(calls, connects, receipt),
            Err(fault) => self.refuse(calls, fault, receipt),
        }
    }

    /// Sends the answer to a frame that was accepted. Where there is no memory for it, the connection ends; the RECEIPT
    /// of a DISCONNECT is then left out.
    #[inline(always)]
    fn answer(&mut self, calls: &mut C, connects: bool, receipt: &Option<Octets>)
        ensures { (asked : List BrokerRow) × AsksInOrder C.called calls.old asked calls.new
            × Answers (replies connects receipt.now) self.old asked self.new }
    {
        match self.write_answer(connects, receipt) {
            Ok(()) => {}
            Err(NoMemory) if self.exit.is_none() => {
                self.fail(calls, ConversationFault::NoReply, None);
            }
            Err(NoMemory) => self.cut = true,
        }
    }

    /// Writes the answer to a frame: CONNECTED to a CONNECT, else the RECEIPT that it asks for.
    #[inline(always)]
    fn write_answer(&mut self, connects: bool, receipt: &Option<Octets>) -> Result<(), NoMemory>
        ensures ok { OnOk result (PutsFrames (replies connects receipt.now) self.old self.new) }
        ensures err { OnErr result (self.new ≡ self.old) }
        ensures some { OnErr result (is_any (replies connects receipt.now) ≡ true) }
    {
        if connects {
            return self.wire.put_frame(&ServerFrame::Connected);
        }
        match receipt {
            Some(id) => self
                .wire
                .put_frame(&ServerFrame::Receipt { id: id.as_slice() }),
            None => Ok(()),
        }
    }

    /// A CONNECT: claims its sender.
    fn connect(&mut self, calls: &mut C, client: Option<Octets>) -> Result<(), ConversationFault>
        ensures { (asked : List BrokerRow) × AsksInOrder C.called calls.old asked calls.new
            × Connects client self.old asked result self.new }
    {
        match calls.claim(slice_in(&client)) {
            Ok(gate) => {
                self.gate = Some(gate);
                Ok(())
            }
            Err(fault) => Err(ConversationFault::Claim(fault)),
        }
    }

    /// A SUBSCRIBE: begins a subscription.
    fn subscribe(
        &mut self,
        calls: &mut C,
        id: Octets,
        topic: Topic,
    ) -> Result<(), ConversationFault>
        ensures { (asked : List BrokerRow) × AsksInOrder C.called calls.old asked calls.new
            × Begins id topic self.old asked result self.new }
    {
        if self.subs.reserve(1).is_err() {
            return Err(ConversationFault::NoMemory);
        }
        match calls.subscribe(topic) {
            Ok(sub) => {
                let parts = self.session.asks_parts(id.as_slice());
                self.subs.push_reserved(OpenSub {
                    id,
                    parts,
                    topic,
                    sub,
                    run: 0,
                    until_lag: self.capacity,
                    lagged: false,
                    rest: None,
                });
                Ok(())
            }
            Err(fault) => Err(ConversationFault::Subscribe(fault)),
        }
    }

    /// An UNSUBSCRIBE: ends the subscription of this id.
    fn unsubscribe(&mut self, calls: &mut C, id: Octets)
        ensures { (asked : List BrokerRow) × AsksInOrder C.called calls.old asked calls.new
            × EndsSub id self.old asked self.new }
    {
        let Some(index) = index_of(self.subs.as_slice(), id.as_slice()) else {
            return;
        };
        let open = self.subs.remove(index);
        self.next = next_without(self.next, index);
        calls.unsubscribe(open.sub);
    }

    /// Commits a transaction by the room that was reserved for it; where none is begun, that is given back.
    fn commit(&mut self, calls: &mut C, txn: Txn, room: C::Room) -> Result<(), ConversationFault>
        ensures { (asked : List BrokerRow) × AsksInOrder C.called calls.old asked calls.new
            × CommitsSends txn self.old asked result self.new }
    {
        let Some(gate) = self.gate.take() else {
            calls.give_room_back(room);
            return Err(ConversationFault::NoMemory);
        };
        let sends = txn.len() as u64;
        let txn = calls.charged(txn);
        let (gate, done) = commit_by(self.alloc, calls, gate, txn, room);
        self.gate = Some(gate);
        self.count_sends(sends, done.is_ok());
        done
    }

    /// So many SENDs are counted where they were committed.
    fn count_sends(&mut self, count: u64, is_done: bool)
        ensures { self.new ≡ self.old }
    {
        if is_done {
            self.sends = self.sends.saturating_add(count);
        }
    }

    /// The connection is lost: what is open is ended, a transaction that waits for room is dropped, and nothing is
    /// written any more.
    pub fn lose(&mut self, calls: &mut C)
        ensures { (asked : List BrokerRow) × AsksInOrder C.called calls.old asked calls.new
            × IsLost self.old asked self.new }
    {
        if self.exit.is_none() {
            self.close(calls, Exit::Lost);
        }
    }

    /// Ends what is open: its subscriptions, and then its gate is given back. A transaction that waits for room is
    /// dropped, and so is an answer that is owed.
    fn close(&mut self, calls: &mut C, exit: Exit)
        ensures closed { self.new ≡ closed exit self.old }
        ensures rows { AsksInOrder C.called calls.old (closing_rows self.old) calls.new }
    {
        self.exit = Some(exit);
        self.held = None;
        self.more = false;
        self.half = false;
        self.session.end();
        let subs = mem::replace(&mut self.subs, Vec::new(self.alloc));
        end_subs(self.alloc, calls, subs);
        give_up(calls, self.gate.take());
    }

    /// Ends what is open, and then sends an ERROR, which is the last that is sent; out of memory it is left out. The
    /// fault is none of a frame's.
    fn fail(&mut self, calls: &mut C, fault: ConversationFault, receipt: Option<&[u8]>)
        ensures fails { EndsByError fault (option_map (λ id. id.now) receipt.entry) self.old self.new }
        ensures rows { AsksInOrder C.called calls.old (closing_rows self.old) calls.new }
    {
        self.fail_saying(calls, fault.says_version(None), fault, receipt);
    }

    /// The same, where the ERROR says which version is supported, or doesn't.
    fn fail_saying(
        &mut self,
        calls: &mut C,
        version: bool,
        fault: ConversationFault,
        receipt: Option<&[u8]>,
    )
        ensures fails { EndsSaying version fault (option_map (λ id. id.now) receipt.entry) self.old self.new }
        ensures rows { AsksInOrder C.called calls.old (closing_rows self.old) calls.new }
    {
        self.close(calls, Exit::Error(fault));
        let error = ServerFrame::Error {
            message: fault.title(),
            receipt,
            version,
        };
        match self.wire.put_frame(&error) {
            Ok(()) => {}
            Err(NoMemory) => self.cut = true,
        }
    }

    /// Fails by what an accepted frame asked for; the ERROR has the receipt that it asked for.
    fn refuse(&mut self, calls: &mut C, fault: ConversationFault, receipt: &Option<Octets>)
        ensures fails { EndsByError fault receipt.now self.old self.new }
        ensures rows { AsksInOrder C.called calls.old (closing_rows self.old) calls.new }
    {
        self.fail(calls, fault, slice_in(receipt));
    }

    /// Whether MESSAGEs of an item that is half out are written now.
    fn writes_on(&self) -> bool
        ensures { result ≡ writes_on self.now }
    {
        self.half && self.wire.may_take()
    }

    /// Takes what is there of each queue that may have something, as the broker says, and sends it, while few octets wait;
    /// whether something came of it. It begins with the rest of an item that is half out, and else behind the subscription where it stopped last, so that none
    /// waits for another for ever. Where an answer is owed behind that item, nothing else is taken. A subscription that has
    /// lagged ends the connection once all that it had accepted was taken, but not while a transaction waits for room: then
    /// by a later call.
    pub fn deliver(&mut self, calls: &mut C) -> bool
        ensures { (asked : List BrokerRow) × AsksInOrder C.called calls.old asked calls.new
            × DeliversRound self.old asked result self.new }
    {
        if self.exit.is_some() {
            return false;
        }
        let flags = self.flags | calls.take_flags();
        let extent = Extent::of(&self.held);
        let writes_on = self.writes_on();
        let queues = self.subs.as_mut_slice();
        let (drained, next) = drain_queues(
            calls,
            queues,
            flags,
            self.next,
            &mut self.wire,
            self.capacity,
            extent,
        );
        self.next = next;
        self.more = drained.end.is_stopped();
        self.half = drained.end.is_halfway();
        self.flags = drained.end.flags_left(extent, flags);
        if let Taking::Failed(fault) = drained.end {
            self.fail(calls, fault, None);
            return true;
        }
        drained.any || writes_on
    }
}

/// The index of the first of these subscriptions that has this id.
fn index_of<C: BrokerCalls>(subs: &[OpenSub<C>], id: &[u8]) -> Option<usize>
    ensures at { result ≡ position (is_of_id id.now) subs.now }
    ensures there { IfSome result (λ index. index < length subs.now) }
{
    subs.iter().position(|open| open.id.as_slice() == id)
}

/// Which index is next once the subscription at this one has gone: that of the same one, or of the one behind it.
fn next_without(next: usize, index: usize) -> usize
    ensures { result ≡ next_without index next }
{
    if index < next { next - 1 } else { next }
}

/// Gives the gate back, if there is one.
#[tactic(auto, using(crate::proofs::ConversationLemmas::asks_one))]
fn give_up<C: BrokerCalls>(calls: &mut C, gate: Option<Gate>)
    ensures { AsksInOrder C.called calls.old (gate_rows gate) calls.new }
{
    match gate {
        Some(gate) => calls.give_back(gate),
        None => {}
    }
}

/// The octets of a list, if there is one.
fn slice_in(octets: &Option<Octets>) -> Option<&[u8]>
    ensures { option_map (λ id. id.now) result ≡ octets.now }
{
    match octets {
        Some(octets) => Some(octets.as_slice()),
        None => None,
    }
}

/// What the transaction weighs that waits for room, if one does. 2^64 - 1 where it weighs more.
fn held_weight(held: &Option<Held>) -> u64
    ensures { result ≡ min (held_weight held.now) (2 ^ 64 - 1) }
{
    match held {
        Some(Held::Waits(txn, _)) => txn.weight(),
        Some(Held::Owes(_, _)) => 0,
        None => 0,
    }
}

/// Whether this fault of the reader is none to its peer: there was no memory, but nothing is unread.
fn is_idle(reader: &FrameReader, fault: FrameFault) -> bool
    ensures idle { result ≡ true → (fault ≡ FrameFault.NoMemory) × (reader.now.text ≡ []) }
    ensures due { result ≡ false → fault ≡ FrameFault.NoMemory → is_any reader.now.text ≡ true }
{
    matches!(fault, FrameFault::NoMemory) && reader.clean()
}

/// Whether the frame has no destination, or one of these names.
fn is_known(session: &Session, names: &Names, frame: &ClientFrame) -> bool
    ensures known { result ≡ true → IsKnownTo names.now (raw_of frame.now) }
    ensures unknown { result ≡ false → IsNewTo names.now (raw_of frame.now) }
{
    match frame {
        ClientFrame::Send(frame) => session.knows(names, frame.destination()),
        ClientFrame::Subscribe(frame) => session.knows(names, frame.destination()),
        _ => true,
    }
}

/// Begins the transaction as this gate's sender's, and commits it by this room; the gate comes back. Where it isn't
/// begun, the room is given back.
#[tactic(auto, using(broker_locks::proofs::Whole::begun_untouched))]
fn commit_by<C: BrokerCalls>(
    alloc: Global,
    calls: &mut C,
    gate: Gate,
    txn: Txn,
    room: C::Room,
) -> (Gate, Result<(), ConversationFault>)
    ensures { (asked : List BrokerRow) × AsksInOrder C.called calls.old asked calls.new
        × CommitsBy gate txn asked result.1 result.0 }
{
    let flying = match gate.begin(alloc, txn) {
        Ok(flying) => flying,
        Err((gate, txn, fault)) => {
            drop(txn);
            calls.give_room_back(room);
            return (gate, Err(ConversationFault::Begin(fault)));
        }
    };
    match calls.commit(flying, room) {
        Ok(gate) => (gate, Ok(())),
        Err((gate, fault)) => (gate, Err(ConversationFault::Commit(fault))),
    }
}
