//! What a connection's thread works at.

ghost use Rattle.std.specs.Prelude.{if◌then◌else◌, ◌≡◌, ◌<◌, ◌-◌, ◌==◌, ◌&&◌, nat_lt, nat_le, true, false, List, [], IfSome, None, Some, is_some};
ghost use Rattle.broker_server.specs.BrokerRows.{BrokerRow};
ghost use Rattle.broker_server.specs.Counts.{plus};
ghost use Rattle.broker_server.specs.Delivering.{DeliversRound, may_read};
ghost use Rattle.broker_server.specs.Sockets.{SocketReads, SocketWrites, octets_with};
ghost use Rattle.broker_server.specs.declared.serving.socket.Came.TheVariants.{Nothing};

use crate::conversation::{BrokerCalls, Conversation};
use crate::serving::activity::Activity;
use crate::serving::calls::Calls;
use crate::serving::moment::Moment;
use crate::serving::socket::{Came, Socket};
use crate::serving::span::Span;
use crate::serving::streak::Streak;
use broker_locks::Side;
use log::Log;
use std::sync::Wait;
use std::time::Clock;

/// So long a connection that has lagged may take nothing (our choice): a minute.
const UNTAKEN: Span = Span(60_000_000_000);

/// So many waits of a connection of whose octets the system takes nothing are a second, or less where it is woken (our
/// choice).
const WAITS: u32 = 10;

/// A read of so many octets or more isn't acknowledged out of turn (our choice).
const MUCH: usize = 4_096;

/// What a connection's thread works at: what the connection says and is told, what it asks of the broker, and its
/// socket. While that thread sleeps, another one may stand in for it here.
#[derive(Drop)]
pub(crate) struct Desk<'a, R: Wait + Log + Clock, W: Side, T: Side> {
    pub(crate) socket: Socket,
    pub(crate) calls: Calls<'a, R, W, T>,
    pub(crate) talk: Conversation<Calls<'a, R, W, T>>,
    /// Since when the system has taken nothing of what waits, once the thread looked for that.
    untaken: Option<Moment>,
    /// How often it waited since it looked for subscriptions that have lagged.
    waits: u32,
    /// What the system took in a row while it wasn't behind.
    streak: Streak,
    /// How many octets were read.
    octets_in: u64,
    /// How many octets the system took.
    octets_out: u64,
}

impl<'a, R: Wait + Log + Clock, W: Side, T: Side> Desk<'a, R, W, T> {
    /// The desk of a connection that has said nothing yet.
    pub(crate) fn new(
        socket: Socket,
        calls: Calls<'a, R, W, T>,
        talk: Conversation<Calls<'a, R, W, T>>,
    ) -> Desk<'a, R, W, T>
        ensures socket { result.socket ≡ socket }
        ensures calls { result.calls ≡ calls.entry }
        ensures talk { result.talk ≡ talk.entry }
        ensures untaken { result.untaken ≡ None }
        ensures waits { result.waits ≡ 0 }
    {
        Desk {
            socket,
            calls,
            talk,
            untaken: None,
            waits: 0,
            streak: Streak::new(),
            octets_in: 0,
            octets_out: 0,
        }
    }

    /// Takes what is there for the connection; whether something came of it. It isn't stuck from before it looks, so
    /// that it is told of what comes then.
    pub(crate) fn deliver(&mut self) -> bool
        ensures round { (asked : List BrokerRow) × DeliversRound self.old.talk asked result self.new.talk }
        ensures socket { self.new.socket ≡ self.old.socket }
    {
        self.calls.bell().set_stuck(false);
        self.talk.deliver(&mut self.calls)
    }

    /// Writes what waits, as far as the system takes it, and notes at what pace that is; how many octets went out.
    /// Where nothing waits there is nothing to note, unless the system is behind.
    #[inline(always)]
    pub(crate) fn write(&mut self) -> usize
        ensures written { SocketWrites self.old.socket self.old.talk.wire result
            self.new.socket self.new.talk.wire }
        ensures rest { self.new ≡ record self.old {
          socket = self.new.socket;
          talk = self.new.talk;
          untaken = self.new.untaken;
          streak = self.new.streak;
          octets_out = if nat_lt 0 result then plus self.old.octets_out result
              else self.old.octets_out;
        } }
        ensures talk { self.new.talk ≡ record self.old.talk { wire = self.new.talk.wire } }
        ensures taken { 0 < result → self.new.untaken ≡ None }
        ensures untaken { result ≡ 0 → self.new.untaken ≡ self.old.untaken }
        ensures first { self.old.untaken ≡ None → self.new.untaken ≡ None }
    {
        if self.is_written() {
            return 0;
        }
        self.write_some()
    }

    /// Whether nothing waits to be written, and the system isn't behind.
    fn is_written(&self) -> bool
        ensures { result ≡ true → (self.now.talk.wire ≡ []) × (self.now.socket.blocked ≡ false) }
    {
        self.talk.wire().is_empty()
            && !self.socket.is_blocked()
            && !self.calls.bell().intake().is_behind()
    }

    /// Writes what waits, as far as the system takes it, and notes at what pace that is; how many octets went out.
    #[inline(never)]
    fn write_some(&mut self) -> usize
        ensures written { SocketWrites self.old.socket self.old.talk.wire result
            self.new.socket self.new.talk.wire }
        ensures rest { self.new ≡ record self.old {
          socket = self.new.socket;
          talk = self.new.talk;
          untaken = self.new.untaken;
          streak = self.new.streak;
          octets_out = if nat_lt 0 result then plus self.old.octets_out result
              else self.old.octets_out;
        } }
        ensures talk { self.new.talk ≡ record self.old.talk { wire = self.new.talk.wire } }
        ensures taken { 0 < result → self.new.untaken ≡ None }
        ensures untaken { result ≡ 0 → self.new.untaken ≡ self.old.untaken }
        ensures first { self.old.untaken ≡ None → self.new.untaken ≡ None }
    {
        let sent = self.socket.write(&mut self.talk);
        if sent > 0 {
            self.untaken = None;
            self.octets_out = self.octets_out.saturating_add(sent as u64);
        }
        self.note_pace(sent);
        sent
    }

    /// Notes that so many octets went out. The system is behind from when it took less than there was until it has taken
    /// all, that of the queues, too. No clock is read where it isn't.
    fn note_pace(&mut self, sent: usize)
        ensures { self.new ≡ record self.old { streak = self.new.streak } }
    {
        let rt = self.calls.rt();
        let intake = self.calls.bell().intake();
        let was_behind = intake.is_behind();
        let is_behind = self.socket.is_blocked() || was_behind && self.talk.has_more();
        if is_behind || was_behind {
            self.streak.ends();
            intake.note(rt, Moment::now(rt), sent as u64, is_behind);
            self.calls.note_behind(was_behind, is_behind);
        } else if self.streak.adds(sent as u64) {
            intake.keep_up(rt);
        }
    }

    /// Reads once, into this room, unless the connection leaves or too much waits for it.
    pub(crate) fn read(&mut self, room: &mut [u8]) -> Came
        ensures idle { may_read self.old.talk ≡ false
            → (result ≡ Nothing) × (self.new ≡ self.old) × (room.new ≡ room.old) }
        ensures read { may_read self.old.talk ≡ true → SocketReads self.old.socket result room.new self.new.socket }
        ensures rest { self.new ≡ record self.old {
          socket = self.new.socket;
          octets_in = octets_with result self.old.octets_in;
        } }
    {
        if !self.talk.may_read() {
            return Came::Nothing;
        }
        let came = self.socket.read(room);
        if let Came::Octets(n) = came {
            self.octets_in = self.octets_in.saturating_add(n as u64);
        }
        came
    }

    /// So many octets were read and heard. Where they are few, and brought neither an answer nor a transaction that was committed
    /// or waits, the system is to acknowledge them at once: a client's system may keep the rest of a transaction back until then.
    pub(crate) fn note_heard(&self, n: usize) {
        let is_answered = !self.talk.wire().is_empty() || self.talk.is_leaving();
        let is_committed = self.calls.commits() > 0 || self.talk.is_held();
        if n < MUCH && !is_answered && !is_committed {
            self.socket.acknowledge();
        }
    }

    /// What it holds is told, where that is many more octets or fewer than were told.
    #[inline(always)]
    pub(crate) fn note_held(&self) {
        self.calls.note_held(self.talk.uncommitted());
    }

    /// Memory is short, and it is stuck. A write is tried again: how many octets went out. Where more is there still than the
    /// system takes, and one of its subscriptions is passed over, or nothing was taken for so long, it makes room: it leaves.
    #[inline(never)]
    pub(crate) fn make_room(&mut self, is_passed_over: bool, time: Span) -> usize
        ensures none { self.old.talk.more ≡ false → self.new.talk ≡ record self.old.talk { wire = self.new.talk.wire } }
        ensures reads { is_passed_over ≡ false → 0 < result
            → self.new.talk ≡ record self.old.talk { wire = self.new.talk.wire } }
        ensures first { is_passed_over ≡ false → self.old.untaken ≡ None
            → self.new.talk ≡ record self.old.talk { wire = self.new.talk.wire } }
    {
        self.socket.try_again();
        let sent = self.write();
        if self.is_overdue(is_passed_over, time) {
            self.talk.make_room(&mut self.calls);
        }
        sent
    }

    /// Whether it is to make room, where one of its subscriptions is passed over, or none is, and nothing may be taken for so
    /// long.
    fn is_overdue(&mut self, is_passed_over: bool, time: Span) -> bool
        ensures stuck { result ≡ true → (self.old.talk.more && self.old.socket.blocked) ≡ true }
        ensures passed_over { is_passed_over ≡ true
            → result ≡ (self.old.talk.more && self.old.socket.blocked) }
        ensures first { is_passed_over ≡ false → self.old.untaken ≡ None → result ≡ false }
        ensures same { self.new ≡ record self.old { untaken = self.new.untaken } }
    {
        if !self.is_stuck() {
            return false;
        }
        if is_passed_over {
            return true;
        }
        let now = self.now();
        self.is_untaken(now, time)
    }

    /// Whether one of its subscriptions is passed over.
    pub(crate) fn is_passed_over(&self) -> bool {
        for at in 0..usize::MAX {
            let Some(sub) = self.talk.sub_at(at) else {
                return false;
            };
            if sub.seat.is_passed_over() {
                return true;
            }
        }
        false
    }

    /// Whether a write has failed.
    pub(crate) fn is_gone(&self) -> bool
        ensures { result ≡ self.now.socket.gone }
    {
        self.socket.is_gone()
    }

    /// What the connection did, and what it has now.
    fn activity(&self) -> Activity
        ensures { result ≡ record self.now.calls.activity {
          sends = result.sends;
          octets_in = self.now.octets_in;
          octets_out = self.now.octets_out;
          subscriptions = self.now.calls.subs;
          waiting = result.waiting;
          behind = result.behind;
        } }
    {
        let is_behind = self.talk.has_more() || !self.talk.wire().is_empty();
        Activity {
            sends: self.talk.sends(),
            octets_in: self.octets_in,
            octets_out: self.octets_out,
            waiting: one_if(self.talk.waits_for_room()),
            behind: one_if(is_behind),
            ..self.calls.activity()
        }
    }

    /// Shows what the connection did, for the log's figures.
    pub(crate) fn show(&self) {
        self.calls.bell().show(&self.activity());
    }

    /// Whether more is there than the system takes.
    #[inline(always)]
    fn is_stuck(&self) -> bool
        ensures { result ≡ (self.now.talk.more && self.now.socket.blocked) }
    {
        self.talk.has_more() && self.socket.is_blocked()
    }

    /// It is stuck where more is there than the system takes: it looks again once that takes some. Whether it is.
    pub(crate) fn note_stuck(&self) -> bool
        ensures { result ≡ (self.now.talk.more && self.now.socket.blocked) }
    {
        let is_stuck = self.is_stuck();
        if is_stuck {
            self.calls.bell().set_stuck(true);
        }
        is_stuck
    }

    /// Does for the thread of this connection, which sleeps, what that would do once it was told: takes what is there,
    /// as much as may wait, and writes once. Whether nothing is left for that thread to do, but for what waits for room.
    /// (Where a subscription has lagged, what is open ends here.) At another connection's desk it does nothing: whoever has something for that one
    /// rings its bell, which the caller doesn't know.
    pub(crate) fn stand_in(&mut self, connection: u64) -> bool
        ensures done { result ≡ true → (self.new.talk.wire ≡ []) × (self.new.talk.more ≡ false)
            × (is_some self.new.talk.exit ≡ false) }
        ensures other { (self.old.calls.peer.number == connection) ≡ false
            → (result ≡ false) × (self.new ≡ self.old) }
    {
        if !self.calls.is_of(connection) {
            return false;
        }
        self.deliver();
        self.write();
        self.show();
        self.talk.wire().is_empty()
            && !self.talk.has_more()
            && !self.talk.is_leaving()
            && !self.socket.is_gone()
    }

    /// It is about to wait, since the system takes nothing of what waits for it: once a second, or more often where it
    /// is woken meanwhile, it ends the subscriptions that have lagged. Whether there is one, and the system has taken
    /// nothing for a minute: the connection would be told of the lag behind that.
    pub(crate) fn is_lost(&mut self) -> bool {
        let now = self.now();
        let is_untaken = self.is_untaken(now, UNTAKEN);
        self.waits = self.waits.wrapping_add(1) % WAITS;
        self.waits == 0 && self.end_lagged() && is_untaken
    }

    /// Now.
    fn now(&self) -> Moment {
        Moment::now(self.calls.rt())
    }

    /// Whether the system has taken nothing of what waits for so long, at this moment.
    fn is_untaken(&mut self, now: Moment, time: Span) -> bool
        ensures first { self.old.untaken ≡ None → result ≡ false }
        ensures begins { self.old.untaken ≡ None → self.new.untaken ≡ Some now }
        ensures long { IfSome self.old.untaken (λ since. result ≡ nat_le time.0 (now.0 - since.0)) }
        ensures since { is_some self.old.untaken ≡ true → self.new ≡ self.old }
        ensures same { self.new ≡ record self.old { untaken = self.new.untaken } }
    {
        match self.untaken {
            Some(since) => now.since(since).0 >= time.0,
            None => {
                self.untaken = Some(now);
                false
            }
        }
    }

    /// Ends its subscriptions that have lagged; whether one has.
    fn end_lagged(&mut self) -> bool {
        let mut some = false;
        for at in 0..usize::MAX {
            let Some(sub) = self.talk.sub_at(at) else {
                break;
            };
            some = self.calls.end_lagged(sub) || some;
        }
        some
    }

    /// Its socket, and what it asks the broker by, where it is needed no longer.
    pub(crate) fn into_parts(self) -> (Socket, Calls<'a, R, W, T>)
        ensures socket { result.0 ≡ self.entry.socket }
        ensures calls { result.1 ≡ self.entry.calls }
    {
        let Desk {
            socket,
            calls,
            talk: _,
            untaken: _,
            waits: _,
            streak: _,
            octets_in: _,
            octets_out: _,
        } = self;
        (socket, calls)
    }
}

/// 1 where that is so, else 0.
fn one_if(is_so: bool) -> u64
    ensures yes { is_so ≡ true → result ≡ 1 }
    ensures no { is_so ≡ false → result ≡ 0 }
{
    if is_so { 1 } else { 0 }
}
