//! Who is told of a topic.

ghost use Rattle.std.specs.Prelude.{◌≡◌, ◌≤◌, ◌+◌, ◌-◌, ◌++◌, ◌∷◌, [], nat_lt, if◌then◌else◌, true, false, length, IfOk, IfSome, IsNone, OnErr, OnOk};
ghost use Rattle.std.specs.Arc.{arc_value};
ghost use Rattle.broker_server.specs.Purses.{Begins, GoesOn, Pays, after_call, debt, is_free, may_wait};
ghost use Rattle.broker_server.specs.RoomLooks.{is_seat};

use crate::serving::account::Account;
use crate::serving::intake::Intake;
use crate::serving::keepers::Keepers;
use crate::serving::line::Line;
use crate::serving::look::Look;
use crate::serving::moment::Moment;
use crate::serving::pace::Pace;
use crate::serving::price::Price;
use crate::serving::purse::Purse;
use crate::serving::said::Said;
use crate::serving::seat::Seat;
use crate::serving::seat_entry::SeatEntry;
use crate::serving::seated_sub::SeatedSub;
use crate::serving::span::Span;
use crate::serving::turnstile::Turnstile;
use std::alloc::{AllocError, Global};
use std::sync::atomic::{AtomicBool, Ordering};
use std::sync::{Arc, Mutex, Wait};

/// At a topic with so many seats, at most, the sender's thread may stand in for those that sleep (our choice).
const FEW: usize = 2;

/// A topic's seats, one of each open subscription; whether the topic is due; who waits for room there, and what that
/// may cost. Its purse's lock may be held while another of its locks is taken, and no two others.
#[derive(Drop)]
pub(crate) struct TopicSeats {
    due: AtomicBool,
    seats: Mutex<Vec<SeatEntry>>,
    line: Line,
    keepers: Keepers,
    purse: Mutex<Purse>,
    said: Mutex<Said>,
    /// Before who comes to subscribe.
    turnstile: Turnstile,
}

impl TopicSeats {
    /// No seats, and the topic isn't due; so many may keep room there.
    pub(crate) fn new(alloc: Global, keepers: u64) -> TopicSeats {
        TopicSeats {
            due: AtomicBool::new(false),
            seats: Mutex::new(Vec::new(alloc)),
            line: Line::new(),
            keepers: Keepers::new(keepers),
            purse: Mutex::new(Purse::new()),
            said: Mutex::new(Said::new()),
            turnstile: Turnstile::new(),
        }
    }

    /// Who waits for room.
    pub(crate) fn line(&self) -> &Line
        ensures { result.now ≡ self.now.line }
    {
        &self.line
    }

    /// Who keeps room while it waits at another topic, and who waits until it may.
    pub(crate) fn keepers(&self) -> &Keepers
        ensures { result.now ≡ self.now.keepers }
    {
        &self.keepers
    }

    /// Before who comes to subscribe.
    pub(crate) fn turnstile(&self) -> &Turnstile
        ensures { result.now ≡ self.now.turnstile }
    {
        &self.turnstile
    }

    /// The topic is due; whether it was due before.
    pub(crate) fn set_due(&self) -> bool {
        self.due.swap(true, Ordering::SeqCst)
    }

    /// The topic is about to be turned, and due no longer.
    pub(crate) fn clear_due(&self) {
        self.due.store(false, Ordering::SeqCst);
    }

    /// Adds a seat.
    pub(crate) fn add<R: Wait>(&self, rt: &R, seat: &Arc<Seat>) -> Result<(), AllocError> {
        let entry = SeatEntry::new(seat.clone()?);
        put_in(&mut self.seats.lock(rt), entry)
    }

    /// Takes a seat out, if it is there, for whose subscription nobody has waited.
    pub(crate) fn remove<R: Wait>(&self, rt: &R, seat: &Seat) {
        let _ = take_out(&mut self.seats.lock(rt), seat);
    }

    /// Takes the seats of these subscriptions out, those that are there.
    pub(crate) fn remove_all<R: Wait>(&self, rt: &R, subs: &[SeatedSub]) {
        let mut seats = self.seats.lock(rt);
        let seats = &mut *seats;
        for sub in subs {
            let _ = take_out(seats, &sub.seat);
        }
    }

    /// As `remove_all`, where the connection of these subscriptions has this intake, and is behind: each pays, at this
    /// moment, what it was spared.
    pub(crate) fn remove_behind<R: Wait>(
        &self,
        rt: &R,
        now: Moment,
        subs: &[SeatedSub],
        intake: &Intake,
    ) {
        let pace = intake.pace(rt);
        let mut purse = self.purse.lock(rt);
        let purse = &mut *purse;
        let mut seats = self.seats.lock(rt);
        let seats = &mut *seats;
        for sub in subs {
            if let Some(entry) = take_out(seats, &sub.seat) {
                settle(purse, now, &entry.account, &pace);
            }
        }
    }

    /// How many they are, where they are few, and the threads of all of them sleep.
    pub(crate) fn few_asleep<R: Wait>(&self, rt: &R) -> Option<usize>
        ensures { IfSome result (λ count. count ≤ 2) }
    {
        let seats = self.seats.lock(rt);
        let count = seats.len();
        if count <= FEW && seats.iter().all(|entry| entry.seat.is_asleep()) {
            Some(count)
        } else {
            None
        }
    }

    /// Tells those whose threads are awake. The others are put into this list, or told, too, where there is no memory
    /// for that: their flags are raised before somebody stands in for them.
    pub(crate) fn ring_awake<R: Wait>(&self, rt: &R, asleep: &mut Vec<Arc<Seat>>) {
        for entry in self.seats.lock(rt).iter() {
            let seat = &entry.seat;
            seat.raise();
            if !seat.is_asleep() || !is_put(seat, asleep) {
                seat.tell();
            }
        }
    }

    /// Tells all of them.
    pub(crate) fn ring<R: Wait>(&self, rt: &R) {
        for entry in self.seats.lock(rt).iter() {
            entry.seat.ring();
        }
    }

    /// What somebody finds, at this moment, who has no room, since these subscriptions lack it, by rising number; it was
    /// counted at the purse before, or is from now on.
    pub(crate) fn look<R: Wait>(
        &self,
        rt: &R,
        alloc: Global,
        now: Moment,
        lacking: &[u64],
        is_counted: bool,
    ) -> Result<Look, AllocError>
        ensures { IfOk result (λ look. is_free look.standing.price ≡ true → look.may_wait ≡ true) }
    {
        let mut look = Look::new(alloc, lacking.len())?;
        let mut purse = self.purse.lock(rt);
        let purse = &mut *purse;
        look.trusts = purse.trusts();
        let unpaid = purse.unpaid(now);
        self.find(rt, now, lacking, unpaid, !purse.is_awaited(), &mut look)?;
        look.may_wait = may_be_waited_for(purse, now, look.standing.price(), is_counted);
        if !purse.may_trust() {
            look.trusts_no_more()?;
        }
        Ok(look)
    }

    /// Finds the seats of these subscriptions, which lack room, by rising number.
    fn find<R: Wait>(
        &self,
        rt: &R,
        now: Moment,
        lacking: &[u64],
        unpaid: Span,
        is_first: bool,
        look: &mut Look,
    ) -> Result<(), AllocError> {
        for entry in self.seats.lock(rt).iter_mut() {
            if lacking.binary_search(&entry.seat.sub()).is_ok() {
                entry.join_look(rt, now, unpaid, is_first, look)?;
            }
        }
        Ok(())
    }

    /// The subscription of this number was passed over at this moment: its seat says so, and its thread is told.
    pub(crate) fn pass_over<R: Wait>(&self, rt: &R, sub: u64, now: Moment) {
        for entry in self.seats.lock(rt).iter() {
            let seat = &entry.seat;
            if seat.sub() == sub {
                seat.intake().give_up(rt, now);
                seat.set_passed_over();
                seat.ring();
            }
        }
    }

    /// Each subscription there may have been passed over: its seat says so, and its thread is told, which looks whether
    /// it is waited for once its queue is empty.
    pub(crate) fn pass_all_over<R: Wait>(&self, rt: &R) {
        for entry in self.seats.lock(rt).iter() {
            entry.seat.set_passed_over();
            entry.seat.ring();
        }
    }

    /// Somebody waits no longer, since this moment.
    pub(crate) fn wait_ends<R: Wait>(&self, rt: &R, now: Moment) {
        self.purse.lock(rt).ends(now);
    }

    /// So many more were passed over. How many were since that was said last, where it is to be said now.
    pub(crate) fn say<R: Wait>(&self, rt: &R, now: Moment, passed_over: u64) -> Option<u64> {
        let mut said = self.said.lock(rt);
        said.passes(passed_over);
        said.due(now)
    }
}

/// A subscription ends at this moment that had this account, and whose connection has this pace: it pays this purse.
fn settle(purse: &mut Purse, now: Moment, account: &Account, pace: &Pace)
    ensures { purse.new ≡ after_call purse.old (Pays now (debt account.now pace.now now
        (if nat_lt 0 purse.old.waiting then now.0 - purse.old.at.0 else 0))) }
{
    let owed = account.owes(now, pace, purse.unpaid(now));
    purse.pays(now, owed);
}

/// Puts the entry of a seat behind these; the seat knows where it stands.
fn put_in(seats: &mut Vec<SeatEntry>, entry: SeatEntry) -> Result<(), AllocError>
    ensures ok { OnOk result (seats.new.items ≡ seats.old.items ++ entry ∷ []) }
    ensures err { OnErr result (seats.new.items ≡ seats.old.items) }
{
    entry.seat.set_index(seats.len());
    seats.push(entry)?;
    Ok(())
}

/// Takes the entry of a seat out of these, if it stands where it knows that it does. The last of them stands there then,
/// and knows it. Room for more than twice as many as are left is given back where three quarters of the room are free,
/// so that a topic to which many had subscribed keeps nothing for them.
fn take_out(seats: &mut Vec<SeatEntry>, seat: &Seat) -> Option<SeatEntry>
    ensures one { IfSome result (λ entry. is_seat seat.now (arc_value entry.seat) ≡ true) }
    ensures fewer { IfSome result (λ entry. length seats.old.items ≡ length seats.new.items + 1) }
    ensures none { IsNone result → seats.new ≡ seats.old }
{
    let at = seat.index();
    if !seats.get(at)?.seat.is(seat) {
        return None;
    }
    let entry = seats.swap_remove(at);
    if let Some(moved) = seats.get(at) {
        moved.seat.set_index(at);
    }
    if seats.capacity() / 4 > seats.len() {
        seats.shrink_to(seats.len().saturating_mul(2));
    }
    Some(entry)
}

/// Tells this purse that somebody finds no room at this moment, who was counted there or is from now on, where the
/// dearest of those that lack it has this price. Whether these may be waited for.
fn may_be_waited_for(purse: &mut Purse, now: Moment, price: Price, is_counted: bool) -> bool
    ensures may { result ≡ may_wait purse.new }
    ensures price { purse.new.price ≡ price }
    ensures on { is_counted ≡ true → purse.new ≡ after_call purse.old (GoesOn now price) }
    ensures begins { is_counted ≡ false → purse.new ≡ after_call purse.old (Begins now price) }
{
    if is_counted {
        purse.goes_on(now, price)
    } else {
        purse.begins(now, price)
    }
}

/// Puts a seat into this list, if there is memory for that; whether there was.
fn is_put(seat: &Arc<Seat>, list: &mut Vec<Arc<Seat>>) -> bool {
    match seat.clone() {
        Ok(seat) => list.push(seat).is_ok(),
        Err(_) => false,
    }
}
