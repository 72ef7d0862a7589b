//! A subscription's place at a topic.

ghost use Rattle.std.specs.Prelude.{◌≡◌, ◌==◌, ◌&&◌};
ghost use Rattle.std.specs.Arc.{arc_value};

use crate::serving::bell::Bell;
use crate::serving::intake::Intake;
use std::sync::Arc;
use std::sync::atomic::{AtomicBool, AtomicU64, AtomicUsize, Ordering};

/// A subscription's place at a topic: whose it is, and what senders and who takes tell each other of it.
#[derive(Drop)]
pub(crate) struct Seat {
    connection: u64,
    /// Of the connection's own numbering.
    number: u64,
    /// A bit of its bell's flags. Two seats of a connection may have the same: both are looked at then.
    flag: u64,
    /// The number of the connection's desk.
    desk: usize,
    bell: Arc<Bell>,
    /// The subscription's number at its topic, once that has begun; before, one that none has.
    sub: AtomicU64,
    /// Its index in its topic's list, while it is there: who has that list's lock writes and reads it.
    index: AtomicUsize,
    /// Whether something was taken of its queue since a sender looked.
    taken: AtomicBool,
    /// Whether senders may have passed it over, so that it isn't waited for.
    passed_over: AtomicBool,
}

impl Seat {
    /// The place of this connection's subscription of this number, which hasn't begun.
    pub(crate) fn new(connection: u64, number: u64, desk: usize, bell: Arc<Bell>) -> Seat
        ensures connection { result.connection ≡ connection }
        ensures number { result.number ≡ number }
        ensures desk { result.desk ≡ desk }
        ensures bell { result.bell ≡ bell }
    {
        Seat {
            connection,
            number,
            flag: 1 << (number % 64),
            desk,
            bell,
            sub: AtomicU64::new(u64::MAX),
            index: AtomicUsize::new(usize::MAX),
            taken: AtomicBool::new(false),
            passed_over: AtomicBool::new(false),
        }
    }

    /// Whether it is the same as the other.
    pub(crate) fn is(&self, other: &Seat) -> bool
        ensures { result ≡
            (self.now.connection == other.now.connection && self.now.number == other.now.number) }
    {
        self.connection == other.connection && self.number == other.number
    }

    /// The number of its connection, which no other has.
    pub(crate) fn connection(&self) -> u64
        ensures { result ≡ self.now.connection }
    {
        self.connection
    }

    /// Its bit of its bell's flags.
    pub(crate) fn flag(&self) -> u64
        ensures { result ≡ self.now.flag }
    {
        self.flag
    }

    /// The number of its connection's desk, which another has once that connection has left.
    pub(crate) fn desk(&self) -> usize
        ensures { result ≡ self.now.desk }
    {
        self.desk
    }

    /// Its subscription has begun, and has this number at the topic.
    pub(crate) fn set_sub(&self, sub: u64) {
        self.sub.store(sub, Ordering::SeqCst);
    }

    /// The number of its subscription at the topic; of one that hasn't begun, one that no subscription has.
    pub(crate) fn sub(&self) -> u64 {
        self.sub.load(Ordering::SeqCst)
    }

    /// It stands at this index of its topic's list from now on: who has that list's lock calls it.
    pub(crate) fn set_index(&self, index: usize) {
        self.index.store(index, Ordering::SeqCst);
    }

    /// Its index in its topic's list, as was said last.
    pub(crate) fn index(&self) -> usize {
        self.index.load(Ordering::SeqCst)
    }

    /// At what pace the system takes what is written to its connection.
    pub(crate) fn intake(&self) -> &Intake
        ensures { result.now ≡ (arc_value self.now.bell).intake }
    {
        self.bell.intake()
    }

    /// Whether its thread sleeps, and would be woken by what comes.
    pub(crate) fn is_asleep(&self) -> bool {
        self.bell.is_asleep() && !self.bell.is_stuck()
    }

    /// Its queue may have something: its flag says so from now on, to a thread that is stuck or sleeps, too.
    pub(crate) fn raise(&self) {
        self.bell.raise(self.flag);
    }

    /// Tells its thread that the topic was turned, as `raise` and `tell` say.
    pub(crate) fn ring(&self) {
        self.raise();
        self.tell();
    }

    /// Tells its thread that a flag was raised, unless that is stuck: it looks for what there is, once it isn't.
    pub(crate) fn tell(&self) {
        if !self.bell.is_stuck() {
            self.bell.ring();
        }
    }

    /// Something was taken of its queue.
    pub(crate) fn set_taken(&self) {
        if !self.taken.load(Ordering::SeqCst) {
            self.taken.store(true, Ordering::SeqCst);
        }
    }

    /// Whether something was taken of its queue since this was asked last.
    pub(crate) fn take_taken(&self) -> bool {
        self.taken.swap(false, Ordering::SeqCst)
    }

    /// Senders passed it over: once its queue is empty it is to be waited for again.
    pub(crate) fn set_passed_over(&self) {
        self.passed_over.store(true, Ordering::SeqCst);
    }

    /// Whether senders passed it over, and its queue wasn't found empty since.
    pub(crate) fn is_passed_over(&self) -> bool {
        self.passed_over.load(Ordering::SeqCst)
    }

    /// Whether senders passed it over since this was asked last.
    pub(crate) fn take_passed_over(&self) -> bool {
        self.passed_over.load(Ordering::SeqCst) && self.passed_over.swap(false, Ordering::SeqCst)
    }
}
