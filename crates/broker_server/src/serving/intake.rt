//! What the system takes of what is written to a connection.

ghost use Rattle.std.specs.Prelude.{◌≡◌, true, false};
ghost use Rattle.broker_server.specs.Purses.{after_catching_up, after_falling_behind, after_octets};

use crate::serving::moment::Moment;
use crate::serving::pace::Pace;
use std::sync::atomic::{AtomicBool, Ordering};
use std::sync::{Mutex, Wait};

/// At what pace the system takes what is written to a connection. Nothing is counted, and no clock is read for it, where
/// the system isn't behind: where it has taken all that there was.
#[derive(Drop)]
pub(crate) struct Intake {
    /// Whether the system took less than there was, and hasn't taken all since.
    behind: AtomicBool,
    pace: Mutex<Pace>,
}

impl Intake {
    /// Nothing was written yet.
    pub(crate) fn new() -> Intake {
        Intake {
            behind: AtomicBool::new(false),
            pace: Mutex::new(Pace::new()),
        }
    }

    /// Whether the system took less than there was, and hasn't taken all since.
    pub(crate) fn is_behind(&self) -> bool {
        self.behind.load(Ordering::SeqCst)
    }

    /// The system took so many octets at this moment, and is behind, or has taken all.
    pub(crate) fn note<R: Wait>(&self, rt: &R, now: Moment, octets: u64, behind: bool) {
        let mut pace = self.pace.lock(rt);
        note_taken(&mut pace, now, octets, behind);
        self.behind.store(behind, Ordering::SeqCst);
    }

    /// The system took much and was never behind.
    pub(crate) fn keep_up<R: Wait>(&self, rt: &R) {
        self.pace.lock(rt).keeps_up();
    }

    /// A subscription of the connection was passed over at this moment.
    pub(crate) fn give_up<R: Wait>(&self, rt: &R, now: Moment) {
        self.pace.lock(rt).gives_up(now);
    }

    /// Its pace so far.
    pub(crate) fn pace<R: Wait>(&self, rt: &R) -> Pace {
        *self.pace.lock(rt)
    }
}

/// The system took so many octets at this moment, and is behind, or has taken all.
fn note_taken(pace: &mut Pace, now: Moment, octets: u64, behind: bool)
    ensures behind { behind ≡ true
        → pace.new ≡ after_falling_behind (after_octets pace.old now octets) now }
    ensures all { behind ≡ false
        → pace.new ≡ after_catching_up (after_octets pace.old now octets) now }
{
    pace.takes(now, octets);
    if behind {
        pace.falls_behind(now);
    } else {
        pace.catches_up(now);
    }
}
