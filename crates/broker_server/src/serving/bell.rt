//! How a connection's thread is told that something may be there for it.

ghost use Rattle.std.specs.Prelude.{◌≡◌};

use crate::serving::activity::Activity;
use crate::serving::intake::Intake;
use crate::serving::shown::Shown;
use mio::Waker;
use std::sync::atomic::{AtomicBool, AtomicU8, AtomicU64, Ordering};

/// The thread is at work, and wasn't told anything since it looked last.
const AWAKE: u8 = 0;
/// It was told, and hasn't looked since.
const TOLD: u8 = 1;
/// It waits, or is about to.
const ASLEEP: u8 = 2;

/// What a connection's thread is told by. No telling is lost: who tells has done first what it tells of, and the thread
/// looks for that only after it heard. So either the thread looks behind that deed, or it finds at `sleeps` that it
/// was told, and doesn't wait, or it waits already, and is woken. That needs all these steps in one order, those of
/// `stuck` and of the flags, too: each is SeqCst, and has to stay so.
#[derive(Drop)]
pub(crate) struct Bell {
    state: AtomicU8,
    /// The flags of the connection's subscriptions of which it is told, and that its thread hasn't taken since.
    flags: AtomicU64,
    /// Whether more is there for the connection than the system takes of it.
    stuck: AtomicBool,
    waker: Waker,
    intake: Intake,
    /// What the connection did, as it was shown last.
    shown: Shown,
}

impl Bell {
    /// A bell of a thread that is at work, which this wakes from its poll.
    pub(crate) fn new(waker: Waker) -> Bell {
        Bell {
            state: AtomicU8::new(AWAKE),
            flags: AtomicU64::new(0),
            stuck: AtomicBool::new(false),
            waker,
            intake: Intake::new(),
            shown: Shown::new(),
        }
    }

    /// At what pace the system takes what is written to the connection.
    pub(crate) fn intake(&self) -> &Intake
        ensures { result.now ≡ self.now.intake }
    {
        &self.intake
    }

    /// Shows what the connection did so far.
    pub(crate) fn show(&self, activity: &Activity) {
        self.shown.show(activity);
    }

    /// What the connection did, as it was shown last.
    pub(crate) fn activity(&self) -> Activity {
        self.shown.activity()
    }

    /// Tells the thread. The system is called only where it waits. (A wake that fails is one whose poll is gone.) Where
    /// it was told and hasn't looked since, it will look after this.
    pub(crate) fn ring(&self) {
        if !self.is_told() && self.state.swap(TOLD, Ordering::SeqCst) == ASLEEP {
            let _ = self.waker.wake();
        }
    }

    /// The subscriptions of this flag may have something: who has put it there raises the flag before it rings. Where it
    /// is raised already, who takes it looks after this.
    pub(crate) fn raise(&self, flag: u64) {
        if self.flags.load(Ordering::SeqCst) & flag == 0 {
            self.flags.fetch_or(flag, Ordering::SeqCst);
        }
    }

    /// The flags that were raised since they were taken last: who works for the connection takes them before it looks
    /// into any queue.
    pub(crate) fn take_flags(&self) -> u64 {
        if self.flags.load(Ordering::SeqCst) == 0 {
            return 0;
        }
        self.flags.swap(0, Ordering::SeqCst)
    }

    /// Whether the thread waits, or is about to, and wasn't told anything.
    pub(crate) fn is_asleep(&self) -> bool {
        self.state.load(Ordering::SeqCst) == ASLEEP
    }

    /// Whether the thread was told since it looked last.
    pub(crate) fn is_told(&self) -> bool {
        self.state.load(Ordering::SeqCst) == TOLD
    }

    /// Whether the thread was told since it looked last; it is awake from here on, and looks for what there is after
    /// this.
    pub(crate) fn hears(&self) -> bool {
        self.state.load(Ordering::SeqCst) != AWAKE
            && self.state.swap(AWAKE, Ordering::SeqCst) == TOLD
    }

    /// Whether more is there for the connection than the system takes of it.
    pub(crate) fn is_stuck(&self) -> bool {
        self.stuck.load(Ordering::SeqCst)
    }

    /// More is there than the system takes, or that isn't so any longer.
    pub(crate) fn set_stuck(&self, stuck: bool) {
        if self.is_stuck() != stuck {
            self.stuck.store(stuck, Ordering::SeqCst);
        }
    }

    /// The thread is about to wait. Whether it may: it wasn't told anything since it looked.
    pub(crate) fn sleeps(&self) -> bool {
        self.state
            .compare_exchange(AWAKE, ASLEEP, Ordering::SeqCst, Ordering::SeqCst)
            .is_ok()
    }
}
