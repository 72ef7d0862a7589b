//! What a sender holds.

ghost use Rattle.std.specs.Prelude.{◌≡◌};
ghost use Rattle.std.specs.Arc.{arc_value};

use crate::holdings::Holdings;
use std::sync::Arc;
use std::sync::atomic::{AtomicU64, Ordering};

/// What a sender holds: octets that aren't committed, as it told last, and what its transactions weigh that were, until
/// they are let go of. All of it counts to what all senders hold.
#[derive(Drop)]
pub struct Meter {
    all: Arc<Holdings>,
    open: AtomicU64,
    sent: AtomicU64,
}

impl Meter {
    /// That of a sender that holds nothing, beside those who count here.
    pub fn new(all: Arc<Holdings>) -> Meter
        ensures { result.all ≡ all }
    {
        Meter {
            all,
            open: AtomicU64::new(0),
            sent: AtomicU64::new(0),
        }
    }

    /// What all senders hold.
    pub fn all(&self) -> &Holdings
        ensures { result.now ≡ arc_value self.now.all }
    {
        &self.all
    }

    /// What isn't committed, as it was told last.
    pub fn open(&self) -> u64 {
        self.open.load(Ordering::SeqCst)
    }

    /// What was committed, and isn't let go of.
    pub fn sent(&self) -> u64 {
        self.sent.load(Ordering::SeqCst)
    }

    /// So much isn't committed now. One thread at a time calls it.
    pub fn tell_open(&self, open: u64) {
        let was = self.open.swap(open, Ordering::SeqCst);
        self.all.change_open(was, open);
    }

    /// So much was committed.
    pub(crate) fn add_sent(&self, weight: u64) {
        self.sent.fetch_add(weight, Ordering::SeqCst);
        self.all.add_sent(weight);
    }

    /// So much that was committed is let go.
    pub(crate) fn sub_sent(&self, weight: u64) {
        self.sent.fetch_sub(weight, Ordering::SeqCst);
        self.all.sub_sent(weight);
    }
}
