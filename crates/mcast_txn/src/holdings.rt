//! What all senders hold together.

use std::sync::atomic::{AtomicU64, Ordering};

/// What all senders hold together: octets that aren't committed, and what transactions weigh that were. Any thread counts
/// there, and no contract speaks of it.
#[derive(Drop)]
pub struct Holdings {
    open: AtomicU64,
    sent: AtomicU64,
}

impl Holdings {
    /// Nothing.
    pub fn new() -> Holdings {
        Holdings {
            open: AtomicU64::new(0),
            sent: AtomicU64::new(0),
        }
    }

    /// What isn't committed.
    pub fn open(&self) -> u64 {
        self.open.load(Ordering::SeqCst)
    }

    /// What was committed, and isn't let go of.
    pub fn sent(&self) -> u64 {
        self.sent.load(Ordering::SeqCst)
    }

    /// What isn't committed was so much, and is so much now.
    pub(crate) fn change_open(&self, was: u64, is: u64) {
        if is > was {
            self.open.fetch_add(is - was, Ordering::SeqCst);
        } else {
            self.open.fetch_sub(was - is, Ordering::SeqCst);
        }
    }

    /// So much was committed.
    pub(crate) fn add_sent(&self, weight: u64) {
        self.sent.fetch_add(weight, Ordering::SeqCst);
    }

    /// So much that was committed is let go.
    pub(crate) fn sub_sent(&self, weight: u64) {
        self.sent.fetch_sub(weight, Ordering::SeqCst);
    }
}
