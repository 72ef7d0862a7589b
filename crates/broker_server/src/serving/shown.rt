//! What a connection did, as it was shown last.

use crate::serving::activity::Activity;
use std::sync::atomic::{AtomicU64, Ordering};

/// What a connection did, and has, as it was shown last. Who works at its desk shows it, one at a time. Anybody reads
/// it, also while it is shown, and may then find some of it as it was before. Who shows it looks after that whether it
/// is to be said anew: that needs all these steps in one order, so each is SeqCst.
#[derive(Drop)]
pub(crate) struct Shown {
    sends: AtomicU64,
    transactions: AtomicU64,
    messages: AtomicU64,
    octets_in: AtomicU64,
    octets_out: AtomicU64,
    lagged: AtomicU64,
    passed_over: AtomicU64,
    subscriptions: AtomicU64,
    waiting: AtomicU64,
    behind: AtomicU64,
}

impl Shown {
    /// Nothing.
    pub(crate) fn new() -> Shown {
        Shown {
            sends: AtomicU64::new(0),
            transactions: AtomicU64::new(0),
            messages: AtomicU64::new(0),
            octets_in: AtomicU64::new(0),
            octets_out: AtomicU64::new(0),
            lagged: AtomicU64::new(0),
            passed_over: AtomicU64::new(0),
            subscriptions: AtomicU64::new(0),
            waiting: AtomicU64::new(0),
            behind: AtomicU64::new(0),
        }
    }

    /// Shows this.
    pub(crate) fn show(&self, activity: &Activity) {
        show(&self.sends, activity.sends);
        show(&self.transactions, activity.transactions);
        show(&self.messages, activity.messages);
        show(&self.octets_in, activity.octets_in);
        show(&self.octets_out, activity.octets_out);
        show(&self.lagged, activity.lagged);
        show(&self.passed_over, activity.passed_over);
        show(&self.subscriptions, activity.subscriptions);
        show(&self.waiting, activity.waiting);
        show(&self.behind, activity.behind);
    }

    /// What was shown last.
    pub(crate) fn activity(&self) -> Activity {
        Activity {
            sends: self.sends.load(Ordering::SeqCst),
            transactions: self.transactions.load(Ordering::SeqCst),
            messages: self.messages.load(Ordering::SeqCst),
            octets_in: self.octets_in.load(Ordering::SeqCst),
            octets_out: self.octets_out.load(Ordering::SeqCst),
            lagged: self.lagged.load(Ordering::SeqCst),
            passed_over: self.passed_over.load(Ordering::SeqCst),
            subscriptions: self.subscriptions.load(Ordering::SeqCst),
            waiting: self.waiting.load(Ordering::SeqCst),
            behind: self.behind.load(Ordering::SeqCst),
        }
    }
}

/// Shows one count. It is stored only where it has changed, since a store costs far more than a load.
#[inline(always)]
fn show(shown: &AtomicU64, count: u64) {
    if shown.load(Ordering::SeqCst) != count {
        shown.store(count, Ordering::SeqCst);
    }
}
