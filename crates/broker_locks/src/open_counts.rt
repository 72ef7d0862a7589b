//! How many subscriptions were open at each topic.

use mcast_txn::{NoMemory, Topic};
use std::alloc::Global;
use std::sync::atomic::{AtomicU64, Ordering};

/// How many subscriptions were open at each topic, as was noted last: so a commit makes a part's copies before it takes
/// the topic's lock. Nothing rests on these numbers but where copies are made: the topic makes those that are missing,
/// and lets go of those that are too many.
#[derive(Drop)]
pub(crate) struct OpenCounts {
    counts: Vec<AtomicU64>,
}

impl OpenCounts {
    /// None at any of so many topics.
    pub(crate) fn new(alloc: Global, many: usize) -> Result<OpenCounts, NoMemory> {
        let mut counts = Vec::with_capacity(alloc, many)?;
        for _ in 0..many {
            counts.push(AtomicU64::new(0))?;
        }
        Ok(OpenCounts { counts })
    }

    /// So many are open at the topic. It is told while the topic's lock is held.
    pub(crate) fn note(&self, topic: Topic, open: usize) {
        if let Some(count) = self.counts.get(topic.0 as usize) {
            count.store(open as u64, Ordering::SeqCst);
        }
    }

    /// How many were open at the topic.
    pub(crate) fn at(&self, topic: Topic) -> usize {
        match self.counts.get(topic.0 as usize) {
            Some(count) => count.load(Ordering::SeqCst) as usize,
            None => 0,
        }
    }
}
