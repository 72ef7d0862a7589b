//! What a thread that turns topics is told by.

ghost use Rattle.std.specs.Prelude.{◌≤◌, IfOk};
ghost use Rattle.crossbeam_queue.specs.Passes.{queue_capacity};

use crossbeam_queue::ArrayQueue;
use std::alloc::{AllocError, Global};
use std::sync::Wait;
use std::sync::atomic::{AtomicBool, Ordering};
use std::thread::Parker;

/// What a head, a thread that turns topics, is told by: the topics that are due, by their index, each at most once.
#[derive(Drop)]
pub(crate) struct Head {
    due: ArrayQueue<usize>,
    parker: Parker,
    closing: AtomicBool,
}

impl Head {
    /// A head of so many topics, none of which is due.
    pub(crate) fn new(alloc: Global, topics: usize) -> Result<Head, AllocError>
        ensures { IfOk result (λ head. topics ≤ queue_capacity head.due) }
    {
        Ok(Head {
            due: ArrayQueue::new(alloc, topics.max(1))?,
            parker: Parker::new(),
            closing: AtomicBool::new(false),
        })
    }

    /// The topic of this index is due. Refused where there is no room, which a topic that isn't there yet always has.
    pub(crate) fn tell<R: Wait>(&self, rt: &R, at: usize) -> Result<(), usize> {
        self.due.push(rt, at)?;
        self.parker.unpark();
        Ok(())
    }

    /// The head ends once no topic is due.
    pub(crate) fn close(&self) {
        self.closing.store(true, Ordering::SeqCst);
        self.parker.unpark();
    }

    /// Waits for the next topic that is due: `None` where none is, and none will be.
    pub(crate) fn next<R: Wait>(&self, rt: &R) -> Option<usize> {
        for _ in rt.forever() {
            let closing = self.closing.load(Ordering::SeqCst);
            if let Some(at) = self.due.pop(rt) {
                return Some(at);
            }
            if closing {
                return None;
            }
            self.parker.park(rt);
        }
        unreachable!()
    }
}
