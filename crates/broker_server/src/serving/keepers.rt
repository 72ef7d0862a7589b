//! Who keeps room at a topic while it waits at another.

use crate::serving::second_line::SecondLine;
use crate::serving::waiters::Waiters;
use std::sync::{Mutex, Wait};

/// Who keeps room at a topic while it waits at a later one, and who waits until it may.
#[derive(Drop)]
pub(crate) struct Keepers {
    line: Mutex<SecondLine>,
}

impl Keepers {
    /// Nobody, where so many may be.
    pub(crate) fn new(most: u64) -> Keepers {
        Keepers {
            line: Mutex::new(SecondLine::new(most)),
        }
    }

    /// The one at this desk, which stands nowhere, takes a place, where one is left and nobody waits for it: else it
    /// waits for one from now on. Whether it has a place.
    pub(crate) fn take_or_join<R: Wait>(&self, rt: &R, waiters: &Waiters, desk: usize) -> bool {
        let mut line = self.line.lock(rt);
        let line = &mut *line;
        if line.queue.first().is_none() && line.places.take() {
            return true;
        }
        waiters.join(rt, &mut line.queue, desk);
        false
    }

    /// The one at this desk, which waits for a place, takes one, where it is the first and one is left; then it doesn't
    /// stand here any more. Whether it has a place.
    pub(crate) fn take_as_first<R: Wait>(&self, rt: &R, waiters: &Waiters, desk: usize) -> bool {
        let mut line = self.line.lock(rt);
        let line = &mut *line;
        if !line.queue.is_first(desk) || !line.places.take() {
            return false;
        }
        waiters.leave(rt, &mut line.queue, desk);
        ring_first(rt, waiters, line);
        true
    }

    /// A place is given back.
    pub(crate) fn give_back<R: Wait>(&self, rt: &R, waiters: &Waiters) {
        let mut line = self.line.lock(rt);
        line.places.give_back();
        ring_first(rt, waiters, &line);
    }

    /// The one at this desk waits for a place no longer.
    pub(crate) fn leave<R: Wait>(&self, rt: &R, waiters: &Waiters, desk: usize) {
        let mut line = self.line.lock(rt);
        let line = &mut *line;
        waiters.leave(rt, &mut line.queue, desk);
        ring_first(rt, waiters, line);
    }
}

/// Rings the first that waits for a place, where one is left.
fn ring_first<R: Wait>(rt: &R, waiters: &Waiters, line: &SecondLine) {
    if line.places.is_left()
        && let Some(first) = line.queue.first()
    {
        waiters.ring(rt, first);
    }
}
