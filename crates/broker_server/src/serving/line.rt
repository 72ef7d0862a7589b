//! Those who wait for room at a topic.

use crate::serving::mark::{Mark, NOBODY};
use crate::serving::queue::Queue;
use crate::serving::room_made::RoomMade;
use crate::serving::waiters::Waiters;
use std::sync::atomic::{AtomicU64, Ordering};
use std::sync::{Mutex, Wait};

/// So many transactions overtake the first of a line (our choice), and one more for each thread that was just asking when
/// it became the first: as many as a queue holds.
const MOST_OVERTAKING: u64 = 64;

/// Those who wait for room at a topic, in the order in which they came; and for what the first waits. What room there is
/// is the first's, but for those that overtake it. Who waits writes its mark and then asks for room again; who makes room has made it before it reads the
/// mark: so either the one that waits finds it, or it is rung. That needs all these steps in one order: each is SeqCst,
/// and has to stay so.
#[derive(Drop)]
pub(crate) struct Line {
    /// The code of the mark, which is written under the lock, or by the first.
    mark: AtomicU64,
    /// How many overtook the first since it is that, or asked whether they may.
    overtaking: AtomicU64,
    queue: Mutex<Queue>,
}

impl Line {
    /// Nobody waits.
    pub(crate) fn new() -> Line {
        Line {
            mark: AtomicU64::new(NOBODY),
            overtaking: AtomicU64::new(0),
            queue: Mutex::new(Queue::new()),
        }
    }

    /// For what the first waits.
    fn mark(&self) -> Mark {
        Mark::of(self.mark.load(Ordering::SeqCst))
    }

    /// For what the first waits from now on: the first, or who has the lock, calls it.
    pub(crate) fn set_mark(&self, mark: Mark) {
        self.mark.store(mark.code(), Ordering::SeqCst);
    }

    /// Whether somebody waits.
    #[inline(always)]
    pub(crate) fn is_awaited(&self) -> bool {
        self.mark.load(Ordering::SeqCst) != NOBODY
    }

    /// Lets by who comes for room, where nobody waits, or where it may overtake the first and few have: then it is counted.
    /// Whom it doesn't let by has to stand in the line.
    #[inline(always)]
    pub(crate) fn lets_by(&self, may_overtake: bool) -> bool {
        !self.is_awaited() || (may_overtake && self.lets_overtake())
    }

    /// Lets one more overtake the first, which is counted, where few have.
    #[inline(never)]
    fn lets_overtake(&self) -> bool {
        self.overtaking.fetch_add(1, Ordering::SeqCst) < MOST_OVERTAKING
    }

    /// Room may have been made so: rings the first, if it may be what that waits for. Once it was rung it will look, and
    /// isn't rung again before that.
    #[inline(always)]
    pub(crate) fn ring<R: Wait>(&self, rt: &R, waiters: &Waiters, made: RoomMade) {
        if self.is_awaited() {
            self.ring_by(rt, waiters, made);
        }
    }

    /// The same, where somebody waits.
    #[inline(never)]
    fn ring_by<R: Wait>(&self, rt: &R, waiters: &Waiters, made: RoomMade) {
        if self.mark().is_rung_by(made) {
            let queue = self.queue.lock(rt);
            if self.mark().is_rung_by(made) {
                self.ring_first(rt, waiters, &queue);
            }
        }
    }

    /// Rings the first, if there is one: it looks then.
    fn ring_first<R: Wait>(&self, rt: &R, waiters: &Waiters, queue: &Queue) {
        match queue.first() {
            Some(first) => {
                self.set_mark(Mark::Rung);
                waiters.ring(rt, first);
            }
            None => self.set_mark(Mark::Nobody),
        }
    }

    /// The one at this desk stands behind the others from now on.
    pub(crate) fn join<R: Wait>(&self, rt: &R, waiters: &Waiters, desk: usize) {
        let mut queue = self.queue.lock(rt);
        waiters.join(rt, &mut queue, desk);
        if queue.is_first(desk) {
            self.overtaking.store(0, Ordering::SeqCst);
            self.set_mark(Mark::Anything);
        }
    }

    /// Whether the one at this desk is the first.
    pub(crate) fn is_first<R: Wait>(&self, rt: &R, desk: usize) -> bool {
        self.queue.lock(rt).is_first(desk)
    }

    /// The one at this desk, which stands here, leaves. Where it was the first, the next one is, and is rung.
    pub(crate) fn leave<R: Wait>(&self, rt: &R, waiters: &Waiters, desk: usize) {
        let mut queue = self.queue.lock(rt);
        let was_first = queue.is_first(desk);
        waiters.leave(rt, &mut queue, desk);
        if was_first {
            self.overtaking.store(0, Ordering::SeqCst);
            self.ring_first(rt, waiters, &queue);
        }
    }
}
