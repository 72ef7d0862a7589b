//! Who subscribes at a topic, one connection after another.

ghost use Rattle.std.specs.Prelude.{◌≡◌};

use crate::serving::moment::Moment;
use crate::serving::passage::Passage;
use crate::serving::span::Span;
use crate::serving::stay::Stay;
use mcast_txn::Topic;
use std::sync::{Condvar, CondvarTimeouts, Mutex, MutexGuard, Wait};
use std::thread;
use std::time::{Clock, Duration};

/// Lets one connection at a time come to a topic to subscribe there; the others wait in front. A lock for which many wait
/// is handed on by turns, so that a commit there would wait for all of them; so it meets one, and seldom. Who is regular
/// goes before the others. Who has waited long comes beside the one that is within.
#[derive(Drop)]
pub(crate) struct Turnstile {
    passage: Mutex<Passage>,
    /// Of those in front who are regular one is told here that nobody is within.
    to_regulars: Condvar,
    /// Of the others one is.
    to_others: Condvar,
}

impl Turnstile {
    /// Nobody is within.
    pub(crate) fn new() -> Turnstile {
        Turnstile {
            passage: Mutex::new(Passage::new()),
            to_regulars: Condvar::new(),
            to_others: Condvar::new(),
        }
    }

    /// Comes to this topic, whose turnstile it is: once nobody else is within, and then it rests, if the one before left
    /// just now; or beside that, where it has waited in front for so long. Who is within another one may not come here.
    pub(crate) fn enter<R: Wait + Clock>(
        &self,
        rt: &R,
        topic: Topic,
        is_regular: bool,
        most: Span,
    ) -> Stay
        ensures { result.topic ≡ topic }
    {
        let mut passage = self.wait_in_front(rt, is_regular, most);
        let now = Moment::now(rt);
        let since = passage.enter(now, is_regular);
        drop(passage);
        if let Some(since) = since
            && since.since(now).0 > 0
        {
            thread::sleep(rt, Duration::from_nanos(since.since(now).0));
        }
        Stay::new(topic, since)
    }

    /// Waits until nobody is within, for so long at most.
    fn wait_in_front<R: Wait + Clock>(
        &self,
        rt: &R,
        is_regular: bool,
        most: Span,
    ) -> MutexGuard<'_, Passage> {
        let mut passage = self.passage.lock(rt);
        let most = Duration::from_nanos(most.0);
        if is_regular {
            passage.comes();
            let (passage, _) = self
                .to_regulars
                .wait_timeout_while(rt, passage, most, |passage| passage.is_shut(true));
            return passage;
        }
        let (passage, _) = self
            .to_others
            .wait_timeout_while(rt, passage, most, |passage| passage.is_shut(false));
        passage
    }

    /// This stay ends.
    pub(crate) fn leave<R: Wait + Clock>(&self, rt: &R, stay: Stay) {
        let Some(since) = stay.end() else {
            return;
        };
        let now = Moment::now(rt);
        let mut passage = self.passage.lock(rt);
        passage.leave(since, now);
        let has_regulars = passage.has_regulars();
        drop(passage);
        if has_regulars {
            self.to_regulars.notify_one();
        } else {
            self.to_others.notify_one();
        }
    }
}
