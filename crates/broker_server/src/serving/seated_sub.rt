//! A connection's open subscription, with its seat.

ghost use Rattle.std.specs.Prelude.{◌≡◌, false};
ghost use Rattle.std.specs.Arc.{arc_value};

use crate::serving::seat::Seat;
use broker_locks::Subscribed;
use mcast_txn::Topic;
use std::sync::Arc;
use std::sync::atomic::{AtomicBool, Ordering};

/// A connection's open subscription, with its seat.
#[derive(Drop)]
pub(crate) struct SeatedSub {
    pub(crate) topic: Topic,
    pub(crate) begun: Subscribed,
    pub(crate) seat: Arc<Seat>,
    /// The seat's flag.
    pub(crate) flag: u64,
    /// As how many items count that were taken since the topic was told how many were.
    pub(crate) untold: u64,
    /// Whether it has ended at its topic.
    over: AtomicBool,
    /// Whether it was said that it has lagged.
    said: AtomicBool,
}

impl SeatedSub {
    /// One that has begun at this topic, and has this seat there.
    pub(crate) fn new(topic: Topic, begun: Subscribed, seat: Arc<Seat>) -> SeatedSub
        ensures topic { result.topic ≡ topic }
        ensures begun { result.begun ≡ begun }
        ensures seat { result.seat ≡ seat }
        ensures untold { result.untold ≡ 0 }
    {
        let flag = seat.flag();
        SeatedSub {
            topic,
            begun,
            seat,
            flag,
            untold: 0,
            over: AtomicBool::new(false),
            said: AtomicBool::new(false),
        }
    }

    /// Whether it has ended at its topic.
    pub(crate) fn is_over(&self) -> bool {
        self.over.load(Ordering::SeqCst)
    }

    /// It ends at its topic; whether it hadn't ended there before.
    pub(crate) fn end(&self) -> bool {
        !self.over.swap(true, Ordering::SeqCst)
    }

    /// It is said that it has lagged; whether that wasn't said before.
    pub(crate) fn say_lagged(&self) -> bool {
        !self.said.swap(true, Ordering::SeqCst)
    }
}
