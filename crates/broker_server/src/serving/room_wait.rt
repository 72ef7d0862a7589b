//! A connection's wait for room.

ghost use Rattle.std.specs.Prelude.{◌≡◌, ◌≤◌, ◌⊎◌, None, Some, true, false, length, IfSome};
ghost use Rattle.std.specs.Option.{is_some};
ghost use Rattle.broker_server.specs.Purses.{is_free};

use crate::serving::hub::Hub;
use crate::serving::look::Look;
use crate::serving::moment::Moment;
use crate::serving::topic_seats::TopicSeats;
use crate::serving::wait_news::WaitNews;
use broker_locks::{PartOctets, Side};
use mcast_txn::Topic;
use std::alloc::Global;
use std::sync::Wait;
use std::time::Clock;

/// A connection's wait for room: where it is counted as one that waits, and what is to be said of it.
#[derive(Drop)]
pub(crate) struct RoomWait {
    /// The topic at whose purse it is counted.
    counted_at: Option<Topic>,
    news: Option<WaitNews>,
}

impl RoomWait {
    /// It doesn't wait.
    pub(crate) fn new() -> RoomWait
        ensures { result ≡ record { counted_at = None; news = None } }
    {
        RoomWait {
            counted_at: None,
            news: None,
        }
    }

    /// What is to be said of those whom it waits for: once.
    pub(crate) fn take_news(&mut self) -> Option<WaitNews>
        ensures news { result ≡ self.old.news }
        ensures none { self.new ≡ record self.old { news = None } }
    {
        self.news.take()
    }

    /// Whether it is counted as one that waits.
    pub(crate) fn is_counted(&self) -> bool
        ensures { result ≡ is_some self.now.counted_at }
    {
        self.counted_at.is_some()
    }

    /// It waits no longer. No clock is read where it wasn't counted.
    pub(crate) fn end<R: Wait + Clock, W: Side, T: Side>(&mut self, rt: &R, hub: &Hub<R, W, T>)
        ensures { self.new ≡ record self.old { counted_at = None } }
    {
        if let Some(topic) = self.counted_at.take()
            && let Some(seats) = hub.seats(topic)
        {
            seats.wait_ends(rt, Moment::now(rt));
        }
    }

    /// It has found no room at this topic for a part of so many octets, and looks whom it waits for: those for whom it may
    /// not wait are passed over. Where nobody lacks room, only what is pending or reserved fills the topic, and that isn't
    /// looked at. How many it passed over.
    pub(crate) fn look<R: Wait + Clock, W: Side, T: Side>(
        &mut self,
        rt: &R,
        alloc: Global,
        hub: &Hub<R, W, T>,
        topic: Topic,
        octets: PartOctets,
    ) -> u64
        ensures counted { (self.new.counted_at ≡ self.old.counted_at) ⊎ (self.new.counted_at ≡ None)
            ⊎ (self.new.counted_at ≡ Some topic) }
    {
        let mut lacking = Vec::new(alloc);
        let _ = hub.running.broker.lacking(rt, topic, octets, &mut lacking);
        if lacking.is_empty() && self.counted_at.is_none() {
            return 0;
        }
        lacking.sort_unstable();
        let Some(seats) = hub.seats(topic) else {
            return 0;
        };
        let is_counted = self.stays_at(rt, hub, topic);
        let now = Moment::now(rt);
        let Ok(look) = seats.look(rt, alloc, now, lacking.as_slice(), is_counted) else {
            return 0;
        };
        self.counted_at = Some(topic);
        let passed_over = pass_over_those(rt, hub, seats, topic, octets, now, &look);
        if let Some(news) = news_of(rt, seats, topic, now, &look, passed_over) {
            self.news = Some(news);
        }
        passed_over
    }

    /// Whether it is counted at this topic. At another one it waits no longer.
    fn stays_at<R: Wait + Clock, W: Side, T: Side>(
        &mut self,
        rt: &R,
        hub: &Hub<R, W, T>,
        topic: Topic,
    ) -> bool
        ensures stays { result ≡ true
            → (self.new ≡ self.old) × (self.old.counted_at ≡ Some topic) }
        ensures ends { result ≡ false → self.new ≡ record self.old { counted_at = None } }
    {
        if let Some(other) = self.counted_at
            && other.0 == topic.0
        {
            return true;
        }
        self.end(rt, hub);
        false
    }
}

/// Passes over those that a look found who aren't to be waited for; how many.
fn pass_over_those<R: Wait, W: Side, T: Side>(
    rt: &R,
    hub: &Hub<R, W, T>,
    seats: &TopicSeats,
    topic: Topic,
    octets: PartOctets,
    now: Moment,
    look: &Look,
) -> u64 {
    let mut count = pass_over(rt, hub, seats, topic, octets, now, look.given_up.as_slice());
    if !look.may_wait {
        let dear = pass_over(rt, hub, seats, topic, octets, now, look.dear.as_slice());
        count = count.saturating_add(dear);
    }
    count
}

/// Passes over these subscriptions, as far as they lack room still for a part of so many octets; how many.
fn pass_over<R: Wait, W: Side, T: Side>(
    rt: &R,
    hub: &Hub<R, W, T>,
    seats: &TopicSeats,
    topic: Topic,
    octets: PartOctets,
    now: Moment,
    subs: &[u64],
) -> u64
    ensures { result ≤ length subs.now }
{
    let mut count = 0u64;
    for sub in subs {
        if hub.running.broker.pass_over(rt, topic, octets, *sub) {
            seats.pass_over(rt, *sub, now);
            count = count.saturating_add(1);
        }
    }
    count
}

/// What is to be said of a look that passed over so many: where waiting costs something, or some were passed over, and
/// nothing was said of the topic within the last second.
fn news_of<R: Wait>(
    rt: &R,
    seats: &TopicSeats,
    topic: Topic,
    now: Moment,
    look: &Look,
    passed_over: u64,
) -> Option<WaitNews>
    ensures whom { IfSome result (λ news. (news.topic ≡ topic)
        × (news.connection ≡ look.now.standing.connection)) }
    ensures free { is_free look.now.standing.price ≡ true → passed_over ≡ 0 → result ≡ None }
{
    if look.standing.price().is_free() && passed_over == 0 {
        return None;
    }
    let connection = look.standing.connection();
    let passed_over = seats.say(rt, now, passed_over)?;
    Some(WaitNews {
        topic,
        connection,
        passed_over,
    })
}
