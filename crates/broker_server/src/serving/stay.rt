//! A stay within a topic's turnstile.

ghost use Rattle.std.specs.Prelude.{◌≡◌, ◌-◌, ◌==◌, ◌&&◌, nat_lt, true, false};

use crate::serving::moment::Moment;
use mcast_txn::Topic;

/// So many subscriptions are begun in one stay behind its first, at most (our choice): with that as many as a connection
/// may have.
const MORE: u32 = 63;

/// A stay within a topic's turnstile. It can't be let go of: `Turnstile::leave` takes it, so that no turnstile stays shut
/// for nobody.
pub(crate) struct Stay {
    topic: Topic,
    /// Since when; none where it came beside who is within.
    since: Option<Moment>,
    /// How many subscriptions more may be begun in it.
    left: u32,
}

impl Stay {
    /// One at this topic since this moment, or beside who is within, in which one is begun.
    pub(crate) fn new(topic: Topic, since: Option<Moment>) -> Stay
        ensures { result ≡ record { topic = topic; since = since; left = 63 } }
    {
        Stay {
            topic,
            since,
            left: MORE,
        }
    }

    /// Where it is.
    pub(crate) fn topic(&self) -> Topic
        ensures { result ≡ self.now.topic }
    {
        self.topic
    }

    /// It ends; since when it was, unless it came beside who was within.
    pub(crate) fn end(self) -> Option<Moment>
        ensures { result ≡ self.since }
    {
        let Stay {
            topic: _,
            since,
            left: _,
        } = self;
        since
    }

    /// Whether one more is begun in it, at this topic.
    pub(crate) fn begins(&mut self, topic: Topic) -> bool
        ensures may { result ≡ (self.old.topic.0 == topic.0 && nat_lt 0 self.old.left) }
        ensures yes { result ≡ true → self.new ≡ record self.old { left = self.old.left - 1 } }
        ensures no { result ≡ false → self.new ≡ self.old }
    {
        if self.topic.0 != topic.0 || self.left == 0 {
            return false;
        }
        self.left -= 1;
        true
    }
}
