//! What a topic's senders wait for those who take slowly.

ghost use Rattle.std.specs.Prelude.{◌≡◌, ◌-◌, not, false, nat_lt, if◌then◌else◌};
ghost use Rattle.broker_server.specs.Purses.{
  Begins,
  Ends,
  GoesOn,
  IsBounded,
  Pays,
  after_call,
  after_time,
  common_pays,
  may_trust,
  may_wait,
  paid_rate,
  trust_pays,
};

use crate::serving::cost::Cost;
use crate::serving::fund::Fund;
use crate::serving::moment::Moment;
use crate::serving::price::Price;
use crate::serving::span::Span;

/// What is common has back of a nanosecond that costs it nothing: a six-hundredth (our choice).
const COMMON_BACK: u64 = 1;

/// And what there is for the trusted: a tenth, in six-hundredths (our choice).
const TRUST_BACK: u64 = 60;

/// What a topic's senders may wait for those who take slowly. It pays for the time in which somebody waits there. What
/// is common comes back by a six-hundredth of the time that costs it nothing, what the trusted have by a tenth.
#[derive(Clone, Copy)]
pub(crate) struct Purse {
    /// What pays for all but the trusted; for these, too, where theirs is spent.
    common: Fund,
    /// What pays for the trusted.
    trust: Fund,
    /// The moment until which was paid.
    at: Moment,
    /// How many wait.
    waiting: u64,
    /// The price of the dearest of those that lacked room when somebody looked last.
    price: Price,
}

impl Purse {
    /// A full one, at a topic at which nobody waits.
    #[tactic(auto, using(crate::proofs::PurseIsBounded::new_is_bounded))]
    pub(crate) fn new() -> Purse
        ensures full { result ≡ record {
          common = record { lacks = 0; spent = false };
          trust = record { lacks = 0; spent = false };
          at = record { 0 = 0 };
          waiting = 0;
          price = Price.Free;
        } }
        ensures bounded { IsBounded result }
    {
        Purse {
            common: Fund::new(),
            trust: Fund::new(),
            at: Moment(0),
            waiting: 0,
            price: Price::Free,
        }
    }

    /// Whether somebody waits.
    pub(crate) fn is_awaited(&self) -> bool
        ensures { result ≡ nat_lt 0 self.now.waiting }
    {
        self.waiting > 0
    }

    /// For how long somebody has waited since it paid last.
    pub(crate) fn unpaid(&self, now: Moment) -> Span
        ensures { result.0 ≡ (if nat_lt 0 self.now.waiting then now.0 - self.now.at.0 else 0) }
    {
        if self.waiting == 0 {
            Span(0)
        } else {
            now.since(self.at)
        }
    }

    /// Whether the trusted have a price of their own, as there is something left for them.
    pub(crate) fn trusts(&self) -> bool
        ensures { result ≡ not self.now.trust.spent }
    {
        !self.trust.is_spent()
    }

    /// Whether those that were found trusted may be waited for.
    pub(crate) fn may_trust(&self) -> bool
        ensures { result ≡ may_trust self.now }
    {
        !self.trust.is_spent() || !self.common.is_spent()
    }

    /// What a nanosecond at this price costs what there is for the trusted.
    fn trust_rate(&self, price: Price) -> u64
        ensures { result ≡ paid_rate (trust_pays self.now price) price }
    {
        if self.waiting == 0 || self.trust.is_spent() || !price.is_trusted() {
            0
        } else {
            price.rate()
        }
    }

    /// And what it costs what is common: nothing where that pays.
    fn common_rate(&self, price: Price) -> u64
        ensures { result ≡ paid_rate (common_pays self.now price) price }
    {
        let trust_pays = price.is_trusted() && !self.trust.is_spent();
        if self.waiting == 0 || self.common.is_spent() || trust_pays {
            0
        } else {
            price.rate()
        }
    }

    /// Pays until this moment, at this price, or has something back.
    fn settle(&mut self, now: Moment, price: Price)
        ensures { self.new ≡ after_time self.old now price }
    {
        let time = now.since(self.at);
        let common = self.common_rate(price);
        let trust = self.trust_rate(price);
        self.at = self.at.later(now);
        self.common.settles(common, COMMON_BACK, time);
        self.trust.settles(trust, TRUST_BACK, time);
    }

    /// Somebody finds no room at this moment. Whether those that lack it, of whom the dearest has this price, may be
    /// waited for, beside the trusted: else each of those that costs something is to be passed over.
    fn look(&mut self, now: Moment, price: Price) -> bool
        ensures after { self.new ≡ after_call self.old (GoesOn now price) }
        ensures may { result ≡ may_wait self.new }
    {
        self.settle(now, price);
        self.price = price;
        price.is_free() || !self.common.is_spent()
    }

    /// One more waits; whether those that lack room, beside the trusted, may be waited for.
    pub(crate) fn begins(&mut self, now: Moment, price: Price) -> bool
        ensures after { self.new ≡ after_call self.old (Begins now price) }
        ensures may { result ≡ may_wait self.new }
    {
        let may_wait = self.look(now, price);
        self.waiting = self.waiting.saturating_add(1);
        may_wait
    }

    /// One that waits finds no room again; whether those that lack it, beside the trusted, may be waited for.
    pub(crate) fn goes_on(&mut self, now: Moment, price: Price) -> bool
        ensures after { self.new ≡ after_call self.old (GoesOn now price) }
        ensures may { result ≡ may_wait self.new }
    {
        self.look(now, price)
    }

    /// One waits no longer.
    pub(crate) fn ends(&mut self, now: Moment)
        ensures { self.new ≡ after_call self.old (Ends now) }
    {
        self.settle(now, self.price);
        self.waiting = self.waiting.saturating_sub(1);
    }

    /// One that was waited for ends while it is behind, and pays what it owes.
    pub(crate) fn pays(&mut self, now: Moment, owed: Cost)
        ensures { self.new ≡ after_call self.old (Pays now owed.0) }
    {
        self.settle(now, self.price);
        self.common.pays(owed);
    }
}
