//! How fast the system takes what a connection writes.

ghost use Rattle.std.specs.Prelude.{◌≡◌, None, false};
ghost use Rattle.broker_server.specs.Purses.{
  after_catching_up,
  after_falling_behind,
  after_giving_up,
  after_keeping_up,
  after_octets,
  fast_tenth,
  first_price,
  has_rate,
  is_taking,
  is_proven,
  is_trusted_at,
  known_price,
  may_pause,
  no_tenths,
  pace_price,
  price_at,
  slow_tenth,
  twice_a_tenth,
};

use crate::serving::moment::Moment;
use crate::serving::price::Price;
use crate::serving::span::Span;
use crate::serving::tenths::{TENTH, Tenths};

/// A second, in nanoseconds.
const SECOND: u64 = 1_000_000_000;

/// Where so many octets a second are taken, waiting costs nothing (our choice).
const FAST: u32 = 8_388_608;

/// Where so many are, it costs a sixtieth of the time (our choice).
const SLOW: u32 = 65_536;

/// So many at once, in a tenth of a second, are two seconds of who is slow, and count for as long (our choice).
const GULP: u64 = 131_072;

/// For so long, in nanoseconds.
const GULP_LASTS: u64 = 2_000_000_000;

/// So many octets are more than the system's buffers hold (our choice).
pub(crate) const MOST_BUFFERED: u64 = 8_388_608;

/// How fast the system takes what a connection writes, while it is behind: since the system took less than there was,
/// until it has taken all and the connection's queues are empty.
#[derive(Clone, Copy)]
pub(crate) struct Pace {
    /// Since when it is behind.
    since: Option<Moment>,
    /// How many octets were taken since then.
    taken: u64,
    tenths: Tenths,
    /// Whether something was taken a tenth of a second or more after it fell behind: what the system's buffers take by
    /// themselves they have taken before.
    resumed: bool,
    /// When it took so much at once last, while it was behind, that it is slow for two seconds: also before it caught up.
    gulped: Option<Moment>,
    /// What it cost when it was behind last, of which the price in the first tenth of a second of being behind is made.
    known: Price,
    /// Whether it was passed over since it is behind, and isn't waited for at any topic until it catches up.
    given_up: bool,
    /// How many octets were taken while it was behind, whenever that was; and 8 MiB for each time that it kept up with so
    /// many.
    ever: u64,
}

/// Whether so many octets in this time are so many a second, or more.
fn has_rate(octets: u64, time: Span, wanted: u32) -> bool
    ensures { result ≡ has_rate octets time.0 wanted }
{
    u128::from(octets) * u128::from(SECOND) >= u128::from(wanted) * u128::from(time.0)
}

/// Twice what a tenth of a second has of so many octets a second, rounded up: so much counts of a tenth, so that what the
/// system's buffers take at once is no pace.
fn twice_a_tenth(octets: u32) -> u32
    ensures { result ≡ twice_a_tenth octets }
{
    octets / 5 + 1
}

/// What waiting costs for who is fast, or slow, or slower.
fn pace_price(is_fast: bool, is_slow: bool) -> Price
    ensures { result ≡ pace_price is_fast is_slow }
{
    if is_fast {
        Price::Free
    } else if is_slow {
        Price::Sixtieth
    } else {
        Price::Full
    }
}

impl Pace {
    /// It isn't behind, and never was: in its first tenth of being behind it has the full price.
    pub(crate) fn new() -> Pace
        ensures { result ≡ record {
          since = None;
          taken = 0;
          tenths = record { tenths = no_tenths };
          resumed = false;
          gulped = None;
          known = Price.Full;
          given_up = false;
          ever = 0;
        } }
    {
        Pace {
            since: None,
            taken: 0,
            tenths: Tenths::new(),
            resumed: false,
            gulped: None,
            known: Price::Full,
            given_up: false,
            ever: 0,
        }
    }

    /// The system took so many octets, which counts while it is behind.
    pub(crate) fn takes(&mut self, now: Moment, octets: u64)
        ensures { self.new ≡ after_octets self.old now octets }
    {
        if let Some(since) = self.since {
            self.taken = self.taken.saturating_add(octets);
            self.ever = self.ever.saturating_add(octets);
            self.resumed = self.resumed || now.since(since).0 >= TENTH;
            self.tenths.add(now, octets);
            if self.tenths.octets_at(now) >= GULP {
                self.gulped = Some(now);
            }
        }
    }

    /// The system took less than there is.
    pub(crate) fn falls_behind(&mut self, now: Moment)
        ensures { self.new ≡ after_falling_behind self.old now }
    {
        if self.since.is_none() {
            self.since = Some(now);
            self.taken = 0;
            self.tenths = Tenths::new();
            self.resumed = false;
        }
    }

    /// The system has taken all, and the connection's queues are empty.
    pub(crate) fn catches_up(&mut self, now: Moment)
        ensures { self.new ≡ after_catching_up self.old now }
    {
        if let Some(since) = self.since {
            self.known = self.known_after(now.since(since));
            self.since = None;
            self.given_up = false;
        }
    }

    /// The price that is known once it has taken all, and was behind for this time: less than a second makes it no
    /// dearer.
    fn known_after(&self, time: Span) -> Price
        ensures { result ≡ known_price self.now.known self.now.taken time.0 }
    {
        if time.0 < TENTH {
            return Price::Free;
        }
        let is_fast = has_rate(self.taken, time, FAST);
        let price = pace_price(is_fast, has_rate(self.taken, time, SLOW));
        if time.0 < SECOND {
            self.known.cheaper(price)
        } else {
            price
        }
    }

    /// So much was taken without its being behind that it counts as one that was behind for less than a tenth of a
    /// second.
    pub(crate) fn keeps_up(&mut self)
        ensures { self.new ≡ after_keeping_up self.old }
    {
        if self.since.is_none() {
            self.known = Price::Free;
            self.ever = self.ever.saturating_add(MOST_BUFFERED);
        }
    }

    /// It was passed over. Where it has been behind for a tenth of a second, it isn't waited for at any topic until it
    /// catches up, and nothing is known of it but how it does that.
    pub(crate) fn gives_up(&mut self, now: Moment)
        ensures { self.new ≡ after_giving_up self.old now }
    {
        if let Some(since) = self.since
            && now.since(since).0 >= TENTH
        {
            self.given_up = true;
            self.known = Price::Full;
        }
    }

    /// Whether it isn't waited for at any topic.
    pub(crate) fn has_given_up(&self) -> bool
        ensures { result ≡ self.now.given_up }
    {
        self.given_up
    }

    /// Since when it is behind.
    pub(crate) fn since(&self) -> Option<Moment>
        ensures { result ≡ self.now.since }
    {
        self.since
    }

    /// Whether it cost nothing when it was behind last, and took more than the system's buffers hold.
    fn is_proven(&self) -> bool
        ensures { result ≡ is_proven self.now }
    {
        self.known.is_free() && self.ever >= MOST_BUFFERED
    }

    /// Whether it is trusted at this moment: it is proven, and has been behind for a tenth of a second, and less than a
    /// second.
    pub(crate) fn is_trusted(&self, now: Moment) -> bool
        ensures { result ≡ is_trusted_at self.now now }
    {
        let Some(since) = self.since else {
            return false;
        };
        let time = now.since(since);
        self.is_proven() && time.0 >= TENTH && time.0 < SECOND
    }

    /// Whether so many octets a second are taken, over the time since it is behind, a second at most. Of each tenth of a
    /// second at most so many count.
    fn is_taking(&self, now: Moment, time: Span, wanted: u32, most: u32) -> bool
        ensures { result ≡ is_taking self.now.tenths.tenths now time.0 wanted most }
    {
        has_rate(self.tenths.lately(now, most), time, wanted)
    }

    /// How much of a tenth of a second counts for being fast.
    fn fast_tenth(&self) -> u32
        ensures { result ≡ fast_tenth self.now }
    {
        if self.is_proven() {
            FAST
        } else {
            twice_a_tenth(FAST)
        }
    }

    /// How much of one counts for being slow: where more was taken than the system's buffers hold, or something again a
    /// tenth of a second after it fell behind, all that a second has.
    fn slow_tenth(&self) -> u32
        ensures { result ≡ slow_tenth self.now }
    {
        if self.ever >= MOST_BUFFERED || self.resumed {
            SLOW
        } else {
            twice_a_tenth(SLOW)
        }
    }

    /// Whether it may pause: more was taken than the system's buffers hold, and enough for two seconds at once, within the
    /// last two.
    fn may_pause(&self, now: Moment) -> bool
        ensures { result ≡ may_pause self.now now }
    {
        match self.gulped {
            Some(gulped) => self.ever >= MOST_BUFFERED && now.since(gulped).0 < GULP_LASTS,
            None => false,
        }
    }

    /// What waiting for it costs in the first tenth of a second of being behind: as it was behind last, but a sixtieth at
    /// least where the system's buffers may have caught up for it.
    fn first_price(&self) -> Price
        ensures { result ≡ first_price self.now }
    {
        if self.is_proven() {
            Price::Free
        } else {
            self.known.dearer(Price::Sixtieth)
        }
    }

    /// What waiting for it costs at this moment.
    pub(crate) fn price(&self, now: Moment) -> Price
        ensures { result ≡ price_at self.now now }
    {
        let Some(since) = self.since else {
            return Price::Free;
        };
        let time = now.since(since);
        if time.0 < TENTH {
            return self.first_price();
        }
        let time = Span(time.0.min(SECOND));
        let is_fast = self.is_taking(now, time, FAST, self.fast_tenth());
        let is_slow = self.may_pause(now) || self.is_taking(now, time, SLOW, self.slow_tenth());
        pace_price(is_fast, is_slow)
    }
}
