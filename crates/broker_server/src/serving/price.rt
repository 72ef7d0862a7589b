//! What waiting for a connection costs.

ghost use Rattle.std.specs.Prelude.{◌≡◌, ◌-◌, ◌*◌, ◌^◌, min};
ghost use Rattle.broker_server.specs.Purses.{as_trusted, cheaper, dearer, is_below, is_free, is_trusted, rank, rate};

use crate::serving::cost::Cost;
use crate::serving::span::Span;

/// What waiting for a connection costs: nothing, a sixtieth of the time, all of it, or all of it to what is there for the
/// trusted.
#[derive(Clone, Copy)]
pub(crate) enum Price {
    Free,
    Sixtieth,
    Full,
    Trusted,
}

impl Price {
    /// Whether it is nothing.
    pub(crate) fn is_free(self) -> bool
        ensures { result ≡ is_free self }
    {
        match self {
            Price::Free => true,
            Price::Sixtieth | Price::Full | Price::Trusted => false,
        }
    }

    /// Whether it is that of one that is trusted.
    pub(crate) fn is_trusted(self) -> bool
        ensures { result ≡ is_trusted self }
    {
        match self {
            Price::Trusted => true,
            Price::Free | Price::Sixtieth | Price::Full => false,
        }
    }

    /// What one costs that is trusted, and would cost so much else.
    pub(crate) fn as_trusted(self) -> Price
        ensures { result ≡ as_trusted self }
    {
        if self.is_free() {
            Price::Free
        } else {
            Price::Trusted
        }
    }

    /// What a nanosecond costs, in six-hundredths of one.
    pub(crate) fn rate(self) -> u64
        ensures { result ≡ rate self }
    {
        match self {
            Price::Free => 0,
            Price::Sixtieth => 10,
            Price::Full | Price::Trusted => 600,
        }
    }

    /// Its place among the prices, the dearest last.
    fn rank(self) -> u64
        ensures { result ≡ rank self }
    {
        match self {
            Price::Free => 0,
            Price::Sixtieth => 1,
            Price::Full => 2,
            Price::Trusted => 3,
        }
    }

    /// Whether the other is dearer.
    pub(crate) fn is_below(self, other: Price) -> bool
        ensures { result ≡ is_below self other }
    {
        self.rank() < other.rank()
    }

    /// The cheaper of the two.
    pub(crate) fn cheaper(self, other: Price) -> Price
        ensures { result ≡ cheaper self other }
    {
        if self.is_below(other) { self } else { other }
    }

    /// The dearer of the two.
    pub(crate) fn dearer(self, other: Price) -> Price
        ensures { result ≡ dearer self other }
    {
        if self.is_below(other) { other } else { self }
    }

    /// What waiting for so long would cost at the full price, beside what it costs.
    pub(crate) fn spared(self, time: Span) -> Cost
        ensures { result.0 ≡ min ((600 - rate self) * time.0) (2 ^ 64 - 1) }
    {
        let rest = 600u64.saturating_sub(self.rate());
        Cost(rest.saturating_mul(time.0))
    }
}
