//! Whom a topic's senders wait for.

ghost use Rattle.std.specs.Prelude.{◌≡◌, ◌||◌, None, Some, is_none, if◌then◌else◌};
ghost use Rattle.broker_server.specs.Purses.{is_below};

use crate::serving::price::Price;

/// Whom a topic's senders wait for: the dearest of those that lack room.
#[derive(Clone, Copy)]
pub(crate) struct Standing {
    price: Price,
    /// Its connection's number.
    connection: Option<u64>,
}

impl Standing {
    /// Nobody lacks room, which costs nothing.
    pub(crate) fn new() -> Standing
        ensures { result ≡ record { price = Price.Free; connection = None } }
    {
        Standing {
            price: Price::Free,
            connection: None,
        }
    }

    /// A subscription of this connection lacks room, too. Of those that are as dear, the first stays.
    pub(crate) fn adds(&mut self, price: Price, connection: u64)
        ensures { self.new ≡ (if is_none self.old.connection || is_below self.old.price price
            then record { price = price; connection = Some connection } else self.old) }
    {
        if self.connection.is_none() || self.price.is_below(price) {
            self.price = price;
            self.connection = Some(connection);
        }
    }

    /// What waiting for it costs.
    pub(crate) fn price(&self) -> Price
        ensures { result ≡ self.now.price }
    {
        self.price
    }

    /// Its connection's number, where somebody lacks room.
    pub(crate) fn connection(&self) -> Option<u64>
        ensures { result ≡ self.now.connection }
    {
        self.connection
    }
}
