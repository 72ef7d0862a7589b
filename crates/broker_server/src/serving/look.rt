//! What a sender finds that has no room at a topic.

ghost use Rattle.std.specs.Prelude.{◌≡◌, ◌++◌, ◌∷◌, [], None, true, false, IfOk, OnOk};
ghost use Rattle.broker_server.specs.RoomLooks.{dear_with, standing_with, trusted_with};

use crate::serving::price::Price;
use crate::serving::standing::Standing;
use std::alloc::{AllocError, Global};

/// What a sender finds that has no room at a topic: what waiting for those costs that lack it, and which of them it need
/// not wait for.
#[derive(Drop)]
pub(crate) struct Look {
    pub(crate) standing: Standing,
    /// The numbers of those whose waiting has to be paid by what is common.
    pub(crate) dear: Vec<u64>,
    /// Of those that are trusted.
    pub(crate) trusted: Vec<u64>,
    /// Of those for whom nobody waits, since their connection was passed over and is still behind.
    pub(crate) given_up: Vec<u64>,
    /// Whether those in `dear` may be waited for.
    pub(crate) may_wait: bool,
    /// Whether there is something left for the trusted.
    pub(crate) trusts: bool,
}

impl Look {
    /// Nobody was found yet; there is room for so many in each list.
    pub(crate) fn new(alloc: Global, count: usize) -> Result<Look, AllocError>
        ensures standing { IfOk result
            (λ look. look.standing ≡ record { price = Price.Free; connection = None }) }
        ensures nobody { IfOk result (λ look. (look.dear.items ≡ []) × (look.trusted.items ≡ [])
            × (look.given_up.items ≡ [])) }
        ensures may_wait { IfOk result (λ look. look.may_wait ≡ true) }
    {
        Ok(Look {
            standing: Standing::new(),
            dear: Vec::with_capacity(alloc, count)?,
            trusted: Vec::with_capacity(alloc, count)?,
            given_up: Vec::with_capacity(alloc, count)?,
            may_wait: true,
            trusts: false,
        })
    }

    /// One lacks room: the subscription of this number, of this connection, whose waiting has this price, or isn't
    /// waited for at all.
    pub(crate) fn finds(
        &mut self,
        sub: u64,
        connection: u64,
        price: Price,
        has_given_up: bool,
    ) -> Result<(), AllocError>
        ensures given_up { has_given_up ≡ true
            → OnOk result (self.new.given_up.items ≡ self.old.given_up.items ++ sub ∷ []) }
        ensures others { has_given_up ≡ true
            → (self.new.standing ≡ self.old.standing) × (self.new.dear ≡ self.old.dear)
            × (self.new.trusted ≡ self.old.trusted) }
        ensures standing { has_given_up ≡ false
            → self.new.standing ≡ standing_with self.old.standing price connection }
        ensures dear { has_given_up ≡ false
            → OnOk result (self.new.dear.items ≡ dear_with self.old.dear.items sub price) }
        ensures trusted { has_given_up ≡ false
            → OnOk result (self.new.trusted.items ≡ trusted_with self.old.trusted.items sub price) }
        ensures rest { has_given_up ≡ false → self.new.given_up ≡ self.old.given_up }
        ensures may_wait { self.new.may_wait ≡ self.old.may_wait }
        ensures trusts { self.new.trusts ≡ self.old.trusts }
    {
        if has_given_up {
            self.given_up.push(sub)?;
            return Ok(());
        }
        self.standing.adds(price, connection);
        match price {
            Price::Free => {}
            Price::Sixtieth | Price::Full => self.dear.push(sub)?,
            Price::Trusted => self.trusted.push(sub)?,
        }
        Ok(())
    }

    /// Nothing is left for the trusted: what waiting for them costs has to be paid as for others.
    pub(crate) fn trusts_no_more(&mut self) -> Result<(), AllocError>
        ensures dear { OnOk result (self.new.dear.items ≡ self.old.dear.items ++ self.old.trusted.items) }
        ensures trusted { OnOk result (self.new.trusted.items ≡ []) }
        ensures rest { (self.new.standing ≡ self.old.standing) × (self.new.given_up ≡ self.old.given_up)
            × (self.new.may_wait ≡ self.old.may_wait) }
    {
        self.dear.append(&mut self.trusted)
    }
}
