//! How much is taken of a connection's queues.

ghost use Rattle.std.specs.Prelude.{◌≡◌};
ghost use Rattle.broker_server.specs.Delivering.{extent_of};

use crate::conversation::held::Held;

/// How much is taken of a connection's queues.
#[derive(Clone, Copy)]
pub(crate) enum Extent {
    /// All that is there, as far as the wire has room.
    All,
    /// The same, but no lag is told: a transaction waits for room.
    ButLags,
    /// Nothing but the rest of the item that is half out: an answer is owed behind it.
    Rest,
}

impl Extent {
    /// How much is taken where this is held.
    pub(crate) fn of(held: &Option<Held>) -> Extent
        ensures { result ≡ extent_of held.now }
    {
        match held {
            None => Extent::All,
            Some(Held::Waits(_, _)) => Extent::ButLags,
            Some(Held::Owes(_, _)) => Extent::Rest,
        }
    }
}
