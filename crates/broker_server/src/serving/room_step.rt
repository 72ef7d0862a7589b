//! What a transaction does next that waits for room.

ghost use Rattle.std.specs.Prelude.{◌≡◌};
ghost use Rattle.broker_server.specs.Lines.{next_step};

/// Where a transaction stands that waits for room, as it asks for it at the next of its topics.
#[derive(Clone, Copy)]
pub(crate) enum Spot {
    /// Nowhere.
    Nowhere,
    /// It is the first of that topic's line.
    First,
    /// It stands behind others there.
    Behind,
    /// It waits for a place to keep room there.
    ForPlace,
}

/// What a transaction does next that waits for room.
#[derive(Clone, Copy)]
pub(crate) enum RoomStep {
    /// It has room at all its topics, and goes on.
    Done,
    /// It asks for room at the next topic.
    Ask,
    /// It takes a place to keep room, at the first topic where it has none, or stands in the second line there.
    TakePlace,
    /// It stands in the next topic's line from now on.
    Join,
    /// As the first of that line it asks for room, and says there for what it waits.
    Look,
    /// It waits until it is rung.
    Sleep,
}

/// What is known of a transaction that waits for room.
#[derive(Clone, Copy)]
pub(crate) struct RoomFacts {
    /// How many topics it has.
    pub(crate) topics: usize,
    /// At how many of these, the first, it has room.
    pub(crate) room: usize,
    /// At how many of these, the first, it has a place to keep that.
    pub(crate) places: usize,
    /// Whether there is none at the next topic, or others wait for it.
    pub(crate) is_refused: bool,
    pub(crate) spot: Spot,
}

impl RoomFacts {
    /// What it does next.
    pub(crate) fn next_step(self) -> RoomStep
        ensures { result ≡ next_step self }
    {
        if self.room >= self.topics {
            return RoomStep::Done;
        }
        match self.spot {
            Spot::First => RoomStep::Look,
            Spot::Behind => RoomStep::Sleep,
            Spot::ForPlace => RoomStep::TakePlace,
            Spot::Nowhere if !self.is_refused => RoomStep::Ask,
            Spot::Nowhere if self.places < self.room => RoomStep::TakePlace,
            Spot::Nowhere => RoomStep::Join,
        }
    }
}
