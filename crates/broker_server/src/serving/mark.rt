//! For what the first of a line waits.

ghost use Rattle.std.specs.Prelude.{◌≡◌, ◌⊎◌};
ghost use Rattle.broker_server.specs.Lines.{code_of, mark_of, rings};
ghost use Rattle.broker_server.specs.declared.serving.mark.Mark.TheVariants as mark;

use crate::serving::room_made::RoomMade;

/// The code of a line in which nobody stands.
pub(crate) const NOBODY: u64 = 0;

/// For what the first of a topic's line waits.
#[derive(Clone, Copy)]
pub(crate) enum Mark {
    /// Nobody stands in the line.
    Nobody,
    /// The first looks, or doesn't know yet for what it waits.
    Anything,
    /// The first was rung, and will look.
    Rung,
    /// Fewer parts that are pending, or for which room is reserved.
    Due,
    /// What the subscription of this number takes.
    Sub(u64),
}

impl Mark {
    /// Its code: a number below 4, or the subscription's and 4. A subscription whose number has no code is one of which
    /// nothing is known.
    pub(crate) fn code(self) -> u64
        ensures code { result ≡ code_of self }
        ensures back { (mark_of result ≡ self) ⊎ (mark_of result ≡ mark.Anything) }
    {
        match self {
            Mark::Nobody => NOBODY,
            Mark::Anything => 1,
            Mark::Rung => 2,
            Mark::Due => 3,
            Mark::Sub(sub) => sub.checked_add(4).unwrap_or(1),
        }
    }

    /// The mark of this code.
    pub(crate) fn of(code: u64) -> Mark
        ensures { result ≡ mark_of code }
    {
        match code {
            0 => Mark::Nobody,
            1 => Mark::Anything,
            2 => Mark::Rung,
            3 => Mark::Due,
            _ => Mark::Sub(code - 4),
        }
    }

    /// Whether this may have made the room that the first waits for, so that it is rung.
    pub(crate) fn is_rung_by(self, made: RoomMade) -> bool
        ensures { result ≡ rings made self }
    {
        match (self, made) {
            (Mark::Nobody | Mark::Rung, _) => false,
            (Mark::Anything, _) => true,
            (Mark::Due, RoomMade::Turned | RoomMade::Freed) => true,
            (Mark::Due, RoomMade::At(_)) => false,
            (Mark::Sub(_), RoomMade::Turned) => false,
            (Mark::Sub(_), RoomMade::Freed) => true,
            (Mark::Sub(sub), RoomMade::At(other)) => sub == other,
        }
    }
}
