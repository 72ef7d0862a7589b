//! Who waits until it may keep room at a topic.

ghost use Rattle.std.specs.Prelude.{◌≡◌, None};

use crate::serving::places::Places;
use crate::serving::queue::Queue;

/// The places of those who keep room at a topic while they wait at a later one, and who waits for a place, in the order
/// in which they came.
#[derive(Clone, Copy)]
pub(crate) struct SecondLine {
    pub(crate) places: Places,
    pub(crate) queue: Queue,
}

impl SecondLine {
    /// So many places, and nobody.
    pub(crate) fn new(most: u64) -> SecondLine
        ensures { result ≡ record {
          places = record { taken = 0; most = most };
          queue = record { first = None; last = None };
        } }
    {
        SecondLine {
            places: Places::new(most),
            queue: Queue::new(),
        }
    }
}
