//! How many octets a part has.

ghost use Rattle.std.specs.Prelude.{◌≡◌, ◌≤◌};
ghost use Rattle.broker_locks.specs.PartOctets.{places_for};

/// By so many octets a queue's parts are bounded (our choice): the k-th of them has at most so many divided by k, but the
/// first may have any.
const MOST_OCTETS: u64 = 17 * 1_048_576;

/// How many octets a part has: the bodies of its SENDs, and the names and values of their headers.
#[derive(Clone, Copy, Debug, PartialEq, Eq)]
pub struct PartOctets(pub u64);

impl PartOctets {
    /// How many places have to be free in a queue of this capacity for it to come: its own, and so many beside it that no
    /// more parts are before it than so many octets allow.
    pub(crate) fn places(self, capacity: usize) -> u64
        ensures places { result ≡ places_for capacity self.0 }
        ensures some { 1 ≤ result }
    {
        let all = capacity as u64;
        if self.0.saturating_mul(all) <= MOST_OCTETS {
            return 1;
        }
        match MOST_OCTETS.checked_div(self.0) {
            Some(rank) if rank > 1 => all.saturating_sub(rank).saturating_add(1),
            _ => all,
        }
    }
}
