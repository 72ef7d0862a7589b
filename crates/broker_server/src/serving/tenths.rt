//! What the system took of a connection's octets, by tenths of a second.

ghost use Rattle.std.specs.Prelude.{◌≡◌, ℕ, ◌+◌, ◌/◌, ◌<◌, ◌≤◌};
ghost use Rattle.broker_server.specs.Counts.{plus};
ghost use Rattle.broker_server.specs.Purses.{counted_octets, lately_taken, no_tenths, tenth, tenth_octets, tenths_after};

use crate::serving::moment::Moment;

/// A tenth of a second, in nanoseconds.
pub(crate) const TENTH: u64 = 100_000_000;

/// The last second lies in so many tenths, with the one that has begun.
const TENTHS: u64 = 11;

/// What was taken in one tenth of a second.
#[derive(Clone, Copy)]
pub(crate) struct Tenth {
    /// Its number, counted from the clock's beginning.
    number: u64,
    octets: u64,
}

/// What was taken in the last tenths of a second: of the tenth of number n at place n % 11.
#[derive(Clone, Copy)]
pub(crate) struct Tenths {
    tenths: [Tenth; 11],
}

impl Tenths {
    /// Nothing was taken.
    pub(crate) fn new() -> Tenths
        ensures { result.tenths ≡ no_tenths }
    {
        let none = Tenth {
            number: 0,
            octets: 0,
        };
        Tenths { tenths: [none; 11] }
    }

    /// How many octets were taken in the tenth of this number, where that is one of the last.
    fn octets_in(&self, number: u64) -> u64
        ensures { result ≡ tenth_octets self.now.tenths number }
    {
        let tenth = self.tenths[(number % TENTHS) as usize];
        if tenth.number == number {
            tenth.octets
        } else {
            0
        }
    }

    /// How many octets were taken in this moment's tenth.
    pub(crate) fn octets_at(&self, now: Moment) -> u64
        ensures { result ≡ tenth_octets self.now.tenths (now.0 / tenth) }
    {
        self.octets_in(now.0 / TENTH)
    }

    /// More octets were taken at this moment.
    #[tactic(auto, using(crate::proofs::PurseLemmas::octets_of_this, crate::proofs::PurseLemmas::octets_of_another))]
    pub(crate) fn add(&mut self, now: Moment, octets: u64)
        ensures after { self.new.tenths ≡ tenths_after self.old.tenths now octets }
        ensures this { let number = now.0 / tenth in
            tenth_octets self.new.tenths number ≡ plus (tenth_octets self.old.tenths number) octets }
        // of the ten tenths before, nothing is forgotten
        ensures others { (n : ℕ) → n < now.0 / tenth → now.0 / tenth < n + 11
            → tenth_octets self.new.tenths n ≡ tenth_octets self.old.tenths n }
    {
        let number = now.0 / TENTH;
        let octets = self.octets_in(number).saturating_add(octets);
        self.tenths[(number % TENTHS) as usize] = Tenth { number, octets };
    }

    /// How many octets of the tenth that is so many tenths back count: at most so many.
    fn counted(&self, now: Moment, most: u32, back: u64) -> u64
        ensures counted { result ≡ counted_octets self.now.tenths now most back }
        ensures most { result ≤ most }
    {
        match (now.0 / TENTH).checked_sub(back) {
            Some(number) => self.octets_in(number).min(u64::from(most)),
            None => 0,
        }
    }

    /// How many octets were taken in the last eleven tenths, of each at most so many.
    #[tactic(auto, using(crate::proofs::PurseLemmas::sum_by_range_more))]
    pub(crate) fn lately(&self, now: Moment, most: u32) -> u64
        ensures { result ≡ lately_taken self.now.tenths now most }
    {
        let mut taken = 0u64;
        for back in 0..TENTHS {
            taken += self.counted(now, most, back);
        }
        taken
    }
}
