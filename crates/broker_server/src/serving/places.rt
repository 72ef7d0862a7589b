//! Places of those who keep room.

ghost use Rattle.std.specs.Prelude.{◌≡◌, ◌+◌, ◌-◌, nat_lt, true, false};

/// The places of those who keep room at a topic while they wait at a later one.
#[derive(Clone, Copy)]
pub(crate) struct Places {
    /// How many are taken.
    taken: u64,
    /// How many there are.
    most: u64,
}

impl Places {
    /// So many, of which none is taken.
    pub(crate) fn new(most: u64) -> Places
        ensures { result ≡ record { taken = 0; most = most } }
    {
        Places { taken: 0, most }
    }

    /// Whether one is left.
    pub(crate) fn is_left(&self) -> bool
        ensures { result ≡ nat_lt self.now.taken self.now.most }
    {
        self.taken < self.most
    }

    /// Takes one, if one is left; whether it did.
    pub(crate) fn take(&mut self) -> bool
        ensures left { result ≡ nat_lt self.old.taken self.old.most }
        ensures taken { result ≡ true → self.new ≡ record self.old { taken = self.old.taken + 1 } }
        ensures none { result ≡ false → self.new ≡ self.old }
    {
        if !self.is_left() {
            return false;
        }
        self.taken += 1;
        true
    }

    /// One is given back.
    pub(crate) fn give_back(&mut self)
        ensures { self.new ≡ record self.old { taken = self.old.taken - 1 } }
    {
        self.taken = self.taken.saturating_sub(1);
    }
}
