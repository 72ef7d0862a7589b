//! The names that were found last.

use std::cell::Cell;

/// The indices of the two names that were found last: most that are searched for are one of them again, and a comparison
/// is cheaper than a search. It only shortens the way to an answer, so no contract speaks of what it holds.
#[derive(Drop)]
pub(crate) struct FoundLast {
    last: Cell<usize>,
    before: Cell<usize>,
}

impl FoundLast {
    /// None was found yet: it begins with the first.
    pub(crate) fn new() -> FoundLast {
        FoundLast {
            last: Cell::new(0),
            before: Cell::new(0),
        }
    }

    /// The index of the name that was found last.
    #[inline(always)]
    pub(crate) fn last(&self) -> usize {
        self.last.get()
    }

    /// The index of another one that was found before it.
    #[inline(always)]
    pub(crate) fn before(&self) -> usize {
        self.before.get()
    }

    /// That one was found again.
    #[inline(always)]
    pub(crate) fn swap(&self) {
        self.before.swap(&self.last);
    }

    /// The name at this index was found, which is none of these.
    pub(crate) fn note(&self, index: usize) {
        self.before.set(self.last.get());
        self.last.set(index);
    }
}
