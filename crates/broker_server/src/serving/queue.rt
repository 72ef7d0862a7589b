//! Connections in the order in which they came.

ghost use Rattle.std.specs.Prelude.{◌≡◌, None};
ghost use Rattle.broker_server.specs.Lines.{is_desk, queue_with, queue_without};

use crate::serving::links::Links;

/// Connections in the order in which they came, by the numbers of their desks: the first and the last of them. Between
/// whom each stands is in the table of waiters.
#[derive(Clone, Copy)]
pub(crate) struct Queue {
    first: Option<usize>,
    last: Option<usize>,
}

impl Queue {
    /// Nobody.
    pub(crate) fn new() -> Queue
        ensures { result ≡ record { first = None; last = None } }
    {
        Queue {
            first: None,
            last: None,
        }
    }

    /// Who came first of those that are there.
    pub(crate) fn first(&self) -> Option<usize>
        ensures { result ≡ self.now.first }
    {
        self.first
    }

    /// Whether this one came first of those that are there.
    pub(crate) fn is_first(&self, desk: usize) -> bool
        ensures { result ≡ is_desk desk self.now.first }
    {
        is_desk(self.first, desk)
    }

    /// One more comes; between whom it stands: behind the one that was the last.
    pub(crate) fn join(&mut self, desk: usize) -> Links
        ensures links { result ≡ record { before = self.old.last; behind = None } }
        ensures queue { self.new ≡ queue_with desk self.old }
    {
        let before = self.last;
        if before.is_none() {
            self.first = Some(desk);
        }
        self.last = Some(desk);
        Links {
            before,
            behind: None,
        }
    }

    /// One leaves that stood between these.
    pub(crate) fn leave(&mut self, desk: usize, links: Links)
        ensures { self.new ≡ queue_without desk links self.old }
    {
        if is_desk(self.first, desk) {
            self.first = links.behind;
        }
        if is_desk(self.last, desk) {
            self.last = links.before;
        }
    }
}

/// Whether this is the number of that desk.
fn is_desk(one: Option<usize>, desk: usize) -> bool
    ensures { result ≡ is_desk desk one }
{
    match one {
        Some(one) => one == desk,
        None => false,
    }
}
