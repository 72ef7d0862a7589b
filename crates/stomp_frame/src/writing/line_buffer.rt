//! A line that is put together.

ghost use Rattle.std.specs.Prelude.{◌≡◌, ◌++◌, [], ◌+◌, ◌*◌, ◌≤◌, length, take};
ghost use Rattle.stomp_escape.specs.Escape.{escaped};

use std::marker::Model;
use stomp_escape::escape_at;

/// How many octets fit.
pub(crate) const ROOM: usize = 128;

/// A line that is put together, to be appended at once: at most `ROOM` octets. In contracts it is their list.
#[derive(Drop)]
pub(crate) struct LineBuffer {
    octets: [u8; 128],
    len: usize,
}

impl Model for LineBuffer {
    ghost use Rattle.std.specs.Prelude.{◌≤◌, List, ℕ, take};

    ghost Value = { List ℕ };

    ghost view = { λ l. take l.len l.octets };

    ghost invariant = { λ l. l.len ≤ 128 };
}

impl LineBuffer {
    /// Nothing yet.
    pub(crate) fn new() -> LineBuffer
        ensures { result ≡ [] }
    {
        LineBuffer {
            octets: [0; 128],
            len: 0,
        }
    }

    /// What it has.
    pub(crate) fn as_slice(&self) -> &[u8]
        ensures { result.now ≡ self.now }
    {
        &self.octets[..self.len]
    }

    /// Appends octets, which fit.
    pub(crate) fn put(&mut self, octets: &[u8])
        requires { length self.old + length octets.now ≤ 128 }
        ensures value { self.new ≡ self.old ++ octets.now }
        ensures len { length self.new ≡ length self.old + length octets.now }
    {
        let end = self.len + octets.len();
        self.octets[self.len..end].copy_from_slice(octets);
        self.len = end;
    }

    /// Appends a text with its escapes. Two octets for each of its own fit.
    pub(crate) fn put_escaped(&mut self, text: &[u8])
        requires { length self.old + 2 * length text.now ≤ 128 }
        ensures value { self.new ≡ self.old ++ escaped text.now }
        ensures len { length self.new ≤ length self.old + 2 * length text.now }
    {
        self.len = escape_at(text, &mut self.octets, self.len);
    }
}
