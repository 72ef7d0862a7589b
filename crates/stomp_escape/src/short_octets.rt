//! A few octets that lie in the value itself.

ghost use Rattle.std.specs.Prelude.{◌≡◌, ◌++◌, ◌∷◌, [], ◌+◌, ◌*◌, ◌<◌, ◌≤◌, ◌↔◌, length, take, IsTrue};

use std::marker::Model;

/// How many octets fit.
pub(crate) const ROOM: usize = 24;

/// At most `ROOM` octets, which take no memory of their own. In contracts it is their list.
#[derive(Drop)]
pub(crate) struct ShortOctets {
    octets: [u8; 24],
    len: usize,
}

impl Model for ShortOctets {
    ghost use Rattle.std.specs.Prelude.{◌≤◌, List, ℕ, take};

    ghost Value = { List ℕ };

    ghost view = { λ s. take s.len s.octets };

    ghost invariant = { λ s. s.len ≤ 24 };
}

/// Copies these octets to the front in two copies of `size` octets, the first ones and the last ones, which overlap
/// where there are fewer than twice as many.
#[inline(always)]
fn copy_ends(octets: &[u8], to: &mut [u8; 24], size: usize)
    requires least { size ≤ length octets.now }
    requires most { length octets.now ≤ 2 * size }
    requires fits { length octets.now ≤ 24 }
    ensures { take (length octets.now) to.new ≡ octets.now }
{
    let rest = octets.len() - size;
    to[..size].copy_from_slice(&octets[..size]);
    to[rest..octets.len()].copy_from_slice(&octets[rest..]);
}

/// Copies these octets to the front, without a call: each part is of a known size.
#[inline(always)]
fn copy_front(octets: &[u8], to: &mut [u8; 24])
    requires { length octets.now ≤ 24 }
    ensures { take (length octets.now) to.new ≡ octets.now }
{
    match octets.len() {
        0 => (),
        1 => to[0] = octets[0],
        2..4 => copy_ends(octets, to, 2),
        4..8 => copy_ends(octets, to, 4),
        8..16 => copy_ends(octets, to, 8),
        _ => copy_ends(octets, to, 16),
    }
}

impl ShortOctets {
    /// No octets.
    pub(crate) fn new() -> ShortOctets
        ensures { result ≡ [] }
    {
        ShortOctets {
            octets: [0; 24],
            len: 0,
        }
    }

    /// These octets, which fit.
    pub(crate) fn from_slice(octets: &[u8]) -> ShortOctets
        requires { length octets.now ≤ 24 }
        ensures { result ≡ octets.now }
    {
        let mut short = ShortOctets::new();
        copy_front(octets, &mut short.octets);
        short.len = octets.len();
        short
    }

    /// The first `len` octets of a text, which fit. 24 octets are copied, whatever `len` is.
    #[inline(always)]
    pub(crate) fn from_front(text: &[u8], len: usize) -> ShortOctets
        requires fits { len ≤ 24 }
        requires there { 24 ≤ length text.now }
        ensures { result ≡ take len text.now }
    {
        let mut octets = [0; 24];
        octets.copy_from_slice(&text[..24]);
        ShortOctets { octets, len }
    }

    /// How many there are.
    pub(crate) fn len(&self) -> usize
        ensures value { result ≡ length self.now }
        ensures fits { result ≤ 24 }
    {
        self.len
    }

    /// Whether so many more fit.
    pub(crate) fn has_room(&self, n: usize) -> bool
        ensures { IsTrue result ↔ (length self.now + n ≤ 24) }
    {
        n <= ROOM - self.len()
    }

    /// All of them, in order.
    pub(crate) fn as_slice(&self) -> &[u8]
        ensures { result.now ≡ self.now }
    {
        &self.octets[..self.len]
    }

    /// Appends one octet, which fits.
    pub(crate) fn push(&mut self, octet: u8)
        requires { length self.old < 24 }
        ensures { self.new ≡ self.old ++ octet ∷ [] }
    {
        self.octets[self.len] = octet;
        self.len += 1;
    }

    /// Appends octets, which fit.
    pub(crate) fn extend(&mut self, octets: &[u8])
        requires { length self.old + length octets.now ≤ 24 }
        ensures { self.new ≡ self.old ++ octets.now }
    {
        let start = self.len();
        let end = start + octets.len();
        self.octets[start..end].copy_from_slice(octets);
        self.len = end;
    }

    /// Keeps the first `len`, or all where there are no more.
    pub(crate) fn truncate(&mut self, len: usize)
        ensures { self.new ≡ take len self.old }
    {
        if len < self.len() {
            self.len = len;
        }
    }
}
