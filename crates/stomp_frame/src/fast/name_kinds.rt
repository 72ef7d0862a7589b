//! Kinds of names, by which most names that weren't seen are told at once.

ghost use Rattle.std.specs.Prelude.{◌≡◌, ◌<◌, true, false, replicate, get_or, slice_set};
ghost use Rattle.stomp_frame.specs.Inner.NameKinds.{kind};

/// A name's kind, by its length and its last octet.
#[inline(always)]
fn kind(name: &[u8]) -> usize
    ensures value { result ≡ kind name.now }
    ensures few { result < 128 }
{
    if name.is_empty() {
        return 0;
    }
    name.len() % 8 * 16 + usize::from(name[name.len() - 1]) % 16
}

/// Whether each of the 128 kinds of names is among those of some names.
#[derive(Clone, Copy)]
pub(crate) struct NameKinds {
    pub(crate) among: [bool; 128],
}

impl NameKinds {
    /// None.
    pub(crate) fn new() -> NameKinds
        ensures { result.among ≡ replicate 128 false }
    {
        NameKinds {
            among: [false; 128],
        }
    }

    /// Whether the name's kind is among them. Else the name isn't.
    pub(crate) fn has(&self, name: &[u8]) -> bool
        ensures { result ≡ get_or self.now.among (kind name.now) false }
    {
        self.among[kind(name)]
    }

    /// Adds the name's kind.
    pub(crate) fn add(&mut self, name: &[u8])
        ensures { self.new.among ≡ slice_set self.old.among (kind name.now) true }
    {
        self.among[kind(name)] = true;
    }
}
