//! The name of one topic.

ghost use Rattle.std.specs.Prelude.{◌≡◌, IfOk};
ghost use Rattle.stomp_session.specs.Inner.Stored.{fingerprint};

use std::alloc::Global;
use std::hash::{FoldHasher, Hasher};
use std::marker::Model;
use stomp_frame::NoMemory;

/// The name of a topic, made once, which sets of names share. In contracts it is its octets.
#[derive(Drop)]
pub(crate) struct Name {
    octets: Vec<u8>,
    /// Their fingerprint.
    mark: u64,
}

impl Model for Name {
    ghost use Rattle.std.specs.Prelude.{◌≡◌, ℕ, List};
    ghost use Rattle.stomp_session.specs.Inner.Stored.{fingerprint};

    ghost Value = { List ℕ };

    ghost view = { λ n. n.octets.items };

    ghost invariant = { λ n. n.mark ≡ fingerprint n.octets.items };
}

impl Name {
    /// The name that has these octets.
    pub(crate) fn new(alloc: Global, text: &[u8]) -> Result<Name, NoMemory>
        ensures { IfOk result (λ name. name ≡ text.now) }
    {
        let octets = Vec::from_slice(alloc, text)?;
        let mark = fingerprint(text);
        Ok(Name { octets, mark })
    }

    /// Its octets.
    pub(crate) fn octets(&self) -> &[u8]
        ensures { result.now ≡ self.now }
    {
        self.octets.as_slice()
    }

    /// The fingerprint of its octets.
    pub(crate) fn fingerprint(&self) -> u64
        ensures { result ≡ fingerprint self.now }
    {
        self.mark
    }
}

/// A number by which these octets are searched for. Other octets seldom have it.
pub(crate) fn fingerprint(text: &[u8]) -> u64
    ensures { result ≡ fingerprint text.now }
{
    let mut hasher = FoldHasher::default();
    hasher.write(text);
    hasher.finish()
}
