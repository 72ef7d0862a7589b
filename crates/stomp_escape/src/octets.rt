//! A list of octets that grows.

ghost use Rattle.std.specs.Prelude.{◌≡◌, ◌≤◌, ◌↔◌, ◌++◌, ◌∷◌, [], List, ℕ, length, take, IsTrue, IfOk, OnOk, OnErr};

use crate::no_memory::NoMemory;
use crate::short_octets::{ROOM, ShortOctets};
use crate::storage::Storage;
use std::alloc::Global;
use std::marker::Model;

/// How many octets a list that outgrows the value has room for at first, beside those that are appended.
const FIRST_ROOM: usize = 64;

/// A list of octets; up to 24 lie in the value itself, and take no memory. In contracts it is that list, of numbers
/// below 256.
pub struct Octets {
    alloc: Global,
    room: Storage,
}

impl Drop for Octets {
    /// Written out, so that letting a list go is one call for the prover wherever it happens.
    fn drop(self) {
        let Octets { alloc: _, room } = self;
        drop(room);
    }
}

impl Model for Octets {
    ghost use Rattle.std.specs.Prelude.{List, ℕ};
    ghost use Rattle.stomp_escape.specs.Inner.Rooms.{octets_in};

    ghost Value = { List ℕ };

    ghost view = { λ o. octets_in o.room };
}

impl Octets {
    /// An empty list. It takes no memory yet.
    pub fn new(alloc: Global) -> Octets
        ensures { result ≡ [] }
    {
        Octets {
            alloc,
            room: Storage::Short(ShortOctets::new()),
        }
    }

    /// An empty list, made with room for `capacity` octets, so that adding them copies nothing again.
    /// The room changes the cost alone, and no contract speaks of it.
    pub fn with_capacity(alloc: Global, capacity: usize) -> Result<Octets, NoMemory>
        ensures { IfOk result (λ o. o ≡ []) }
    {
        if capacity <= ROOM {
            return Ok(Octets::new(alloc));
        }
        let room = Storage::Long(Vec::with_capacity(alloc, capacity)?);
        Ok(Octets { alloc, room })
    }

    /// A copy of the octets.
    pub fn from_slice(alloc: Global, octets: &[u8]) -> Result<Octets, NoMemory>
        ensures { IfOk result (λ o. o ≡ octets.now) }
    {
        if octets.len() > ROOM {
            let room = Storage::Long(Vec::from_slice(alloc, octets)?);
            return Ok(Octets { alloc, room });
        }
        let room = Storage::Short(ShortOctets::from_slice(octets));
        Ok(Octets { alloc, room })
    }

    /// A copy of a text's first `len` octets, or of all where it has no more. Up to 24 are copied faster than by
    /// `from_slice` where the text has at least 24.
    #[inline]
    pub fn from_front(alloc: Global, text: &[u8], len: usize) -> Result<Octets, NoMemory>
        ensures { IfOk result (λ o. o ≡ take len text.now) }
    {
        if len > ROOM || text.len() < ROOM {
            return Octets::from_slice(alloc, &text[..len.min(text.len())]);
        }
        let room = Storage::Short(ShortOctets::from_front(text, len));
        Ok(Octets { alloc, room })
    }

    /// Appends one octet. After `NoMemory` the list is what it was.
    #[inline(always)]
    pub fn push(&mut self, octet: u8) -> Result<(), NoMemory>
        ensures ok { OnOk result (self.new ≡ self.old ++ octet ∷ []) }
        ensures err { OnErr result (self.new ≡ self.old) }
    {
        match &mut self.room {
            Storage::Long(octets) => {
                octets.push(octet)?;
                Ok(())
            }
            Storage::Short(octets) if octets.has_room(1) => {
                octets.push(octet);
                Ok(())
            }
            Storage::Short(_) => self.outgrow(&[octet]),
        }
    }

    /// Appends the octets. After `NoMemory` the list is what it was.
    #[inline(always)]
    pub fn extend(&mut self, octets: &[u8]) -> Result<(), NoMemory>
        ensures ok { OnOk result (self.new ≡ self.old ++ octets.now) }
        ensures err { OnErr result (self.new ≡ self.old) }
    {
        match &mut self.room {
            Storage::Long(them) => {
                them.extend_from_slice(octets)?;
                Ok(())
            }
            Storage::Short(them) if them.has_room(octets.len()) => {
                them.extend(octets);
                Ok(())
            }
            Storage::Short(_) => self.outgrow(octets),
        }
    }

    /// Appends the octets in memory of the list's own, and moves there those that it has.
    #[inline(never)]
    fn outgrow(&mut self, octets: &[u8]) -> Result<(), NoMemory>
        ensures ok { OnOk result (self.new ≡ self.old ++ octets.now) }
        ensures err { OnErr result (self.new ≡ self.old) }
    {
        let mut grown = Vec::with_capacity(self.alloc, octets.len().saturating_add(FIRST_ROOM))?;
        grown.extend_from_slice(self.as_slice())?;
        grown.extend_from_slice(octets)?;
        self.room = Storage::Long(grown);
        Ok(())
    }

    /// All its octets, in order.
    pub fn as_slice(&self) -> &[u8]
        ensures { result.now ≡ self.now }
    {
        match &self.room {
            Storage::Short(octets) => octets.as_slice(),
            Storage::Long(octets) => octets.as_slice(),
        }
    }

    /// Keeps the first `len` octets, or all where there are no more, and drops the others. It takes
    /// no memory.
    pub fn truncate(&mut self, len: usize)
        ensures { self.new ≡ take len self.old }
    {
        match &mut self.room {
            Storage::Short(octets) => octets.truncate(len),
            Storage::Long(octets) => octets.truncate(len),
        }
    }

    /// The number of its octets.
    pub fn len(&self) -> usize
        ensures { result ≡ length self.now }
    {
        match &self.room {
            Storage::Short(octets) => octets.len(),
            Storage::Long(octets) => octets.len(),
        }
    }

    /// Whether it has no octet.
    pub fn is_empty(&self) -> bool
        ensures { IsTrue result ↔ (self.now ≡ []) }
    {
        self.len() == 0
    }
}
