//! What is open in a connection.

ghost use Rattle.std.specs.Prelude.{◌≡◌, false, [], ◌∷◌, ◌++◌, is_some, OnOk};
ghost use Rattle.std.specs.Map.{lookup};
ghost use Rattle.std.specs.Option.{option_map};
ghost use Rattle.std.specs.Str.{bytes_eq};
ghost use Rattle.stomp_session.specs.Inner.Effects.{entries_without};
ghost use Rattle.stomp_session.specs.Refusals.{is_open, is_full};

use indexmap::IndexMap;
use std::alloc::Global;
use std::marker::Model;
use stomp_frame::NoMemory;

/// The most subscriptions, and the most transactions, that may be open in a connection (our choice, not the
/// standard's).
const OPEN_LIMIT: usize = 64;

/// The subscriptions, or the transactions, of a connection that are open, by their ids, in the order in which they
/// were opened. In contracts it is the list of the ids with their values.
#[derive(Drop)]
pub(crate) struct Opened<T> {
    alloc: Global,
    pub(crate) values: IndexMap<Vec<u8>, T>,
}

impl<T> Model for Opened<T> {
    ghost use Rattle.std.specs.Prelude.{ℕ, List};
    ghost use Rattle.stomp_session.specs.Inner.Stored.{entries_of};

    ghost Value = { List (List ℕ × T) };

    ghost view = { λ o. entries_of o.values.entries };
}

impl<T> Opened<T> {
    /// None. It takes no memory.
    pub(crate) fn new(alloc: Global) -> Opened<T>
        ensures { result ≡ [] }
    {
        Opened {
            alloc,
            values: IndexMap::new(alloc),
        }
    }

    /// Whether one of this id is open.
    pub(crate) fn is_open(&self, id: &[u8]) -> bool
        ensures { result ≡ is_open id.now self.now }
    {
        self.values.contains_key(id)
    }

    /// What there is of this id, or `None` where none is open.
    pub(crate) fn get(&self, id: &[u8]) -> Option<&T>
        ensures { option_map (λ v. v.now) result ≡ lookup (bytes_eq id.now) self.now }
    {
        self.values.get(id)
    }

    /// Whether no more may be opened.
    pub(crate) fn is_full(&self) -> bool
        ensures { result ≡ is_full self.now }
    {
        self.values.len() >= OPEN_LIMIT
    }
}

impl<T: Drop> Opened<T> {
    /// Opens one of this id, after the others.
    pub(crate) fn open(&mut self, id: &[u8], value: T) -> Result<(), NoMemory>
        requires { is_open id.now self.old ≡ false }
        ensures { OnOk result (self.new ≡ self.old ++ (id.now, value) ∷ []) }
    {
        let id = Vec::from_slice(self.alloc, id)?;
        self.values.insert(id, value)?;
        Ok(())
    }

    /// Takes the one of this id out, or `None` where it isn't open. It takes no memory.
    pub(crate) fn take(&mut self, id: &[u8]) -> Option<T>
        ensures was_open { is_some result ≡ is_open id.now self.old }
        ensures value { result ≡ lookup (bytes_eq id.now) self.old }
        ensures after { self.new ≡ entries_without id.now self.old }
    {
        self.values.shift_remove(id)
    }

    /// Takes all out.
    pub(crate) fn clear(&mut self)
        ensures { self.new ≡ [] }
    {
        self.values.clear();
    }
}
