//! A list of names that connections share.

ghost use Rattle.std.specs.Prelude.{◌≡◌, ◌∷◌, ◌++◌, ◌≤◌, ℕ, Some, None, [], cond, false, length, nat_eq, position, slice_get, take, true, IfOk, OnOk, OnErr};
ghost use Rattle.std.specs.Arc.{arc_value};
ghost use Rattle.std.specs.Option.{option_map, option_or};
ghost use Rattle.std.specs.Str.{bytes_eq};
ghost use Rattle.indexmap.specs.IndexMap.{get};
ghost use Rattle.stomp_session.specs.Names.{is_known};

use crate::found_last::FoundLast;
use crate::name::{Name, fingerprint};
use indexmap::IndexMap;
use std::alloc::Global;
use std::marker::Model;
use std::sync::Arc;
use stomp_frame::NoMemory;

/// Names in their order, each once, which are only added to, and shared once they are there. In contracts it is the list
/// of the names.
#[derive(Drop)]
pub(crate) struct NameSet {
    names: Vec<Arc<Name>>,
    /// Of each fingerprint the index of the first name that has it.
    firsts: IndexMap<u64, usize>,
}

impl Model for NameSet {
    ghost use Rattle.std.specs.Prelude.{ℕ, List};
    ghost use Rattle.stomp_session.specs.Inner.Stored.{AreDistinct, FindsFirsts, names_of};

    ghost Value = { List (List ℕ) };

    ghost view = { λ s. names_of s.names.items };

    ghost invariant = { λ s.
        FindsFirsts s.firsts.entries (names_of s.names.items) × AreDistinct (names_of s.names.items) };
}

impl NameSet {
    /// No names. It takes no memory.
    pub(crate) fn new(alloc: Global) -> NameSet
        ensures { result ≡ [] }
    {
        NameSet {
            names: Vec::new(alloc),
            firsts: IndexMap::new(alloc),
        }
    }

    /// How many names there are.
    pub(crate) fn len(&self) -> usize
        ensures { result ≡ length self.now }
    {
        self.names.len()
    }

    /// The name at an index, or `None` where there are fewer.
    pub(crate) fn name(&self, at: usize) -> Option<&[u8]>
        ensures { option_map (λ name. name.now) result ≡ slice_get self.now at }
    {
        let name = self.names.get(at)?;
        Some(name.octets())
    }

    /// The index of the name that has these octets. It is looked for where the last ones were found, and then searched
    /// for.
    #[inline(always)]
    pub(crate) fn find(&self, found: &FoundLast, text: &[u8]) -> Option<usize>
        ensures { result ≡ position (bytes_eq text.now) self.now }
    {
        let last = found.last();
        if self.is_at(last, text) {
            return Some(last);
        }
        let before = found.before();
        if self.is_at(before, text) {
            found.swap();
            return Some(before);
        }
        let index = self.search(text)?;
        found.note(index);
        Some(index)
    }

    /// Whether the name at this index has these octets: no other has them then.
    #[inline(always)]
    fn is_at(&self, at: usize, text: &[u8]) -> bool
        ensures { result ≡ true → position (bytes_eq text.now) self.now ≡ Some at }
    {
        match self.names.get(at) {
            Some(name) => name.octets() == text,
            None => false,
        }
    }

    /// The index of the name that has these octets. It is found without a walk, but where the first name with their
    /// fingerprint has other octets.
    #[inline(never)]
    fn search(&self, text: &[u8]) -> Option<usize>
        ensures { result ≡ position (bytes_eq text.now) self.now }
    {
        let first = *self.firsts.get(&fingerprint(text))?;
        match self.name(first) {
            Some(name) if name == text => Some(first),
            _ => walk(self.names.as_slice(), text),
        }
    }

    /// Puts a name behind the others, of which none may have its octets.
    pub(crate) fn add(&mut self, name: Arc<Name>) -> Result<(), NoMemory>
        requires { is_known (arc_value name) self.old ≡ false }
        ensures ok { OnOk result (self.new ≡ self.old ++ arc_value name ∷ []) }
        ensures err { OnErr result (self.new ≡ self.old) }
    {
        let at = self.len();
        self.names.reserve(1)?;
        note_first(&mut self.firsts, name.fingerprint(), at)?;
        self.names.push_reserved(name);
        Ok(())
    }

    /// The first `count` of these names, which both share.
    pub(crate) fn copy(&self, alloc: Global, count: usize) -> Result<NameSet, NoMemory>
        requires { count ≤ length self.now }
        ensures { IfOk result (λ set. set ≡ take count self.now) }
    {
        let mut copy = NameSet::new(alloc);
        for index in 0..count {
            copy.add(Arc::try_clone(&self.names[index])?)?;
        }
        Ok(copy)
    }
}

/// Has a fingerprint be found at this index, where it isn't found yet.
fn note_first(
    firsts: &mut IndexMap<u64, usize>,
    fingerprint: u64,
    at: usize,
) -> Result<(), NoMemory>
    ensures ok { OnOk result ((f : ℕ) → get nat_eq firsts.new f
        ≡ option_or (get nat_eq firsts.old f) (cond (nat_eq f fingerprint) (Some at) None)) }
    ensures err { OnErr result (firsts.new.entries ≡ firsts.old.entries) }
{
    if firsts.contains_key(&fingerprint) {
        return Ok(());
    }
    firsts.insert(fingerprint, at)?;
    Ok(())
}

/// The index of the first of these names that has these octets.
fn walk(names: &[Arc<Name>], text: &[u8]) -> Option<usize>
    ensures { result ≡ position (λ name. bytes_eq (arc_value name) text.now) names.now }
{
    names.iter().position(|name| name.octets() == text)
}
