//! The names of the topics.

ghost use Rattle.std.specs.Prelude.{◌≡◌, ◌↔◌, ◌-◌, ◌<◌, ◌≤◌, ◌^◌, [], ◌∷◌, ◌++◌, true, false, not, IsTrue, length, take, is_some, position, slice_get, Some, None, IfSome, IfOk, IfErr, OnOk, OnErr};
ghost use Rattle.std.specs.Arc.{arc_value};
ghost use Rattle.std.specs.List.{list_all};
ghost use Rattle.std.specs.Option.{option_map};
ghost use Rattle.std.specs.Str.{bytes_eq};
ghost use Rattle.stomp_session.specs.Names.{index_of, is_graphic, is_known, is_name, max_topics, with_name};
ghost use Rattle.stomp_session.specs.Inner.Effects.{destination_fault};
ghost use Rattle.stomp_session.specs.Inner.Stored.{names_in};

use crate::destination::Destination;
use crate::fault::SessionFault;
use crate::found_last::FoundLast;
use crate::name::Name;
use crate::name_set::NameSet;
use mcast_txn::Topic;
use std::alloc::Global;
use std::marker::Model;
use std::sync::Arc;
use stomp_frame::NoMemory;

/// The most topics that there are (our choice, not the standard's).
pub const MAX_TOPICS: usize = 1024;

/// Whether the octets may be the name of a topic that a frame makes: one or more, from 33 to 126 (our choice, not the
/// standard's).
pub fn is_name(text: &[u8]) -> bool
    ensures { result ≡ is_name text.now }
{
    !text.is_empty() && are_graphic(text)
}

/// Whether each octet is from 33 to 126.
fn are_graphic(text: &[u8]) -> bool
    ensures { result ≡ list_all is_graphic text.now }
{
    text.iter().all(|b| is_graphic(*b))
}

/// Whether an octet is from 33 to 126.
fn is_graphic(b: u8) -> bool
    ensures { result ≡ is_graphic b }
{
    b >= 33 && b <= 126
}

/// The names of the topics, each once: a topic's number is the index of its name, from 0. They share what others have,
/// so it costs nothing to have them twice. In contracts it is the list of the names.
#[derive(Drop)]
pub struct Names {
    alloc: Global,
    /// The names, and maybe others behind them, which others have, too. There is none before the first.
    shared: Option<Arc<NameSet>>,
    /// How many of those are the names.
    count: usize,
}

impl Model for Names {
    ghost use Rattle.std.specs.Prelude.{ℕ, List, ◌≤◌, ◌^◌, length, take};
    ghost use Rattle.stomp_session.specs.Inner.Stored.{names_in};

    ghost Value = { List (List ℕ) };

    ghost view = { λ n. take n.count (names_in n.shared) };

    ghost invariant = { λ n. (n.count ≤ length (names_in n.shared)) × (n.count ≤ 2 ^ 32) };
}

impl Names {
    /// No names. It takes no memory.
    pub fn new(alloc: Global) -> Names
        ensures { result ≡ [] }
    {
        Names {
            alloc,
            shared: None,
            count: 0,
        }
    }

    /// How many names there are.
    pub fn len(&self) -> usize
        ensures { result ≡ length self.now }
    {
        self.count
    }

    /// Whether there is none.
    pub fn is_empty(&self) -> bool
        ensures { IsTrue result ↔ (self.now ≡ []) }
    {
        self.count == 0
    }

    /// The same names, which share what these have: it takes no memory, and no walk.
    pub fn share(&self) -> Result<Names, NoMemory>
        ensures { IfOk result (λ names. names ≡ self.now) }
    {
        let shared = shared_by(&self.shared)?;
        Ok(Names {
            alloc: self.alloc,
            shared,
            count: self.count,
        })
    }

    /// Whether these are the first of those: each is compared, at the cost of its octets.
    pub fn is_front_of(&self, all: &Names) -> bool
        ensures { IsTrue result ↔ (take (length self.now) all.now ≡ self.now) }
    {
        if self.count > all.count {
            return false;
        }
        for index in 0..self.count {
            if !is_same_at(self, all, Topic(index as u32)) {
                return false;
            }
        }
        true
    }

    /// Adds a name after the others, where it isn't there yet; a name that is there keeps its number. There must be
    /// fewer than 2^32 names before. Where nobody shares these, it is put behind them; else the list of them is copied,
    /// but none of the names. After `NoMemory` the names are what they were.
    pub fn add(&mut self, name: &[u8]) -> Result<(), NoMemory>
        requires { length self.old < 2 ^ 32 }
        ensures ok { OnOk result (self.new ≡ with_name name.now self.old) }
        ensures err { OnErr result (self.new ≡ self.old) }
    {
        if self.find(name).is_some() {
            return Ok(());
        }
        let name = Arc::new(self.alloc, Name::new(self.alloc, name)?)?;
        grow(self.alloc, &mut self.shared, self.count, name)?;
        self.count += 1;
        Ok(())
    }

    /// Takes the last name away, which takes no memory. There must be one.
    pub fn take_back(&mut self)
        requires { 0 < length self.old }
        ensures { self.new ≡ take (length self.old - 1) self.old }
    {
        self.count -= 1;
    }

    /// What a destination names: 76 where no topic has the name and none is made for it, 75 where none has it and there
    /// are 1,024. It changes nothing, and takes no memory.
    pub(crate) fn judge(&self, found: &FoundLast, name: &[u8]) -> Result<Destination, SessionFault>
        ensures topic { IfOk result (λ d. d.topic.0 ≡ index_of name.now self.now) }
        ensures is_new { IfOk result (λ d. d.is_new ≡ not (is_known name.now self.now)) }
        ensures few { IfOk result (λ d. d.is_new ≡ true → length self.now < max_topics) }
        ensures ok { OnOk result (destination_fault name.now self.now ≡ None) }
        ensures err { IfErr result (λ fault. destination_fault name.now self.now ≡ Some fault) }
    {
        if let Some(topic) = self.find_by(found, name) {
            return Ok(Destination {
                topic,
                is_new: false,
            });
        }
        if !is_name(name) {
            return Err(SessionFault::BadDestination);
        }
        let count = self.len();
        if count >= MAX_TOPICS {
            return Err(SessionFault::TooManyTopics);
        }
        Ok(Destination {
            topic: Topic(count as u32),
            is_new: true,
        })
    }

    /// The topic of this name, or `None` where no topic has it. It is found without a walk.
    pub fn find(&self, name: &[u8]) -> Option<Topic>
        ensures known { is_some result ≡ is_known name.now self.now }
        ensures index { IfSome result (λ topic. topic.0 ≡ index_of name.now self.now) }
    {
        self.find_by(&FoundLast::new(), name)
    }

    /// The same, without a search where it is one of the two that were found last.
    #[inline(always)]
    pub(crate) fn find_by(&self, found: &FoundLast, name: &[u8]) -> Option<Topic>
        ensures known { is_some result ≡ is_known name.now self.now }
        ensures index { IfSome result (λ topic. topic.0 ≡ index_of name.now self.now) }
    {
        let index = index_in(&self.shared, found, name)?;
        if index < self.count {
            Some(Topic(index as u32))
        } else {
            None
        }
    }

    /// The name of a topic, or `None` where there are fewer names.
    pub fn name(&self, topic: Topic) -> Option<&[u8]>
        ensures { option_map (λ name. name.now) result ≡ slice_get self.now topic.0 }
    {
        let index = topic.0 as usize;
        if index >= self.count {
            return None;
        }
        let shared = self.shared.as_ref()?;
        shared.name(index)
    }
}

/// Whether a topic has the same name here and there, or none at both.
fn is_same_at(here: &Names, there: &Names, topic: Topic) -> bool
    ensures { IsTrue result ↔ (slice_get here.now topic.0 ≡ slice_get there.now topic.0) }
{
    match (here.name(topic), there.name(topic)) {
        (Some(one), Some(other)) => one == other,
        (None, None) => true,
        _ => false,
    }
}

/// The index of the one of these names that is this one.
#[inline(always)]
fn index_in(shared: &Option<Arc<NameSet>>, found: &FoundLast, name: &[u8]) -> Option<usize>
    ensures { result ≡ position (bytes_eq name.now) (names_in shared.now) }
{
    match shared {
        Some(set) => set.find(found, name),
        None => None,
    }
}

/// What these share, once more.
fn shared_by(shared: &Option<Arc<NameSet>>) -> Result<Option<Arc<NameSet>>, NoMemory>
    ensures { IfOk result (λ again. names_in again ≡ names_in shared.now) }
{
    match shared {
        Some(set) => Ok(Some(Arc::try_clone(set)?)),
        None => Ok(None),
    }
}

/// Puts a name behind the first `count`, of which none is this one, in their place where nobody else has them.
fn grow(
    alloc: Global,
    shared: &mut Option<Arc<NameSet>>,
    count: usize,
    name: Arc<Name>,
) -> Result<(), NoMemory>
    requires there { count ≤ length (names_in shared.old) }
    requires unknown { is_known (arc_value name) (take count (names_in shared.old)) ≡ false }
    ensures ok { OnOk result
        (names_in shared.new ≡ take count (names_in shared.old) ++ arc_value name ∷ []) }
    ensures err { OnErr result (names_in shared.new ≡ names_in shared.old) }
{
    if is_added_alone(shared, count, &name)? {
        return Ok(());
    }
    let mut grown = first_of(alloc, shared, count)?;
    grown.add(name)?;
    *shared = Some(Arc::new(alloc, grown)?);
    Ok(())
}

/// Puts a name behind these, where there are so many and nobody else has them; whether that was so.
fn is_added_alone(
    shared: &mut Option<Arc<NameSet>>,
    count: usize,
    name: &Arc<Name>,
) -> Result<bool, NoMemory>
    requires there { count ≤ length (names_in shared.old) }
    requires unknown { is_known (arc_value name.now) (take count (names_in shared.old)) ≡ false }
    ensures added { IfOk result (λ added. added ≡ true
        → names_in shared.new ≡ take count (names_in shared.old) ++ arc_value name.now ∷ []) }
    ensures same { IfOk result (λ added. added ≡ false → names_in shared.new ≡ names_in shared.old) }
    ensures err { OnErr result (names_in shared.new ≡ names_in shared.old) }
{
    let Some(set) = shared else {
        return Ok(false);
    };
    if set.len() != count {
        return Ok(false);
    }
    match Arc::get_mut(set) {
        Some(alone) => {
            alone.add(Arc::try_clone(name)?)?;
            Ok(true)
        }
        None => Ok(false),
    }
}

/// A list of the first `count` of these names.
fn first_of(alloc: Global, shared: &Option<Arc<NameSet>>, count: usize) -> Result<NameSet, NoMemory>
    requires { count ≤ length (names_in shared.now) }
    ensures { IfOk result (λ set. set ≡ take count (names_in shared.now)) }
{
    match shared {
        Some(set) => set.copy(alloc, count),
        None => Ok(NameSet::new(alloc)),
    }
}
