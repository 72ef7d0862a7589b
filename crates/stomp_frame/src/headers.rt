//! Headers.

ghost use Rattle.std.specs.Prelude.{◌≡◌, ◌∷◌, [], ◌==◌, ◌++◌, ◌↔◌, IsTrue, List, ℕ, length, take, ◌<◌, ◌≤◌, slice_get, Some, IfSome, OnOk, OnErr};
ghost use Rattle.std.specs.List.{AllByRecursion, list_any, position};
ghost use Rattle.std.specs.Option.{option_map};
ghost use Rattle.std.specs.Str.{bytes_eq};
ghost use Rattle.stomp_frame.specs.Headers.{IsPair, IsText, first_of, without_first};

use crate::reading::lines::is_utf8;
use std::alloc::Global;
use std::marker::Model;
use stomp_escape::{NoMemory, Octets};

/// A frame's headers in their order: pairs of a name and a value (STOMP 1.2, "STOMP Frames").
/// The type keeps that no name is empty, and that names and values are UTF-8 without NULL.
#[derive(Drop)]
pub struct Headers {
    pairs: Vec<(Octets, Octets)>,
}

impl Model for Headers {
    ghost use Rattle.std.specs.Prelude.{List, ℕ};
    ghost use Rattle.std.specs.List.{AllByRecursion};
    ghost use Rattle.stomp_frame.specs.Headers.{IsPair};

    ghost Value = { List (List ℕ × List ℕ) };

    ghost view = { λ h. h.pairs.items };

    ghost invariant = { λ h. AllByRecursion IsPair h.pairs.items };
}

/// Whether there is a NULL among the octets.
fn has_null(octets: &[u8]) -> bool
    ensures { result ≡ list_any (λ b. b == 0) octets.now }
{
    octets.iter().any(|b| *b == 0)
}

/// Whether the octets are UTF-8 without NULL.
fn is_text(octets: &[u8]) -> bool
    ensures { IsTrue result ↔ IsText octets.now }
{
    is_utf8(octets) && !has_null(octets)
}

impl Headers {
    /// No headers.
    pub fn new(alloc: Global) -> Headers
        ensures { result ≡ [] }
    {
        Headers {
            pairs: Vec::new(alloc),
        }
    }

    /// How many there are.
    pub fn len(&self) -> usize
        ensures { result ≡ length self.now }
    {
        self.pairs.len()
    }

    /// Whether there is none.
    pub fn is_empty(&self) -> bool
        ensures { IsTrue result ↔ (self.now ≡ []) }
    {
        self.pairs.is_empty()
    }

    /// Whether this name and value may be a header: the name isn't empty, and both are UTF-8 without NULL.
    pub fn is_pair(name: &[u8], value: &[u8]) -> bool
        ensures { IsTrue result ↔ IsPair (name.now, value.now) }
    {
        !name.is_empty() && is_text(name) && is_text(value)
    }

    /// Puts a header at the end, which `is_pair` must hold of.
    pub fn push(&mut self, name: Octets, value: Octets) -> Result<(), NoMemory>
        requires { IsPair (name, value) }
        ensures ok { OnOk result (self.new ≡ self.old ++ (name, value) ∷ []) }
        ensures err { OnErr result (self.new ≡ self.old) }
    {
        self.pairs.push((name, value))?;
        Ok(())
    }

    /// The name and the value of the header at index `i`, from 0.
    pub fn pair(&self, i: usize) -> (&[u8], &[u8])
        requires { i < length self.now }
        ensures value { slice_get self.now i ≡ Some (result.0.now, result.1.now) }
        ensures pairs { AllByRecursion IsPair self.now }
    {
        let pair = &self.pairs[i];
        (pair.0.as_slice(), pair.1.as_slice())
    }

    /// The value of the first header of this name (STOMP 1.2, "Repeated Header Entries").
    pub fn first(&self, name: &[u8]) -> Option<&[u8]>
        ensures value { option_map (λ v. v.now) result ≡ first_of name.now self.now }
        ensures text { IfSome result (λ v. IsText v.now) }
        ensures pairs { AllByRecursion IsPair self.now }
    {
        self.pairs
            .iter()
            .find(|pair| pair.0.as_slice() == name)
            .map(|pair| pair.1.as_slice())
    }

    /// Whether one of the first `n` headers has this name.
    pub(crate) fn has_among_first(&self, n: usize, name: &[u8]) -> bool
        requires { n ≤ length self.now }
        ensures { result ≡ list_any (λ h. bytes_eq h.0 name.now) (take n self.now) }
    {
        self.pairs[..n].iter().any(|pair| pair.0.as_slice() == name)
    }

    /// The index of the first header of this name, from 0.
    fn index_of(&self, name: &[u8]) -> Option<usize>
        ensures { result ≡ position (λ h. bytes_eq h.0 name.now) self.now }
    {
        self.pairs.iter().position(|pair| pair.0.as_slice() == name)
    }

    /// Takes out the first header of this name, and returns its value, or `None` where there is none
    /// (STOMP 1.2, "Repeated Header Entries"). It takes no memory.
    pub fn take(&mut self, name: &[u8]) -> Option<Octets>
        ensures value { result ≡ first_of name.now self.old }
        ensures rest { self.new ≡ without_first name.now self.old }
        ensures text { IfSome result (λ v. IsText v) }
    {
        let index = self.index_of(name)?;
        let (_name, value) = self.pairs.remove(index);
        Some(value)
    }
}
