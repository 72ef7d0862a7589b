//! The SENDs of a part, shared with their transaction.

ghost use Rattle.std.specs.Prelude.{◌≡◌, ◌<◌, ◌++◌, ◌∷◌, [], length, Some, OnOk, slice_get};
ghost use Rattle.std.specs.Arc.{arc_value};

use crate::parts::PartMessage;
use std::alloc::Global;
use std::default::MadeWith;
use std::marker::Model;
use std::sync::Arc;
use stomp_frame::NoMemory;

/// The SENDs of a transaction to one topic, which the transaction has, too. In contracts it is their list, in order.
#[derive(Drop)]
pub(crate) struct SharedSends {
    /// The first, in place: a part of one SEND has no list.
    first: Option<Arc<PartMessage>>,
    /// Those that follow it.
    later: Vec<Arc<PartMessage>>,
}

impl Model for SharedSends {
    ghost use Rattle.std.specs.Prelude.{List};
    ghost use Rattle.std.specs.Arc.{arc_value};
    ghost use Rattle.mcast_txn.specs.Inner.SendsHeld.{sends_held, BeginsAtFirst};
    ghost use Rattle.mcast_txn.specs.declared.parts.part_message.PartMessage.{PartMessage};

    ghost Value = { List PartMessage };

    ghost view = { λ p. sends_held (λ send. arc_value send) p.first p.later.items };

    ghost invariant = { λ p. BeginsAtFirst p.first p.later.items };
}

impl MadeWith<Global> for SharedSends {
    /// What lies in a place of a list that isn't used.
    fn made_with(alloc: Global) -> Self {
        SharedSends::new(alloc)
    }
}

impl SharedSends {
    /// None.
    pub(crate) fn new(alloc: Global) -> SharedSends
        ensures { result ≡ [] }
    {
        SharedSends {
            first: None,
            later: Vec::new(alloc),
        }
    }

    /// Puts a SEND at the end.
    pub(crate) fn push(&mut self, send: &Arc<PartMessage>) -> Result<(), NoMemory>
        ensures { OnOk result (self.new ≡ self.old ++ arc_value send.now ∷ []) }
    {
        let send = send.clone()?;
        if self.first.is_none() {
            self.first = Some(send);
            return Ok(());
        }
        self.later.push(send)?;
        Ok(())
    }

    /// How many there are.
    pub(crate) fn len(&self) -> usize
        ensures { result ≡ length self.now }
    {
        match &self.first {
            Some(_) => 1 + self.later.len(),
            None => 0,
        }
    }

    /// The SEND at index `i`, from 0.
    pub(crate) fn get(&self, i: usize) -> &PartMessage
        requires { i < length self.now }
        ensures { slice_get self.now i ≡ Some result.now }
    {
        match &self.first {
            Some(first) if i == 0 => first,
            _ => &self.later[i - 1],
        }
    }
}
