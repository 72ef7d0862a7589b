//! Lists of events.

ghost use Rattle.std.specs.Prelude.{◌≡◌, ◌↔◌, ◌++◌, ◌∷◌, [], IsTrue, IfErr, length, slice_get, OnOk, OnErr};
ghost use Rattle.std.specs.Option.{option_map};

use crate::event::Event;
use std::alloc::{AllocFailed, Global};
use std::marker::Model;
use stomp_frame::NoMemory;

/// A list of events. In contracts it is that list.
#[derive(Drop)]
pub struct EventList {
    events: Vec<Event>,
}

impl Model for EventList {
    ghost use Rattle.std.specs.Prelude.{List};
    ghost use Rattle.delivery.specs.declared.event.Event.{Event};

    ghost Value = { List Event };

    ghost view = { λ l. l.events.items };
}

impl EventList {
    /// An empty list. It takes no memory yet.
    pub fn new(alloc: Global) -> EventList
        ensures { result ≡ [] }
    {
        EventList {
            events: Vec::new(alloc),
        }
    }

    /// Puts an event at the end. Out of memory, the list is what it was, and the event is returned.
    pub fn push(&mut self, event: Event) -> Result<(), (Event, NoMemory)>
        ensures ok { OnOk result (self.new ≡ self.old ++ event ∷ []) }
        ensures err { OnErr result (self.new ≡ self.old) }
        ensures back { IfErr result (λ refused. refused.0 ≡ event) }
    {
        match self.events.push(event) {
            Ok(()) => Ok(()),
            Err(refused) => {
                let AllocFailed { value } = refused;
                Err((value, NoMemory))
            }
        }
    }

    /// How many events there are.
    pub fn len(&self) -> usize
        ensures { result ≡ length self.now }
    {
        self.events.len()
    }

    /// Whether there is none.
    pub fn is_empty(&self) -> bool
        ensures { IsTrue result ↔ (self.now ≡ []) }
    {
        self.events.is_empty()
    }

    /// The event at index `i`, from 0, if there is one.
    pub fn get(&self, i: usize) -> Option<&Event>
        ensures { option_map (λ event. event.now) result ≡ slice_get self.now i }
    {
        self.events.get(i)
    }

    /// The events, in their order.
    pub(crate) fn into_events(self) -> Vec<Event>
        ensures { result.items ≡ self }
    {
        let EventList { events } = self;
        events
    }
}
