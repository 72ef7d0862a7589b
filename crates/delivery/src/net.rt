//! The core.

ghost use Rattle.std.specs.Prelude.{◌≡◌, ◌≤◌, ◌<◌, ◌+◌, ◌-◌, [], ◌∷◌, ◌++◌, map, reverse, length, slice_get, IfOk, OnOk, OnErr};
ghost use Rattle.std.specs.Option.{option_map};
ghost use Rattle.delivery.specs.Nets.{KeptRun, max_capacity, HasTaken, HasAnswered, IsRunOfCore, HasReport};
ghost use Rattle.delivery.specs.Core.Steps.{AreReadings};
ghost use Rattle.delivery.specs.Core.Told.{told_of};
ghost use Rattle.delivery.specs.Core.Delivery.{Delivers, IsWritten};
ghost use Rattle.delivery.specs.Traces.{IsTraced};

use crate::event::Event;
use crate::event_list::EventList;
use crate::kept::Kept;
use crate::net_state::{NetState, Report};
use crate::outcome::Outcome;
use crate::topics::Topics;
use sender_gate::Senders;
use std::alloc::Global;
use std::marker::Model;
use stomp_frame::NoMemory;
use trace_audit::Trace;

/// The greatest capacity of a subscription's queue, in items.
pub const MAX_CAPACITY: usize = 4096;

/// The core: topics, connections, senders and subscriptions over events. In contracts it is the topics that it began
/// with, the capacity of its queues, its kept run, its steps (each kept event with what it read), and how many more
/// events it has room to keep.
pub struct Net {
    clocks: Vec<u64>,
    state: NetState,
    clients: Senders,
    kept: Vec<Kept>,
}

impl Drop for Net {
    /// Written out, so that letting a net go is one call for the prover wherever it happens.
    fn drop(self) {
        let Net {
            clocks,
            state,
            clients,
            kept,
        } = self;
        drop(clocks);
        drop(state);
        drop(clients);
        drop(kept);
    }
}

impl Model for Net {
    ghost use Rattle.std.specs.Prelude.{◌-◌, length, reverse, take, vec_len, vec_capacity};
    ghost use Rattle.delivery.specs.Nets.{KeptRun};
    ghost use Rattle.delivery.specs.Inner.NetInvariant.{KeepsBoth};
    ghost use Rattle.delivery.specs.Inner.Readings.{steps_of};

    ghost Value = { KeptRun };

    ghost view = { λ n. record {
      topics = record { names = take (length n.clocks.items) n.state.names; clocks = n.clocks.items };
      capacity = n.state.capacity;
      kept = n.kept.items;
      steps = steps_of (reverse n.kept.items);
      spare = vec_capacity n.kept - vec_len n.kept;
    } };

    ghost invariant = { λ n. KeepsBoth
        (record { names = take (length n.clocks.items) n.state.names; clocks = n.clocks.items }) n.state.capacity
        n.kept.items n.state n.clients };
}

impl Net {
    /// A core of these topics, whose queues have this capacity in items, before its first event.
    pub fn new(alloc: Global, topics: Topics, capacity: usize) -> Result<Net, NoMemory>
        requires some { 0 < capacity }
        requires few { capacity ≤ max_capacity }
        ensures { IfOk result
            (λ net. net ≡ record { topics = topics; capacity = capacity; kept = []; steps = []; spare = 0 }) }
    {
        let (names, clocks) = topics.into_parts();
        let state = NetState::new(alloc, names, &clocks, capacity)?;
        Ok(Net {
            clocks,
            state,
            clients: Senders::new(alloc),
            kept: Vec::new(alloc),
        })
    }

    /// Makes room to keep this number of events. All else stays, also out of memory.
    pub fn reserve(&mut self, additional: usize) -> Result<(), NoMemory>
        ensures ok { OnOk result (additional ≤ self.new.spare) }
        ensures more { self.old.spare ≤ self.new.spare }
        ensures stays { self.new ≡ record self.old { spare = self.new.spare } }
    {
        self.kept.reserve(additional)?;
        Ok(())
    }

    /// How many more events it has room to keep.
    pub fn spare(&self) -> usize
        ensures { result ≡ self.now.spare }
    {
        self.kept.capacity() - self.kept.len()
    }

    /// How many events were kept.
    pub fn kept_len(&self) -> usize
        ensures { result ≡ length self.now.kept }
    {
        self.kept.len()
    }

    /// The event at index `i` of the kept run, from 0, and what came of it, if so many were kept.
    pub fn kept(&self, i: usize) -> Option<&Kept>
        ensures { option_map (λ kept. kept.now) result ≡ slice_get self.now.kept i }
    {
        self.kept.get(i)
    }

    /// What came of all events so far. The first three clauses say what was delivered: the kept run is that of the
    /// steps; what was read of each connection are the first frames of its octets; and the report is what the steps
    /// tell to deliver. A reader may stop after them, having read 450 lines of definitions (docs/ORDERING.md, "An
    /// expert's hour"). Then: what was written to each connection; and that the steps are a run of the core, whose
    /// report this is. It takes no memory, and nothing is copied.
    pub fn report(&self) -> Report<'_>
        ensures kept { self.now.kept
            ≡ reverse (map (λ step. record { event = step.event; outcome = step.outcome }) self.now.steps) }
        ensures read { AreReadings self.now.steps }
        ensures delivered { Delivers self.now.capacity (told_of self.now.topics.names self.now.steps) result }
        ensures written { IsWritten self.now.topics.names self.now.steps result }
        ensures answered { IsRunOfCore self.now result }
    {
        Report { state: &self.state }
    }

    /// The trace of all events so far: each topic's log, each subscription's span, and what its queue accepted,
    /// delivered or not. An audit of it is a yes, unless memory runs out (`law::traces_are_explained`).
    pub fn trace(&self) -> Result<Trace, NoMemory>
        ensures { IfOk result (λ trace. IsTraced self.now trace) }
    {
        self.state.trace()
    }

    /// Takes an event, and keeps it with its outcome at the end of the kept run. The outcome is one that the event may
    /// have; what else such a step makes of the core is `law::steps`.
    pub fn step(&mut self, event: Event) -> Outcome
        requires { 0 < self.old.spare }
        ensures kept { self.new ≡ record self.old {
          kept = self.old.kept ++ record { event = event; outcome = result } ∷ [];
          steps = self.new.steps;
          spare = self.old.spare - 1;
        } }
        ensures answered { HasAnswered event result self.old self.new }
        ensures delivered { HasReport self.new }
    {
        let outcome = self.state.answer(&event, &mut self.clients);
        self.kept.push_reserved(Kept { event, outcome });
        outcome
    }

    /// Takes each of these events, in their order, as `step` does. Out of memory to keep them all, no event is taken,
    /// all stays but the spare room, and the events are dropped.
    pub fn run(&mut self, events: EventList) -> Result<(), NoMemory>
        ensures taken { OnOk result (HasTaken events self.old self.new) }
        ensures room { self.old.spare ≤ self.new.spare + length events }
        ensures delivered { HasReport self.new }
        ensures err { OnErr result (self.new ≡ record self.old { spare = self.new.spare }) }
    {
        self.kept.reserve(events.len())?;
        for event in events.into_events() {
            self.step(event);
        }
        Ok(())
    }
}
