//! Parts that are to be entered.

ghost use Rattle.std.specs.Prelude.{◌≡◌, IfOk};
ghost use Rattle.std.specs.Arc.{arc_value};
ghost use Rattle.mcast_txn.specs.Flight.{cell_of};
ghost use Rattle.mcast_txn.specs.Part.{data_of, flight_of_part};

use crate::prepared::Prepared;
use mcast_txn::{Flight, NoMemory, Part, Topic, TxnId};
use std::alloc::Global;
use std::marker::Model;
use std::sync::Arc;

/// A part that is to be entered, on the heap, with its topics and its flight shared once more. In contracts it is what
/// the part says, and the name of its flight's cell.
pub struct Proposal {
    pub(crate) prepared: Prepared,
    pub(crate) flight: Arc<Flight>,
}

impl Drop for Proposal {
    /// Written out, so that letting a proposal go is one call for the prover wherever it happens.
    fn drop(self) {
        let Proposal { prepared, flight } = self;
        drop(prepared);
        drop(flight);
    }
}

impl Model for Proposal {
    ghost use Rattle.std.specs.Arc.{arc_value};
    ghost use Rattle.mcast_txn.specs.Flight.{cell_of};
    ghost use Rattle.mcast_group.specs.CellGroup.{ProposalState};

    ghost Value = { ProposalState };

    ghost view = { λ p. record { part = p.prepared; cell = cell_of (arc_value p.flight) } };
}

impl Proposal {
    /// A proposal of this part. Make it before the topic's lock is taken.
    pub fn new(alloc: Global, part: Arc<Part>) -> Result<Proposal, NoMemory>
        ensures { IfOk result (λ proposal. proposal ≡ record {
          part = data_of (arc_value part);
          cell = cell_of (flight_of_part (arc_value part));
        }) }
    {
        let flight = part.flight.clone()?;
        let prepared = Prepared::new(alloc, part)?;
        Ok(Proposal { prepared, flight })
    }

    /// Makes a copy of the part for each of so many subscriptions, where it has fewer. Where they are made before
    /// the topic's lock is taken, `enter` makes those alone that are missing then, and lets go of those that are too
    /// many.
    pub fn copy_for(&mut self, alloc: Global, many: usize) -> Result<(), NoMemory>
        ensures { self.new ≡ self.old }
    {
        self.prepared.copy_for(alloc, many)
    }

    /// The transaction.
    pub fn id(&self) -> TxnId
        ensures { result ≡ self.now.part.id }
    {
        self.part().id()
    }

    /// The topic that the part is for.
    pub fn topic(&self) -> Topic
        ensures { result ≡ self.now.part.topic }
    {
        self.part().topic
    }

    /// The part.
    pub fn part(&self) -> &Part
        ensures { data_of result.now ≡ self.now.part }
    {
        self.prepared.part()
    }
    /// The part as it is to be entered, and its flight.
    pub(crate) fn into_parts(self) -> (Prepared, Arc<Flight>)
        ensures part { result.0 ≡ self.part }
        ensures cell { cell_of (arc_value result.1) ≡ self.cell }
    {
        let Proposal { prepared, flight } = self;
        (prepared, flight)
    }
}
