//! Laws: functions that do nothing at run time, whose contracts are theorems about a run's trace and about stamps.

ghost use Rattle.std.specs.Prelude.{◌≡◌, Some, slice_get};
ghost use Rattle.mcast_txn.specs.declared.flight.Flight.{Flight};
ghost use Rattle.mcast_txn.specs.declared.stamp.Stamp.{Stamp};
ghost use Rattle.mcast_txn.specs.Ballot.{Decision};
ghost use Rattle.mcast_txn.specs.Flight.{Sight};
ghost use Rattle.mcast_txn.specs.Stamp.{greatest};
ghost use Rattle.broker_locks.specs.Commits.{KnowsStamp};
ghost use Rattle.broker_locks.specs.Gathering.{GatheredIsDue};
ghost use Rattle.broker_locks.specs.OctetBounds.{KeepsOctetsFew};
ghost use Rattle.broker_locks.specs.Room.{StaysRoomy};
ghost use Rattle.broker_locks.specs.TopicTraces.{ExplainedIsDue};

use crate::place::Place;
use mcast_txn::{NoMemory, Seen};
use std::sync::Wait;

/// Where the audit says yes to the trace of all topics of a run, so that one list of transactions explains it, what
/// each subscription's source has pushed is that list restricted to its topic and span, up to its topic's frontier.
pub fn explained_is_due()
    ensures { ExplainedIsDue }
{}

/// The same of the trace that `Broker::into_trace` gives: its topics are those of one run, since no topic and no
/// subscription is there twice.
pub fn gathered_is_due()
    ensures { GatheredIsDue }
{}

/// A subscription that is waited for has room for all parts that are pending and reserved at its topic, whatever is
/// entered with a reservation, taken out, released or turned there: so no turn lags it.
pub fn stays_roomy()
    ensures { StaysRoomy NoMemory }
{}

/// What is due at a topic and untaken in the queue of a subscription that is waited for there is at most 64 MiB beside the
/// largest part, in queues of at most 64: reserving keeps the ranks that say so, and whatever else is done there, too.
/// What is entered without a reservation isn't counted by its octets.
pub fn octets_stay_few()
    ensures { KeepsOctetsFew }
{}

/// The stamp that a commit answered is that of the verdict which any note of its flight's cell knows, in whichever
/// thread it was made: so it is the stamp by which each topic releases that has such a note.
pub fn answered_stamp(answered: Seen, other: Seen)
    requires { other.cell ≡ answered.cell }
    ensures { (flight : Flight) (stamp : Stamp) (verdict : Decision) → KnowsStamp flight stamp answered
        → other.known ≡ Some verdict → stamp ≡ greatest verdict.rows }
{
    let mut answered = answered;
    answered.agree(other);
}

/// The stamp that a commit answered is that of the verdict by which a part of its flight learnt at a place, whichever
/// place it is: so the transaction is released with it at each of its topics.
pub fn stamp_at_place<R: Wait>(answered: Seen, place: &mut Place<R>, index: usize)
    requires { (note : Sight) → slice_get place.old.cells.notes index ≡ Some note
        → note.cell ≡ answered.cell }
    ensures stamp { (flight : Flight) (stamp : Stamp) (note : Sight) (verdict : Decision)
        → KnowsStamp flight stamp answered → slice_get place.old.cells.notes index ≡ Some note
        → note.known ≡ Some verdict → stamp ≡ greatest verdict.rows }
    ensures kept { place.new ≡ place.old }
{
    if let Some(note) = place.note(index) {
        answered_stamp(answered, note);
    }
}
