//! What one topic's lock guards.

ghost use Rattle.std.specs.Prelude.{◌≡◌, ◌≢◌, ◌⊎◌, ◌+◌, ◌++◌, ◌*◌, ◌<◌, ◌≤◌, ◌==◌, ℕ, [], length, true, false, None, Some, IfOk, IfErr, IfSome, OnOk, OnErr, vec_capacity};
ghost use Rattle.std.specs.List.{list_any};
ghost use Rattle.sub_queue.specs.Ends.{shown_of_source};
ghost use Rattle.mcast_group.specs.CellGroup.{open_count};
ghost use Rattle.mcast_group.specs.Group.{or_no_memory, result_of};
ghost use Rattle.mcast_group.specs.declared.fault.ProposeFault.TheVariants.{ClockFull};
ghost use Rattle.mcast_group.specs.Machine.{cancel_fault, next_number};
ghost use Rattle.delivery.specs.Topics.{max_topics};
ghost use Rattle.trace_audit.specs.declared.fault.AddFault.TheVariants.{Misfit};
ghost use Rattle.broker_locks.specs.Inner.Waited.{waiting_without_each};
ghost use Rattle.broker_locks.specs.Place.{EndsInOrder, EndsOne, HasDoneNothing, HasTurned, IsIdle, new_place, place_after_cancel, place_after_propose, place_after_subscribe, place_after_unsubscribe, place_fault, place_subscribe_fault, topic_limit};
ghost use Rattle.broker_locks.specs.Room.{HasHeard, IsFirstOfLacking, KeepsRoom, fits, is_waited_for, lacking_room, more_reserved, one_given_back, one_reserved, reserve_answer, room_after_enter, waiting_for, waiting_without};

use crate::counts::Counts;
use crate::part_octets::PartOctets;
use crate::place::Place;
use crate::room::Room;
use crate::side::Side;
use crate::total::Total;
use crate::total_counter::TotalCounter;
use delivery::MAX_TOPICS;
use mcast_group::{CancelFault, Ended, LogRows, NoSub, Proposal, ProposeFault, SubFault, Turned};
use mcast_txn::{NoMemory, Stamp, Ticket, Topic, TxnId};
use std::alloc::Global;
use std::mem;
use std::sync::ledger::Share;
use std::sync::{Mutex, Wait};
use sub_queue::Source;
use trace_audit::AddFault;

/// The most parts and undrained rows of a topic, taken together (our choice).
pub const LOG_LIMIT: usize = 65_536;

/// A topic's place, of at most 65,536 parts and rows, what room is reserved there and who is waited for, which of its
/// subscriptions is next, from 0, if one is left, and its share of the tickets, which are those that it gave. Each
/// subscription that is waited for is open, and its queue has room for all parts that are pending and for those for
/// which room is reserved, and for the spare beside them, which is used up before anybody is asked what was taken.
pub(crate) struct LockedTopic<R: Wait, T: Side> {
    pub(crate) place: Place<R>,
    pub(crate) room: Room,
    /// So many more parts could be reserved.
    pub(crate) spare: u64,
    pub(crate) next: Option<u64>,
    pub(crate) share: Share<T>,
    ghost limit: { place.cells.group.topic.log_limit ≡ 65536 },
    ghost one: { share.parts ≡ 1 },
    ghost counted: { share.amount ≡ place.tickets },
    ghost roomy: { ∥ KeepsRoom (more_reserved spare room) place.cells.group ∥₁ },
}

impl<R: Wait, T: Side> Drop for LockedTopic<R, T> {
    /// Written out, as at `Place`.
    fn drop(self) {
        let LockedTopic {
            place,
            room,
            spare: _,
            next: _,
            share,
        } = self;
        drop(place);
        drop(room);
        drop(share);
    }
}

impl<R: Wait, T: Side> LockedTopic<R, T> {
    /// An empty topic with this clock, and this share; whether it keeps a trace. It takes no memory.
    pub(crate) fn new(
        alloc: Global,
        topic: Topic,
        clock: u64,
        keep_trace: bool,
        share: Share<T>,
    ) -> LockedTopic<R, T>
        requires { (share.parts ≡ 1) × (share.amount ≡ 0) }
        ensures { result.place ≡ new_place topic topic_limit clock keep_trace }
    {
        LockedTopic {
            place: Place::new(alloc, topic, clock, LOG_LIMIT, keep_trace),
            room: Room::new(alloc),
            spare: 0,
            next: Some(0),
            share,
        }
    }

    /// Its place, if it is that of this topic. Refused by 98 where it isn't.
    pub(crate) fn into_place(self, number: u32) -> Result<Place<R>, AddFault>
        ensures number { IfOk result (λ place. place.cells.group.topic.topic.0 ≡ number) }
        ensures other { OnErr result (self.place.cells.group.topic.topic.0 ≢ number) }
        ensures fault { IfErr result (λ fault. fault ≡ Misfit) }
    {
        let LockedTopic {
            place,
            room: _,
            spare: _,
            next: _,
            share: _,
        } = self;
        if place.group().topic().0 == number {
            Ok(place)
        } else {
            Err(AddFault::Misfit)
        }
    }

    /// Its counts, and its share of the tickets.
    pub(crate) fn into_counts(self) -> (Counts, Share<T>)
        ensures one { result.1.parts ≡ 1 }
        ensures tickets { result.1.amount ≡ result.0.tickets }
        ensures balanced { result.0.tickets ≡ result.0.released + result.0.cancelled + result.0.pending }
    {
        let LockedTopic {
            place,
            room: _,
            spare: _,
            next: _,
            share,
        } = self;
        (place.counts(), share)
    }

    /// Enters a part, and counts its ticket as the worker's that has this share. All memory is made first; then the
    /// total's lock is taken, for the count alone, and nothing is refused after that. With a reservation that is used
    /// up; without, the spare; and where there is none, those that are waited for are asked what was taken, and who has
    /// no room now is passed over. Refused as by the place, and then by 40 where the total is full; then nothing has
    /// changed, and nothing is counted.
    pub(crate) fn propose<W: Side>(
        &mut self,
        rt: &R,
        total: &Mutex<Total<W, T>>,
        mine: &mut Share<W>,
        floor: Stamp,
        proposal: Proposal,
        with_reserved: bool,
    ) -> Result<Ticket, ProposeFault>
        requires { 0 < mine.old.parts }
        ensures parts { mine.new.parts ≡ mine.old.parts }
        ensures allowed { OnOk result (place_fault floor proposal.part self.old.place ≡ None) }
        ensures ticket { IfOk result (λ ticket. ticket ≡ record {
          id = proposal.part.id;
          topic = self.old.place.cells.group.topic.topic;
          n = next_number floor self.old.place.cells.group.topic;
        }) }
        ensures ok { OnOk result
            (HasHeard (place_after_propose floor proposal self.old.place) self.new.place) }
        ensures room { OnOk result
            (self.new.room ≡ room_after_enter with_reserved self.new.place.cells.group self.old.room) }
        ensures counted { OnOk result (mine.new.amount ≡ mine.old.amount + 1) }
        ensures fault { IfErr result
            (λ fault. (fault ≡ or_no_memory (place_fault floor proposal.part self.old.place))
            ⊎ ((place_fault floor proposal.part self.old.place ≡ None) × (fault ≡ ClockFull))) }
        ensures same { OnErr result ((self.new.place ≡ self.old.place) × (self.new.room ≡ self.old.room)) }
        ensures uncounted { OnErr result (mine.new.amount ≡ mine.old.amount) }
    {
        let LockedTopic {
            place,
            room,
            spare,
            next: _,
            share,
        } = self;
        let (no_worker, no_topic) = (mine.empty(), share.empty());
        let theirs = mem::replace(mine, no_worker);
        let here = mem::replace(share, no_topic);
        let mut counter = TotalCounter::new(rt, total, theirs, here);
        let answer = place.enter(floor, proposal, &mut counter);
        (*mine, *share) = counter.into_shares();
        match answer {
            Ok(ticket) => {
                room.enter(rt, with_reserved, place, spare);
                Ok(ticket)
            }
            Err(fault) => Err(fault),
        }
    }

    /// Takes the transaction's part out, as the place does.
    pub(crate) fn cancel(&mut self, id: TxnId) -> Result<(), CancelFault>
        ensures answer { result ≡ result_of (cancel_fault id self.old.place.cells.group.topic) }
        ensures ok { OnOk result (self.new.place ≡ place_after_cancel id self.old.place) }
        ensures err { OnErr result (self.new.place ≡ self.old.place) }
        ensures room { self.new.room ≡ self.old.room }
    {
        self.place.cancel(id)
    }

    /// How many of its subscriptions are open.
    pub(crate) fn open_len(&self) -> usize
        ensures { result ≡ open_count self.now.place.cells.group.topic.subscriptions }
    {
        self.place.group().open_len()
    }

    /// Turns the topic and drains its log, as the place does.
    pub(crate) fn head_turned(&mut self, rt: &R) -> (Turned, Result<LogRows, NoMemory>)
        ensures turned { HasTurned self.old.place self.new.place result.0 result.1 }
        ensures idle { IsIdle self.old.place → self.new.place.cells.notes ≡ self.old.place.cells.notes
            → HasDoneNothing self.old.place self.new.place result.0 result.1 }
        ensures room { self.new.room ≡ self.old.room }
    {
        self.place.head_turned(rt)
    }

    /// Begins the next subscription, the k-th from 0, at this topic, and returns its number, `k * 1,024 + topic`, and
    /// the frontier. Refused: 47 where no number is left, and as by the place; nothing has changed then.
    pub(crate) fn subscribe(
        &mut self,
        topic: Topic,
        source: Source<R>,
    ) -> Result<(u64, Stamp), SubFault>
        requires { source.items ≡ [] }
        ensures number { IfOk result
            (λ begun. (k : ℕ) × (self.old.next ≡ Some k) × (begun.0 ≡ k * max_topics + topic.0)) }
        ensures from { IfOk result (λ begun. begun.1 ≡ self.old.place.cells.group.topic.frontier) }
        ensures ok { IfOk result
            (λ begun. self.new.place
            ≡ place_after_subscribe begun.0 (shown_of_source source).gauge self.old.place) }
        ensures next { IfOk result
            (λ _. IfSome self.new.next (λ next. (k : ℕ) × (self.old.next ≡ Some k) × (next ≡ k + 1))) }
        ensures err { OnErr result ((self.new.place ≡ self.old.place) × (self.new.next ≡ self.old.next)) }
        ensures room { self.new.room ≡ self.old.room }
    {
        let Some(k) = self.next else {
            return Err(SubFault::SubInUse);
        };
        let Some(number) = number_of(k, topic) else {
            return Err(SubFault::SubInUse);
        };
        match begun(&mut self.place, number, source) {
            Ok(from) => {
                self.next = k.checked_add(1);
                Ok((number, from))
            }
            Err(fault) => Err(fault),
        }
    }

    /// Ends the subscription of this number, as the place does. It isn't waited for any more.
    pub(crate) fn unsubscribe(&mut self, number: u64) -> Result<Ended<Source<R>>, NoSub>
        ensures ends { EndsOne shown_of_source number result self.old.place self.new.place }
        ensures ok { OnOk result (self.new.place ≡ place_after_unsubscribe number self.old.place) }
        ensures err { OnErr result (self.new.place ≡ self.old.place) }
        ensures room { self.new.room ≡ waiting_without number self.old.room }
    {
        self.place.balanced();
        self.room.forget(number);
        self.place.unsubscribe(number)
    }

    /// Ends the subscriptions of these numbers, in order, and puts what each end answers into a list, which has room for
    /// that. They aren't waited for any more.
    pub(crate) fn unsubscribe_all(
        &mut self,
        numbers: &[u64],
        answers: &mut Vec<Result<Ended<Source<R>>, NoSub>>,
    )
        requires empty { answers.old.items ≡ [] }
        requires room { length numbers.now ≤ vec_capacity answers.old }
        ensures ends { EndsInOrder shown_of_source numbers.now answers.new.items self.old.place self.new.place }
        ensures room { self.new.room ≡ waiting_without_each numbers.now self.old.room }
    {
        for &number in numbers {
            answers.push_reserved(self.unsubscribe(number));
        }
    }

    /// Reserves room for one part more, of so many octets, where queues are of this capacity. Refused by the first of the
    /// subscriptions that are waited for whose queue lacks room, from the number `start` on and then of those below it, or
    /// by none where a whole queue has too little beside what is pending and reserved.
    pub(crate) fn reserve(
        &mut self,
        rt: &R,
        capacity: usize,
        octets: PartOctets,
        start: u64,
    ) -> Result<(), Option<u64>>
        ensures heard { HasHeard self.old.place self.new.place }
        ensures answer { result ≡ reserve_answer capacity octets.0 start self.old.room self.new.place.cells.group }
        ensures ok { OnOk result (self.new.room ≡ one_reserved self.old.room) }
        ensures err { OnErr result (self.new.room ≡ self.old.room) }
    {
        self.room.reserve(
            rt,
            capacity,
            octets,
            start,
            &mut self.place,
            &mut self.spare,
        )
    }

    /// Gives back what was reserved for one part, where it is reserved.
    pub(crate) fn give_back(&mut self)
        ensures place { self.new.place ≡ self.old.place }
        ensures room { self.new.room ≡ one_given_back self.old.room }
    {
        self.room.give_back();
    }

    /// Whether the subscription is waited for from now on: it is open, and its queue, of this capacity, is known to be
    /// empty and takes all parts that are pending and reserved. So it is where it was waited for. Not where there is no
    /// memory for one place more in the list of them.
    pub(crate) fn wait_for(&mut self, rt: &R, capacity: usize, number: u64) -> bool
        ensures heard { HasHeard self.old.place self.new.place }
        ensures yes { result ≡ true → self.new.room ≡ waiting_for number self.old.room }
        ensures empty { result ≡ true → is_waited_for number self.old.room ≡ false
            → fits capacity self.new.place.cells.group number ≡ true }
        ensures no { result ≡ false → self.new.room ≡ self.old.room }
    {
        self.room
            .wait_for(rt, capacity, number, &mut self.place, &mut self.spare)
    }

    /// Adds the numbers of those that are waited for and lack room for one part more, of so many octets, to a list, where
    /// queues are of this capacity. Out of memory, the first of them were added.
    pub(crate) fn lacking(
        &mut self,
        rt: &R,
        capacity: usize,
        octets: PartOctets,
        list: &mut Vec<u64>,
    ) -> Result<(), NoMemory>
        ensures heard { HasHeard self.old.place self.new.place }
        ensures ok { OnOk result (list.new.items
            ≡ list.old.items ++ lacking_room capacity octets.0 self.new.place.cells.group self.old.room) }
        ensures err { OnErr result (IsFirstOfLacking capacity octets.0 self.new.place.cells.group self.old.room
            list.old.items list.new.items) }
        ensures room { self.new.room ≡ self.old.room }
    {
        self.room
            .lacking(rt, capacity, octets, &mut self.place, list)
    }

    /// Whether this subscription was waited for and lacked room for one part more, of so many octets, as `lacking` says:
    /// then it is waited for no longer.
    pub(crate) fn pass_over(
        &mut self,
        rt: &R,
        capacity: usize,
        octets: PartOctets,
        number: u64,
    ) -> bool
        ensures heard { HasHeard self.old.place self.new.place }
        ensures answer { result ≡ list_any (λ n. n == number)
            (lacking_room capacity octets.0 self.new.place.cells.group self.old.room) }
        ensures yes { result ≡ true → self.new.room ≡ waiting_without number self.old.room }
        ensures no { result ≡ false → self.new.room ≡ self.old.room }
    {
        self.room
            .pass_over(rt, capacity, octets, number, &mut self.place)
    }
}

/// `Place::subscribe`, which lets the source go where it is refused.
fn begun<R: Wait>(place: &mut Place<R>, number: u64, source: Source<R>) -> Result<Stamp, SubFault>
    requires { source.items ≡ [] }
    ensures from { IfOk result (λ from. from ≡ place.old.cells.group.topic.frontier) }
    ensures allowed { OnOk result (place_subscribe_fault number place.old ≡ None) }
    ensures ok { OnOk result
        (place.new ≡ place_after_subscribe number (shown_of_source source).gauge place.old) }
    ensures err { OnErr result (place.new ≡ place.old) }
{
    match place.subscribe(number, source) {
        Ok(from) => Ok(from),
        Err((fault, _source)) => Err(fault),
    }
}

/// The number of the k-th subscription, from 0, at this topic, if it fits.
fn number_of(k: u64, topic: Topic) -> Option<u64>
    ensures { IfSome result (λ number. number ≡ k * max_topics + topic.0) }
{
    k.checked_mul(MAX_TOPICS as u64)?
        .checked_add(u64::from(topic.0))
}
