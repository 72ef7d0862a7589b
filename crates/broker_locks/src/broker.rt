//! A broker's topics, each behind a lock of its own.

ghost use Rattle.std.specs.Prelude.{◌≡◌, ◌≤◌, ◌<◌, ◌+◌, ◌*◌, ◌∷◌, ◌++◌, ℕ, List, [], false, length, map, take, vec_capacity, vec_len, None, Ok, Err, IfOk, IfErr, OnOk, OnErr, IsErr};
ghost use Rattle.std.specs.List.{AllByRecursion};
ghost use Rattle.std.specs.Option.{option_map};
ghost use Rattle.crossbeam_utils.specs.Padded.{padded_value};
ghost use Rattle.delivery.specs.Topics.{max_topics};
ghost use Rattle.mcast_group.specs.declared.fault.SubFault.TheVariants.{SubInUse};
ghost use Rattle.sender_gate.specs.Senders.{MayRefuse, SendersState, claim_refusal, claimed_gate};
ghost use Rattle.broker_locks.specs.declared.server_fault.ServerFault.TheVariants.{TooManyConns};
ghost use Rattle.broker_locks.specs.Commits.{AreTold, IsCommitted, IsRefused, IsUntouched, KnowsStamp, some_refusal, topics_in};
ghost use Rattle.broker_locks.specs.Gathering.{IsTraceLeft, StopsGathering};
ghost use Rattle.broker_locks.specs.Opening.{clock_at_start, opening_places};
ghost use Rattle.broker_locks.specs.Room.{BeginsWith, IsRefusedAt};
ghost use Rattle.broker_locks.specs.Rows.{PlaceRow};

use crate::commit::commit_on;
use crate::fault::CommitFault;
use crate::locked::Locked;
use crate::locked_topic::LockedTopic;
use crate::no_room::NoRoom;
use crate::open_counts::OpenCounts;
use crate::part_octets::PartOctets;
use crate::point::Point;
use crate::reserved::Reserved;
use crate::server_fault::ServerFault;
use crate::shares::Shares;
use crate::side::Side;
use crate::subscribed::Subscribed;
use crate::tally::Tally;
use crate::total::{Total, opened};
use crate::worker::Worker;
use crossbeam_utils::CachePadded;
use delivery::{MAX_TOPICS, Topics};
use mcast_group::{Ended, NoSub, SubFault, SubState, Turned};
use mcast_txn::{NoMemory, Seen, Stamp, Topic};
use sender_gate::{ClaimFault, Flying, Gate, Senders};
use std::alloc::Global;
use std::mem;
use std::sync::ledger::{Blank, Share};
use std::sync::{Mutex, Wait};
use sub_queue::{Source, ruled};
use trace_audit::{AddFault, Trace};

/// A topic's lock, on cache lines of its own, so that two threads at two topics don't share one.
pub(crate) type TopicLock<R, T> = CachePadded<Mutex<LockedTopic<R, T>>>;

/// The total's lock, which each proposal takes, on cache lines of its own: whoever reads what else a broker has doesn't
/// wait for them.
type TotalLock<W, T> = CachePadded<Mutex<Total<W, T>>>;

/// The topics of a broker, each behind a lock of its own, of which there are 1,024 whatever topics it begins with.
/// Beside them a lock for the total of tickets, and one for the senders. No call holds two locks, but that a proposal
/// takes the total's within its topic's, for one step. Nothing is said of what a call finds behind a lock but what
/// its type keeps; what it does there is said on `Place`. `W` is the ledger of the workers' tickets, `T` that of the
/// topics'.
pub struct Broker<R: Wait, W: Side, T: Side> {
    alloc: Global,
    topics: Topics,
    capacity: usize,
    senders: CachePadded<Mutex<Senders>>,
    total: TotalLock<W, T>,
    locks: Vec<TopicLock<R, T>>,
    opens: OpenCounts,
    ghost some: { 0 < capacity },
    ghost one_each: { vec_len locks ≡ max_topics },
    ghost shared: { T.all ≡ max_topics },
}

impl<R: Wait, W: Side, T: Side> Drop for Broker<R, W, T> {
    /// Written out, as at `Place`.
    fn drop(self) {
        let Broker {
            alloc: _,
            topics,
            capacity: _,
            senders,
            total,
            locks,
            opens,
        } = self;
        drop(topics);
        drop(senders);
        drop(total);
        drop(locks);
        drop(opens);
    }
}

impl<R: Wait, W: Side, T: Side> Broker<R, W, T> {
    /// A broker of these topics, whose subscriptions have queues of this capacity, 1 to 4,096; whether a trace of its
    /// run is kept. It has 1,024 topics: those behind the ones that are given have clock 0. The ledger of its workers
    /// has 257 parts, that of its topics 1,024.
    pub fn new(
        alloc: Global,
        topics: Topics,
        capacity: usize,
        keep_trace: bool,
        workers: Blank,
        tickets: Blank,
    ) -> Result<Broker<R, W, T>, NoMemory>
        requires capacity { (1 ≤ capacity) × (capacity ≤ 4096) }
        requires workers { (workers.name ≡ W.name) × (workers.parts ≡ W.parts) × (W.parts ≡ W.all)
            × (W.all ≡ 257) }
        requires tickets { (tickets.name ≡ T.name) × (tickets.parts ≡ T.parts) × (T.parts ≡ T.all)
            × (T.all ≡ max_topics) }
        ensures { IfOk result (λ broker. (broker.topics ≡ topics) × (broker.capacity ≡ capacity)) }
    {
        let (total, share) = opened::<W, T>(workers, tickets);
        let opening = opening_topics(alloc, &topics, keep_trace, share, MAX_TOPICS)?;
        let locks = locks_of(alloc, opening)?;
        let opens = OpenCounts::new(alloc, MAX_TOPICS)?;
        Ok(Broker {
            alloc,
            topics,
            capacity,
            senders: CachePadded::new(Mutex::new(Senders::new(alloc))),
            total: CachePadded::new(Mutex::new(total)),
            locks,
            opens,
        })
    }

    /// The topics that it was made with. It takes no lock.
    pub fn topics(&self) -> &Topics
        ensures { result.now ≡ self.now.topics }
    {
        &self.topics
    }

    /// How many items the queue of each subscription has room for. It takes no lock.
    pub fn capacity(&self) -> usize
        ensures { result ≡ self.now.capacity }
    {
        self.capacity
    }

    /// One more worker, which was given no ticket yet. It takes no memory. Refused by 100 alone, where 256 ever
    /// joined.
    pub fn join(&self, rt: &R) -> Result<Worker<W>, ServerFault>
        ensures worker { IfOk result (λ worker. worker ≡ record { workers = 1; tickets = 0 }) }
        ensures fault { IfErr result (λ fault. fault ≡ TooManyConns) }
    {
        match self.total.lock(rt).join() {
            Some(worker) => Ok(worker),
            None => Err(ServerFault::TooManyConns),
        }
    }

    /// The share of a worker that commits no more. It takes no lock and no memory.
    pub fn leave(&self, _rt: &R, worker: Worker<W>) -> Shares<W>
        ensures { result ≡ worker }
    {
        worker.into_shares()
    }

    /// The counts of all topics added up, given the shares of all workers that ever joined, with no memory. Refused
    /// (103) where they aren't of as many workers: broker and shares are returned.
    pub fn tally(self, _rt: &R, shares: Shares<W>) -> Result<Tally, (Broker<R, W, T>, Shares<W>)>
        requires { (W.parts ≡ W.all) × (T.parts ≡ T.all) }
        ensures tickets { IfOk result (λ tally. tally.tickets ≡ shares.tickets) }
        ensures balanced { IfOk result
            (λ tally. tally.tickets ≡ tally.released + tally.cancelled + tally.pending) }
        ensures back { IfErr result (λ refused. refused.1 ≡ shares) }
    {
        let Broker {
            alloc,
            topics,
            capacity,
            senders,
            total,
            locks,
            opens,
        } = self;
        let total = total.into_inner().into_inner();
        if total.joined != shares.workers {
            let total = CachePadded::new(Mutex::new(total));
            let broker = Broker {
                alloc,
                topics,
                capacity,
                senders,
                total,
                locks,
                opens,
            };
            return Err((broker, shares));
        }
        drop(topics);
        drop(senders);
        drop(opens);
        Ok(counted(total, shares, locks))
    }

    /// The gate of the sender of this client-id, as it was given back last, or of a new sender: some state of the
    /// senders gave it. Refused: 77, 78 or 55, as a state of them refuses it.
    pub fn claim(&self, rt: &R, client: Option<&[u8]>) -> Result<Gate, ClaimFault>
        ensures gate { IfOk result (λ gate. (senders : SendersState)
            × (claim_refusal (option_map (λ id. id.now) client.entry) senders ≡ None)
            × (gate ≡ claimed_gate (option_map (λ id. id.now) client.entry) senders)) }
        ensures fault { IfErr result (λ fault. (senders : SendersState)
            × MayRefuse (option_map (λ id. id.now) client.entry) senders fault) }
    {
        self.senders.lock(rt).claim(client)
    }

    /// Gives a sender's gate back, with no memory: where it has a client-id, the next claim of that gets it.
    pub fn give_back(&self, rt: &R, gate: Gate) {
        self.senders.lock(rt).give_back(gate)
    }

    /// Begins a subscription at the topic: its number, the frontier then, and the end that takes. The k-th at topic t
    /// has number `k * 1,024 + t`. Refused: 47 where there is no such lock or no number is left, 42 out of memory.
    pub fn subscribe(&self, rt: &R, topic: Topic) -> Result<Subscribed, SubFault>
        ensures nowhere { max_topics ≤ topic.0 → result ≡ Err SubInUse }
        ensures number { IfOk result (λ begun. (k : ℕ) × (begun.sub ≡ k * max_topics + topic.0)) }
        ensures queue { IfOk result
            (λ begun. (begun.taker.items ≡ []) × (begun.taker.capacity ≡ self.now.capacity)) }
    {
        let (begun, _is_waited_for) = self.begin(rt, topic, false)?;
        Ok(begun)
    }

    /// `subscribe`, and in the same hold of the lock `wait_for`: whether the subscription is waited for from its
    /// beginning. Not where more is pending and reserved than a queue holds, or where there is no memory for the list
    /// of who is waited for.
    pub fn subscribe_waited_for(&self, rt: &R, topic: Topic) -> Result<(Subscribed, bool), SubFault>
        ensures nowhere { max_topics ≤ topic.0 → result ≡ Err SubInUse }
        ensures number { IfOk result (λ begun. (k : ℕ) × (begun.0.sub ≡ k * max_topics + topic.0)) }
        ensures queue { IfOk result
            (λ begun. (begun.0.taker.items ≡ []) × (begun.0.taker.capacity ≡ self.now.capacity)) }
    {
        self.begin(rt, topic, true)
    }

    /// Begins a subscription at the topic, as `subscribe` says; whether it is waited for, where that is asked for.
    fn begin(&self, rt: &R, topic: Topic, wait: bool) -> Result<(Subscribed, bool), SubFault>
        ensures nowhere { max_topics ≤ topic.0 → result ≡ Err SubInUse }
        ensures number { IfOk result (λ begun. (k : ℕ) × (begun.0.sub ≡ k * max_topics + topic.0)) }
        ensures queue { IfOk result
            (λ begun. (begun.0.taker.items ≡ []) × (begun.0.taker.capacity ≡ self.now.capacity)) }
    {
        let Some(lock) = self.lock_of(topic) else {
            return Err(SubFault::SubInUse);
        };
        let Ok((source, taker)) = ruled(self.alloc, self.capacity) else {
            return Err(SubFault::NoMemory);
        };
        let mut locked = lock.lock(rt);
        let (sub, start) = locked.subscribe(topic, source)?;
        self.opens.note(topic, locked.open_len());
        let is_waited_for = wait && locked.wait_for(rt, self.capacity, sub);
        Ok((Subscribed { sub, start, taker }, is_waited_for))
    }

    /// Ends the topic's subscription of this number, and returns what it leaves, with no memory. Refused by 48 where
    /// there is none.
    pub fn unsubscribe(&self, rt: &R, topic: Topic, sub: u64) -> Result<Ended<Source<R>>, NoSub>
        ensures nowhere { max_topics ≤ topic.0 → IsErr result }
    {
        let Some(lock) = self.lock_of(topic) else {
            return Err(NoSub);
        };
        let mut locked = lock.lock(rt);
        let ended = locked.unsubscribe(sub)?;
        self.opens.note(topic, locked.open_len());
        Ok(ended)
    }

    /// Ends the topic's subscriptions of these numbers, in order, in one hold of the lock: what `unsubscribe` answers for
    /// each. Memory for the answers is made before the lock; out of memory nothing has ended.
    pub fn unsubscribe_all(
        &self,
        rt: &R,
        topic: Topic,
        numbers: &[u64],
    ) -> Result<Vec<Result<Ended<Source<R>>, NoSub>>, NoMemory>
        ensures each { IfOk result (λ answers. length answers.items ≡ length numbers.now) }
        ensures nowhere { max_topics ≤ topic.0
            → IfOk result (λ answers. AllByRecursion (λ answer. IsErr answer) answers.items) }
    {
        let mut answers = Vec::with_capacity(self.alloc, numbers.len())?;
        let Some(lock) = self.lock_of(topic) else {
            refuse_all(numbers.len(), &mut answers);
            return Ok(answers);
        };
        let mut locked = lock.lock(rt);
        locked.unsubscribe_all(numbers, &mut answers);
        self.opens.note(topic, locked.open_len());
        drop(locked);
        Ok(answers)
    }

    /// Whether the topic's subscription of this number is open or has lagged, if there is one.
    pub fn state(&self, rt: &R, topic: Topic, sub: u64) -> Option<SubState>
        ensures nowhere { max_topics ≤ topic.0 → result ≡ None }
    {
        self.lock_of(topic)?.lock(rt).place.state(sub)
    }

    /// Room at no topic, to which `reserve_at` adds. It takes no lock and no memory.
    pub fn no_room(&self) -> Reserved
        ensures { result ≡ [] }
    {
        Reserved::none(self.alloc)
    }

    /// Room for one part more, of so many octets, at this topic, behind what is reserved. Refused where the topic has none:
    /// so many parts are pending and reserved there that no queue has as many places beside them as it asks for, or one
    /// that is waited for lacks room, of whom the first is named by number `start` and above, and then below it. It asks
    /// for one place, and where it has more than 17 MiB divided by the capacity, for as many more as put it so far to the
    /// front that it has no more than 17 MiB divided by its rank; one is reserved. Nobody is refused before those that are
    /// waited for were asked what was taken. A topic without a lock has room. Where it is refused nothing was taken; memory
    /// for the list is made before the lock.
    #[inline(always)]
    pub fn reserve_at(
        &self,
        rt: &R,
        topic: Topic,
        octets: PartOctets,
        start: u64,
        reserved: &mut Reserved,
    ) -> Result<(), NoRoom>
        ensures ok { OnOk result (reserved.new ≡ reserved.old ++ topic ∷ []) }
        ensures err { OnErr result (reserved.new ≡ reserved.old) }
        ensures refused { IfErr result (IsRefusedAt topic) }
    {
        let kept = reserved.topics().len();
        let Ok(()) = reserved.push(topic) else {
            return Err(NoRoom::NoMemory);
        };
        match self.one_reserved(rt, topic, octets, start) {
            Ok(()) => Ok(()),
            Err(sub) => {
                reserved.truncate(kept);
                Err(NoRoom::Full { topic, sub })
            }
        }
    }

    /// Gives back what is reserved behind the first so many topics.
    pub fn release_behind(&self, rt: &R, reserved: &mut Reserved, kept: usize)
        ensures { reserved.new ≡ take kept reserved.old }
    {
        self.give_back_at(rt, reserved.behind(kept));
        reserved.truncate(kept);
    }

    /// Gives all of it back.
    #[inline(always)]
    pub fn release_room(&self, rt: &R, reserved: Reserved) {
        self.give_back_at(rt, reserved.topics());
        reserved.close();
    }

    /// Reserves room for one part, of so many octets, at the topic. Refused as `NoRoom::Full` says.
    #[inline(always)]
    fn one_reserved(
        &self,
        rt: &R,
        topic: Topic,
        octets: PartOctets,
        start: u64,
    ) -> Result<(), Option<u64>>
        ensures { OnErr result (topic.0 < max_topics) }
    {
        match self.lock_of(topic) {
            Some(lock) => lock.lock(rt).reserve(rt, self.capacity, octets, start),
            None => Ok(()),
        }
    }

    /// Gives back what was reserved for one part at each of these topics.
    fn give_back_at(&self, rt: &R, topics: &[Topic]) {
        for &topic in topics {
            if let Some(lock) = self.lock_of(topic) {
                lock.lock(rt).give_back();
            }
        }
    }

    /// Whether the topic's subscription of this number is waited for from now on: it is open, its queue is known to be empty
    /// (its source hears first what its taker told), and no more parts are pending and reserved than it holds. So it is
    /// where it was waited for. Not where there is no such lock, or no memory for one place more in the list of them.
    pub fn wait_for(&self, rt: &R, topic: Topic, sub: u64) -> bool
        ensures nowhere { max_topics ≤ topic.0 → result ≡ false }
    {
        match self.lock_of(topic) {
            Some(lock) => lock.lock(rt).wait_for(rt, self.capacity, sub),
            None => false,
        }
    }

    /// Adds the numbers of the topic's subscriptions that are waited for and have no room for one part more, of so many
    /// octets, to the list, rising; nobody, where so many parts are pending and reserved that no queue has that room. Memory
    /// for them is made before the lock; without, the list has the first of them.
    pub fn lacking(
        &self,
        rt: &R,
        topic: Topic,
        octets: PartOctets,
        list: &mut Vec<u64>,
    ) -> Result<(), NoMemory>
        ensures begins { BeginsWith list.old.items list.new.items }
        ensures nowhere { max_topics ≤ topic.0 → (result ≡ Ok tt) × (list.new.items ≡ list.old.items) }
    {
        let Some(lock) = self.lock_of(topic) else {
            return Ok(());
        };
        list.reserve(self.open_at(topic))?;
        lock.lock(rt).lacking(rt, self.capacity, octets, list)
    }

    /// Whether the topic's subscription of this number was waited for and lacked room for one part more, of so many octets,
    /// as `lacking` says: then it is waited for no longer.
    pub fn pass_over(&self, rt: &R, topic: Topic, octets: PartOctets, sub: u64) -> bool
        ensures nowhere { max_topics ≤ topic.0 → result ≡ false }
    {
        match self.lock_of(topic) {
            Some(lock) => lock.lock(rt).pass_over(rt, self.capacity, octets, sub),
            None => false,
        }
    }

    /// `commit`, with room: at a topic of `reserved` the part is entered with what is reserved there, so that nobody is
    /// passed over; at another without. What is left of the room then, at other topics or where the commit is refused,
    /// is given back.
    pub fn commit_reserved<Q: Point>(
        &self,
        rt: &R,
        worker: &mut Worker<W>,
        flying: Flying,
        reserved: Reserved,
        point: &mut Q,
    ) -> Result<(Gate, Stamp), (Gate, CommitFault)>
        requires { IsUntouched flying.state }
        ensures committed { IfOk result
            (λ done. (old new : List PlaceRow) × IsCommitted flying.state old new done.0 done.1) }
        ensures told { OnOk result
            (AreTold Q.told (topics_in flying.state) (length (topics_in flying.state)) point.old point.new) }
        ensures given { OnOk result
            (worker.new.tickets ≡ worker.old.tickets + length (topics_in flying.state)) }
        ensures refused { IfErr result
            (λ refused. (old new : List PlaceRow) × IsRefused some_refusal Q.told flying.state old new
            worker.old.tickets worker.new.tickets point.old point.new refused.0 refused.1) }
        ensures no_less { OnErr result (worker.old.tickets ≤ worker.new.tickets) }
        ensures no_more { OnErr result
            (worker.new.tickets ≤ worker.old.tickets + length (topics_in flying.state)) }
    {
        let (gate, stamp, _) = self.commit_with(rt, worker, flying, reserved, point)?;
        Ok((gate, stamp))
    }

    /// `commit_seen`, without the note.
    pub fn commit<Q: Point>(
        &self,
        rt: &R,
        worker: &mut Worker<W>,
        flying: Flying,
        point: &mut Q,
    ) -> Result<(Gate, Stamp), (Gate, CommitFault)>
        requires { IsUntouched flying.state }
        ensures committed { IfOk result
            (λ done. (old new : List PlaceRow) × IsCommitted flying.state old new done.0 done.1) }
        ensures told { OnOk result
            (AreTold Q.told (topics_in flying.state) (length (topics_in flying.state)) point.old point.new) }
        ensures given { OnOk result
            (worker.new.tickets ≡ worker.old.tickets + length (topics_in flying.state)) }
        ensures refused { IfErr result
            (λ refused. (old new : List PlaceRow) × IsRefused some_refusal Q.told flying.state old new
            worker.old.tickets worker.new.tickets point.old point.new refused.0 refused.1) }
        ensures no_less { OnErr result (worker.old.tickets ≤ worker.new.tickets) }
        ensures no_more { OnErr result
            (worker.new.tickets ≤ worker.old.tickets + length (topics_in flying.state)) }
    {
        let (gate, stamp, _) = self.commit_seen(rt, worker, flying, point)?;
        Ok((gate, stamp))
    }

    /// Commits a transaction, as `commit_on` does over these locks: each is held for one proposal, by rising topic,
    /// and none while the point is told. What it answers is said there; of what was done at the places, which other
    /// threads may change at any time, it says no more than that there are such rows. The worker's tickets rise by
    /// one for each topic, and where the commit is refused, by one for each that gave a ticket before. No room is reserved
    /// for it: at each topic, those that are waited for and that it leaves without room are passed over.
    pub fn commit_seen<Q: Point>(
        &self,
        rt: &R,
        worker: &mut Worker<W>,
        flying: Flying,
        point: &mut Q,
    ) -> Result<(Gate, Stamp, Seen), (Gate, CommitFault)>
        requires { IsUntouched flying.state }
        ensures committed { IfOk result
            (λ done. (old new : List PlaceRow) × IsCommitted flying.state old new done.0 done.1) }
        ensures set { IfOk result (λ done. KnowsStamp flying.flight done.1 done.2) }
        ensures told { OnOk result
            (AreTold Q.told (topics_in flying.state) (length (topics_in flying.state)) point.old point.new) }
        ensures given { OnOk result
            (worker.new.tickets ≡ worker.old.tickets + length (topics_in flying.state)) }
        ensures refused { IfErr result
            (λ refused. (old new : List PlaceRow) × IsRefused some_refusal Q.told flying.state old new
            worker.old.tickets worker.new.tickets point.old point.new refused.0 refused.1) }
        ensures no_less { OnErr result (worker.old.tickets ≤ worker.new.tickets) }
        ensures no_more { OnErr result
            (worker.new.tickets ≤ worker.old.tickets + length (topics_in flying.state)) }
    {
        self.commit_with(rt, worker, flying, Reserved::none(self.alloc), point)
    }

    /// `commit_seen`, with room, as `commit_reserved` says.
    fn commit_with<Q: Point>(
        &self,
        rt: &R,
        worker: &mut Worker<W>,
        flying: Flying,
        reserved: Reserved,
        point: &mut Q,
    ) -> Result<(Gate, Stamp, Seen), (Gate, CommitFault)>
        requires { IsUntouched flying.state }
        ensures committed { IfOk result
            (λ done. (old new : List PlaceRow) × IsCommitted flying.state old new done.0 done.1) }
        ensures set { IfOk result (λ done. KnowsStamp flying.flight done.1 done.2) }
        ensures told { OnOk result
            (AreTold Q.told (topics_in flying.state) (length (topics_in flying.state)) point.old point.new) }
        ensures given { OnOk result
            (worker.new.tickets ≡ worker.old.tickets + length (topics_in flying.state)) }
        ensures refused { IfErr result
            (λ refused. (old new : List PlaceRow) × IsRefused some_refusal Q.told flying.state old new
            worker.old.tickets worker.new.tickets point.old point.new refused.0 refused.1) }
        ensures no_less { OnErr result (worker.old.tickets ≤ worker.new.tickets) }
        ensures no_more { OnErr result
            (worker.new.tickets ≤ worker.old.tickets + length (topics_in flying.state)) }
    {
        let Worker { shares } = worker;
        let Shares { workers: _, share } = shares;
        let none = share.empty();
        let mut locked = Locked::new(self, rt, mem::replace(share, none), reserved);
        let answer = commit_on(flying, &mut locked, point);
        let (mine, left) = locked.into_parts();
        *share = mine;
        self.release_room(rt, left);
        answer
    }

    /// `head_turned`, which answers how many rows it released, and no count where there was no memory for the drain.
    pub fn head_turn(&self, rt: &R, topic: Topic) -> Result<u64, NoMemory>
        ensures nowhere { max_topics ≤ topic.0 → result ≡ Ok 0 }
    {
        let (turned, drained) = self.head_turned(rt, topic);
        drained?;
        Ok(turned.released)
    }

    /// Turns the topic and drains its log. Returns how many rows it released and whether a subscription lagged, none
    /// where there is no such lock, and beside it whether there was memory for the drain: without, the turn stands.
    /// The drained rows that no trace keeps are let go after the lock.
    pub fn head_turned(&self, rt: &R, topic: Topic) -> (Turned, Result<(), NoMemory>)
        ensures nowhere { max_topics ≤ topic.0 → result ≡ (record { released = 0; lagged = false }, Ok tt) }
    {
        let Some(lock) = self.lock_of(topic) else {
            let nothing = Turned {
                released: 0,
                lagged: false,
            };
            return (nothing, Ok(()));
        };
        let mut locked = lock.lock(rt);
        let (turned, drained) = locked.head_turned(rt);
        if turned.lagged {
            self.opens.note(topic, locked.open_len());
        }
        drop(locked);
        (turned, drained.map(drop))
    }

    /// The trace of the run: what each topic leaves for it, by the topics' numbers; an empty one where no trace is
    /// kept. No lock is taken, since nobody else has the broker. Refused by 91 out of memory; 98, where what two
    /// topics leave doesn't fit together, or a place is of another topic than its lock, never comes, but that is not
    /// proved.
    pub fn into_trace(self) -> Result<Trace, AddFault>
        ensures gathered { IfOk result (IsTraceLeft max_topics) }
        ensures refused { IfErr result (StopsGathering max_topics) }
    {
        let Broker {
            alloc,
            topics: _,
            capacity: _,
            senders: _,
            total: _,
            locks,
            opens: _,
        } = self;
        let mut trace = Trace::new(alloc);
        let mut number = 0;
        for lock in locks {
            let topic = topic_behind(lock);
            let Ok(place) = topic.into_place(number) else {
                return Err(AddFault::Misfit);
            };
            place.rows(&mut trace)?;
            number += 1;
        }
        Ok(trace)
    }

    /// The lock of a topic, if there is one.
    pub(crate) fn lock_of(&self, topic: Topic) -> Option<&Mutex<LockedTopic<R, T>>>
        ensures { max_topics ≤ topic.0 → result ≡ None }
    {
        let lock = self.locks.get(topic.0 as usize)?;
        Some(lock)
    }

    /// How many subscriptions were open at the topic, as was noted last. It takes no lock.
    pub(crate) fn open_at(&self, topic: Topic) -> usize {
        self.opens.at(topic)
    }

    /// The lock of the total of tickets.
    pub(crate) fn total(&self) -> &Mutex<Total<W, T>>
        ensures { result.now ≡ padded_value self.now.total }
    {
        &self.total
    }

    /// Where it allocates.
    pub(crate) fn alloc(&self) -> Global
        ensures { result ≡ self.now.alloc }
    {
        self.alloc
    }
}

/// What is behind the first so many locks at first: of these topics, and behind them of topics with clock 0.
fn opening_topics<R: Wait, T: Side>(
    alloc: Global,
    topics: &Topics,
    keep_trace: bool,
    share: Share<T>,
    count: usize,
) -> Result<Vec<LockedTopic<R, T>>, NoMemory>
    requires few { count ≤ max_topics }
    requires share { (share.parts ≡ count) × (share.amount ≡ 0) }
    ensures many { IfOk result (λ opening. vec_len opening ≡ count) }
    ensures each { IfOk result
        (λ opening. map (λ t. t.place) opening.items ≡ opening_places topics.now keep_trace count) }
{
    let mut share = share;
    let mut opening = Vec::with_capacity(alloc, count)?;
    for i in 0..count {
        let topic = Topic(i as u32);
        let clock = clock_of(topics, i);
        let one = share.split_off(1, 0);
        opening.push(LockedTopic::new(alloc, topic, clock, keep_trace, one))?;
    }
    Ok(opening)
}

/// The number that the clock of a topic begins at: 0 where it isn't one of these.
fn clock_of(topics: &Topics, i: usize) -> u64
    ensures { result ≡ clock_at_start topics.now i }
{
    if i < topics.len() { topics.clock(i) } else { 0 }
}

/// A lock for each of these.
fn locks_of<R: Wait, T: Side>(
    alloc: Global,
    opening: Vec<LockedTopic<R, T>>,
) -> Result<Vec<TopicLock<R, T>>, NoMemory>
    ensures { IfOk result (λ locks. vec_len locks ≡ vec_len opening) }
{
    let mut locks = Vec::with_capacity(alloc, opening.len())?;
    for topic in opening {
        locks.push(CachePadded::new(Mutex::new(topic)))?;
    }
    Ok(locks)
}

/// So many answers that there is no subscription, in a list that has room for them.
fn refuse_all<T>(count: usize, answers: &mut Vec<Result<T, NoSub>>)
    requires empty { answers.old.items ≡ [] }
    requires room { count ≤ vec_capacity answers.old }
    ensures each { length answers.new.items ≡ count }
    ensures nobody { AllByRecursion (λ answer. IsErr answer) answers.new.items }
{
    for _number in 0..count {
        answers.push_reserved(Err(NoSub));
    }
}

/// The counts of all topics, where these shares are of all workers that joined.
fn counted<R: Wait, W: Side, T: Side>(
    total: Total<W, T>,
    shares: Shares<W>,
    locks: Vec<TopicLock<R, T>>,
) -> Tally
    requires parts { (W.parts ≡ W.all) × (T.parts ≡ T.all) }
    requires locks { (T.all ≡ max_topics) × (vec_len locks ≡ max_topics) }
    requires all { total.joined ≤ shares.workers }
    ensures tickets { result.tickets ≡ shares.tickets }
    ensures balanced { result.tickets ≡ result.released + result.cancelled + result.pending }
{
    let Total {
        tickets: _,
        joined: _,
        mut workers,
        rest,
        topics,
        mut end,
    } = total;
    let Shares {
        workers: _,
        mut share,
    } = shares;
    share.merge(rest);
    workers.audit(&mut share);
    let tally = add_up(locks, &mut end);
    topics.close().audit(&mut end);
    tally
}

/// What is behind a lock that nobody else has.
fn topic_behind<R: Wait, T: Side>(lock: TopicLock<R, T>) -> LockedTopic<R, T> {
    lock.into_inner().into_inner()
}

/// The counts of these topics added up, and their shares merged into one of none.
fn add_up<R: Wait, T: Side>(locks: Vec<TopicLock<R, T>>, all: &mut Share<T>) -> Tally
    requires none { (all.old.parts ≡ 0) × (all.old.amount ≡ 0) }
    requires few { vec_len locks ≡ max_topics }
    ensures parts { all.new.parts ≡ vec_len locks }
    ensures tickets { result.tickets ≡ all.new.amount }
    ensures balanced { result.tickets ≡ result.released + result.cancelled + result.pending }
{
    let mut tally = Tally {
        tickets: 0,
        cancelled: 0,
        released: 0,
        pending: 0,
    };
    for lock in locks {
        let (counts, share) = topic_behind(lock).into_counts();
        all.merge(share);
        tally.tickets += u128::from(counts.tickets);
        tally.cancelled += u128::from(counts.cancelled);
        tally.released += u128::from(counts.released);
        tally.pending += u128::from(counts.pending);
    }
    tally
}
