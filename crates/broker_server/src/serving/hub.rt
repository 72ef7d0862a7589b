//! What the server's threads share.

ghost use Rattle.std.specs.Prelude.{◌≡◌, ◌≤◌, ◌++◌, length, take, Ok, OnOk, OnErr, slice_get};
ghost use Rattle.std.specs.Option.{option_map};
ghost use Rattle.mcast_txn.specs.Transaction.{topics_of};
ghost use Rattle.broker_server.specs.Lines.{IsRoomFrom};

use crate::serving::bell::Bell;
use crate::serving::figures::Figures;
use crate::serving::head::Head;
use crate::serving::room_made::RoomMade;
use crate::serving::running::Running;
use crate::serving::seat::Seat;
use crate::serving::topic_seats::TopicSeats;
use crate::serving::totals::Totals;
use crate::serving::unturned::Unturned;
use crate::serving::waiters::Waiters;
use crate::serving::why_left::WhyLeft;
use broker_locks::{NoRoom, PartOctets, Reserved, Side};
use delivery::MAX_TOPICS;
use mcast_txn::{Holdings, Meter, NoMemory, Topic, Txn};
use std::alloc::{AllocError, Global};
use std::sync::atomic::{AtomicBool, AtomicU64, Ordering};
use std::sync::{Arc, Mutex, Wait};

/// How many threads turn topics: topic t is turned by the head t mod 2.
const HEADS: usize = 2;

/// The most connections that are there at once (our choice).
pub(crate) const MAX_CONNECTIONS: u64 = 256;

/// A sender's thread may stand in for so many seats at once that sleep (our choice).
const MOST_ASLEEP: usize = 32;

/// What the server's threads share: the broker, who is told of which topic, the heads, and the connections. It can't be
/// let go of, since those who wait may have room.
pub(crate) struct Hub<R: Wait, W: Side, T: Side> {
    pub(crate) running: Running<R, W, T>,
    topics: Vec<TopicSeats>,
    /// What connections wait for room with.
    waiters: Waiters,
    /// How many connections are behind: of whose octets the system took less than there was, and hasn't taken all since.
    behind: AtomicU64,
    /// What they hold together.
    holdings: Arc<Holdings>,
    heads: Vec<Head>,
    /// The bell of each connection that is there.
    connections: Mutex<Vec<(u64, Arc<Bell>)>>,
    /// The bell of the thread that accepts.
    door: Bell,
    totals: Totals,
    /// Whether the server ends: connections go on no longer.
    closing: AtomicBool,
    /// Whether a poll failed.
    failed: AtomicBool,
}

impl<R: Wait, W: Side, T: Side> Hub<R, W, T> {
    /// A hub of this broker, with no connections, whose accepting thread has this bell.
    pub(crate) fn new(
        alloc: Global,
        running: Running<R, W, T>,
        door: Bell,
    ) -> Result<Hub<R, W, T>, NoMemory> {
        let holdings = Arc::new(alloc, Holdings::new())?;
        let mut heads = Vec::new(alloc);
        for _ in 0..HEADS {
            heads.push(Head::new(alloc, MAX_TOPICS)?)?;
        }
        let topics = seats_of(alloc, MAX_TOPICS, running.half())?;
        let connections = Vec::with_capacity(alloc, MAX_CONNECTIONS as usize)?;
        let waiters = Waiters::new(alloc, &running.broker)?;
        Ok(Hub {
            running,
            topics,
            waiters,
            behind: AtomicU64::new(0),
            holdings,
            heads,
            connections: Mutex::new(connections),
            door,
            totals: Totals::new(),
            closing: AtomicBool::new(false),
            failed: AtomicBool::new(false),
        })
    }

    /// The heads.
    pub(crate) fn heads(&self) -> &[Head]
        ensures { result.now ≡ self.now.heads.items }
    {
        self.heads.as_slice()
    }

    /// Tells the heads of these topics. What they are to be turned for was done before.
    pub(crate) fn tell_heads(&self, rt: &R, unturned: &Unturned) {
        for topic in unturned.topics() {
            self.set_due(rt, topic.0 as usize);
        }
        if unturned.may_be_any() {
            self.set_all_due(rt);
        }
    }

    /// Turns these topics, in place of their heads. One that is due stays so.
    pub(crate) fn turn_those(&self, rt: &R, unturned: &Unturned) {
        for topic in unturned.topics() {
            self.turn_now(rt, topic.0 as usize);
        }
        if unturned.may_be_any() {
            self.set_all_due(rt);
        }
    }

    /// Whether these topics have few seats, each and together, and the threads of all of these sleep.
    pub(crate) fn few_sleep(&self, rt: &R, unturned: &Unturned) -> bool {
        let mut asleep = 0usize;
        for topic in unturned.topics() {
            let Some(seats) = self.topics.get(topic.0 as usize) else {
                return false;
            };
            let Some(count) = seats.few_asleep(rt) else {
                return false;
            };
            asleep = asleep.saturating_add(count);
            if asleep > MOST_ASLEEP {
                return false;
            }
        }
        true
    }

    /// As `turn_those`, but who sleeps isn't told: the seat is put into this list.
    pub(crate) fn turn_for(&self, rt: &R, unturned: &Unturned, asleep: &mut Vec<Arc<Seat>>) {
        for topic in unturned.topics() {
            if let Some(seats) = self.turned(rt, topic.0 as usize) {
                seats.ring_awake(rt, asleep);
            }
        }
        if unturned.may_be_any() {
            self.set_all_due(rt);
        }
    }

    /// Tells the heads of all topics.
    fn set_all_due(&self, rt: &R) {
        for at in 0..self.topics.len() {
            self.set_due(rt, at);
        }
    }

    /// The topic of this index is due: its head is told, unless it was told and hasn't turned the topic since.
    fn set_due(&self, rt: &R, at: usize) {
        let Some(topic) = self.topics.get(at) else {
            return;
        };
        if topic.set_due() {
            return;
        }
        let told = match self.heads.get(at % HEADS) {
            Some(head) => head.tell(rt, at).is_ok(),
            None => false,
        };
        if !told {
            self.turn(rt, at);
        }
    }

    /// Turns the topic of this index, which isn't due then. What is committed from here on makes it due again.
    pub(crate) fn turn(&self, rt: &R, at: usize) {
        if let Some(topic) = self.topics.get(at) {
            topic.clear_due();
        }
        self.turn_now(rt, at);
    }

    /// Turns the topic of this index, and tells the connections that have a subscription there, if there may be
    /// something for them.
    fn turn_now(&self, rt: &R, at: usize) {
        if let Some(seats) = self.turned(rt, at) {
            seats.ring(rt);
        }
    }

    /// Turns the topic of this index, and rings who waits for room there, if there may be some now: its seats, if there
    /// may be something for who has them.
    fn turned(&self, rt: &R, at: usize) -> Option<&TopicSeats> {
        let number = u32::try_from(at).ok()?;
        let seats = self.topics.get(at)?;
        let made = self.running.turn(rt, Topic(number))?;
        seats.line().ring(rt, &self.waiters, made);
        Some(seats)
    }

    /// The seats of this topic.
    pub(crate) fn seats(&self, topic: Topic) -> Option<&TopicSeats>
        ensures { option_map (λ seats. seats.now) result ≡ slice_get self.now.topics.items topic.0 }
    {
        self.topics.get(topic.0 as usize)
    }

    /// What connections wait for room with.
    pub(crate) fn waiters(&self) -> &Waiters
        ensures { result.now ≡ self.now.waiters }
    {
        &self.waiters
    }

    /// Whether somebody waits for room at this topic.
    pub(crate) fn is_awaited(&self, topic: Topic) -> bool {
        match self.topics.get(topic.0 as usize) {
            Some(seats) => seats.line().is_awaited(),
            None => false,
        }
    }

    /// Lets by who comes for room at this topic, where the line there does.
    #[inline(always)]
    fn lets_by(&self, topic: Topic, may_overtake: bool) -> bool {
        match self.topics.get(topic.0 as usize) {
            Some(seats) => seats.line().lets_by(may_overtake),
            None => true,
        }
    }

    /// Room at each topic of this transaction, where nobody waits for it, or who does may be overtaken: at all of them, or at
    /// the first of them.
    #[tactic(auto, using(crate::proofs::LineLemmas::put_none, crate::proofs::LineLemmas::put_next, crate::proofs::LineLemmas::put_at, crate::proofs::LineLemmas::put_all))]
    #[inline(always)]
    pub(crate) fn reserve(
        &self,
        rt: &R,
        txn: &Txn,
        may_overtake: bool,
        room: &mut Reserved,
    ) -> Result<(), NoRoom>
        ensures all { OnOk result (room.new ≡ room.old ++ topics_of txn.now) }
        ensures first { OnErr result (IsRoomFrom room.old (topics_of txn.now) room.new) }
    {
        let topics = txn.topics().as_slice();
        for topic in topics {
            if !self.lets_by(*topic, may_overtake) {
                return Err(NoRoom::Full {
                    topic: *topic,
                    sub: None,
                });
            }
            let octets = PartOctets(txn.octets_at(*topic));
            self.running.broker.reserve_at(rt, *topic, octets, 0, room)?;
        }
        Ok(())
    }

    /// Gives back what is reserved behind the first so many topics, at these.
    pub(crate) fn release_behind(&self, rt: &R, room: &mut Reserved, kept: usize, topics: &[Topic])
        ensures { room.new ≡ take kept room.old }
    {
        self.running.broker.release_behind(rt, room, kept);
        for topic in topics {
            self.room_made(rt, *topic, RoomMade::Freed);
        }
    }

    /// Gives room back that isn't used.
    pub(crate) fn release_room(&self, rt: &R, room: Reserved) {
        let is_some = !room.topics().is_empty();
        self.running.broker.release_room(rt, room);
        if is_some {
            self.room_freed(rt);
        }
    }

    /// A place to keep room at this topic is given back.
    pub(crate) fn give_place_back(&self, rt: &R, topic: Topic) {
        if let Some(seats) = self.topics.get(topic.0 as usize) {
            seats.keepers().give_back(rt, &self.waiters);
        }
    }

    /// Room may have been made so at this topic: who waits for it is rung.
    pub(crate) fn room_made(&self, rt: &R, topic: Topic, made: RoomMade) {
        if let Some(seats) = self.topics.get(topic.0 as usize) {
            seats.line().ring(rt, &self.waiters, made);
        }
    }

    /// Room may have been given back at any topic.
    pub(crate) fn room_freed(&self, rt: &R) {
        for seats in self.topics.iter() {
            seats.line().ring(rt, &self.waiters, RoomMade::Freed);
        }
    }

    /// Somebody committed without room, for want of memory: any subscription may have been passed over.
    #[inline(never)]
    pub(crate) fn pass_all_over(&self, rt: &R) {
        for seats in self.topics.iter() {
            seats.pass_all_over(rt);
        }
    }

    /// Whether some connection is behind: the system took less than there was for it, and hasn't taken all since.
    pub(crate) fn has_behind(&self) -> bool {
        self.behind.load(Ordering::SeqCst) > 0
    }

    /// A connection is behind from now on, or isn't any more.
    pub(crate) fn count_behind(&self, is_behind: bool) {
        if is_behind {
            self.behind.fetch_add(1, Ordering::SeqCst);
        } else {
            self.behind.fetch_sub(1, Ordering::SeqCst);
        }
    }

    /// The meter of a connection that holds nothing.
    pub(crate) fn meter(&self, alloc: Global) -> Result<Arc<Meter>, NoMemory> {
        Ok(Arc::new(alloc, Meter::new(self.holdings.clone()?))?)
    }

    /// Who has this seat is told of what the topic releases from now on.
    pub(crate) fn listen(&self, rt: &R, topic: Topic, seat: &Arc<Seat>) -> Result<(), AllocError>
        ensures { length self.now.topics.items ≤ topic.0 → result ≡ Ok tt }
    {
        match self.topics.get(topic.0 as usize) {
            Some(topic) => topic.add(rt, seat),
            None => Ok(()),
        }
    }

    /// Who has this seat is told no longer.
    pub(crate) fn unlisten(&self, rt: &R, topic: Topic, seat: &Seat) {
        if let Some(topic) = self.topics.get(topic.0 as usize) {
            topic.remove(rt, seat);
        }
    }

    /// Adds a connection's bell, which rings when the server ends.
    pub(crate) fn enter(
        &self,
        rt: &R,
        connection: u64,
        bell: &Arc<Bell>,
    ) -> Result<(), AllocError> {
        let bell = bell.clone()?;
        self.connections.lock(rt).push((connection, bell))?;
        Ok(())
    }

    /// Takes a connection's bell out, which left so: what it did is added to the totals under the same lock, so that it
    /// is never counted twice.
    pub(crate) fn leave(&self, rt: &R, connection: u64, left: &WhyLeft) {
        let mut connections = self.connections.lock(rt);
        let connections = &mut *connections;
        let found = connections.iter().position(|entry| entry.0 == connection);
        if let Some(at) = found
            && at < connections.len()
        {
            let (_, bell) = connections.swap_remove(at);
            self.totals.leaves(rt, bell.activity(), left);
        }
        self.stir();
    }

    /// What the server did, and what is there.
    pub(crate) fn figures(&self, rt: &R) -> Figures {
        let topics = self.running.names_len(rt);
        let connections = self.connections.lock(rt);
        let mut figures = self.totals.past(rt);
        for (_, bell) in connections.iter() {
            figures.activity.add(bell.activity());
        }
        figures.connections = connections.len() as u64;
        figures.topics = topics;
        figures
    }

    /// What is counted of those who left.
    pub(crate) fn totals(&self) -> &Totals {
        &self.totals
    }

    /// Something happened that the figures tell of: the accepting thread is told, where it waits for that.
    pub(crate) fn stir(&self) {
        if self.totals.stirs() {
            self.door.ring();
        }
    }

    /// Ends all connections.
    pub(crate) fn close(&self, rt: &R) {
        self.closing.store(true, Ordering::SeqCst);
        for (_, bell) in self.connections.lock(rt).iter() {
            bell.ring();
        }
    }

    /// Whether the server ends.
    pub(crate) fn is_closing(&self) -> bool {
        self.closing.load(Ordering::SeqCst)
    }

    /// A poll failed: all connections end, and the accepting thread is told, and ends the server.
    pub(crate) fn fail(&self, rt: &R) {
        self.failed.store(true, Ordering::SeqCst);
        self.close(rt);
        self.door.ring();
    }

    /// Whether a poll failed.
    pub(crate) fn has_failed(&self) -> bool {
        self.failed.load(Ordering::SeqCst)
    }

    /// The bell of the accepting thread.
    pub(crate) fn door(&self) -> &Bell
        ensures { result.now ≡ self.now.door }
    {
        &self.door
    }

    /// The broker, once nobody else uses it: what room was kept is given back.
    pub(crate) fn into_running(self, rt: &R) -> Running<R, W, T>
        ensures { result ≡ self.running }
    {
        let Hub {
            running,
            topics: _,
            waiters,
            behind: _,
            holdings: _,
            heads: _,
            connections: _,
            door: _,
            totals: _,
            closing: _,
            failed: _,
        } = self;
        waiters.close(rt, &running.broker);
        running
    }
}

/// The seats of so many topics, at each of which so many may keep room.
fn seats_of(alloc: Global, count: usize, keepers: u64) -> Result<Vec<TopicSeats>, NoMemory> {
    let mut topics = Vec::with_capacity(alloc, count)?;
    for _ in 0..count {
        topics.push(TopicSeats::new(alloc, keepers))?;
    }
    Ok(topics)
}
