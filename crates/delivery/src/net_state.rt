//! What the core holds.

ghost use Rattle.std.specs.Prelude.{◌≡◌, ◌≤◌, ◌<◌, [], length, map, get_or, set, slice_get, IfOk, OnOk, OnErr};
ghost use Rattle.std.specs.Option.{option_map};
ghost use Rattle.mcast_group.specs.Counted.{takes_of};
ghost use Rattle.mcast_group.specs.Group.{GroupState, group_after_release};
ghost use Rattle.mcast_group.specs.Machine.{due_part};
ghost use Rattle.stomp_frame.specs.ServerFrames.{raw_of_server};
ghost use Rattle.stomp_frame.specs.Writing.{spelling_of};
ghost use Rattle.delivery.specs.Topics.{max_topics};
ghost use Rattle.delivery.specs.Machine.World.{new_topics};
ghost use Rattle.delivery.specs.Core.State.{Core, log_limit, new_core};
ghost use Rattle.delivery.specs.Inner.Senders.{IsSpeaker};
ghost use Rattle.delivery.specs.Inner.Stands.{IsReached, Makes, IsChecked, endpoint_objection};
ghost use Rattle.delivery.specs.Inner.View.{EndpointView, view_of, new_group, leaving_endpoint, fed_endpoint, written_endpoint, with_new_endpoint, number_among};
ghost use Rattle.delivery.specs.declared.event.Event.{Event as Asked};

mod answer;
mod claiming;
mod closing;
mod frames;
mod leaving;
mod queue_report;
mod report;
mod subscribing;
mod takes;
mod trace;
mod turns;
mod txns;

use crate::commit_list::CommitList;
use crate::endpoint::Endpoint;
use crate::outcome::Outcome;
use crate::refusal::Refusal;
use crate::sender_state::SenderState;
use crate::stage::Stage;
use crate::sub::Sub;
use crate::table::Table;
use mcast_group::Group;
use mcast_txn::{Topic, TxnId};
pub use queue_report::QueueReport;
pub use report::Report;
use std::alloc::Global;
use std::marker::Model;
use stomp_frame::{NoMemory, Octets, ServerFrame};
use stomp_session::Names;
use sub_queue::VecOutlet;

/// The most parts and rows of a topic, taken together.
const LOG_LIMIT: usize = 65_536;

/// What the core holds: of each topic its name and its group, of each sender its transaction and its verdicts, of each
/// connection its endpoint, each subscription, and the commit list, with a row promised to each transaction that is on
/// its way. In contracts it is the view of a core.
#[derive(Drop)]
pub(crate) struct NetState {
    alloc: Global,
    names: Names,
    capacity: usize,
    groups: Vec<Group<VecOutlet>>,
    senders: Vec<SenderState>,
    table: Table,
    endpoints: Vec<Endpoint>,
    subs: Vec<Sub>,
    commits: CommitList,
}

impl Model for NetState {
    ghost use Rattle.std.specs.Prelude.{◌≡◌};
    ghost use Rattle.delivery.specs.Inner.Rooms.{flying_count};
    ghost use Rattle.delivery.specs.Inner.View.{View};

    ghost Value = { View };

    ghost view = { λ n. record {
      names = n.names;
      capacity = n.capacity;
      groups = n.groups.items;
      senders = n.senders.items;
      verdicts = n.table;
      endpoints = n.endpoints.items;
      subs = n.subs.items;
      commits = n.commits.rows;
    } };

    ghost invariant = { λ n. n.commits.promised ≡ flying_count n.senders.items };
}

/// A group of each topic, with the number that its clock begins at.
fn new_groups(alloc: Global, clocks: &[u64]) -> Result<Vec<Group<VecOutlet>>, NoMemory>
    requires { length clocks.now ≤ max_topics }
    ensures { IfOk result (λ groups. groups.items ≡ map new_group (new_topics 0 log_limit clocks.now)) }
{
    let mut groups = Vec::with_capacity(alloc, clocks.len())?;
    for i in 0..clocks.len() {
        let topic = Topic(i as u32);
        groups.push(Group::new(alloc, topic, clocks[i], LOG_LIMIT))?;
    }
    Ok(groups)
}

impl NetState {
    /// Topics of these names and opening clocks, whose queues have this capacity, and nobody there.
    pub(crate) fn new(
        alloc: Global,
        names: Names,
        clocks: &[u64],
        capacity: usize,
    ) -> Result<NetState, NoMemory>
        requires { length clocks.now ≤ max_topics }
        ensures { IfOk result (λ state. state
            ≡ view_of (new_core (record { names = names; clocks = clocks.now }) capacity)) }
    {
        let groups = new_groups(alloc, clocks)?;
        Ok(NetState {
            alloc,
            names,
            capacity,
            groups,
            senders: Vec::new(alloc),
            table: Table::new(alloc),
            endpoints: Vec::new(alloc),
            subs: Vec::new(alloc),
            commits: CommitList::new(alloc),
        })
    }

    /// The number of the endpoint's sender; while it has none, that of the next one.
    fn number_of(&self, endpoint: &Endpoint) -> u64
        ensures { result ≡ number_among self.now.senders endpoint.now }
    {
        match endpoint.sender {
            Some(sender) => sender,
            None => self.senders.len() as u64,
        }
    }

    /// The sender of a connection that is there and isn't gone: 80 where there is none, 87 where it is gone.
    fn check_there(&self, connection: u64) -> Result<u64, Refusal>
        ensures { IsSpeaker result self.now connection }
    {
        let Some(endpoint) = self.endpoints.get(connection as usize) else {
            return Err(Refusal::NoConn);
        };
        match endpoint.stage {
            Stage::Open(_) => Ok(self.number_of(endpoint)),
            Stage::Leaving(_) => Ok(self.number_of(endpoint)),
            Stage::Gone => Err(Refusal::Gone),
        }
    }

    /// Whether the connection's octets and frames may be read: 80 where there is none, 87 where it is gone, 81 where
    /// it is leaving.
    fn check_open(&self, connection: u64) -> Result<(), Refusal>
        ensures { IsChecked result (endpoint_objection (slice_get self.now.endpoints connection)) }
    {
        self.check_there(connection)?;
        let endpoint = &self.endpoints[connection as usize];
        match endpoint.stage {
            Stage::Open(_) => Ok(()),
            Stage::Leaving(_) => Err(Refusal::Busy),
            Stage::Gone => unreachable!(),
        }
    }

    /// The connection is leaving; with it is the receipt that its DISCONNECT asked for.
    fn begin_leaving(&mut self, connection: u64, parting: Option<Octets>)
        requires { connection < length self.old.endpoints }
        ensures { (d : EndpointView) → self.new ≡ record self.old {
          endpoints = set self.old.endpoints connection
              (leaving_endpoint parting (get_or self.old.endpoints connection d));
        } }
    {
        let endpoint = &mut self.endpoints[connection as usize];
        endpoint.stage = Stage::Leaving(parting);
    }

    /// Writes a frame to the connection. After `NoMemory` all is what it was.
    fn write(&mut self, connection: u64, frame: &ServerFrame) -> Result<(), NoMemory>
        requires { connection < length self.old.endpoints }
        ensures ok { OnOk result ((d : EndpointView) → self.new ≡ record self.old {
          endpoints = set self.old.endpoints connection
              (written_endpoint (spelling_of (raw_of_server frame.now)) (get_or self.old.endpoints connection d));
        }) }
        ensures err { OnErr result (self.new ≡ self.old) }
    {
        let endpoint = &mut self.endpoints[connection as usize];
        endpoint.write(frame)
    }

    /// The connection is lost: 80 where there is none, 87 where it is gone, 81 where it is leaving. It takes no memory.
    pub(crate) fn lost(&mut self, connection: u64) -> Outcome
        ensures { (k : Core) → IsReached k → self.old ≡ view_of k
            → Makes k (Asked.Lost connection) result self.new }
    {
        match self.check_open(connection) {
            Ok(()) => {
                self.begin_leaving(connection, None);
                Outcome::Leaving
            }
            Err(refusal) => Outcome::Refused(refusal),
        }
    }

    /// One more connection. After `NoMemory` all is what it was.
    fn add_endpoint(&mut self) -> Result<(), NoMemory>
        ensures ok { OnOk result (self.new ≡ with_new_endpoint self.old) }
        ensures err { OnErr result (self.new ≡ self.old) }
    {
        self.endpoints.push(Endpoint::new(self.alloc))?;
        Ok(())
    }

    /// A connection is opened, which speaks for no sender yet. Out of memory all is what it was.
    pub(crate) fn open(&mut self) -> Outcome
        ensures { (k : Core) → IsReached k → self.old ≡ view_of k → Makes k Asked.Open result self.new }
    {
        let connection = self.endpoints.len() as u64;
        match self.add_endpoint() {
            Ok(()) => Outcome::Opened(connection),
            Err(NoMemory) => Outcome::NoMemory,
        }
    }

    /// Feeds these octets to the connection's reader. After `NoMemory` all is what it was.
    fn feed(&mut self, connection: u64, octets: &[u8]) -> Result<(), NoMemory>
        requires { connection < length self.old.endpoints }
        ensures ok { OnOk result ((d : EndpointView) → self.new ≡ record self.old {
          endpoints = set self.old.endpoints connection
              (fed_endpoint octets.now (get_or self.old.endpoints connection d));
        }) }
        ensures err { OnErr result (self.new ≡ self.old) }
    {
        let endpoint = &mut self.endpoints[connection as usize];
        endpoint.feed(octets)
    }

    /// The connection is fed these octets: 80 where there is none, 87 where it is gone, 81 where it is leaving.
    pub(crate) fn piece(&mut self, connection: u64, octets: &[u8]) -> Outcome
        ensures { (k : Core) → IsReached k → self.old ≡ view_of k
            → Makes k (Asked.Piece connection octets.now) result self.new }
    {
        match self.check_open(connection) {
            Ok(()) => match self.feed(connection, octets) {
                Ok(()) => Outcome::Fed,
                Err(NoMemory) => Outcome::NoMemory,
            },
            Err(refusal) => Outcome::Refused(refusal),
        }
    }

    /// Releases the part that is due at the topic of this index, if one is: of which transaction it was.
    fn release_at(&mut self, index: usize) -> Option<TxnId>
        requires { index < length self.old.groups }
        ensures due { (d : GroupState) → result
            ≡ option_map (λ p. p.part.id) (due_part (get_or self.old.groups index d).topic) }
        ensures groups { (d : GroupState) → self.new ≡ record self.old {
          groups = set self.old.groups index
              (group_after_release (takes_of (get_or self.old.groups index d)) (get_or self.old.groups index d));
        } }
    {
        let group = &mut self.groups[index];
        match group.release_counted() {
            Some((id, _)) => Some(id),
            None => None,
        }
    }

    /// The topic releases the part that is due: 84 where there is no such topic, 86 where nothing is due. It takes no
    /// memory.
    pub(crate) fn release(&mut self, topic: Topic) -> Outcome
        ensures { (k : Core) → IsReached k → self.old ≡ view_of k
            → Makes k (Asked.Release topic) result self.new }
    {
        let index = topic.0 as usize;
        if index >= self.groups.len() {
            return Outcome::Refused(Refusal::NotNamed);
        }
        match self.release_at(index) {
            Some(id) => Outcome::Released(id),
            None => Outcome::Refused(Refusal::NothingDue),
        }
    }
}
