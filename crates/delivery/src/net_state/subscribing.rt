//! Subscriptions that begin, and the number that an id names.

ghost use Rattle.std.specs.Prelude.{◌≡◌, ◌<◌, [], length, get_or, set, None, IfSome, IfOk, OnOk, OnErr};
ghost use Rattle.std.specs.List.{find, position};
ghost use Rattle.sub_queue.specs.VecQueue.{shown_of};
ghost use Rattle.mcast_group.specs.Group.{group_after_subscribe};
ghost use Rattle.mcast_group.specs.Machine.{subscribe_fault};
ghost use Rattle.delivery.specs.Inner.View.{no_group, group_in};
ghost use Rattle.delivery.specs.Inner.Subscriptions.{subscribed_view, parts_in, has_sub_id, number_in};

use crate::net_state::NetState;
use crate::sub::Sub;
use mcast_group::{Group, SubFault};
use mcast_txn::{Stamp, Topic};
use stomp_frame::{NoMemory, Octets};
use sub_queue::VecOutlet;

/// Starts a subscription of this number, which the topic of this index has none of, with this outlet, and returns the
/// stamp after which its span begins. After `NoMemory` all is what it was.
fn subscribe_at(
    groups: &mut Vec<Group<VecOutlet>>,
    index: usize,
    number: u64,
    outlet: VecOutlet,
) -> Result<Stamp, NoMemory>
    requires there { index < length groups.old.items }
    requires free { subscribe_fault number (get_or groups.old.items index no_group).topic ≡ None }
    requires empty { (shown_of outlet).accepted ≡ [] }
    ensures from { IfOk result (λ from. from ≡ (get_or groups.old.items index no_group).topic.frontier) }
    ensures ok { OnOk result (groups.new.items ≡ set groups.old.items index
        (group_after_subscribe number (shown_of outlet).gauge (get_or groups.old.items index no_group))) }
    ensures err { OnErr result (groups.new.items ≡ groups.old.items) }
{
    let group = &mut groups[index];
    match group.subscribe(number, outlet) {
        Ok(from) => Ok(from),
        Err((SubFault::SubInUse, _)) => unreachable!(),
        Err((SubFault::NoMemory, _)) => Err(NoMemory),
    }
}

/// Whether the subscription of this number has this id.
fn has_sub_id(subs: &[Sub], sub: u64, id: &[u8]) -> bool
    ensures { result ≡ has_sub_id subs.now id.now sub }
{
    match subs.get(sub as usize) {
        Some(subscription) => subscription.id.as_slice() == id,
        None => false,
    }
}

/// The index of the first of these numbers whose subscription has this id, if there is one.
fn index_among(subs: &[Sub], numbers: &[u64], id: &[u8]) -> Option<usize>
    ensures index { result ≡ position (has_sub_id subs.now id.now) numbers.now }
    ensures bound { IfSome result (λ i. i < length numbers.now) }
{
    numbers.iter().position(|sub| has_sub_id(subs, *sub, id))
}

/// The first of these numbers whose subscription has this id, if there is one.
fn number_among(subs: &[Sub], numbers: &[u64], id: &[u8]) -> Option<u64>
    ensures { result ≡ find (has_sub_id subs.now id.now) numbers.now }
{
    let index = index_among(subs, numbers, id)?;
    Some(numbers[index])
}

impl NetState {
    /// Begins a subscription of the connection to this topic, which has none of the next number, with this id, and
    /// returns its number and the stamp after which its span begins. Whether it gets parts is what its session says of
    /// the id. After `NoMemory` all is what it was.
    pub(super) fn subscribe(
        &mut self,
        connection: u64,
        id: Octets,
        topic: Topic,
    ) -> Result<(u64, Stamp), NoMemory>
        requires there { connection < length self.old.endpoints }
        requires topic { topic.0 < length self.old.groups }
        requires free { subscribe_fault (length self.old.subs) (group_in self.old topic).topic ≡ None }
        ensures begun { IfOk result (λ begun. begun
            ≡ (length self.old.subs, (group_in self.old topic).topic.frontier)) }
        ensures ok { OnOk result
            (self.new ≡ subscribed_view connection id (parts_in self.old connection id) topic self.old) }
        ensures err { OnErr result (self.new ≡ self.old) }
    {
        let number = self.subs.len() as u64;
        self.subs.reserve(1)?;
        let endpoint = &mut self.endpoints[connection as usize];
        let parts = endpoint.asks_parts(id.as_slice());
        endpoint.live.reserve(1)?;
        let outlet = VecOutlet::new(self.alloc, self.capacity);
        let from = subscribe_at(&mut self.groups, topic.0 as usize, number, outlet)?;
        endpoint.live.push_reserved(number);
        self.subs.push_reserved(Sub {
            connection,
            id,
            parts,
            topic,
            from,
            left: None,
        });
        Ok((number, from))
    }

    /// The number of the connection's subscription with this id that isn't closed, if there is one.
    pub(super) fn find_sub(&self, connection: u64, id: &[u8]) -> Option<u64>
        requires { connection < length self.now.endpoints }
        ensures { result ≡ number_in self.now connection id.now }
    {
        let endpoint = &self.endpoints[connection as usize];
        number_among(&self.subs, &endpoint.live, id)
    }
}
