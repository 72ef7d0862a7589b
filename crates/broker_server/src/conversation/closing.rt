//! The end of what a connection has open.

ghost use Rattle.std.specs.Prelude.{◌≡◌, ◌≤◌, [], length, map, vec_capacity};
ghost use Rattle.broker_server.specs.BrokerRows.{AsksInOrder, Unsubscribes};

use crate::conversation::broker_calls::BrokerCalls;
use crate::conversation::open_sub::OpenSub;
use std::alloc::Global;

/// Ends these subscriptions, in order: all by one call, where there is memory for their list.
pub(crate) fn end_subs<C: BrokerCalls>(alloc: Global, calls: &mut C, subs: Vec<OpenSub<C>>)
    ensures { AsksInOrder C.called calls.old (map (λ o. Unsubscribes o.sub) subs.items) calls.new }
{
    match Vec::with_capacity(alloc, subs.len()) {
        Ok(room) => calls.end_all(subs_in(subs, room)),
        Err(_) => end_each(calls, subs),
    }
}

/// Which of the broker these subscriptions are, in this list, which has room for them.
fn subs_in<C: BrokerCalls>(subs: Vec<OpenSub<C>>, room: Vec<C::Sub>) -> Vec<C::Sub>
    requires empty { room.items ≡ [] }
    requires room { length subs.items ≤ vec_capacity room }
    ensures { map C.name result.items ≡ map (λ o. o.sub) subs.items }
{
    let mut found = room;
    for open in subs {
        found.push_reserved(open.sub);
    }
    found
}

/// Ends these subscriptions, in order, one by one.
fn end_each<C: BrokerCalls>(calls: &mut C, subs: Vec<OpenSub<C>>)
    ensures { AsksInOrder C.called calls.old (map (λ o. Unsubscribes o.sub) subs.items) calls.new }
{
    for open in subs {
        calls.unsubscribe(open.sub);
    }
}
