//! Subscriptions that end.

ghost use Rattle.std.specs.Prelude.{◌≡◌, ◌<◌, length, get_or, set};
ghost use Rattle.std.specs.Option.{option_map};
ghost use Rattle.delivery.specs.Inner.View.{left_of, no_group, no_endpoint};
ghost use Rattle.delivery.specs.Inner.Subscriptions.{no_sub, left_in, left_at, group_if_left, closed_view, shorter_endpoint};

use crate::net_state::NetState;
use mcast_group::Ended;
use mcast_txn::Stamp;
use sub_queue::VecOutlet;

impl NetState {
    /// Ends the subscription of this number at the topic of this index, and returns what it leaves, if it has an entry
    /// there.
    fn end_at(&mut self, index: usize, sub: u64) -> Option<Ended<VecOutlet>>
        requires { index < length self.old.groups }
        ensures left { option_map left_of result ≡ left_in sub (get_or self.old.groups index no_group) }
        ensures group { self.new ≡ record self.old {
          groups = set self.old.groups index
              (group_if_left sub (option_map left_of result) (get_or self.old.groups index no_group));
        } }
    {
        let group = &mut self.groups[index];
        group.unsubscribe(sub).ok()
    }

    /// Keeps what this subscription has left.
    fn keep_left(&mut self, sub: u64, left: Ended<VecOutlet>)
        requires { sub < length self.old.subs }
        ensures { self.new ≡ record self.old {
          subs = set self.old.subs sub (record (get_or self.old.subs sub no_sub) { left = Some (left_of left) });
        } }
    {
        let subscription = &mut self.subs[sub as usize];
        subscription.left = Some(left);
    }

    /// Drops the number of a closed subscription from the endpoint of this index, if there is one.
    fn forget(&mut self, index: usize, sub: u64)
        ensures { self.new ≡ record self.old {
          endpoints = set self.old.endpoints index
              (shorter_endpoint sub (get_or self.old.endpoints index no_endpoint));
        } }
    {
        if let Some(endpoint) = self.endpoints.get_mut(index) {
            endpoint.forget(sub);
        }
    }

    /// Ends this subscription, if it isn't closed, and returns where its span ends. It takes no memory.
    pub(super) fn close(&mut self, sub: u64) -> Option<Stamp>
        ensures end { result ≡ option_map (λ left. left.to) (left_at sub self.old) }
        ensures closed { self.new ≡ closed_view sub self.old }
    {
        let subscription = self.subs.get(sub as usize)?;
        let (index, connection) = (subscription.topic.0 as usize, subscription.connection);
        if index >= self.groups.len() {
            return None;
        }
        let left = self.end_at(index, sub)?;
        let to = left.to;
        self.keep_left(sub, left);
        self.forget(connection as usize, sub);
        Some(to)
    }
}
