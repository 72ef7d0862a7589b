//! Reports of the core.

ghost use Rattle.std.specs.Prelude.{◌≡◌, [], length, get_or, slice_get};
ghost use Rattle.std.specs.Option.{option_map};
ghost use Rattle.sub_queue.specs.VecQueue.{shown_of};
ghost use Rattle.delivery.specs.Inner.ViewReports.{lag_in, queue_shown, sub_report};

use crate::net_state::NetState;
use crate::net_state::queue_report::QueueReport;
use crate::sub::Sub;
use mcast_group::{Cause, Row, SubState};
use mcast_txn::{Stamp, Topic};
use std::marker::Model;
use sub_queue::VecOutlet;

/// What the core reports: the commits in the order of Decide, each topic's log, the subscriptions, and the octets out
/// of each connection, each by its number. It borrows the core: nothing is copied, and no call of it takes memory.
#[derive(Drop)]
pub struct Report<'a> {
    pub(crate) state: &'a NetState,
}

impl<'a> Model for Report<'a> {
    ghost use Rattle.delivery.specs.Core.Reports.{Report as Reported};
    ghost use Rattle.delivery.specs.Inner.ViewReports.{report_in};

    ghost Value = { Reported };

    ghost view = { λ r. report_in r.state.now };
}

impl<'a> Report<'a> {
    /// How many transactions were committed.
    pub fn commits_len(&self) -> usize
        ensures { result ≡ length self.now.commits }
    {
        let state = self.state;
        state.commits.rows().len()
    }

    /// The commit at index `i`, from 0 in the order of Decide, if there is one: its transaction, its topics and its
    /// stamp.
    pub fn commit(&self, i: usize) -> Option<&'a Row>
        ensures { option_map (λ row. row.now) result ≡ slice_get self.now.commits i }
    {
        let state = self.state;
        state.commits.rows().get(i)
    }

    /// How many topics there are.
    pub fn topics_len(&self) -> usize
        ensures { result ≡ length self.now.logs }
    {
        let state = self.state;
        state.groups.len()
    }

    /// How many rows the log of the topic of this number has: none where there is no such topic.
    pub fn log_len(&self, topic: usize) -> usize
        ensures { result ≡ length (get_or self.now.logs topic []) }
    {
        let state = self.state;
        match state.groups.get(topic) {
            Some(group) => group.held_len(),
            None => 0,
        }
    }

    /// The row at index `i`, from 0, of the log of the topic of this number, if there is one.
    pub fn log_row(&self, topic: usize, i: usize) -> Option<&'a Row>
        ensures { option_map (λ row. row.now) result ≡ slice_get (get_or self.now.logs topic []) i }
    {
        let state = self.state;
        state.groups.get(topic)?.held(i)
    }

    /// How many subscriptions there were, closed ones too.
    pub fn subscriptions_len(&self) -> usize
        ensures { result ≡ length self.now.subscriptions }
    {
        let state = self.state;
        state.subs.len()
    }

    /// The subscription of this number, if there is one.
    pub fn subscription(&self, sub: usize) -> Option<QueueReport<'a>>
        ensures { result ≡ slice_get self.now.subscriptions sub }
    {
        let state = self.state;
        let subscription = state.subs.get(sub)?;
        Some(state.queue_report(sub as u64, subscription))
    }

    /// How many connections there were, gone ones too.
    pub fn connections_len(&self) -> usize
        ensures { result ≡ length self.now.outs }
    {
        let state = self.state;
        state.endpoints.len()
    }

    /// The octets that were written to the connection of this number, if there is one.
    pub fn out(&self, connection: usize) -> Option<&'a [u8]>
        ensures { option_map (λ out. out.now) result ≡ slice_get self.now.outs connection }
    {
        let state = self.state;
        let endpoint = state.endpoints.get(connection)?;
        Some(endpoint.output.as_slice())
    }
}

/// Why a span that isn't closed has ended, if it has: it lagged.
fn lag_cause(to: Option<Stamp>) -> Option<Cause>
    ensures { result ≡ option_map (λ end. Cause.Lag) to }
{
    to.map(|_| Cause::Lag)
}

impl NetState {
    /// Where this subscription of the topic, which isn't closed, lagged, if it did.
    fn lag(&self, topic: Topic, sub: u64) -> Option<Stamp>
        ensures { result ≡ lag_in self.now.groups topic sub }
    {
        let group = self.groups.get(topic.0 as usize)?;
        match group.state(sub)? {
            SubState::Open => None,
            SubState::Lag(end) => Some(end),
        }
    }

    /// The queue of this subscription of the topic, which isn't closed.
    fn queue(&self, topic: Topic, sub: u64) -> Option<&VecOutlet>
        ensures { option_map (λ queue. shown_of queue.now) result ≡ queue_shown self.now.groups topic sub }
    {
        let group = self.groups.get(topic.0 as usize)?;
        group.outlet(sub)
    }

    /// This subscription, which has this number, as it is reported.
    fn queue_report<'a>(&'a self, sub: u64, subscription: &'a Sub) -> QueueReport<'a>
        ensures { result ≡ sub_report self.now.groups sub subscription.now }
    {
        let topic = subscription.topic;
        let from = subscription.from;
        match &subscription.left {
            Some(left) => QueueReport {
                topic,
                from,
                to: Some(left.to),
                cause: Some(left.cause),
                queue: Some(&left.outlet),
            },
            None => {
                let to = self.lag(topic, sub);
                QueueReport {
                    topic,
                    from,
                    to,
                    cause: lag_cause(to),
                    queue: self.queue(topic, sub),
                }
            }
        }
    }
}
