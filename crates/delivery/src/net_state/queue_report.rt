//! Subscriptions as they are reported.

ghost use Rattle.std.specs.Prelude.{◌≡◌, length, take, slice_get};
ghost use Rattle.std.specs.Option.{option_map};

use mcast_group::Cause;
use mcast_txn::{Released, Stamp, Topic};
use std::marker::Model;
use sub_queue::VecOutlet;

/// A subscription as it is reported: its topic, the span of its rows, why that ended if it did, the items that its
/// queue accepted, and how many of them were delivered. It borrows the core.
#[derive(Drop)]
pub struct QueueReport<'a> {
    pub(crate) topic: Topic,
    pub(crate) from: Stamp,
    pub(crate) to: Option<Stamp>,
    pub(crate) cause: Option<Cause>,
    pub(crate) queue: Option<&'a VecOutlet>,
}

impl<'a> Model for QueueReport<'a> {
    ghost use Rattle.std.specs.Option.{option_map};
    ghost use Rattle.sub_queue.specs.VecQueue.{shown_of};
    ghost use Rattle.delivery.specs.Core.Reports.{QueueReport as Reported};
    ghost use Rattle.delivery.specs.Inner.ViewReports.{queued_items, handed_items};

    ghost Value = { Reported };

    ghost view = { λ q. record {
      span = record { topic = q.topic; from = q.from; to = q.to };
      cause = q.cause;
      queued = queued_items (option_map (λ queue. shown_of queue.now) q.queue);
      handed = handed_items (option_map (λ queue. shown_of queue.now) q.queue);
    } };
}

impl<'a> QueueReport<'a> {
    /// Its topic.
    pub fn topic(&self) -> Topic
        ensures { result ≡ self.now.span.topic }
    {
        self.topic
    }

    /// The stamp after which its span begins.
    pub fn from(&self) -> Stamp
        ensures { result ≡ self.now.span.from }
    {
        self.from
    }

    /// The last stamp of its span, if that has ended.
    pub fn to(&self) -> Option<Stamp>
        ensures { result ≡ self.now.span.to }
    {
        self.to
    }

    /// Why its span has ended, if it has.
    pub fn cause(&self) -> Option<Cause>
        ensures { result ≡ self.now.cause }
    {
        self.cause
    }

    /// How many items its queue accepted.
    pub fn queued_len(&self) -> usize
        ensures { result ≡ length self.now.queued }
    {
        match self.queue {
            Some(queue) => queue.pushed(),
            None => 0,
        }
    }

    /// The item at index `i`, from 0, of those that its queue accepted, if it accepted so many.
    pub fn queued(&self, i: usize) -> Option<&'a Released>
        ensures { option_map (λ item. item.now) result ≡ slice_get self.now.queued i }
    {
        self.queue?.get(i)
    }

    /// How many of its items were delivered: the first of those that its queue accepted.
    pub fn handed_len(&self) -> usize
        ensures count { result ≡ length self.now.handed }
        ensures first { self.now.handed ≡ take result self.now.queued }
    {
        match self.queue {
            Some(queue) => queue.taken(),
            None => 0,
        }
    }
}
