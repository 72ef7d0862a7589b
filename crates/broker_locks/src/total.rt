//! The total of a broker's tickets.

ghost use Rattle.std.specs.Prelude.{◌≡◌, ◌+◌, ◌<◌, ◌≤◌, Ok, Err, IfSome, IfNone, OnOk, IfErr, OnErr};
ghost use Rattle.mcast_group.specs.declared.fault.ProposeFault.TheVariants.{ClockFull};
ghost use Rattle.broker_locks.specs.Tickets.{most_tickets};

use crate::side::Side;
use crate::worker::Worker;
use mcast_group::ProposeFault;
use std::sync::ledger::{Blank, Book, Share};

/// How many workers may ever join a broker.
pub(crate) const MOST_WORKERS: u64 = 256;

/// How many tickets a broker's topics gave, all together, as the workers' ledger and the topics' count them. Beside
/// it how many workers ever joined, with the share of those who haven't, and a share of no topic, with which a tally
/// begins.
#[derive(Drop)]
pub(crate) struct Total<W: Side, T: Side> {
    pub(crate) tickets: u64,
    pub(crate) joined: u64,
    pub(crate) workers: Book<W>,
    pub(crate) rest: Share<W>,
    pub(crate) topics: Book<T>,
    pub(crate) end: Share<T>,
    ghost by_workers: { workers.total ≡ tickets },
    ghost by_topics: { topics.total ≡ tickets },
    ghost room: { W.all ≡ 257 },
    ghost left: { rest.parts + joined ≡ W.all },
    ghost most: { joined ≤ 256 },
    ghost none_given: { rest.amount ≡ 0 },
    ghost no_topic: { end.parts ≡ 0 },
    ghost no_tickets: { end.amount ≡ 0 },
}

impl<W: Side, T: Side> Total<W, T> {
    /// Counts a ticket, which the topic of this share is to give to the worker of that one. Refused by 40 exactly
    /// where no ticket is left; nothing has changed then.
    pub(crate) fn count(
        &mut self,
        mine: &mut Share<W>,
        here: &mut Share<T>,
    ) -> Result<(), ProposeFault>
        requires mine { 0 < mine.old.parts }
        requires here { 0 < here.old.parts }
        ensures left { self.old.tickets < most_tickets → result ≡ Ok tt }
        ensures full { self.old.tickets ≡ most_tickets → result ≡ Err ClockFull }
        ensures fault { IfErr result (λ fault. fault ≡ ClockFull) }
        ensures parts { (mine.new.parts ≡ mine.old.parts) × (here.new.parts ≡ here.old.parts) }
        ensures mine { OnOk result (mine.new.amount ≡ mine.old.amount + 1) }
        ensures here { OnOk result (here.new.amount ≡ here.old.amount + 1) }
        ensures tickets { OnOk result (self.new.tickets ≡ self.old.tickets + 1) }
        ensures same { OnErr result ((mine.new.amount ≡ mine.old.amount) × (here.new.amount ≡ here.old.amount)
            × (self.new.tickets ≡ self.old.tickets)) }
    {
        let Total {
            tickets,
            joined: _,
            workers,
            rest: _,
            topics,
            end: _,
        } = self;
        if *tickets == u64::MAX {
            return Err(ProposeFault::ClockFull);
        }
        *tickets += 1;
        workers.add(mine, 1);
        topics.add(here, 1);
        Ok(())
    }

    /// One more worker, if fewer than 256 ever joined.
    pub(crate) fn join(&mut self) -> Option<Worker<W>>
        ensures worker { IfSome result (λ worker. worker ≡ record { workers = 1; tickets = 0 }) }
        ensures one { IfSome result (λ worker. self.new.joined ≡ self.old.joined + 1) }
        ensures full { IfNone result (self.old.joined ≡ 256) }
    {
        let Total {
            tickets: _,
            joined,
            workers: _,
            rest,
            topics: _,
            end: _,
        } = self;
        if *joined == MOST_WORKERS {
            return None;
        }
        let share = rest.split_off(1, 0);
        *joined += 1;
        Some(Worker::new(share))
    }
}

/// A total of no tickets, which no worker joined, and the share of all topics.
pub(crate) fn opened<W: Side, T: Side>(workers: Blank, topics: Blank) -> (Total<W, T>, Share<T>)
    requires workers { (workers.name ≡ W.name) × (workers.parts ≡ W.parts) × (W.parts ≡ W.all)
        × (W.all ≡ 257) }
    requires topics { (topics.name ≡ T.name) × (topics.parts ≡ T.parts) }
    ensures parts { result.1.parts ≡ T.parts }
    ensures none { result.1.amount ≡ 0 }
{
    let (workers, rest) = workers.open::<W>();
    let (topics, mut all) = topics.open::<T>();
    let end = all.empty();
    let total = Total {
        tickets: 0,
        joined: 0,
        workers,
        rest,
        topics,
        end,
    };
    (total, all)
}
