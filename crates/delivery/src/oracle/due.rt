//! What is due to a subscription by a plain, slow program, to be tried on small inputs.

ghost use Rattle.std.specs.Prelude.{◌≡◌, ◌==◌, IfOk};
ghost use Rattle.std.specs.List.{list_any};
ghost use Rattle.mcast_txn.specs.Transaction.{topics_of, part_of};
ghost use Rattle.mcast_txn.specs.TopicSet.{names};
ghost use Rattle.mcast_txn.specs.Span.{in_span, up_to};
ghost use Rattle.delivery.specs.Theorem.Due.{due, is_due, item_at};

use crate::oracle::agreed::{CommitRow, agreed};
use mcast_txn::{NoMemory, PartMessage, SentMessage, Stamp, Topic, TxnId};
use std::alloc::Global;
use std::marker::Model;

/// An item of a subscription's queue: a transaction, its stamp, and its part at the topic.
#[derive(Drop)]
pub struct QueueItem {
    pub id: TxnId,
    pub stamp: Stamp,
    pub sends: Vec<PartMessage>,
}

impl Model for QueueItem {
    ghost use Rattle.mcast_txn.specs.Span.{Item};

    ghost Value = { Item };

    ghost view = { λ i. record { id = i.id; stamp = i.stamp; sends = i.sends.items } };
}

/// The SENDs to the topic, each with its index in the whole transaction, which has fewer than 2^32: else
/// want of memory is answered.
#[tactic(auto, using(crate::proofs::Theorem::PlainDue::part_taken, crate::proofs::Theorem::PlainDue::part_passed))]
fn part(
    alloc: Global,
    topic: Topic,
    mut sends: Vec<SentMessage>,
) -> Result<Vec<PartMessage>, NoMemory>
    ensures { IfOk result (λ part. part.items ≡ part_of topic sends.items) }
{
    let mut part = Vec::new(alloc);
    while let Some(send) = sends.pop() {
        if send.topic.0 == topic.0 {
            let Ok(index) = u32::try_from(sends.len()) else {
                return Err(NoMemory);
            };
            let headers = send.headers;
            let body = send.body;
            part.insert(
                0,
                PartMessage {
                    index,
                    headers,
                    body,
                },
            )?;
        }
    }
    Ok(part)
}

/// What a queue of the topic gets of a row.
fn item(alloc: Global, topic: Topic, row: CommitRow) -> Result<QueueItem, NoMemory>
    ensures { IfOk result (λ item. item ≡ item_at topic row) }
{
    let sends = part(alloc, topic, row.sends)?;
    Ok(QueueItem {
        id: row.id,
        stamp: row.stamp,
        sends,
    })
}

/// Whether a SEND is to the topic.
fn has_send(topic: Topic, sends: &[SentMessage]) -> bool
    ensures { result ≡ list_any (λ send. send.topic.0 == topic.0) sends.now }
{
    sends.iter().any(|send| send.topic.0 == topic.0)
}

/// Whether a transaction of these SENDs names the topic.
fn names(topic: Topic, sends: &[SentMessage]) -> bool
    ensures { result ≡ names topic (topics_of sends.now) }
{
    has_send(topic, sends)
}

/// Whether a stamp is at most the end, if there is one.
fn is_up_to(to: Option<Stamp>, stamp: Stamp) -> bool
    ensures { result ≡ up_to to stamp }
{
    match to {
        None => true,
        Some(end) => !end.is_before(stamp),
    }
}

/// Whether a stamp lies in a span: above its beginning, and up to its end.
fn is_within(from: Stamp, to: Option<Stamp>, stamp: Stamp) -> bool
    ensures { result ≡ in_span from to stamp }
{
    from.is_before(stamp) && is_up_to(to, stamp)
}

/// Whether a row is due to a subscription with this topic and span, up to the frontier.
fn is_due(topic: Topic, from: Stamp, to: Option<Stamp>, frontier: Stamp, row: &CommitRow) -> bool
    ensures { result ≡ is_due (record { topic = topic; from = from; to = to }) frontier row.now }
{
    names(topic, &row.sends) && is_within(from, to, row.stamp) && !frontier.is_before(row.stamp)
}

/// What is due to a span up to a frontier, of these committed transactions: each as one item, in the agreed order.
#[tactic(auto, using(crate::proofs::Theorem::PlainDue::filter_taken, crate::proofs::Theorem::PlainDue::filter_passed))]
pub fn due(
    alloc: Global,
    rows: Vec<CommitRow>,
    topic: Topic,
    from: Stamp,
    to: Option<Stamp>,
    frontier: Stamp,
) -> Result<Vec<QueueItem>, NoMemory>
    ensures { IfOk result (λ items.
        items.items ≡ due rows.items (record { topic = topic; from = from; to = to }) frontier) }
{
    let mut sorted = agreed(alloc, rows)?;
    let mut items = Vec::new(alloc);
    while let Some(row) = sorted.pop() {
        if is_due(topic, from, to, frontier, &row) {
            items.insert(0, item(alloc, topic, row)?)?;
        }
    }
    Ok(items)
}
