//! Rows of a trace.

use mcast_txn::{Stamp, Topic, TxnId};
use std::marker::Model;

/// A row of a topic's log: whose log it is, the transaction, all its topics, and its stamp.
#[derive(Drop)]
pub struct LogRow {
    pub topic: Topic,
    pub id: TxnId,
    pub topics: Vec<Topic>,
    pub stamp: Stamp,
}

impl Model for LogRow {
    ghost use Rattle.trace_audit.specs.Logs.{TopicRow};

    ghost Value = { TopicRow };

    ghost view = { λ r. record {
      topic = r.topic;
      row = record { id = r.id; topics = r.topics.items; stamp = r.stamp };
    } };
}

/// A subscription: its number, its topic, the stamp after which it begins, and its last stamp, once it has ended.
#[derive(Clone, Copy, Debug, PartialEq, Eq)]
pub struct SpanRow {
    pub sub: u64,
    pub topic: Topic,
    pub from: Stamp,
    pub to: Option<Stamp>,
}

/// A row of a subscription's queue: the subscription's number, the transaction, and its stamp.
#[derive(Clone, Copy, Debug, PartialEq, Eq)]
pub struct QueueRow {
    pub sub: u64,
    pub id: TxnId,
    pub stamp: Stamp,
}

/// A row of a trace.
#[derive(Drop)]
pub enum TraceRow {
    Log(LogRow),
    Span(SpanRow),
    Queue(QueueRow),
}
