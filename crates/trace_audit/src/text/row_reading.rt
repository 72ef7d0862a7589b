//! Reading a row's line.

ghost use Rattle.std.specs.Prelude.{◌≡◌, IfOk};
ghost use Rattle.trace_audit.specs.Inner.Reading.{spelled_row, log_of_text, span_of_text, queue_of_text};

use super::field_reading::{
    end, id_before, number_before, split_at_first, stamp, stamp_before, topic_before, topics,
};
use crate::row::{LogRow, QueueRow, SpanRow, TraceRow};
use mcast_txn::NoMemory;
use std::alloc::Global;

/// The row that a line spells.
#[tactic(auto, unfolding(crate::specs::Inner::Reading::spelled_row))]
pub(crate) fn read_row(alloc: Global, line: &[u8]) -> Result<Option<TraceRow>, NoMemory>
    ensures { IfOk result (λ row. row ≡ spelled_row line.now) }
{
    macro_rules! rows {
        ($($word:literal => $read:ident;)*) => {
            match split_at_first(b' ', line) {
                None => Ok(None),
                $(Some((word, fields)) if word == $word.as_slice() => $read(alloc, fields),)*
                Some(_) => Ok(None),
            }
        };
    }
    rows! {
        b"log" => read_log;
        b"span" => read_span;
        b"queue" => read_queue;
    }
}

/// The row of a log that these fields spell.
#[tactic(auto, unfolding(crate::specs::Inner::Reading::log_of_text))]
fn read_log(alloc: Global, text: &[u8]) -> Result<Option<TraceRow>, NoMemory>
    ensures { IfOk result (λ row. row ≡ log_of_text text.now) }
{
    let Some((topic, rest)) = topic_before(text) else {
        return Ok(None);
    };
    let Some((id, rest)) = id_before(rest) else {
        return Ok(None);
    };
    let Some((stamp, rest)) = stamp_before(rest) else {
        return Ok(None);
    };
    let Some(topics) = topics(alloc, rest)? else {
        return Ok(None);
    };
    Ok(Some(TraceRow::Log(LogRow {
        topic,
        id,
        topics,
        stamp,
    })))
}

/// The span that these fields spell.
fn read_span(_alloc: Global, text: &[u8]) -> Result<Option<TraceRow>, NoMemory>
    ensures { IfOk result (λ row. row ≡ span_of_text text.now) }
{
    Ok(span(text))
}

/// The row of a queue that these fields spell.
fn read_queue(_alloc: Global, text: &[u8]) -> Result<Option<TraceRow>, NoMemory>
    ensures { IfOk result (λ row. row ≡ queue_of_text text.now) }
{
    Ok(queue(text))
}

/// The span that these fields spell, without memory.
#[tactic(auto, unfolding(crate::specs::Inner::Reading::span_of_text))]
fn span(text: &[u8]) -> Option<TraceRow>
    ensures { result ≡ span_of_text text.now }
{
    let (sub, rest) = number_before(b' ', text)?;
    let (topic, rest) = topic_before(rest)?;
    let (from, rest) = stamp_before(rest)?;
    let to = end(rest)?;
    Some(TraceRow::Span(SpanRow {
        sub,
        topic,
        from,
        to,
    }))
}

/// The row of a queue that these fields spell, without memory.
#[tactic(auto, unfolding(crate::specs::Inner::Reading::queue_of_text))]
fn queue(text: &[u8]) -> Option<TraceRow>
    ensures { result ≡ queue_of_text text.now }
{
    let (sub, rest) = number_before(b' ', text)?;
    let (id, rest) = id_before(rest)?;
    let stamp = stamp(rest)?;
    Some(TraceRow::Queue(QueueRow { sub, id, stamp }))
}
