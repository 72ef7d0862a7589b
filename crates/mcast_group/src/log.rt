//! The log of a topic.

ghost use Rattle.std.specs.Prelude.{◌≡◌, ◌+◌, ◌*◌, ◌<◌, ◌≤◌, ◌++◌, ◌∷◌, [], length, slice_get, IfNone, IfOk, IfSome, IsOk, OnErr, OnOk, OnSome};
ghost use Rattle.std.specs.Option.{option_map};

use crate::log_rows::LogRows;
use crate::row::Row;
use crate::segment::{SEGMENT_ROWS, Segment};
use crate::segment_rows::SegmentRows;
use mcast_txn::NoMemory;
use std::alloc::Global;
use std::collections::VecDeque;
use std::marker::Model;
use std::mem;

/// The most segments that a log has.
const MOST_SEGMENTS: usize = usize::MAX / SEGMENT_ROWS;

/// The rows of a topic's log, in segments of 256. A row never moves while it is in the log. In contracts it is the list
/// of its rows, and how many it has room for, with those.
pub(crate) struct Log {
    alloc: Global,
    /// Each is full, but the last that has rows; those after it have none.
    segments: VecDeque<Segment>,
    len: usize,
}

impl Drop for Log {
    /// Written out, so that letting a log go is one call for the prover wherever it happens.
    fn drop(self) {
        let Log {
            alloc: _,
            segments,
            len: _,
        } = self;
        drop(segments);
    }
}

impl Model for Log {
    ghost use Rattle.std.specs.Prelude.{◌≤◌, ◌<◌, ◌*◌, ◌^◌, length};
    ghost use Rattle.mcast_group.specs.Inner.Log.{AreSegments, LogState, joined_rows};

    ghost Value = { LogState };

    ghost view = { λ l. record { items = joined_rows l.segments.items; capacity = 256 * length l.segments.items } };

    ghost invariant = { λ l. AreSegments 256 l.len l.segments.items × (256 * length l.segments.items < 2 ^ 64) };
}

impl Log {
    /// One without rows, which takes no memory.
    pub(crate) fn new(alloc: Global) -> Log
        ensures { result ≡ record { items = []; capacity = 0 } }
    {
        Log {
            alloc,
            segments: VecDeque::new(alloc),
            len: 0,
        }
    }

    /// How many rows it has.
    pub(crate) fn len(&self) -> usize
        ensures { result ≡ length self.now.items }
    {
        self.len
    }

    /// The row at index `i`, from 0, or `None` past the last.
    pub(crate) fn row(&self, i: usize) -> Option<&Row>
        ensures { option_map (λ row. row.now) result ≡ slice_get self.now.items i }
    {
        self.segments.get(i / SEGMENT_ROWS)?.row(i % SEGMENT_ROWS)
    }

    /// Makes room for `more` rows: a segment is added where those that there are have too little.
    pub(crate) fn reserve(&mut self, more: usize) -> Result<(), NoMemory>
        ensures items { self.new.items ≡ self.old.items }
        ensures capacity { self.old.capacity ≤ self.new.capacity }
        ensures ok { OnOk result (length self.new.items + more ≤ self.new.capacity) }
        ensures enough { length self.old.items + more ≤ self.old.capacity → IsOk result }
    {
        while self.segments.len() * SEGMENT_ROWS - self.len < more {
            self.add_segment()?;
        }
        Ok(())
    }

    /// Adds a segment without rows.
    fn add_segment(&mut self) -> Result<(), NoMemory>
        ensures items { self.new.items ≡ self.old.items }
        ensures capacity { self.old.capacity ≤ self.new.capacity }
        ensures ok { OnOk result (self.new.capacity ≡ self.old.capacity + 256) }
    {
        if self.segments.len() >= MOST_SEGMENTS {
            return Err(NoMemory);
        }
        let segment = Segment::new(self.alloc)?;
        self.segments.push_back(segment)?;
        Ok(())
    }

    /// One row more, with no memory.
    pub(crate) fn push(&mut self, row: Row)
        requires { length self.old.items < self.old.capacity }
        ensures items { self.new.items ≡ self.old.items ++ row ∷ [] }
        ensures capacity { self.new.capacity ≡ self.old.capacity }
    {
        self.segments[self.len / SEGMENT_ROWS].push(row);
        self.len += 1;
    }

    /// How many segments have rows.
    fn used(&self) -> usize
        ensures enough { length self.now.items ≤ 256 * result }
        ensures least { 256 * result < length self.now.items + 256 }
    {
        self.len.div_ceil(SEGMENT_ROWS)
    }

    /// Moves all rows out; room for `more` is there then, and segments that aren't needed for it are given back, but
    /// one.
    pub(crate) fn drain(&mut self, more: usize) -> Result<LogRows, NoMemory>
        ensures rows { IfOk result (λ rows. rows ≡ self.old.items) }
        ensures none { OnOk result (self.new.items ≡ []) }
        ensures room { OnOk result (more ≤ self.new.capacity) }
        ensures few { OnOk result (self.new.capacity ≤ more + 512) }
        ensures idle { self.old.items ≡ [] → more ≤ self.old.capacity → IsOk result }
        ensures err { OnErr result (self.new.items ≡ self.old.items) }
        ensures capacity { OnErr result (self.old.capacity ≤ self.new.capacity) }
    {
        let rows = self.drain_rows(more)?;
        self.give_back(more);
        Ok(rows)
    }

    /// Moves all rows out; room for `more` is there then. Segments without rows stay.
    fn drain_rows(&mut self, more: usize) -> Result<LogRows, NoMemory>
        ensures rows { IfOk result (λ rows. rows ≡ self.old.items) }
        ensures none { OnOk result (self.new.items ≡ []) }
        ensures room { OnOk result (more ≤ self.new.capacity) }
        ensures idle { self.old.items ≡ [] → more ≤ self.old.capacity → IsOk result }
        ensures err { OnErr result (self.new.items ≡ self.old.items) }
        ensures capacity { OnErr result (self.old.capacity ≤ self.new.capacity) }
    {
        if self.len == 0 {
            return self.drain_none(more);
        }
        if self.len == 1 {
            return self.drain_one(more);
        }
        if self.len < SEGMENT_ROWS {
            return self.drain_first(more);
        }
        self.drain_segments(more)
    }

    /// Gives the segments back that aren't needed for `more` rows, but one, so that a topic whose parts come and go at
    /// the end of a segment makes no new one each time.
    fn give_back(&mut self, more: usize)
        requires none { self.old.items ≡ [] }
        requires room { more ≤ self.old.capacity }
        ensures none { self.new.items ≡ [] }
        ensures room { more ≤ self.new.capacity }
        ensures few { self.new.capacity ≤ more + 512 }
    {
        let needed = more.div_ceil(SEGMENT_ROWS);
        self.segments.truncate(needed + 1);
    }

    /// `drain_rows` where there is none: where there is room enough, it takes no memory.
    fn drain_none(&mut self, more: usize) -> Result<LogRows, NoMemory>
        requires { self.old.items ≡ [] }
        ensures rows { IfOk result (λ rows. rows ≡ self.old.items) }
        ensures none { self.new.items ≡ [] }
        ensures items { self.new.items ≡ self.old.items }
        ensures room { OnOk result (more ≤ self.new.capacity) }
        ensures idle { more ≤ self.old.capacity → IsOk result }
        ensures capacity { self.old.capacity ≤ self.new.capacity }
    {
        self.reserve(more)?;
        Ok(LogRows::of_many(SegmentRows::new(VecDeque::new(self.alloc), Log::new(self.alloc))))
    }

    /// The same where there is one row, which is moved out with no memory of its own.
    fn drain_one(&mut self, more: usize) -> Result<LogRows, NoMemory>
        requires { length self.old.items ≡ 1 }
        ensures rows { IfOk result (λ rows. rows ≡ self.old.items) }
        ensures none { OnOk result (self.new.items ≡ []) }
        ensures room { OnOk result (more ≤ self.new.capacity) }
        ensures err { OnErr result (self.new.items ≡ self.old.items) }
        ensures capacity { OnErr result (self.old.capacity ≤ self.new.capacity) }
    {
        self.reserve(more.saturating_sub(1))?;
        let row = self.segments[0].take_only();
        self.len = 0;
        Ok(LogRows::of_one(self.alloc, row))
    }

    /// The same where the first segment alone has rows: they are moved out of it, and it stays with its room.
    fn drain_first(&mut self, more: usize) -> Result<LogRows, NoMemory>
        requires some { 0 < length self.old.items }
        requires few { length self.old.items < 256 }
        ensures rows { IfOk result (λ rows. rows ≡ self.old.items) }
        ensures none { OnOk result (self.new.items ≡ []) }
        ensures room { OnOk result (more ≤ self.new.capacity) }
        ensures err { OnErr result (self.new.items ≡ self.old.items) }
        ensures capacity { OnErr result (self.old.capacity ≤ self.new.capacity) }
    {
        self.reserve(more.saturating_sub(self.len))?;
        let rows = self.segments[0].take_rows(self.alloc)?;
        self.len = 0;
        Ok(LogRows::of_many(SegmentRows::new(rows, Log::new(self.alloc))))
    }

    /// The same by whole segments, whose rows aren't moved.
    fn drain_segments(&mut self, more: usize) -> Result<LogRows, NoMemory>
        ensures rows { IfOk result (λ rows. rows ≡ self.old.items) }
        ensures none { OnOk result (self.new.items ≡ []) }
        ensures room { OnOk result (more ≤ self.new.capacity) }
        ensures err { OnErr result (self.new.items ≡ self.old.items) }
        ensures capacity { OnErr result (self.old.capacity ≤ self.new.capacity) }
    {
        let used = self.used();
        let left = used * SEGMENT_ROWS - self.len;
        self.reserve(more.saturating_add(left))?;
        let rest = self.segments.split_off(used)?;
        let drained = Log {
            alloc: self.alloc,
            segments: mem::replace(&mut self.segments, rest),
            len: mem::replace(&mut self.len, 0),
        };
        Ok(LogRows::of_many(SegmentRows::new(VecDeque::new(self.alloc), drained)))
    }

    /// Takes out the first segment, if the log has a row.
    pub(crate) fn take_segment(&mut self) -> Option<VecDeque<Row>>
        ensures some { IfSome result (λ rows. self.old.items ≡ rows.items ++ self.new.items) }
        ensures first { IfSome result (λ rows. 0 < length rows.items) }
        ensures none { IfNone result ((self.old.items ≡ []) × (self.new.items ≡ [])) }
    {
        if self.len == 0 {
            return None;
        }
        let segment = self.segments.pop_front()?;
        self.len -= segment.len();
        Some(segment.into_rows())
    }
}
