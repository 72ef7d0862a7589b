//! A log's queue, and what is written of it.

use broker_server::{LogForm, LogQueue, Queued};
use log::{LevelFilter, Logged, error, info, warn};
use std::alloc::{AllocError, Global};
use std::fmt::Display;
use std::io;
use std::sync::{Mutex, Wait};
use std::test::Fail;

/// How many lines wait at most.
const ROOM: u64 = 1_024;

/// A runtime whose standard error is a list of lines.
#[derive(Drop)]
struct Heard<'a, R: Wait> {
    rt: &'a R,
    alloc: Global,
    lines: &'a Mutex<Vec<String>>,
}

impl<R: Wait> Wait for Heard<'_, R> {}

impl<R: Wait> Eprint for Heard<'_, R> {
    fn eprint<D: Display + Drop>(&self, value: D) -> io::Result<()> {
        self.eprintln(value)
    }

    fn eprintln<D: Display + Drop>(&self, value: D) -> io::Result<()> {
        let line = format!(in self.alloc; "{value}")?;
        self.lines.lock(self.rt).push(line)?;
        Ok(())
    }
}

/// A queue with so many lines.
fn filled<R: Wait + Copy>(rt: R, alloc: Global, lines: u64) -> Result<LogQueue, AllocError> {
    let queue = LogQueue::new(alloc, LogForm::Plain)?;
    let logged = Logged::new(rt, LevelFilter::Info, Queued::new(&rt, &queue));
    for line in 0..lines {
        info!(logged; target: "serve", "line {line}");
    }
    Ok(queue)
}

/// What is written of it, once it is closed.
fn written<R: Wait>(rt: &R, alloc: Global, queue: &LogQueue) -> Result<Vec<String>, AllocError> {
    let lines = Mutex::new(Vec::new(alloc));
    let heard = Heard {
        rt,
        alloc,
        lines: &lines,
    };
    queue.close(rt);
    queue.write_out(&heard);
    let written = lines.lock(rt);
    written.clone()
}

/// Whether these are the first lines that were put, so many, and no other.
fn are_first(alloc: Global, lines: &[String], count: u64) -> Result<bool, AllocError> {
    for (number, line) in lines.iter().enumerate() {
        let wanted = format!(in alloc; "[INFO  serve] line {number}")?;
        if line.as_str() != wanted.as_str() {
            return Ok(false);
        }
    }
    Ok(lines.len() as u64 == count)
}

/// What is written of a queue that was given so many lines.
fn written_of<R: Wait + Copy>(rt: R, alloc: Global, count: u64) -> Result<Vec<String>, AllocError> {
    let queue = filled(rt, alloc, count)?;
    written(&rt, alloc, &queue)
}

/// Whether the first of these lines says that six were lost, and the others are the first that were put.
fn say_six_were_lost(alloc: Global, lines: &[String]) -> Result<bool, AllocError> {
    let Some((lost, kept)) = lines.split_first() else {
        return Ok(false);
    };
    let is_said = lost.as_str() == "[WARN  serve] 6 lines of this log were lost";
    Ok(is_said && are_first(alloc, kept, ROOM)?)
}

/// All lines are written for which there is room, and it is said before them how many were lost.
#[test]
fn lines_that_find_no_room_are_lost(rt: HostRuntime) -> Result<(), Fail> {
    let lines = written_of(rt, rt.alloc(), ROOM + 6)?;
    assert!(rt; say_six_were_lost(rt.alloc(), lines.as_slice()) == Ok(true));
    Ok(())
}

/// Where there is room for all, none is lost.
#[test]
fn lines_are_written_in_their_order(rt: HostRuntime) -> Result<(), Fail> {
    for &count in &[0, 1, ROOM] {
        let lines = written_of(rt, rt.alloc(), count)?;
        assert!(rt; are_first(rt.alloc(), lines.as_slice(), count) == Ok(true));
    }
    Ok(())
}

/// A queue whose lines begin by their priority, with a line of each level, and six more than there is room for.
fn prioritized<R: Wait + Copy>(rt: R, alloc: Global) -> Result<LogQueue, AllocError> {
    let queue = LogQueue::new(alloc, LogForm::Prioritized)?;
    let logged = Logged::new(rt, LevelFilter::Info, Queued::new(&rt, &queue));
    error!(logged; target: "serve", "an error");
    warn!(logged; target: "serve", "a warning");
    for line in 0..ROOM + 4 {
        info!(logged; target: "serve", "line {line}");
    }
    Ok(queue)
}

/// How the first lines of that queue begin, and the last.
const FRONTS: &[&str] = &[
    "<4>[WARN  serve] 6 lines of this log were lost",
    "<3>[ERROR serve] an error",
    "<4>[WARN  serve] a warning",
    "<6>[INFO  serve] line 0",
];

/// Whether lines begin with these.
fn begin_with(lines: &[String], fronts: &[&str]) -> bool {
    let mut left = lines.iter();
    for front in fronts {
        if left.next().is_none_or(|line| line.as_str() != *front) {
            return false;
        }
    }
    true
}

#[test]
fn lines_begin_with_their_priority(rt: HostRuntime) -> Result<(), Fail> {
    let queue = prioritized(rt, rt.alloc())?;
    let lines = written(&rt, rt.alloc(), &queue)?;
    assert!(rt; begin_with(lines.as_slice(), FRONTS));
    Ok(())
}

/// A queue with its thread takes lines until it is closed. What the thread writes is on standard error.
#[test]
fn a_queue_starts_its_thread(rt: HostRuntime) -> Result<(), Fail> {
    let queue = match LogQueue::start(rt, rt.alloc(), LogForm::Prioritized) {
        Ok(queue) => queue,
        Err(AllocError) => LogQueue::start(rt, rt.alloc(), LogForm::Prioritized)?,
    };
    let logged = Logged::new(rt, LevelFilter::Info, Queued::new(&rt, &queue));
    info!(logged; target: "serve", "a line of a test");
    queue.close(&rt);
    Ok(())
}
