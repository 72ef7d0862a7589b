//! A log whose writer may wait, while nobody else does.

ghost use Rattle.std.specs.Prelude.{◌≡◌, true, [], Some, IfOk};
ghost use Rattle.crossbeam_queue.specs.Passes.{queue_capacity};

use crate::log_form::LogForm;
use crossbeam_queue::ArrayQueue;
use log::kv::Source;
use log::span::Spans;
use log::{Level, Line, Log, Metadata, Record};
use std::alloc::{AllocError, Global};
use std::fmt::Display;
use std::sync::atomic::{AtomicBool, AtomicU64, Ordering};
use std::sync::{Arc, Wait};
use std::thread;
use std::thread::{Parker, Threads};
use std::time::Duration;

/// So many lines wait at most (our choice).
const MAX_LINES: usize = 1_024;

/// Lines of a log that wait to be written by a thread of their own. Who logs never waits for what they are written to:
/// a line for which there is no room, or no memory, is lost, and counted.
#[derive(Drop)]
pub struct LogQueue {
    alloc: Global,
    form: LogForm,
    lines: ArrayQueue<String>,
    lost: AtomicU64,
    writer: Parker,
    closing: AtomicBool,
    ended: AtomicBool,
    closer: Parker,
}

impl LogQueue {
    /// No lines. They will begin so.
    pub fn new(alloc: Global, form: LogForm) -> Result<LogQueue, AllocError>
        ensures { IfOk result (λ queue. queue_capacity queue.lines ≡ 1024) }
    {
        Ok(LogQueue {
            alloc,
            form,
            lines: ArrayQueue::new(alloc, MAX_LINES)?,
            lost: AtomicU64::new(0),
            writer: Parker::new(),
            closing: AtomicBool::new(false),
            ended: AtomicBool::new(false),
            closer: Parker::new(),
        })
    }

    /// A queue, and the thread that writes its lines, which begin so, to standard error. The thread isn't joined: it may
    /// wait for ever.
    pub fn start<R>(rt: R, alloc: Global, form: LogForm) -> Result<Arc<LogQueue>, AllocError>
    where
        R: Threads + Wait + Eprint + Copy + Send + 'static,
    {
        let queue = match Arc::new(alloc, LogQueue::new(alloc, form)?) {
            Ok(queue) => queue,
            Err(failed) => return Err(AllocError::from(failed)),
        };
        let theirs = queue.clone()?;
        match thread::spawn(&rt, move || theirs.write_out(&rt)) {
            Ok(_) => Ok(queue),
            Err(_) => Err(AllocError),
        }
    }

    /// Puts a line, or counts it as lost.
    fn put<R: Wait>(&self, rt: &R, line: Result<String, AllocError>) {
        let kept = match line {
            Ok(line) => self.lines.push(rt, line).is_ok(),
            Err(_) => false,
        };
        if !kept {
            self.lost.fetch_add(1, Ordering::SeqCst);
        }
        self.writer.unpark();
    }

    /// Writes the lines to standard error as they come, until the queue is closed and none waits. A line that can't be
    /// written is dropped.
    pub fn write_out<R: Wait + Eprint>(&self, rt: &R) {
        for _ in rt.forever() {
            let closing = self.closing.load(Ordering::SeqCst);
            let lost = self.lost.swap(0, Ordering::SeqCst);
            if lost > 0 {
                let front = self.form.front(Level::Warn);
                let _ = eprintln!(rt; "{front}[WARN  serve] {lost} lines of this log were lost");
            }
            match self.lines.pop(rt) {
                Some(line) => {
                    let _ = rt.eprintln(line.as_str());
                }
                None if closing => break,
                None => self.writer.park(rt),
            }
        }
        self.ended.store(true, Ordering::SeqCst);
        self.closer.unpark();
    }

    /// Closes the queue, and waits until all lines are written, a second at most.
    pub fn close<R: Wait>(&self, rt: &R) {
        self.closing.store(true, Ordering::SeqCst);
        self.writer.unpark();
        for _ in 0..20u32 {
            if self.ended.load(Ordering::SeqCst) {
                return;
            }
            self.closer.park_timeout(rt, Duration::from_millis(50));
        }
    }
}

/// Logs to a queue.
#[derive(Clone, Copy)]
pub struct Queued<'a, R: Wait> {
    rt: &'a R,
    queue: &'a LogQueue,
}

impl<'a, R: Wait> Queued<'a, R> {
    /// A log to this queue.
    pub fn new(rt: &'a R, queue: &'a LogQueue) -> Queued<'a, R> {
        Queued { rt, queue }
    }
}

impl<'a, R: Wait> Log for Queued<'a, R> {
    ghost enables = { λ _ _ _. Some true };

    ghost target_of = { λ _. Some [] };

    fn enabled(&self, _metadata: &Metadata<'_>) -> bool {
        true
    }

    fn log<D: Display, K: Source, S: Spans>(&self, record: &Record<'_, D, K, S>) {
        let front = self.queue.form.front(record.level());
        let line = format!(in self.queue.alloc; "{front}{}", Line::new(record));
        self.queue.put(self.rt, line);
    }

    fn flush(&self) {}

    fn target(&self) -> &str {
        ""
    }
}
