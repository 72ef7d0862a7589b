//! Logs of more rows than a segment has room for.

use super::calls::{Answer, Call, id, learnt, propose, released};
use super::memory::at_last;
use crate::{Group, LogRows};
use mcast_txn::{NoMemory, Topic};
use std::alloc::Global;
use sub_queue::VecOutlet;

/// Releases the transaction of this seq, whose ticket is the next number; nothing where memory ran out before its end,
/// and then the log is as it was.
fn release_next(alloc: Global, group: &mut Group<VecOutlet>, seq: u64) -> Option<bool> {
    if group.pending_len() == 0 && propose(alloc, group, id(seq), &[0], 0)?.is_err() {
        return None;
    }
    let number = group.clock();
    if learnt(alloc, group, id(seq), &[(0, number)])? != Answer::Done {
        return Some(false);
    }
    Some(released(group) == Answer::Released(seq, number, 0))
}

/// The same, again where memory is refused, which it is once at most.
fn is_released(alloc: Global, group: &mut Group<VecOutlet>, seq: u64) -> bool {
    let rows = group.held_len();
    for _ in 0..3u8 {
        match release_next(alloc, group, seq) {
            Some(answer) => return answer,
            None if group.held_len() != rows => return false,
            None => {}
        }
    }
    false
}

/// Releases transactions of the seqs from `first` on, this many.
fn are_released(alloc: Global, group: &mut Group<VecOutlet>, first: u64, many: u64) -> bool {
    for seq in first..first.saturating_add(many) {
        if !is_released(alloc, group, seq) {
            return false;
        }
    }
    true
}

/// The seq of the log's row at an index.
fn held(group: &Group<VecOutlet>, i: usize) -> Option<u64> {
    Some(group.held(i)?.id.seq)
}

/// Indices of rows, the last of which is the last of 600.
const INDICES: &[usize] = &[0, 1, 254, 255, 256, 257, 510, 511, 512, 513, 599];

/// Whether the log has 600 rows, of which each of these is that of the seq of its index.
fn has_600(group: &Group<VecOutlet>) -> bool {
    for &i in INDICES {
        if held(group, i) != Some(i as u64) {
            return false;
        }
    }
    group.held_len() == 600 && held(group, 600).is_none() && held(group, usize::MAX).is_none()
}

#[test]
fn rows_are_found_in_their_segments(rt: HostRuntime) {
    let alloc = rt.alloc();
    let mut group = Group::new(alloc, Topic(0), 0, 1000);
    assert!(rt; are_released(alloc, &mut group, 0, 600));
    assert!(rt; has_600(&group));
}

/// The seq of the drained row at an index.
fn drained(rows: &LogRows, i: usize) -> Option<u64> {
    Some(rows.row(i)?.id.seq)
}

/// Whether the drained rows are those of the seqs from `first` on, this many: looked at, and then taken out.
fn are_in_order(rows: &mut LogRows, first: u64, many: u64) -> bool {
    for seq in first..first.saturating_add(many) {
        let left = first.saturating_add(many).saturating_sub(seq);
        let last = rows.len().saturating_sub(1);
        if rows.len() as u64 != left
            || drained(rows, last) != Some(first.saturating_add(many).saturating_sub(1))
        {
            return false;
        }
        match rows.take_first() {
            Some(row) if row.id.seq == seq => {}
            _ => return false,
        }
    }
    rows.take_first().is_none()
}

/// Drains the log, again where memory is refused, and then the log is as it was.
fn drain(group: &mut Group<VecOutlet>) -> Result<LogRows, NoMemory> {
    let rows = group.held_len();
    match group.drain_log() {
        Err(_) if group.held_len() == rows => group.drain_log(),
        answer => answer,
    }
}

/// Whether a drain gives the rows of the seqs from `first` on, this many, the first or the second time.
fn are_drained(group: &mut Group<VecOutlet>, first: u64, many: u64) -> bool {
    match drain(group) {
        Ok(mut rows) => are_in_order(&mut rows, first, many),
        Err(NoMemory) => false,
    }
}

/// Logs of these lengths are released and drained, one after the other.
const LENGTHS: [u64; 10] = [1, 254, 255, 256, 257, 0, 511, 512, 513, 2];

#[test]
fn drains_at_the_ends_of_segments(rt: HostRuntime) {
    let alloc = rt.alloc();
    let mut group = Group::new(alloc, Topic(0), 0, 520);
    let mut first = 0u64;
    for many in LENGTHS {
        assert!(rt; are_released(alloc, &mut group, first, many));
        assert!(rt; are_drained(&mut group, first, many));
        assert!(rt; group.held_len() == 0);
        first = first.saturating_add(many);
    }
}

/// At a full segment a proposal makes another: out of memory for it, nothing has changed, and the same proposal then
/// gets its ticket.
#[test]
fn a_full_segment_wants_another(rt: HostRuntime) {
    let alloc = rt.alloc();
    let mut group = Group::new(alloc, Topic(0), 0, 1000);
    assert!(rt; are_released(alloc, &mut group, 0, 256));
    let answer = at_last(alloc, &mut group, Call::Propose(256, &[0], 0), 0);
    assert!(rt; answer == Some((Answer::Ticket(257), true)));
    assert!(rt; is_released(alloc, &mut group, 256));
    assert!(rt; held(&group, 256) == Some(256));
}
