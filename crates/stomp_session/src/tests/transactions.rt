//! What a COMMIT and a SEND are answered.

use super::client::{Pairs, has, step_after};
use crate::{Action, Step};
use std::alloc::Global;
use stomp_frame::Command;

/// A COMMIT or a SEND after a script; how many SENDs and topics the transaction of its answer has, and whether the
/// answer has the receipt `r`.
struct Row {
    script: &'static [u8],
    command: Command,
    pairs: Pairs<'static>,
    want: (usize, usize, bool),
}

/// How many SENDs and topics the transaction of an action has; none where it has no transaction.
fn counts(action: &Action) -> (usize, usize) {
    match action {
        Action::Commit(txn) => (txn.len(), txn.topics().len()),
        _ => (0, 0),
    }
}

/// What the row's frame is answered, in the form of its `want`; nothing where it is refused.
fn told(alloc: Global, row: &Row) -> Option<(usize, usize, bool)> {
    let Step { action, receipt } = step_after(alloc, row.script, row.command, row.pairs)?;
    let (sends, topics) = counts(&action);
    drop(action);
    Some((sends, topics, has(&receipt, b"r")))
}

/// A COMMIT without SENDs, one with two, and a SEND outside a transaction.
const ROWS: &[Row] = &[
    Row {
        script: b"c..,bx.",
        command: Command::Commit,
        pairs: &[(b"transaction", b"x"), (b"receipt", b"r")],
        want: (0, 0, true),
    },
    Row {
        script: b"c..,bx.,mBx,mBx",
        command: Command::Commit,
        pairs: &[(b"transaction", b"x")],
        want: (2, 1, false),
    },
    Row {
        script: b"c..",
        command: Command::Send,
        pairs: &[(b"destination", b"B"), (b"receipt", b"r")],
        want: (1, 1, true),
    },
];

/// A COMMIT without SENDs is nothing, one with two has both, and a SEND outside a transaction is one of its own.
#[test]
fn commits(rt: HostRuntime) {
    for row in ROWS {
        assert!(rt; told(rt.alloc(), row) == Some(row.want));
    }
}

/// Whether a COMMIT without SENDs is nothing.
fn is_nothing(alloc: Global) -> Option<bool> {
    let pairs: Pairs = &[(b"transaction", b"x")];
    let Step { action, receipt } = step_after(alloc, b"c..,bx.", Command::Commit, pairs)?;
    drop(receipt);
    let is_nothing = matches!(&action, Action::Nothing);
    drop(action);
    Some(is_nothing)
}

#[test]
fn a_commit_without_sends_is_nothing(rt: HostRuntime) {
    assert!(rt; is_nothing(rt.alloc()) == Some(true));
}
