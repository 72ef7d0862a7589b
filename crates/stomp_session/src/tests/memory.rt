//! Refused growths: they are made by `rt try --test --fail-alloc N`, and each test here holds whichever allocation
//! fails.

use super::client::{Client, Pairs, frame_with};
use crate::{Names, SessionFault};
use mcast_txn::Topic;
use std::alloc::Global;
use std::process::Abort;
use std::test::Fail;
use stomp_frame::{ClientFrame, Command, Headers, NoMemory};

/// A text that doesn't fit in an `Octets` itself, so that its list takes memory.
const LONG: &[u8] = b"a text that is rather long";

/// The name of a topic that isn't there yet.
const NAME: &[u8] = b"a/name/that/is/rather/long";

/// A frame, and the script of the frames before it.
#[derive(Clone, Copy)]
struct Row {
    script: &'static [u8],
    command: Command,
    pairs: Pairs<'static>,
    body: &'static [u8],
}

/// Whether the headers are these, in their order.
fn are_headers(headers: &Headers, pairs: Pairs) -> bool {
    if headers.len() != pairs.len() {
        return false;
    }
    for index in 0..pairs.len() {
        if headers.pair(index) != pairs[index] {
            return false;
        }
    }
    true
}

/// Whether the frame's headers are these, each found by its name.
fn are_fields(frame: &ClientFrame, pairs: Pairs) -> bool {
    for (name, value) in pairs {
        if frame.field(name) != Some(*value) {
            return false;
        }
    }
    true
}

/// Whether the frame is the row's, as it was given.
fn is_given(frame: ClientFrame, row: &Row) -> bool {
    let are_fields = are_fields(&frame, row.pairs);
    let raw = frame.into_raw();
    are_fields
        && raw.command == row.command
        && are_headers(&raw.headers, row.pairs)
        && raw.body.as_slice() == row.body
}

/// Whether a refusal is 72, with the row's frame as it was given.
fn is_out_of_memory(refused: (ClientFrame, SessionFault), row: &Row) -> bool {
    let (frame, fault) = refused;
    let is_given = is_given(frame, row);
    is_given && fault == SessionFault::NoMemory
}

/// Whether a DISCONNECT is refused, since the session is closed.
fn is_closed(client: &mut Client) -> Result<bool, NoMemory> {
    Ok(client.letters(b'd', b' ', b' ')? == SessionFault::Closed.number())
}

/// Whether the names are those that the client began with.
fn has_its_names(client: &Client) -> bool {
    are_names(client.names(), &[b"A", b"B"])
}

/// Whether a refusal is 72, with the row's frame as it was given, the session is closed, and it made no topic.
fn has_no_effect(
    client: &mut Client,
    refused: (ClientFrame, SessionFault),
    row: &Row,
) -> Result<bool, NoMemory> {
    let is_told = is_out_of_memory(refused, row);
    Ok(is_told && is_closed(client)? && has_its_names(client))
}

/// Puts the row's frame to a new session: whether it is accepted. An error says that there was no memory for the frames
/// before it. The answer to a refused frame is 72, it comes back as it was given, the session is closed, and it made no
/// topic.
fn is_accepted(rt: &impl Abort, alloc: Global, row: &Row) -> Result<bool, NoMemory> {
    let mut client = Client::after(alloc, row.script)?;
    let frame = frame_with(alloc, row.command, row.pairs, row.body)?;
    let Some(refused) = client.take(frame).err() else {
        return Ok(true);
    };
    assert!(rt; has_no_effect(&mut client, refused, row)?);
    Ok(false)
}

/// Of two new sessions, where at most one allocation fails, one accepts the row's frame: whether the other refuses it.
fn is_refused_once(rt: &impl Abort, alloc: Global, row: &Row) -> bool {
    let first = is_accepted(rt, alloc, row);
    let second = is_accepted(rt, alloc, row);
    assert!(rt; matches!(&first, Ok(true)) || matches!(&second, Ok(true)));
    matches!(&first, Ok(false)) || matches!(&second, Ok(false))
}

#[test]
fn a_subscribe_without_memory(rt: HostRuntime) {
    let row = Row {
        script: b"c..",
        command: Command::Subscribe,
        pairs: &[(b"id", LONG), (b"destination", b"A"), (b"receipt", LONG)],
        body: b"",
    };
    is_refused_once(&rt, rt.alloc(), &row);
}

/// One that asks for parts.
#[test]
fn a_subscribe_for_parts_without_memory(rt: HostRuntime) {
    let row = Row {
        script: b"c..",
        command: Command::Subscribe,
        pairs: &[
            (b"id", LONG),
            (b"destination", b"A"),
            (b"part", b"yes"),
            (b"receipt", LONG),
        ],
        body: b"",
    };
    is_refused_once(&rt, rt.alloc(), &row);
}

/// A SUBSCRIBE that makes its topic.
#[test]
fn a_subscribe_to_a_new_topic_without_memory(rt: HostRuntime) {
    let row = Row {
        script: b"c..",
        command: Command::Subscribe,
        pairs: &[(b"id", LONG), (b"destination", NAME), (b"receipt", LONG)],
        body: b"",
    };
    is_refused_once(&rt, rt.alloc(), &row);
}

/// A SEND that makes its topic, outside a transaction and in one.
#[test]
fn a_send_to_a_new_topic_without_memory(rt: HostRuntime) {
    let row = Row {
        script: b"c..",
        command: Command::Send,
        pairs: &[(b"destination", NAME), (b"receipt", LONG)],
        body: LONG,
    };
    is_refused_once(&rt, rt.alloc(), &row);
    let row = Row {
        script: b"c..,bx.",
        command: Command::Send,
        pairs: &[
            (b"destination", NAME),
            (b"transaction", b"x"),
            (b"receipt", LONG),
        ],
        body: LONG,
    };
    is_refused_once(&rt, rt.alloc(), &row);
}

#[test]
fn a_begin_without_memory(rt: HostRuntime) {
    let row = Row {
        script: b"c..",
        command: Command::Begin,
        pairs: &[(b"transaction", LONG), (b"receipt", LONG)],
        body: b"",
    };
    is_refused_once(&rt, rt.alloc(), &row);
}

#[test]
fn a_lone_send_without_memory(rt: HostRuntime) {
    let row = Row {
        script: b"c..",
        command: Command::Send,
        pairs: &[(b"destination", b"A"), (b"receipt", LONG)],
        body: LONG,
    };
    is_refused_once(&rt, rt.alloc(), &row);
}

#[test]
fn a_send_in_a_transaction_without_memory(rt: HostRuntime) {
    let row = Row {
        script: b"c..,bx.",
        command: Command::Send,
        pairs: &[
            (b"destination", b"A"),
            (b"transaction", b"x"),
            (b"receipt", LONG),
        ],
        body: LONG,
    };
    is_refused_once(&rt, rt.alloc(), &row);
}

#[test]
fn a_commit_without_memory(rt: HostRuntime) {
    let row = Row {
        script: b"c..,bx.,mAx,mBx",
        command: Command::Commit,
        pairs: &[(b"transaction", b"x"), (b"receipt", LONG)],
        body: b"",
    };
    is_refused_once(&rt, rt.alloc(), &row);
}

#[test]
fn a_commit_without_sends_takes_none(rt: HostRuntime) {
    let row = Row {
        script: b"c..,bx.",
        command: Command::Commit,
        pairs: &[(b"transaction", b"x"), (b"receipt", LONG)],
        body: b"",
    };
    assert!(rt; !is_refused_once(&rt, rt.alloc(), &row));
}

#[test]
fn a_connect_takes_none(rt: HostRuntime) {
    let row = Row {
        script: b"",
        command: Command::Connect,
        pairs: &[
            (b"accept-version", b"1.0,1.2"),
            (b"host", b"h"),
            (b"client-id", LONG),
        ],
        body: b"",
    };
    assert!(rt; !is_refused_once(&rt, rt.alloc(), &row));
}

#[test]
fn an_unsubscribe_takes_none(rt: HostRuntime) {
    let row = Row {
        script: b"c..,saA,sbB",
        command: Command::Unsubscribe,
        pairs: &[(b"id", b"a"), (b"receipt", LONG)],
        body: b"",
    };
    assert!(rt; !is_refused_once(&rt, rt.alloc(), &row));
}

#[test]
fn an_abort_takes_none(rt: HostRuntime) {
    let row = Row {
        script: b"c..,bx.,mAx",
        command: Command::Abort,
        pairs: &[(b"transaction", b"x"), (b"receipt", LONG)],
        body: b"",
    };
    assert!(rt; !is_refused_once(&rt, rt.alloc(), &row));
}

#[test]
fn a_disconnect_takes_none(rt: HostRuntime) {
    let row = Row {
        script: b"c..,saA,bx.,mAx",
        command: Command::Disconnect,
        pairs: &[(b"receipt", LONG)],
        body: b"",
    };
    assert!(rt; !is_refused_once(&rt, rt.alloc(), &row));
}

/// Whether the names are these, in their order.
fn are_names(names: &Names, want: &[&[u8]]) -> bool {
    let mut index = 0u32;
    for name in want {
        let topic = Topic(index);
        if names.name(topic) != Some(*name) || names.find(name) != Some(topic) {
            return false;
        }
        index = index.wrapping_add(1);
    }
    names.len() == want.len()
}

/// Adds a name after those before it, which are fewer than five. Where it isn't added, whether the names are what they
/// were; it is added when there is memory again.
fn is_added(names: &mut Names, before: &[&[u8]], name: &[u8]) -> Result<bool, NoMemory> {
    if names.len() >= 5 || names.add(name).is_ok() {
        return Ok(true);
    }
    let are_before = are_names(names, before) && names.find(name).is_none();
    names.add(name)?;
    Ok(are_before)
}

/// Adds these names in turn; whether that holds of each.
fn are_added(names: &mut Names, all: &[&[u8]]) -> Result<bool, NoMemory> {
    for index in 0..all.len() {
        if !is_added(names, &all[..index], all[index])? {
            return Ok(false);
        }
    }
    Ok(true)
}

/// Where a name isn't added, the names are what they were; it is added when there is memory again.
#[test]
fn names_without_memory(rt: HostRuntime) -> Result<(), Fail> {
    let all: &[&[u8]] = &[b"A", b"B", b"C", b"D", b"E"];
    let mut names = Names::new(rt.alloc());
    assert!(rt; are_added(&mut names, all)? && are_names(&names, all));
    Ok(())
}

/// Adds a name to names that others have, too. Where it isn't added, whether both are what they were.
fn is_added_here(names: &mut Names, before: &[&[u8]], name: &[u8]) -> Result<bool, NoMemory> {
    let others = names.share()?;
    let is_added = is_added(names, before, name)?;
    Ok(is_added && are_names(&others, before))
}

/// The same where others share the names, so that the list of them is copied.
#[test]
fn shared_names_without_memory(rt: HostRuntime) -> Result<(), Fail> {
    let mut names = Names::new(rt.alloc());
    assert!(rt; is_added_here(&mut names, &[], b"A")?);
    assert!(rt; is_added_here(&mut names, &[b"A"], b"B")?);
    assert!(rt; is_added_here(&mut names, &[b"A", b"B"], b"C")?);
    assert!(rt; are_names(&names, &[b"A", b"B", b"C"]));
    Ok(())
}
