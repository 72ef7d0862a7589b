//! Topics that are made on their first use.

use super::client::{Client, Pairs, many_names, step_after};
use crate::{Action, Names, Step};
use mcast_txn::Topic;
use std::alloc::Global;
use std::test::Fail;
use stomp_frame::{Command, NoMemory};

/// The number of the topic of a SUBSCRIBE of this id to this destination; 1000 where it is refused.
fn subscribed(client: &mut Client, id: &[u8], destination: &[u8]) -> Result<u32, NoMemory> {
    let pairs: Pairs = &[(b"id", id), (b"destination", destination)];
    let answer = client.answer(Command::Subscribe, pairs)?;
    Ok(number_of(answer.ok()))
}

/// The number of the topic of a subscription; 1000 where the frame was refused, or isn't a SUBSCRIBE.
fn number_of(step: Option<Step>) -> u32 {
    let number = match &step {
        Some(
            Step {
                action: Action::Subscribe(_, topic),
                receipt: _,
            },
        ) => topic.0,
        _ => 1000,
    };
    drop(step);
    number
}

/// Destinations, in the order of their SUBSCRIBEs, and the numbers of their topics: `b` and `a` were named before.
const NUMBERED: &[(&[u8], u32)] = &[(b"a", 3), (b"b", 2), (b"A", 0), (b"a/c", 4), (b"B", 1)];

/// Whether a SUBSCRIBE to each of these destinations is told its number.
fn are_numbered(client: &mut Client) -> Result<bool, NoMemory> {
    for &(destination, want) in NUMBERED {
        if subscribed(client, destination, destination)? != want {
            return Ok(false);
        }
    }
    Ok(true)
}

/// Whether there are five topics, and the last one has its name.
fn are_five(names: &Names) -> bool {
    names.len() == 5 && names.name(Topic(4)) == Some(b"a/c".as_slice())
}

/// Whether they are told their numbers in one connection, and again in another that is accepted, and make five topics.
fn are_numbered_twice(client: &mut Client) -> Result<bool, NoMemory> {
    let is_first = are_numbered(client)?;
    let is_connected = client.reconnect()? == 0;
    Ok(is_first && is_connected && are_numbered(client)? && are_five(client.names()))
}

/// A destination of another case is another topic; one that was named before keeps its number, in another connection,
/// too, and a topic whose transaction was aborted stays.
#[test]
fn topics_are_numbered_by_first_use(rt: HostRuntime) -> Result<(), Fail> {
    let mut client = Client::after(rt.alloc(), b"c..,bx.,mbx,mAx,max,ax.")?;
    assert!(rt; are_numbered_twice(&mut client)?);
    Ok(())
}

/// What the last frame of a script is answered after a CONNECT, whatever those before it are.
fn last_answer(client: &mut Client, script: &[u8]) -> Result<u32, NoMemory> {
    let mut last = client.connect(b"1.2")?;
    for frame in script.chunks(4) {
        if let [letter, x, y, ..] = frame {
            last = client.letters(*letter, *x, *y)?;
        }
    }
    Ok(last)
}

/// How many topics there are after a script, and the number of the next one, `r`, in another connection.
fn topics_after(alloc: Global, script: &[u8]) -> Result<(usize, u32), NoMemory> {
    let mut client = Client::new(alloc)?;
    last_answer(&mut client, script)?;
    let count = client.names().len();
    client.reconnect()?;
    Ok((count, subscribed(&mut client, b"a", b"r")?))
}

/// Scripts whose last frame is refused.
const REFUSED: &[&[u8]] = &[b"saA,saq", b"sa ", b"mqx", b"m x"];

/// A refused frame makes no topic: its destination's number goes to the next one.
#[test]
fn a_refused_frame_makes_no_topic(rt: HostRuntime) -> Result<(), Fail> {
    for script in REFUSED {
        let told = topics_after(rt.alloc(), script)?;
        assert!(rt; told == (2, 2));
    }
    Ok(())
}

/// What the last frame of a script is answered where there are as many topics.
fn answer_among(alloc: Global, topics: usize, script: &[u8]) -> Result<u32, NoMemory> {
    let mut client = Client::of(alloc, many_names(alloc, topics)?);
    last_answer(&mut client, script)
}

/// How many topics there are before a script, and what its last frame is answered.
const AMONG: &[(usize, &[u8], u32)] = &[
    (1_023, b"saq", 0),
    (1_023, b"saq,sbq", 0),
    (1_023, b"saq,sar", 75),
    (1_024, b"saq", 75),
    (1_024, b"mqx", 75),
    (1_024, b"sa ", 76),
    (1_023, b"bx.,mqx,mrx", 75),
];

/// The 1,025th topic isn't made. A bad destination is told before that, and that before an unknown transaction or an
/// open subscription.
#[test]
fn at_most_1024_topics(rt: HostRuntime) -> Result<(), Fail> {
    for &(topics, script, want) in AMONG {
        let told = answer_among(rt.alloc(), topics, script)?;
        assert!(rt; told == want);
    }
    Ok(())
}

/// The numbers of the last and of the second of 1,024 topics, as SUBSCRIBEs are told them.
fn told_among_all(alloc: Global) -> Result<[u32; 2], NoMemory> {
    let mut client = Client::of(alloc, many_names(alloc, 1_024)?);
    client.connect(b"1.2")?;
    let last = subscribed(&mut client, b"a", b"__")?;
    Ok([last, subscribed(&mut client, b"b", b"@A")?])
}

/// A topic that is there may be named where there are 1,024.
#[test]
fn a_known_topic_is_no_topic_too_many(rt: HostRuntime) -> Result<(), Fail> {
    let told = told_among_all(rt.alloc())?;
    assert!(rt; told == [1_023, 1]);
    Ok(())
}

/// Whether the client-id of an accepted frame is this one, or there is none where this one is `?`.
fn has_client(step: &Step, want: &[u8]) -> bool {
    match &step.action {
        Action::Connected(Some(id)) => id.as_slice() == want,
        Action::Connected(None) => want == b"?".as_slice(),
        _ => false,
    }
}

/// Whether a session's first frame is accepted, and has such a client-id.
fn begins_with(alloc: Global, command: Command, pairs: Pairs, want: &[u8]) -> Option<bool> {
    let step = step_after(alloc, b"", command, pairs)?;
    let has_client = has_client(&step, want);
    drop(step);
    Some(has_client)
}

/// Frames, each with the client-id that its action has.
const CONNECTS: &[(Command, Pairs, &[u8])] = &[
    (
        Command::Connect,
        &[(b"accept-version", b"1.2"), (b"host", b"h")],
        b"?",
    ),
    (
        Command::Connect,
        &[
            (b"client-id", b"p"),
            (b"accept-version", b"1.2"),
            (b"host", b"h"),
            (b"receipt", b"r"),
        ],
        b"p",
    ),
    (
        Command::Connect,
        &[
            (b"accept-version", b"1.2"),
            (b"host", b"h"),
            (b"client-id", b"p"),
            (b"client-id", b"q"),
        ],
        b"p",
    ),
    (
        Command::Connect,
        &[
            (b"accept-version", b"1.2"),
            (b"host", b"h"),
            (b"client-id", b""),
        ],
        b"",
    ),
    (
        Command::Stomp,
        &[
            (b"accept-version", b"1.2"),
            (b"host", b"h"),
            (b"client-id", b"a\\b"),
        ],
        b"a\\b",
    ),
];

/// The first client-id counts, an empty one is one, and a STOMP may have one as a CONNECT may.
#[test]
fn a_client_id_is_in_the_action(rt: HostRuntime) {
    for &(command, pairs, want) in CONNECTS {
        assert!(rt; begins_with(rt.alloc(), command, pairs, want) == Some(true));
    }
}
