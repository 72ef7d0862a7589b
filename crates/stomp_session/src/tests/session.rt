//! The session's table: one row for each refusal but out of memory; and the messages of faults.

ghost use Rattle.stomp_frame.specs.Headers.{IsText};

use super::client::{Client, Pairs, has, last_number, step_after};
use crate::{Action, SessionFault, Step};
use mcast_txn::Topic;
use std::alloc::Global;
use std::test::Fail;
use stomp_frame::{Command, NoMemory, Octets, ServerFrame, render, write_frame};

/// Scripts, each with the number that its last frame is answered: 0 where it's accepted.
const ROWS: &[(&[u8], u32)] = &[
    (b"saA", 60),
    (b"c..,c..", 61),
    (b"c..,saA,saB", 63),
    (b"c..,saA,ua.,saB", 0),
    (b"c..,uq.", 64),
    (b"c..,saq", 0),
    (b"c..,sa ", 76),
    (b"c..,sa\x7f", 76),
    (b"c..,saA,sa ", 76),
    (b"c..,saA,saq", 63),
    (b"c..,bx.,bx.", 65),
    (b"c..,bx.,ex.,bx.", 0),
    (b"c..,bx.,ax.,bx.", 0),
    (b"c..,eq.", 66),
    (b"c..,aq.", 66),
    (b"c..,bx.,ex.,ex.", 66),
    (b"c..,bx.,ax.,ex.", 66),
    (b"c..,mAx", 66),
    (b"c..,m x", 76),
    (b"c..,mqx", 66),
    (b"c..,bx.,mqx", 0),
    (b"c..,bx.,mAx,ex.", 0),
    (b"c..,bx.,mAy", 66),
    (b"c..,d..", 0),
    (b"c..,d..,saA", 73),
    (b"bx.", 60),
];

#[test]
fn the_table(rt: HostRuntime) -> Result<(), Fail> {
    for &(script, want) in ROWS {
        let told = last_number(rt.alloc(), script)?;
        assert!(rt; told == want);
    }
    Ok(())
}

/// What a CONNECT of these versions is answered.
fn connected(alloc: Global, versions: &[u8]) -> Result<u32, NoMemory> {
    let mut client = Client::new(alloc)?;
    client.connect(versions)
}

/// Versions, each with the number that a CONNECT of them is answered: 0 where it's accepted.
const VERSIONS: &[(&[u8], u32)] = &[
    (b"1.2", 0),
    (b"1.0, 1.2", 0),
    (b"1.0,1.1,1.2", 0),
    (b" 1.2 ", 0),
    (b"1.1", 62),
    (b"11.2", 62),
    (b"", 62),
];

#[test]
fn versions(rt: HostRuntime) -> Result<(), Fail> {
    for &(versions, want) in VERSIONS {
        let told = connected(rt.alloc(), versions)?;
        assert!(rt; told == want);
    }
    Ok(())
}

/// What a SUBSCRIBE of this ack to this destination is answered.
fn subscribed<'a>(alloc: Global, ack: &'a [u8], destination: &'a [u8]) -> Result<u32, NoMemory> {
    let mut client = Client::begun(alloc)?;
    let pairs: Pairs = &[(b"id", b"a"), (b"destination", destination), (b"ack", ack)];
    client.tell(Command::Subscribe, pairs)
}

/// Acks and destinations, each with the number that a SUBSCRIBE of them is answered: 0 where it's accepted.
const ACKS: &[(&[u8], &[u8], u32)] = &[
    (b"auto", b"A", 0),
    (b"client", b"A B", 68),
    (b"auto", b"A B", 76),
    (b"auto", b"", 76),
];

#[test]
fn an_ack_is_auto(rt: HostRuntime) -> Result<(), Fail> {
    for &(ack, destination, want) in ACKS {
        let told = subscribed(rt.alloc(), ack, destination)?;
        assert!(rt; told == want);
    }
    Ok(())
}

/// The answer to a SUBSCRIBE after an end from outside, or after a refused UNSUBSCRIBE.
fn answer_once_closed(alloc: Global, is_ended: bool) -> Result<u32, NoMemory> {
    let mut client = Client::begun(alloc)?;
    if is_ended {
        client.end();
    } else {
        client.letters(b'u', b'q', b' ')?;
    }
    client.letters(b's', b'a', b'A')
}

#[test]
fn a_fault_and_an_end_close(rt: HostRuntime) -> Result<(), Fail> {
    for is_ended in [false, true] {
        let told = answer_once_closed(rt.alloc(), is_ended)?;
        assert!(rt; told == 73);
    }
    Ok(())
}

/// The answer to a SEND in `x`, or to a SUBSCRIBE or a BEGIN with this id.
fn answer_to(client: &mut Client, letter: u8, id: u8) -> Result<u32, NoMemory> {
    if letter == b'm' {
        client.letters(b'm', b'A', b'x')
    } else {
        client.letters(letter, id, b'A')
    }
}

/// How many of 64 frames are accepted after the script, and the answer to one more.
fn answers_at_the_limit(alloc: Global, script: &[u8], letter: u8) -> Result<(u32, u32), NoMemory> {
    let mut client = Client::after(alloc, script)?;
    let mut accepted = 0u32;
    for id in 1..65u8 {
        if answer_to(&mut client, letter, id)? == 0 {
            accepted = accepted.wrapping_add(1);
        }
    }
    Ok((accepted, answer_to(&mut client, letter, 65)?))
}

/// Scripts, what is then opened or sent, and the number of its refusal.
const LIMITS: &[(&[u8], u8, u32)] = &[
    (b"c..", b's', 69),
    (b"c..", b'b', 70),
    (b"c..,bx.", b'm', 71),
];

/// Each of the first 64 subscriptions, transactions, and SENDs in a transaction is accepted, and the 65th is refused.
#[test]
fn at_most_sixty_four(rt: HostRuntime) -> Result<(), Fail> {
    for &(script, letter, want) in LIMITS {
        let told = answers_at_the_limit(rt.alloc(), script, letter)?;
        assert!(rt; told == (64, want));
    }
    Ok(())
}

/// Whether the action is to open a subscription of this id at this topic.
fn subscribes(action: &Action, id: &[u8], topic: Topic) -> bool {
    match action {
        Action::Subscribe(own, at) => own.as_slice() == id && *at == topic,
        _ => false,
    }
}

/// Whether there is a step that opens a subscription of this id at this topic, and has this receipt.
fn subscribes_with(step: Option<Step>, id: &[u8], topic: Topic, want: &[u8]) -> bool {
    let Some(Step { action, receipt }) = step else {
        return false;
    };
    let subscribes = subscribes(&action, id, topic);
    drop(action);
    subscribes && has(&receipt, want)
}

#[test]
fn a_subscription_has_its_receipt(rt: HostRuntime) {
    let pairs: Pairs = &[(b"id", b"s"), (b"destination", b"B"), (b"receipt", b"r")];
    let step = step_after(rt.alloc(), b"c..,bx.", Command::Subscribe, pairs);
    assert!(rt; subscribes_with(step, b"s", Topic(1), b"r"));
}

/// Whether there is a step that answers a CONNECT without a client-id, and has no receipt.
fn connects_without(step: Option<Step>) -> bool {
    let Some(Step { action, receipt }) = step else {
        return false;
    };
    let connects = matches!(&action, Action::Connected(None));
    drop(action);
    connects && receipt.is_none()
}

#[test]
fn a_stomp_has_none(rt: HostRuntime) {
    let pairs: Pairs = &[
        (b"accept-version", b"1.2"),
        (b"host", b"h"),
        (b"receipt", b"r"),
    ];
    let step = step_after(rt.alloc(), b"", Command::Stomp, pairs);
    assert!(rt; connects_without(step));
}

/// The octets of a RECEIPT with this id.
fn receipt_text(alloc: Global, id: Octets) -> Result<Octets, NoMemory>
    requires { IsText id }
{
    let frame = render(alloc, &ServerFrame::Receipt { id: id.as_slice() })?;
    let mut out = Octets::new(alloc);
    write_frame(&frame, &mut out)?;
    Ok(out)
}

/// The octets of the RECEIPT of a SUBSCRIBE.
fn written(alloc: Global) -> Option<Octets> {
    let mut client = Client::begun(alloc).ok()?;
    let pairs: Pairs = &[(b"id", b"s"), (b"destination", b"A"), (b"receipt", b"r")];
    let id = client.receipt(Command::Subscribe, pairs)?;
    receipt_text(alloc, id).ok()
}

#[test]
fn a_receipt_is_written(rt: HostRuntime) {
    let text = written(rt.alloc());
    assert!(rt; has(&text, b"RECEIPT\nreceipt-id:r\n\n\0"));
}

/// Each fault, its number and its title.
const FAULTS: &[(SessionFault, u32, &[u8])] = &[
    (SessionFault::NotConnected, 60, b"60 NotConnected"),
    (SessionFault::AlreadyConnected, 61, b"61 AlreadyConnected"),
    (SessionFault::NoVersion, 62, b"62 NoVersion"),
    (SessionFault::SubIdInUse, 63, b"63 SubIdInUse"),
    (SessionFault::NoSuchSub, 64, b"64 NoSuchSub"),
    (SessionFault::TxnInUse, 65, b"65 TxnInUse"),
    (SessionFault::NoSuchTxn, 66, b"66 NoSuchTxn"),
    (SessionFault::AckMode, 68, b"68 AckMode"),
    (SessionFault::TooManySubs, 69, b"69 TooManySubs"),
    (SessionFault::TooManyTxns, 70, b"70 TooManyTxns"),
    (SessionFault::TooManySends, 71, b"71 TooManySends"),
    (SessionFault::NoMemory, 72, b"72 NoMemory"),
    (SessionFault::Closed, 73, b"73 Closed"),
    (SessionFault::TooManyTopics, 75, b"75 TooManyTopics"),
    (SessionFault::BadDestination, 76, b"76 BadDestination"),
];

/// Whether a fault has this number, this title, and a message that begins with the title.
fn is_titled(alloc: Global, fault: SessionFault, number: u32, title: &[u8]) -> bool {
    let Ok(message) = format!(in alloc; "{fault}") else {
        return false;
    };
    fault.number() == number && fault.title() == title && message.as_bytes().starts_with(title)
}

#[test]
fn faults_have_their_titles(rt: HostRuntime) {
    for &(fault, number, title) in FAULTS {
        assert!(rt; is_titled(rt.alloc(), fault, number, title), "{number}");
    }
}
