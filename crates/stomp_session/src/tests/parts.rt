//! Which open subscriptions asked for parts.

use super::client::{Client, Pairs};
use std::alloc::Global;
use std::test::Fail;
use stomp_frame::{Command, NoMemory};

/// The headers of a SUBSCRIBE of `a`, and whether its subscription asked for parts.
const SUBSCRIBES: &[(Pairs, bool)] = &[
    (&[(b"id", b"a"), (b"destination", b"A")], false),
    (
        &[(b"id", b"a"), (b"destination", b"A"), (b"part", b"yes")],
        true,
    ),
    (
        &[(b"part", b"no"), (b"id", b"a"), (b"destination", b"A")],
        false,
    ),
    (
        &[(b"id", b"a"), (b"destination", b"A"), (b"part", b"")],
        false,
    ),
    (
        &[(b"id", b"a"), (b"destination", b"A"), (b"part", b"YES")],
        false,
    ),
    (
        &[(b"id", b"a"), (b"destination", b"A"), (b"part", b"yes ")],
        false,
    ),
    (
        &[(b"id", b"a"), (b"destination", b"A"), (b"Part", b"yes")],
        false,
    ),
    (
        &[
            (b"part", b"yes"),
            (b"id", b"a"),
            (b"destination", b"A"),
            (b"part", b"no"),
        ],
        true,
    ),
    (
        &[
            (b"part", b"no"),
            (b"id", b"a"),
            (b"destination", b"A"),
            (b"part", b"yes"),
        ],
        false,
    ),
];

/// What such a SUBSCRIBE is answered, and whether `a` then asked for parts.
fn told(alloc: Global, pairs: Pairs) -> Result<(u32, bool), NoMemory> {
    let mut client = Client::begun(alloc)?;
    let number = client.tell(Command::Subscribe, pairs)?;
    Ok((number, client.asks_parts(b'a')))
}

/// It is accepted whatever its `part` is; the first one counts, and only `yes` asks.
#[test]
fn a_subscribe_asks_for_parts(rt: HostRuntime) -> Result<(), Fail> {
    for &(pairs, want) in SUBSCRIBES {
        let told = told(rt.alloc(), pairs)?;
        assert!(rt; told == (0, want));
    }
    Ok(())
}

/// The header of a letter: one that asks, one that doesn't, and another header.
fn header(letter: u8) -> (&'static [u8], &'static [u8]) {
    match letter {
        b'y' => (b"part", b"yes"),
        b'n' => (b"part", b"no"),
        _ => (b"x-part", b"yes"),
    }
}

/// A SUBSCRIBE of this id to `A` with this header.
fn subscribe_with<'a>(
    client: &mut Client,
    id: &'a [u8],
    name: &'a [u8],
    value: &'a [u8],
) -> Result<u32, NoMemory> {
    let pairs: Pairs = &[(b"id", id), (b"destination", b"A"), (name, value)];
    client.tell(Command::Subscribe, pairs)
}

/// A SUBSCRIBE of this id to `A` with the header of a letter.
fn subscribe(client: &mut Client, id: u8, letter: u8) -> Result<u32, NoMemory> {
    let (name, value) = header(letter);
    subscribe_with(client, &[id], name, value)
}

/// A frame in three letters, as `Client::letters` has it, but for a SUBSCRIBE, whose third letter is that of its header;
/// `x` is an end from outside.
fn put(client: &mut Client, letter: u8, id: u8, third: u8) -> Result<u32, NoMemory> {
    match letter {
        b's' => subscribe(client, id, third),
        b'x' => {
            client.end();
            Ok(0)
        }
        _ => client.letters(letter, id, third),
    }
}

/// Whether `a` and `b` asked for parts after a script, whatever its frames are answered.
fn asks_after(alloc: Global, script: &[u8]) -> Result<(bool, bool), NoMemory> {
    let mut client = Client::begun(alloc)?;
    for frame in script.chunks(4) {
        if let [letter, id, third, ..] = frame {
            put(&mut client, *letter, *id, *third)?;
        }
    }
    Ok((client.asks_parts(b'a'), client.asks_parts(b'b')))
}

/// Scripts, and whether `a` and `b` asked for parts after them: an id that isn't open didn't, one that is subscribed anew
/// did as the last SUBSCRIBE says, and none did once the session is closed, by a refusal, by a DISCONNECT and from
/// outside.
const SCRIPTS: &[(&[u8], bool, bool)] = &[
    (b"", false, false),
    (b"say", true, false),
    (b"sa.", false, false),
    (b"say,sbn", true, false),
    (b"san,sby", false, true),
    (b"say,ua.", false, false),
    (b"say,ua.,san", false, false),
    (b"san,ua.,say", true, false),
    (b"say,sby,ua.", false, true),
    (b"say,sby,ua.,sa.", false, true),
    (b"say,mBx,ex.,bx.", true, false),
    (b"say,sa.", false, false),
    (b"say,uq.", false, false),
    (b"say,d..", false, false),
    (b"say,x..", false, false),
];

#[test]
fn an_open_subscription_asked(rt: HostRuntime) -> Result<(), Fail> {
    for &(script, first, second) in SCRIPTS {
        let told = asks_after(rt.alloc(), script)?;
        assert!(rt; told == (first, second));
    }
    Ok(())
}

/// Whether each of 64 ids asked for parts just where it is odd, and isn't a multiple of 3.
fn are_asked(client: &Client) -> bool {
    for id in 1..65u8 {
        if client.asks_parts(id) != (id % 2 == 1 && id % 3 != 0) {
            return false;
        }
    }
    true
}

/// Of 64 subscriptions each second one asks for parts, and each third one is then ended: whether that is said of all.
fn are_asked_at_the_limit(alloc: Global) -> Result<bool, NoMemory> {
    let mut client = Client::begun(alloc)?;
    for id in 1..65u8 {
        let letter = if id % 2 == 1 { b'y' } else { b'n' };
        if subscribe(&mut client, id, letter)? != 0 {
            return Ok(false);
        }
    }
    for id in 1..65u8 {
        if id % 3 == 0 {
            client.letters(b'u', id, b' ')?;
        }
    }
    Ok(are_asked(&client))
}

#[test]
fn each_of_sixty_four_asked(rt: HostRuntime) -> Result<(), Fail> {
    assert!(rt; are_asked_at_the_limit(rt.alloc())?);
    Ok(())
}
