//! Worked examples of the definitions, the calls with ample memory, and their answers without it.

use crate::{EscapeFault, NoMemory, Octets, escape, escape_at, escape_into, unescape};
use std::alloc::Global;

/// The four octets that have an escape, and the text that spells them.
const ESCAPED_OCTETS: &[u8] = b"\r\n:\\";

const FOUR_ESCAPES: &[u8] = b"\\r\\n\\c\\\\";

/// Texts that spell no value, each with its first fault from the left and that fault's number.
const FAULTY: &[(&[u8], EscapeFault, u32)] = &[
    (b"\\t", EscapeFault::Undefined(0), 1),
    (b"a\\", EscapeFault::Cut, 2),
    (b"\\", EscapeFault::Cut, 2),
    (b"ab\\x\\", EscapeFault::Undefined(2), 1),
    (b"\\\\\\", EscapeFault::Cut, 2),
    (b"\\c\\C\\t", EscapeFault::Undefined(2), 1),
    (b"\\\\\\R", EscapeFault::Undefined(2), 1),
];

/// Whether the octets are these.
fn is(octets: &Octets, want: &[u8]) -> bool {
    octets.as_slice() == want
}

/// Values, and the texts that they are written as.
const ESCAPED: &[(&[u8], &[u8])] = &[
    (ESCAPED_OCTETS, FOUR_ESCAPES),
    (b"a:\\\n", b"a\\c\\\\\\n"),
    (b"", b""),
    (b"plain", b"plain"),
    (b"\0\t\x7f\xc3\xa9\xff", b"\0\t\x7f\xc3\xa9\xff"),
];

/// Whether a value is written as this text, and the text is read as the value; nothing out of memory.
fn is_there_and_back(alloc: Global, value: &[u8], text: &[u8]) -> Option<bool> {
    let written = escape(alloc, value).ok()?;
    let read = unescape(alloc, text).ok()?;
    Some(is(&written, text) && is(&read, value))
}

#[test]
fn escapes_there_and_back(rt: HostRuntime) {
    for &(value, text) in ESCAPED {
        assert!(rt; is_there_and_back(rt.alloc(), value, text) == Some(true));
    }
}

/// Whether a value of at most 15 octets is written as this text into a line, after two octets that are there.
fn is_written_at(value: &[u8], text: &[u8]) -> bool {
    let mut line = [b'-'; 32];
    if value.len() > 15 {
        return false;
    }
    let end = escape_at(value, &mut line, 2);
    end >= 2 && &line[..2] == b"--".as_slice() && &line[2..end] == text
}

#[test]
fn escapes_into_a_line(rt: HostRuntime) {
    for &(value, text) in ESCAPED {
        assert!(rt; is_written_at(value, text));
    }
}

/// Whether a text is read as itself.
fn is_read_as_it_is(alloc: Global, text: &[u8]) -> bool {
    match unescape(alloc, text) {
        Ok(read) => is(&read, text),
        Err(_) => false,
    }
}

/// A raw colon, CR or LF is read as itself.
#[test]
fn raw_octets(rt: HostRuntime) {
    for &text in &[b":".as_slice(), b"a:b", b"\r\n"] {
        assert!(rt; is_read_as_it_is(rt.alloc(), text));
    }
}

/// All octets, rising.
fn all_octets(alloc: Global) -> Option<Octets> {
    let mut value = Octets::new(alloc);
    for octet in 0..=255u8 {
        value.push(octet).ok()?;
    }
    Some(value)
}

/// How many octets the text of all octets has, and whether it is read as they are.
fn all_there_and_back(alloc: Global) -> Option<(usize, bool)> {
    let value = all_octets(alloc)?;
    let text = escape(alloc, value.as_slice()).ok()?;
    let read = unescape(alloc, text.as_slice()).ok()?;
    Some((text.len(), is(&read, value.as_slice())))
}

#[test]
fn all_octets_come_back(rt: HostRuntime) {
    assert!(rt; all_there_and_back(rt.alloc()) == Some((260, true)));
}

/// The fault of a text, if it has one.
fn fault_of(alloc: Global, text: &[u8]) -> Option<EscapeFault> {
    unescape(alloc, text).err()
}

#[test]
fn the_first_fault_is_returned(rt: HostRuntime) {
    for &(text, fault, number) in FAULTY {
        assert!(rt; fault_of(rt.alloc(), text) == Some(fault) && fault.number() == number);
    }
    assert!(rt; EscapeFault::NoMemory.number() == 3);
}

/// Appends `k=` and the text of `a:b`.
fn append_pair(octets: &mut Octets) -> Result<(), NoMemory> {
    octets.push(b'k')?;
    octets.extend(b"=")?;
    escape_into(b"a:b", octets)
}

/// Whether a copy of the octets is the same, and isn't empty.
fn is_copied(alloc: Global, octets: &Octets) -> Result<bool, NoMemory> {
    let copy = Octets::from_slice(alloc, octets.as_slice())?;
    Ok(is(&copy, octets.as_slice()) && !copy.is_empty())
}

/// Whether there are still six octets after a cut to nine, and `k=` after one to two.
fn is_cut(octets: &mut Octets) -> bool {
    octets.truncate(9);
    let len = octets.len();
    octets.truncate(2);
    len == 6 && is(octets, b"k=")
}

/// Whether an empty list grows by such a pair, is copied and is cut.
fn grows(alloc: Global) -> Result<bool, NoMemory> {
    let mut octets = Octets::with_capacity(alloc, 2)?;
    let is_empty = octets.is_empty() && Octets::new(alloc).is_empty();
    append_pair(&mut octets)?;
    let is_pair = is(&octets, b"k=a\\cb") && octets.len() == 6;
    let is_copied = is_copied(alloc, &octets)?;
    Ok(is_empty && is_pair && is_copied && is_cut(&mut octets))
}

#[test]
fn octets_grow(rt: HostRuntime) {
    assert!(rt; grows(rt.alloc()) == Ok(true));
}

/// Each fault, and its message.
const MESSAGES: &[(EscapeFault, &str)] = &[
    (
        EscapeFault::Undefined(2),
        "1 Undefined: at octet 2, write a backslash only before r, n, c or another backslash",
    ),
    (
        EscapeFault::Cut,
        "2 Cut: write a backslash at the end of the text as two",
    ),
    (
        EscapeFault::NoMemory,
        "3 NoMemory: try again where more memory is free, or send less",
    ),
];

/// Whether this is the fault's message.
fn says(alloc: Global, fault: EscapeFault, message: &str) -> bool {
    match fault.to_string(alloc) {
        Ok(text) => text.as_str() == message,
        Err(_) => false,
    }
}

/// Whether this is the message where there is no memory.
fn says_no_memory(alloc: Global, message: &str) -> bool {
    match NoMemory.to_string(alloc) {
        Ok(text) => text.as_str() == message,
        Err(_) => false,
    }
}

#[test]
fn faults_say_what_to_do(rt: HostRuntime) {
    for &(fault, message) in MESSAGES {
        assert!(rt; says(rt.alloc(), fault, message), "{message}");
    }
    let message = "NoMemory: try again where more memory is free, or send less";
    assert!(rt; says_no_memory(rt.alloc(), message));
}

/// The letters, as many as a list holds in its own value and one more.
const LETTERS: &[u8] = b"abcdefghijklmnopqrstuvwxy";

/// Whether a list of the first `len` letters, and then of two more octets, holds just these.
fn grows_from(alloc: Global, len: usize) -> Result<bool, NoMemory> {
    let front = &LETTERS[..len.min(LETTERS.len())];
    let mut octets = Octets::from_slice(alloc, front)?;
    let made = is(&octets, front);
    octets.push(b'-')?;
    octets.extend(b":")?;
    let last = &octets.as_slice()[octets.len().saturating_sub(2)..];
    let grown = last == b"-:".as_slice() && octets.len() == front.len() + 2;
    octets.truncate(front.len());
    Ok(made && grown && is(&octets, front))
}

/// Whether a list that is made with room for `len` octets takes all letters, one by one and at once.
fn takes_letters(alloc: Global, len: usize) -> Result<bool, NoMemory> {
    let mut pushed = Octets::with_capacity(alloc, len)?;
    for letter in LETTERS {
        pushed.push(*letter)?;
    }
    let mut extended = Octets::with_capacity(alloc, len)?;
    extended.extend(LETTERS)?;
    Ok(is(&pushed, LETTERS) && is(&extended, LETTERS))
}

/// Up to 24 octets lie in a list's own value: it stays what it is where it outgrows that.
#[test]
fn octets_outgrow_their_value(rt: HostRuntime) {
    for len in 0..=25 {
        assert!(rt; grows_from(rt.alloc(), len) == Ok(true), "{len}");
    }
    for &len in &[24, 25] {
        assert!(rt; takes_letters(rt.alloc(), len) == Ok(true), "{len}");
    }
}

/// Whether a list of at most so many octets of a text has its first ones; all of it where it has no more.
fn is_front(alloc: Global, text: &[u8], len: usize) -> Result<bool, NoMemory> {
    let front = Octets::from_front(alloc, text, len)?;
    Ok(is(&front, &text[..len.min(text.len())]))
}

/// The first octets of a text that is shorter or longer than what lies in a list's own value, or of the same length.
#[test]
fn fronts_are_copied(rt: HostRuntime) {
    for &text in &[&LETTERS[..7], &LETTERS[..24], LETTERS] {
        for len in 0..=30 {
            assert!(rt; is_front(rt.alloc(), text, len) == Ok(true), "{len}");
        }
    }
}

/// Octets that repeat a piece.
fn repeated(alloc: Global, piece: &[u8], count: usize) -> Result<Octets, NoMemory> {
    let mut octets = Octets::new(alloc);
    for _ in 0..count {
        octets.extend(piece)?;
    }
    Ok(octets)
}

/// So many octets `x`, with a piece instead of the one at this index.
fn with_piece(alloc: Global, len: usize, index: usize, piece: &[u8]) -> Result<Octets, NoMemory> {
    let mut octets = repeated(alloc, b"x", index)?;
    octets.extend(piece)?;
    for _ in index.saturating_add(1)..len {
        octets.push(b'x')?;
    }
    Ok(octets)
}

/// Whether a value with such an octet at this index is written with this escape there, and read again.
fn is_escaped_at(
    alloc: Global,
    len: usize,
    index: usize,
    pair: (&[u8], &[u8]),
) -> Result<bool, NoMemory> {
    let value = with_piece(alloc, len, index, pair.0)?;
    let text = with_piece(alloc, len, index, pair.1)?;
    let escaped = escape(alloc, value.as_slice())?;
    let same = unescape(alloc, text.as_slice()).is_ok_and(|read| is(&read, value.as_slice()));
    Ok(is(&escaped, text.as_slice()) && same)
}

/// An octet and its escape, or an octet that has none.
const PIECES: &[(&[u8], &[u8])] = &[
    (b"\r", b"\\r"),
    (b"\n", b"\\n"),
    (b":", b"\\c"),
    (b"\\", b"\\\\"),
    (b";", b";"),
    (b"\xff", b"\xff"),
];

/// Octets are escaped 32 at a time and read 64 at a time: values of about these lengths, with an octet of each kind
/// at each index.
#[test]
fn escapes_at_each_index(rt: HostRuntime) {
    for &len in &[1usize, 31, 32, 33, 65] {
        for index in 0..len {
            for &pair in PIECES {
                assert!(rt;
                    is_escaped_at(rt.alloc(), len, index, pair) == Ok(true),
                    "{index} of {len}"
                );
            }
        }
    }
}

/// The fault of a text of 80 octets with an undefined escape at this index, and that of one which is cut there.
fn faults_at(alloc: Global, index: usize) -> Result<[Option<EscapeFault>; 2], NoMemory> {
    let undefined = with_piece(alloc, 80, index, b"\\t")?;
    let cut = with_piece(alloc, index, index, b"\\")?;
    Ok([
        fault_of(alloc, undefined.as_slice()),
        fault_of(alloc, cut.as_slice()),
    ])
}

/// Texts are read 64 octets at a time: a fault has its index in the whole text.
#[test]
fn faults_at_each_index(rt: HostRuntime) {
    for index in 60..70 {
        let faults = [Some(EscapeFault::Undefined(index)), Some(EscapeFault::Cut)];
        assert!(rt; faults_at(rt.alloc(), index) == Ok(faults), "{index}");
    }
}

/// How many octets a value of 1,024 times those with escapes has, and its text, and whether one is written as the other
/// and read again.
fn long_there_and_back(alloc: Global) -> Option<(usize, usize, bool)> {
    let value = repeated(alloc, ESCAPED_OCTETS, 1024).ok()?;
    let text = repeated(alloc, FOUR_ESCAPES, 1024).ok()?;
    let is_same = is_there_and_back(alloc, value.as_slice(), text.as_slice())?;
    Some((value.len(), text.len(), is_same))
}

/// A value of 4,096 octets that all have escapes is written as 8,192 octets, and read again.
#[test]
fn memory_is_enough_for_long_escapes(rt: HostRuntime) {
    assert!(rt; long_there_and_back(rt.alloc()) == Some((4096, 8192, true)));
}

/// Forty octets that have escapes, and the text that spells them: neither fits in a list's own value.
const LONG_VALUE: &[u8] = b"\r\n:\\\r\n:\\\r\n:\\\r\n:\\\r\n:\\\r\n:\\\r\n:\\\r\n:\\\r\n:\\\r\n:\\";

const LONG_TEXT: &[u8] =
    b"\\r\\n\\c\\\\\\r\\n\\c\\\\\\r\\n\\c\\\\\\r\\n\\c\\\\\\r\\n\\c\\\\\\r\\n\\c\\\\\\r\\n\\c\\\\\\r\\n\\c\\\\\\r\\n\\c\\\\\\r\\n\\c\\\\";

/// Whether what is made is this, where there was memory for it.
fn is_made(made: Result<Octets, NoMemory>, want: &[u8]) -> bool {
    match made {
        Ok(octets) => is(&octets, want),
        Err(NoMemory) => true,
    }
}

/// Whether the long text is read as its value, or else memory ran out.
fn is_long_read(alloc: Global) -> bool {
    match unescape(alloc, LONG_TEXT) {
        Ok(value) => is(&value, LONG_VALUE),
        Err(fault) => fault == EscapeFault::NoMemory,
    }
}

/// Holds whichever allocation fails: the answer is then `NoMemory`, and never another one.
#[test]
fn out_of_memory_changes_no_answer(rt: HostRuntime) {
    let alloc = rt.alloc();
    assert!(rt; is_made(escape(alloc, LONG_VALUE), LONG_TEXT) && is_long_read(alloc));
    for &(text, fault, _) in FAULTY {
        let found = fault_of(alloc, text);
        assert!(rt; found == Some(fault) || found == Some(EscapeFault::NoMemory));
    }
    assert!(rt; is_made(Octets::from_slice(alloc, LONG_TEXT), LONG_TEXT));
}

/// Appends an octet, and two more; how many were taken.
fn take_three(octets: &mut Octets) -> u64 {
    let one = if octets.push(b'x').is_ok() { 1 } else { 0 };
    let two = if octets.extend(b"yz").is_ok() { 2 } else { 0 };
    one + two
}

/// Appends three octets a hundred times; whether the list has as many as were taken, each time.
fn has_taken(octets: &mut Octets) -> bool {
    let mut taken = 0u64;
    for _ in 0..100u8 {
        taken = taken.saturating_add(take_three(octets));
        if octets.len() as u64 != taken {
            return false;
        }
    }
    true
}

/// Appends the text of `a:b`; whether its front is there, and all of it where memory was enough.
fn has_front(octets: &mut Octets) -> bool {
    let before = octets.len();
    let whole = escape_into(b"a:b", octets).is_ok();
    let written = &octets.as_slice()[before..];
    b"a\\cb".starts_with(written) && (!whole || written.len() == 4)
}

/// Holds whichever allocation fails: what was not taken leaves the list as it was.
#[test]
fn out_of_memory_leaves_octets(rt: HostRuntime) {
    let mut octets = Octets::with_capacity(rt.alloc(), 1).unwrap_or(Octets::new(rt.alloc()));
    assert!(rt; has_taken(&mut octets) && has_front(&mut octets));
}
