//! Names of topics.

use super::client::add_name;
use crate::found_last::FoundLast;
use crate::{Names, is_name};
use mcast_txn::Topic;
use std::test::Fail;
use stomp_frame::NoMemory;

/// How many names there are once this one is added, where there are few.
fn added(names: &mut Names, name: &[u8]) -> Result<usize, NoMemory> {
    add_name(names, name)?;
    Ok(names.len())
}

/// The number of this name's topic; 1000 where there is none.
fn found(names: &Names, name: &[u8]) -> u32 {
    match names.find(name) {
        Some(topic) => topic.0,
        None => 1000,
    }
}

/// Whether the topic of this number has this name.
fn has_name(names: &Names, number: u32, want: &[u8]) -> bool {
    match names.name(Topic(number)) {
        Some(name) => name == want,
        None => false,
    }
}

/// Whether there are as many names, once each of these is added, as beside it.
fn count_up(names: &mut Names, rows: &[(&[u8], usize)]) -> Result<bool, NoMemory> {
    for &(name, len) in rows {
        if added(names, name)? != len {
            return Ok(false);
        }
    }
    Ok(true)
}

/// Whether each of these has the number beside it, or none where that is 1000.
fn have_numbers(names: &Names, rows: &[(&[u8], u32)]) -> bool {
    for &(name, number) in rows {
        if found(names, name) != number {
            return false;
        }
    }
    true
}

/// Whether `A` and `B/b` are the names, in this order.
fn are_two(names: &Names) -> bool {
    have_numbers(names, &[(b"A", 0), (b"B/b", 1), (b"B", 1000)])
        && has_name(names, 1, b"B/b")
        && names.name(Topic(2)).is_none()
}

/// Whether there is no name at first, and then those two, of which one is added twice.
fn become_two(names: &mut Names) -> Result<bool, NoMemory> {
    let is_empty = names.is_empty();
    let count_up = count_up(names, &[(b"A", 1), (b"B/b", 2), (b"A", 2)])?;
    Ok(is_empty && count_up && are_two(names))
}

#[test]
fn names_are_numbered_from_zero(rt: HostRuntime) -> Result<(), Fail> {
    let mut names = Names::new(rt.alloc());
    assert!(rt; become_two(&mut names)?);
    Ok(())
}

/// Three names with their numbers, and one that isn't there.
const FOUR: &[(&[u8], u32)] = &[(b"A", 0), (b"B", 1), (b"C", 2), (b"D", 1000)];

/// Whether four are found as they are, one after another, each the one of these that a digit of this number to base 4 says.
fn are_found(names: &Names, order: usize) -> bool {
    let last = FoundLast::new();
    let mut rest = order;
    for _ in 0..4 {
        let Some(&(name, number)) = FOUR.get(rest % 4) else {
            return false;
        };
        let is_there = match names.find_by(&last, name) {
            Some(topic) => topic.0 == number,
            None => number == 1000,
        };
        if !is_there {
            return false;
        }
        rest /= 4;
    }
    true
}

/// What was found before changes nothing.
#[test]
fn names_are_found_in_any_order(rt: HostRuntime) -> Result<(), Fail> {
    let mut names = Names::new(rt.alloc());
    assert!(rt; count_up(&mut names, &[(b"A", 1), (b"B", 2), (b"C", 3)])?);
    for order in 0..256 {
        assert!(rt; are_found(&names, order));
    }
    Ok(())
}

/// Takes the last name away, where there is one.
fn take_back(names: &mut Names) {
    if names.len() > 0 {
        names.take_back();
    }
}

/// Takes the third name back: whether it isn't found then, and its number goes to the next one.
fn lose_the_third(names: &mut Names) -> Result<bool, NoMemory> {
    let count_up = count_up(names, &[(b"A", 1), (b"B", 2), (b"C", 3)])?;
    take_back(names);
    let is_lost = found(names, b"C") == 1000;
    let is_third = added(names, b"D")? == 3;
    let have_numbers = have_numbers(names, &[(b"A", 0), (b"B", 1), (b"C", 1000), (b"D", 2)]);
    Ok(count_up && is_lost && is_third && have_numbers)
}

/// A name that was taken back isn't found, and its number goes to the next one.
#[test]
fn the_last_name_is_taken_back(rt: HostRuntime) -> Result<(), Fail> {
    let mut names = Names::new(rt.alloc());
    assert!(rt; lose_the_third(&mut names)?);
    Ok(())
}

/// What may be the name of a topic that a frame makes.
const TEXTS: &[(&[u8], bool)] = &[
    (b"A", true),
    (b"!", true),
    (b"~", true),
    (b"/queue/a:b", true),
    (b"", false),
    (b" ", false),
    (b"A B", false),
    (b"A\n", false),
    (b"\x7f", false),
    (b"A\xc3\xa9", false),
    (b"\0", false),
];

#[test]
fn names_are_graphic(rt: HostRuntime) {
    for &(text, want) in TEXTS {
        assert!(rt; is_name(text) == want);
    }
}
