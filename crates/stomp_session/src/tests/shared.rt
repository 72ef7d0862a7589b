//! Names that are shared.

use super::client::{add_name, many_names};
use crate::Names;
use mcast_txn::Topic;
use std::test::Fail;
use stomp_frame::NoMemory;

/// Whether the names are these, in their order, and each is found.
fn are(names: &Names, want: &[&[u8]]) -> bool {
    let mut index = 0u32;
    for name in want {
        let topic = Topic(index);
        if names.name(topic) != Some(*name) || names.find(name) != Some(topic) {
            return false;
        }
        index = index.wrapping_add(1);
    }
    names.len() == want.len() && names.name(Topic(index)).is_none()
}

/// Whether these are the first of those, and those not of these.
fn is_only_front(these: &Names, those: &Names) -> bool {
    these.is_front_of(those) && !those.is_front_of(these)
}

/// Each adds another name behind the two that they share: whether each has its own then, and not the other's.
fn are_parted(one: &mut Names, other: &mut Names) -> Result<bool, NoMemory> {
    let same = one.is_front_of(other) && other.is_front_of(one);
    add_name(one, b"C")?;
    let first = are(one, &[b"A", b"B", b"C"]) && is_only_front(other, one);
    add_name(other, b"D")?;
    let both = are(one, &[b"A", b"B", b"C"]) && are(other, &[b"A", b"B", b"D"]);
    let unknown = one.find(b"D").is_none() && other.find(b"C").is_none();
    Ok(same && first && both && unknown && !one.is_front_of(other) && !other.is_front_of(one))
}

#[test]
fn who_shares_names_adds_its_own(rt: HostRuntime) -> Result<(), Fail> {
    let mut one = Names::new(rt.alloc());
    add_name(&mut one, b"A")?;
    add_name(&mut one, b"B")?;
    let mut other = one.share()?;
    assert!(rt; are_parted(&mut one, &mut other)?);
    Ok(())
}

/// Takes a name back that others have, too, and adds another: whether it isn't found here any more, and is there still.
fn is_lost_here_alone(here: &mut Names, there: &Names) -> Result<bool, NoMemory> {
    if here.is_empty() {
        return Ok(false);
    }
    here.take_back();
    let lost = are(here, &[b"A"]) && here.find(b"B").is_none() && is_only_front(here, there);
    add_name(here, b"E")?;
    Ok(lost && are(here, &[b"A", b"E"]) && are(there, &[b"A", b"B"]))
}

#[test]
fn a_name_that_is_taken_back_stays_with_others(rt: HostRuntime) -> Result<(), Fail> {
    let mut here = Names::new(rt.alloc());
    add_name(&mut here, b"A")?;
    add_name(&mut here, b"B")?;
    let there = here.share()?;
    assert!(rt; is_lost_here_alone(&mut here, &there)?);
    Ok(())
}

/// Three names that a hash takes for one: the last eight octets make its product 0, whatever is before.
const COLLIDING: &[&[u8]] = &[
    b"AAAAAAAA\x15\x7c\x4a\x7f\xb9\x79\x37\x9e",
    b"BBBBBBBB\x15\x7c\x4a\x7f\xb9\x79\x37\x9e",
    b"CCCCCCCC\x15\x7c\x4a\x7f\xb9\x79\x37\x9e",
];

/// Whether the third isn't found among the first two, and each of the three once it is there, too.
fn are_told_apart(names: &mut Names) -> Result<bool, NoMemory> {
    add_name(names, COLLIDING[0])?;
    add_name(names, COLLIDING[1])?;
    let two = are(names, &COLLIDING[..2]) && names.find(COLLIDING[2]).is_none();
    add_name(names, COLLIDING[2])?;
    Ok(two && are(names, COLLIDING))
}

#[test]
fn names_of_one_hash_are_told_apart(rt: HostRuntime) -> Result<(), Fail> {
    let mut names = Names::new(rt.alloc());
    assert!(rt; are_told_apart(&mut names)?);
    Ok(())
}

/// Whether as many names, which are shared, are the first of one more.
fn are_front_of_one_more(names: &mut Names, count: usize) -> Result<bool, NoMemory> {
    let before = names.share()?;
    add_name(names, b"one more")?;
    Ok(
        names.len() == count
            && is_only_front(&before, names)
            && before.find(b"one more").is_none()
            && names.find(b"one more").is_some(),
    )
}

#[test]
fn a_thousand_names_are_shared(rt: HostRuntime) -> Result<(), Fail> {
    let mut names = many_names(rt.alloc(), 1_023)?;
    assert!(rt; are_front_of_one_more(&mut names, 1_024)?);
    Ok(())
}
