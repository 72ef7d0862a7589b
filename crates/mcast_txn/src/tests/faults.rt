//! The faults' numbers, and their messages, which begin with number and name.

use crate::{AlreadySet, BallotFault, DraftFault};
use std::test::Fail;

#[test]
fn drafts(rt: HostRuntime) -> Result<(), Fail> {
    let rows: &[(DraftFault, u32, &[u8])] = &[
        (DraftFault::TooManySends, 30, b"30 TooManySends: "),
        (DraftFault::NoMemory, 31, b"31 NoMemory: "),
    ];
    for &(fault, number, front) in rows {
        let message = format!(in rt.alloc(); "{fault}")?;
        assert!(rt; fault.number() == number);
        assert!(rt; message.as_bytes().starts_with(front));
    }
    Ok(())
}

#[test]
fn ballots(rt: HostRuntime) -> Result<(), Fail> {
    let rows: &[(BallotFault, u32, &[u8])] = &[
        (BallotFault::NotNamed, 50, b"50 NotNamed: "),
        (BallotFault::Twice, 51, b"51 Twice: "),
    ];
    for &(fault, number, front) in rows {
        let message = format!(in rt.alloc(); "{fault}")?;
        assert!(rt; fault.number() == number);
        assert!(rt; message.as_bytes().starts_with(front));
    }
    Ok(())
}

#[test]
fn decisions(rt: HostRuntime) -> Result<(), Fail> {
    let message = format!(in rt.alloc(); "{}", AlreadySet)?;
    assert!(rt; AlreadySet.number() == 32);
    assert!(rt; message.as_bytes().starts_with(b"32 AlreadySet: "));
    Ok(())
}
