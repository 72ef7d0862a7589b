//! What came of an `accept` that failed.

use std::io;
use std::io::ErrorKind;

/// What an `accept` that failed asks for.
#[derive(Clone, Copy)]
pub(crate) enum Trouble {
    /// No connection waits.
    NoneWaits,
    /// The connection that waited is gone, or the call was interrupted: the next one is accepted.
    Passing,
    /// Descriptors or memory are wanting, or what isn't known: it is tried again after a while.
    Wanting,
    /// The listener itself is broken: the server ends.
    Broken,
}

/// The numbers of the errors of a listener that is broken: a descriptor that isn't open (EBADF), or isn't of a socket
/// (ENOTSOCK), or not of one that listens (EINVAL, EOPNOTSUPP).
const BROKEN: [i32; 4] = [9, 88, 22, 95];

/// The numbers of the errors that Linux passes on from the connection that waited: EPROTO, ENOPROTOOPT, ENONET,
/// ENETDOWN, ENETUNREACH, ECONNABORTED, ETIMEDOUT, EHOSTDOWN, EHOSTUNREACH. (EPERM may be one of them, a firewall's, or
/// come each time: so it is waited out.)
const PASSING: [i32; 9] = [71, 92, 64, 100, 101, 103, 110, 112, 113];

impl Trouble {
    /// What this error of an `accept` asks for.
    pub(crate) fn of(error: &io::Error) -> Trouble {
        match error.kind() {
            ErrorKind::WouldBlock => return Trouble::NoneWaits,
            ErrorKind::Interrupted => return Trouble::Passing,
            _ => {}
        }
        match error.raw_os_error() {
            Some(code) if BROKEN.contains(&code) => Trouble::Broken,
            Some(code) if PASSING.contains(&code) => Trouble::Passing,
            _ => Trouble::Wanting,
        }
    }
}
