//! What a running broker refuses.

ghost use Rattle.std.specs.Prelude.{◌≡◌};
ghost use Rattle.broker_locks.specs.Faults.{server_number, server_title};

use thiserror::Error;

/// Why a running broker doesn't begin, takes no worker, or ends.
#[derive(Clone, Copy, Debug, PartialEq, Eq, Error)]
pub enum ServerFault {
    /// 100: as many workers joined as ever may.
    #[error("100 TooManyConns: begin a new broker; this one had as many workers as it may ever have")]
    TooManyConns,
    /// 101: out of memory.
    #[error("101 NoMemory: out of memory for the broker; begin it with less else running")]
    NoMemory,
    /// 102: the system failed at a listener, or where it waits for connections.
    #[error("102 Io: see that the address is free, and that as many files may be open as there are connections")]
    Io,
}

impl ServerFault {
    /// Its number, 100, 101 or 102.
    pub fn number(self) -> u32
        ensures { result ≡ server_number self }
    {
        match self {
            ServerFault::TooManyConns => 100,
            ServerFault::NoMemory => 101,
            ServerFault::Io => 102,
        }
    }

    /// Its number, a space and its name, as the programs write it.
    pub fn title(self) -> &'static [u8]
        ensures { result.now ≡ server_title self }
    {
        match self {
            ServerFault::TooManyConns => b"100 TooManyConns".as_slice(),
            ServerFault::NoMemory => b"101 NoMemory".as_slice(),
            ServerFault::Io => b"102 Io".as_slice(),
        }
    }
}
