//! Why a text could not be read.

ghost use Rattle.std.specs.Prelude.{◌≡◌};
ghost use Rattle.stomp_escape.specs.Fault.{escape_number};
ghost use Rattle.stomp_escape.specs.declared.fault.EscapeFault.TheVariants as escape_faults;

use crate::no_memory::NoMemory;
use thiserror::Error;

/// Why a text of a header could not be read: its first fault from the left, or out of memory
/// (STOMP 1.2, "Value Encoding").
#[derive(Clone, Copy, Debug, PartialEq, Eq, Error)]
pub enum EscapeFault {
    /// 1: a backslash whose next octet is none of `r`, `n`, `c` and backslash. With it comes the
    /// index of the backslash, which is the number of octets before it.
    #[error("1 Undefined: at octet {0}, write a backslash only before r, n, c or another backslash")]
    Undefined(usize),
    /// 2: the last octet is a backslash that begins an escape.
    #[error("2 Cut: write a backslash at the end of the text as two")]
    Cut,
    /// 3: no memory for the octets read. It says nothing of the text.
    #[error("3 NoMemory: try again where more memory is free, or send less")]
    NoMemory,
}

impl EscapeFault {
    /// The number under which the fault is documented: 1 Undefined, 2 Cut, 3 NoMemory.
    pub fn number(self) -> u32
        ensures { result ≡ escape_number self }
    {
        match self {
            EscapeFault::Undefined(_) => 1,
            EscapeFault::Cut => 2,
            EscapeFault::NoMemory => 3,
        }
    }
}

impl From<NoMemory> for EscapeFault {
    ghost from_gives = { λ _ e. e ≡ escape_faults.NoMemory };

    /// The fault where there is no memory.
    fn from(_e: NoMemory) -> EscapeFault {
        EscapeFault::NoMemory
    }
}
