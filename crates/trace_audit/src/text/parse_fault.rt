//! Why a text is no trace.

ghost use Rattle.std.specs.Prelude.{◌≡◌};
ghost use Rattle.trace_audit.specs.Parsing.{parse_number};

use thiserror::Error;

/// Why a text isn't read as a trace.
#[derive(Clone, Copy, Debug, PartialEq, Eq, Error)]
pub enum ParseFault {
    /// 90: this line, from 1, is the first that spells no row, or one that doesn't fit.
    #[error("90 BadRow: write log, span and queue rows as they are printed: a log's topics rise and have its own, and a subscription's one span comes before its queue")]
    BadRow(usize),
    /// 91: out of memory; nothing is said of the text.
    #[error("91 NoMemory: out of memory for the trace; try again where more memory is free")]
    NoMemory,
}

impl ParseFault {
    /// Its number, 90 or 91.
    pub fn number(self) -> u32
        ensures { result ≡ parse_number self }
    {
        match self {
            ParseFault::BadRow(_) => 90,
            ParseFault::NoMemory => 91,
        }
    }
}
