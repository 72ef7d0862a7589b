//! What is due next of a frame.

ghost use Rattle.std.specs.Prelude.{◌≡◌};

use crate::command::Command;

/// What a frame that isn't whole waits for.
#[derive(Clone, Copy, Debug, PartialEq, Eq)]
pub(crate) enum Awaited {
    /// A command's line.
    CommandLine,
    /// A header's line, or the empty line, under this command.
    HeaderLine(Command),
    /// The body, of this length in octets, or up to its first NULL.
    Body(Command, Option<usize>),
}
