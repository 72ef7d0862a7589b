//! The frame that commits a transaction.

ghost use Rattle.std.specs.Prelude.{◌≡◌, codes, Some};
ghost use Rattle.stomp_frame.specs.Headers.{IsText, first_of};
ghost use Rattle.stomp_frame.specs.Cases.{IsCase};
ghost use Rattle.stomp_frame.specs.declared.command.Command.TheVariants as commands;

use crate::client_frame::required::required;
use crate::raw_frame::RawFrame;

/// A COMMIT, with transaction (STOMP 1.2, "COMMIT").
#[derive(Drop)]
pub struct CommitFrame {
    pub raw: RawFrame,
    pub ghost complete: { IsCase commands.Commit raw },
}

impl CommitFrame {
    /// The transaction's name; it names one open transaction of its connection.
    pub fn transaction(&self) -> &[u8]
        ensures value { Some result.now ≡ first_of (codes "transaction") self.now.raw.headers }
        ensures text { IsText result.now }
    {
        required(&self.raw, b"transaction")
    }
}
