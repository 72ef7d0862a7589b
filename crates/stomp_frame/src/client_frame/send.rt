//! The frame that sends a message.

ghost use Rattle.std.specs.Prelude.{◌≡◌, codes, Some};
ghost use Rattle.stomp_frame.specs.Headers.{IsText, first_of};
ghost use Rattle.stomp_frame.specs.Cases.{IsCase};
ghost use Rattle.stomp_frame.specs.declared.command.Command.TheVariants as commands;

use crate::client_frame::required::required;
use crate::raw_frame::RawFrame;

/// A SEND, with destination (STOMP 1.2, "SEND").
#[derive(Drop)]
pub struct SendFrame {
    pub raw: RawFrame,
    pub ghost complete: { IsCase commands.Send raw },
}

impl SendFrame {
    /// The name of the topic.
    pub fn destination(&self) -> &[u8]
        ensures value { Some result.now ≡ first_of (codes "destination") self.now.raw.headers }
        ensures text { IsText result.now }
    {
        required(&self.raw, b"destination")
    }
}
