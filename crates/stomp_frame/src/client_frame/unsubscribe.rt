//! The frame that closes a subscription.

ghost use Rattle.std.specs.Prelude.{◌≡◌, codes, Some};
ghost use Rattle.stomp_frame.specs.Headers.{IsText, first_of};
ghost use Rattle.stomp_frame.specs.Cases.{IsCase};
ghost use Rattle.stomp_frame.specs.declared.command.Command.TheVariants as commands;

use crate::client_frame::required::required;
use crate::raw_frame::RawFrame;

/// An UNSUBSCRIBE, with id (STOMP 1.2, "UNSUBSCRIBE").
#[derive(Drop)]
pub struct UnsubscribeFrame {
    pub raw: RawFrame,
    pub ghost complete: { IsCase commands.Unsubscribe raw },
}

impl UnsubscribeFrame {
    /// The subscription's id.
    pub fn id(&self) -> &[u8]
        ensures value { Some result.now ≡ first_of (codes "id") self.now.raw.headers }
        ensures text { IsText result.now }
    {
        required(&self.raw, b"id")
    }
}
