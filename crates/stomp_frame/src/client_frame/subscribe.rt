//! The frame that opens a subscription.

ghost use Rattle.std.specs.Prelude.{◌≡◌, codes, Some};
ghost use Rattle.stomp_frame.specs.Headers.{IsText, first_of};
ghost use Rattle.stomp_frame.specs.Cases.{IsCase};
ghost use Rattle.stomp_frame.specs.declared.command.Command.TheVariants as commands;

use crate::client_frame::required::required;
use crate::raw_frame::RawFrame;

/// A SUBSCRIBE, with destination and id (STOMP 1.2, "SUBSCRIBE").
#[derive(Drop)]
pub struct SubscribeFrame {
    pub raw: RawFrame,
    pub ghost complete: { IsCase commands.Subscribe raw },
}

impl SubscribeFrame {
    /// The name of the topic.
    pub fn destination(&self) -> &[u8]
        ensures value { Some result.now ≡ first_of (codes "destination") self.now.raw.headers }
        ensures text { IsText result.now }
    {
        required(&self.raw, b"destination")
    }

    /// The subscription's id; it names one open subscription of its connection.
    pub fn id(&self) -> &[u8]
        ensures value { Some result.now ≡ first_of (codes "id") self.now.raw.headers }
        ensures text { IsText result.now }
    {
        required(&self.raw, b"id")
    }
}
