//! The frame that ends a connection.

ghost use Rattle.stomp_frame.specs.Cases.{IsCase};
ghost use Rattle.stomp_frame.specs.declared.command.Command.TheVariants as commands;

use crate::raw_frame::RawFrame;

/// A DISCONNECT (STOMP 1.2, "DISCONNECT").
#[derive(Drop)]
pub struct DisconnectFrame {
    pub raw: RawFrame,
    pub ghost complete: { IsCase commands.Disconnect raw },
}
