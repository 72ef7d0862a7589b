//! STOMP 1.2 frames: a reader of streams, a writer, and the frames that a server sends.
#![tactic(auto)]

mod case_fault;
mod cases;
mod client_frame;
mod command;
mod fast;
mod fault;
mod headers;
pub mod law;
mod limits;
mod raw_frame;
mod reading;
mod server;
mod writing;

pub use case_fault::{CaseFault, RequiredHeader};
pub use cases::classify;
pub use client_frame::{
    AbortFrame, BeginFrame, ClientFrame, CommitFrame, ConnectFrame, DisconnectFrame, SendFrame,
    SubscribeFrame, UnsubscribeFrame,
};
pub use command::Command;
pub use fault::{Check, FrameFault};
pub use headers::Headers;
pub use limits::Limits;
pub use raw_frame::RawFrame;
pub use reading::reader::FrameReader;
pub use server::part_message::PartMessage;
pub use server::server_frame::{ServerFrame, render};
pub use stomp_escape::{NoMemory, Octets};
pub use writing::part_writer::write_part_message;
pub use writing::server_writer::write_server;
pub use writing::writer::{writable, write_frame};

#[cfg(test)]
mod tests;
