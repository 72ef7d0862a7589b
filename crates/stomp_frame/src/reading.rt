//! Reading: from the octets of a stream to frames.

pub(crate) mod awaited;
pub(crate) mod bodies;
pub(crate) mod content_length;
pub(crate) mod lines;
pub(crate) mod parse;
pub(crate) mod partial_frame;
pub(crate) mod reader;
