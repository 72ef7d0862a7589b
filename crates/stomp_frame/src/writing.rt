//! Writing: from frames to octets.

pub(crate) mod line_buffer;
pub(crate) mod part_writer;
pub(crate) mod server_writer;
pub(crate) mod writer;
