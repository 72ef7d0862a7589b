//! The frames that a server sends, as data. The product writes them by `server_writer` and `part_writer`, without making
//! them.

pub(crate) mod part_message;
pub(crate) mod server_frame;
pub(crate) mod server_headers;
