//! The frame that opens a connection.

ghost use Rattle.std.specs.Prelude.{◌≡◌, codes, Some};
ghost use Rattle.stomp_frame.specs.Headers.{IsText, first_of};
ghost use Rattle.stomp_frame.specs.Cases.{IsConnect};

use crate::client_frame::required::required;
use crate::raw_frame::RawFrame;

/// A CONNECT or a STOMP, with accept-version and host (STOMP 1.2, "CONNECT or STOMP Frame").
#[derive(Drop)]
pub struct ConnectFrame {
    pub raw: RawFrame,
    pub ghost complete: { IsConnect raw },
}

impl ConnectFrame {
    /// The versions that the client speaks: the value of accept-version.
    pub fn accept_version(&self) -> &[u8]
        ensures value { Some result.now ≡ first_of (codes "accept-version") self.now.raw.headers }
        ensures text { IsText result.now }
    {
        required(&self.raw, b"accept-version")
    }
}
