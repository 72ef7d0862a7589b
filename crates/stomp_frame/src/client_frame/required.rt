//! The value of a header that a frame has.

ghost use Rattle.std.specs.Prelude.{◌≡◌, Some, IsSome};
ghost use Rattle.stomp_frame.specs.Headers.{IsText, first_of};

use crate::raw_frame::RawFrame;

/// The value of the first header of this name, which is there.
pub(crate) fn required<'a>(frame: &'a RawFrame, name: &[u8]) -> &'a [u8]
    requires { IsSome (first_of name.now frame.now.headers) }
    ensures value { Some result.now ≡ first_of name.now frame.now.headers }
    ensures text { IsText result.now }
{
    frame.headers.first(name).unwrap()
}
