//! What a connection asked for so far that is ignored.

ghost use Rattle.std.specs.Prelude.{◌≡◌, ◌||◌, false};
ghost use Rattle.stomp_session.specs.Frames.{is_send};
ghost use Rattle.broker_server.specs.Ignoring.{asked_with, ignored_in_either, ignored_of, nothing_ignored};

use crate::conversation::ignored::{Ignored, is_send};
use stomp_frame::RawFrame;

/// What a connection's frames asked for so far that is ignored. Of its SENDs only the first is looked at: what one of
/// them asks for, the others mostly do, too, and there are many.
#[derive(Clone, Copy)]
pub(crate) struct IgnoredSoFar {
    pub(crate) asked: Ignored,
    /// Whether it has sent a SEND.
    pub(crate) has_sent: bool,
}

impl IgnoredSoFar {
    /// It has sent nothing yet.
    pub(crate) fn new() -> IgnoredSoFar
        ensures asked { result.asked ≡ nothing_ignored }
        ensures sent { result.has_sent ≡ false }
    {
        IgnoredSoFar {
            asked: Ignored::nothing(),
            has_sent: false,
        }
    }

    /// A frame came.
    #[inline(always)]
    pub(crate) fn look(&mut self, frame: &RawFrame)
        ensures { self.new ≡ asked_with frame.now self.old }
    {
        if !is_send(frame.command) || !self.has_sent {
            self.note(frame);
        }
    }

    /// A frame came that is looked at.
    #[inline(never)]
    fn note(&mut self, frame: &RawFrame)
        ensures { self.new ≡ record {
          asked = ignored_in_either self.old.asked (ignored_of frame.now);
          has_sent = self.old.has_sent || is_send frame.now.command;
        } }
    {
        self.asked = self.asked.or(Ignored::of(frame));
        self.has_sent = self.has_sent || is_send(frame.command);
    }
}
