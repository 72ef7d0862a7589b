//! Open connections.

ghost use Rattle.std.specs.Prelude.{◌≡◌, ◌++◌, ◌∷◌, [], None, List, IfOk, IfErr, OnOk, OnErr};
ghost use Rattle.stomp_frame.specs.Cases.{case_fault};
ghost use Rattle.stomp_frame.specs.declared.raw_frame.RawFrame.{RawFrame as Frame};
ghost use Rattle.stomp_session.specs.Frames.{with_destination};
ghost use Rattle.stomp_session.specs.Open.{StandsFor, held_after, state_of};
ghost use Rattle.delivery.specs.Inner.Nexts.{IsRefusedAs, IsAccepted, Judges, reader_fault};

use crate::connection_fault::ConnectionFault;
use std::alloc::Global;
use stomp_frame::{Check, FrameFault, FrameReader, Octets, RawFrame, classify};
use stomp_session::{Names, Session, Step};

/// What an open connection has: the reader of its octets, its session, and the receipt that the frame of its undecided
/// transaction asked for.
#[derive(Drop)]
pub(crate) struct OpenEndpoint {
    pub(crate) reader: FrameReader,
    pub(crate) session: Session,
    pub(crate) receipt: Option<Octets>,
}

/// A reader's fault, as that of its connection.
fn reader_fault(fault: FrameFault) -> ConnectionFault
    ensures { result ≡ reader_fault fault }
{
    match fault {
        FrameFault::BadCommand => ConnectionFault::Stream(Check::BadCommand),
        FrameFault::BadLine => ConnectionFault::Stream(Check::BadLine),
        FrameFault::BadHeader => ConnectionFault::Stream(Check::BadHeader),
        FrameFault::BadEscape => ConnectionFault::Stream(Check::BadEscape),
        FrameFault::BadText => ConnectionFault::Stream(Check::BadText),
        FrameFault::BadLength => ConnectionFault::Stream(Check::BadLength),
        FrameFault::BadEnd => ConnectionFault::Stream(Check::BadEnd),
        FrameFault::LineTooLong => ConnectionFault::Stream(Check::LineTooLong),
        FrameFault::TooManyHeaders => ConnectionFault::Stream(Check::TooManyHeaders),
        FrameFault::BodyTooLong => ConnectionFault::Stream(Check::BodyTooLong),
        FrameFault::NoMemory => ConnectionFault::ReaderNoMemory,
    }
}

impl OpenEndpoint {
    /// Takes a frame by the case table and the session: what it asks for, or its fault with the frame as it came. The
    /// topics' names get its destination, where it is accepted and has a new one.
    fn accept(
        &mut self,
        frame: RawFrame,
        names: &mut Names,
    ) -> Result<Step, (ConnectionFault, RawFrame)>
        ensures ok { IfOk result (λ step. (frames : List Frame) → StandsFor self.old.session names.old frames
            → IsAccepted (held_after names.old frames) frame step
            × (self.new.session ≡ state_of (held_after names.new (frames ++ frame ∷ [])))) }
        ensures named { OnOk result (names.new ≡ with_destination frame names.old) }
        ensures err { IfErr result (λ e. (frames : List Frame) → StandsFor self.old.session names.old frames
            → IsRefusedAs (held_after names.old frames) frame e.0) }
        ensures unnamed { OnErr result (names.new ≡ names.old) }
        ensures back { IfErr result (λ e. e.1 ≡ frame) }
        ensures others { self.new ≡ record self.old { session = self.new.session } }
    {
        let frame = match classify(frame) {
            Ok(frame) => frame,
            Err((frame, fault)) => return Err((ConnectionFault::Frame(fault), frame)),
        };
        match self.session.step(frame, names) {
            Ok(step) => Ok(step),
            Err((frame, fault)) => Err((ConnectionFault::Session(fault), frame.into_raw())),
        }
    }

    /// What its next frame asks for, once its session accepted it; `None` where no whole frame is there yet. A fault
    /// comes with the frame, if one was read. The topics' names get the frame's destination, where it is accepted and
    /// has a new one. Where all octets are read it takes no memory.
    pub(crate) fn next_step(
        &mut self,
        alloc: Global,
        names: &mut Names,
    ) -> Result<Option<Step>, (ConnectionFault, Option<RawFrame>)>
        ensures { Judges names.old self.old result self.new names.new }
    {
        if self.reader.clean() {
            return Ok(None);
        }
        match self.reader.next(alloc) {
            Ok(None) => Ok(None),
            Ok(Some(frame)) => match self.accept(frame, names) {
                Ok(step) => Ok(Some(step)),
                Err((fault, frame)) => Err((fault, Some(frame))),
            },
            Err(fault) => Err((reader_fault(fault), None)),
        }
    }
}
