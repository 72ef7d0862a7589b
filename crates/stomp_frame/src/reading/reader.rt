//! Reading a stream.

ghost use Rattle.std.specs.Prelude.{◌≡◌, ◌≢◌, ◌⊎◌, ◌↔◌, ◌≤◌, [], drop, length, vec_len, Option, Some, Result, Ok, Err, IsTrue, IsErrOf, IsSome, IsOk, OnOk, OnErr, IfSome};
ghost use Rattle.stomp_frame.specs.declared.raw_frame.RawFrame.{RawFrame};
ghost use Rattle.stomp_frame.specs.declared.fault.FrameFault.{FrameFault};
ghost use Rattle.stomp_frame.specs.Reader.{Unread, ReadsNext, NextReturns, with_piece, unread_of};

use crate::fault::{Check, FrameFault, Stop};
use crate::limits::Limits;
use crate::raw_frame::RawFrame;
use crate::reading::partial_frame::PartialFrame;
use std::alloc::Global;
use std::marker::Model;
use stomp_escape::NoMemory;

/// The octets of room that a reader keeps for its text, however few it holds.
const KEPT_ROOM: usize = 16_384;

/// Reads the frames of a stream from its front. It is seen as its limits, the text that it was fed and hasn't read,
/// and the fault that it returned.
pub struct FrameReader {
    limits: Limits,
    text: Vec<u8>,
    /// Where what is unread begins.
    start: usize,
    /// Where the partial frame begins, after the end-of-lines at `start`.
    front: usize,
    partial: PartialFrame,
    answered: Option<Check>,
}

/// Drops the octets before this index. Only those that are kept are moved.
fn keep_from(text: &mut Vec<u8>, start: usize)
    requires { start ≤ vec_len text.old }
    ensures { text.new.items ≡ drop start text.old.items }
{
    let left = text.len() - start;
    text.copy_within(start.., 0);
    text.truncate(left);
}

impl Drop for FrameReader {
    /// Written out, so that letting a reader go is one call for the prover wherever it happens.
    fn drop(self) {
        let FrameReader {
            limits: _,
            text,
            start: _,
            front: _,
            partial,
            answered: _,
        } = self;
        drop(text);
        drop(partial);
    }
}

impl Model for FrameReader {
    ghost use Rattle.std.specs.Prelude.{drop};
    ghost use Rattle.stomp_frame.specs.Inner.PartialFrames.{IsReaderState};
    ghost use Rattle.stomp_frame.specs.Reader.{Unread};

    ghost Value = { Unread };

    ghost view = { λ r. record { limits = r.limits; text = drop r.start r.text.items; answered = r.answered } };

    ghost invariant = { λ r. IsReaderState r.limits r.text.items r.start r.front r.partial };
}

impl FrameReader {
    /// A reader of an empty text.
    pub fn new(alloc: Global, limits: Limits) -> FrameReader
        ensures { result ≡ unread_of limits }
    {
        FrameReader {
            limits,
            text: Vec::new(alloc),
            start: 0,
            front: 0,
            partial: PartialFrame::new(alloc),
            answered: None,
        }
    }

    /// Puts a piece at the text's end, or drops it once a fault was returned.
    pub fn feed(&mut self, piece: &[u8]) -> Result<(), NoMemory>
        ensures ok { OnOk result (self.new ≡ with_piece self.old piece.now) }
        ensures err { OnErr result (self.new ≡ self.old) }
        ensures dropped { IsSome self.old.answered → IsOk result }
    {
        if self.answered.is_some() {
            return Ok(());
        }
        if self.start > self.text.len() / 2 {
            self.let_go();
        }
        self.text.extend_from_slice(piece)?;
        Ok(())
    }

    /// Lets go of the octets before the unread text, and of room that is four times what is held and more.
    fn let_go(&mut self)
        ensures { self.new ≡ self.old }
    {
        if self.start == 0 {
            return;
        }
        let held = self.text.len();
        keep_from(&mut self.text, self.start);
        self.front -= self.start;
        self.start = 0;
        if self.text.capacity() / 4 > held.max(KEPT_ROOM) {
            self.text.shrink_to(held.max(KEPT_ROOM));
        }
    }

    /// Reads on, where no fault was returned.
    fn read_next(&mut self, alloc: Global) -> Result<Option<RawFrame>, FrameFault>
        ensures answer { (result ≢ Err FrameFault.NoMemory) → ReadsNext self.old result self.new }
        ensures no_memory { result ≡ Err FrameFault.NoMemory → self.new ≡ self.old }
    {
        let text = self.text.as_slice();
        self.front = self.partial.front(&self.limits, text, self.front);
        match self.partial.frame(alloc, &self.limits, &text[self.front..]) {
            Ok((frame, end)) => {
                self.front += end;
                self.start = self.front;
                Ok(Some(frame))
            }
            Err(Stop::Open) => {
                self.start = self.front;
                self.let_go();
                Ok(None)
            }
            Err(Stop::Memory) => Err(FrameFault::NoMemory),
            Err(Stop::Fault(check)) => {
                self.answered = Some(check);
                Err(check.fault())
            }
        }
    }

    /// The first frame of the text, `None` where more is due, or the fault of its rest.
    /// After a fault but `NoMemory` (11) each call returns it again; after 11 the reader is as it was.
    pub fn next(&mut self, alloc: Global) -> Result<Option<RawFrame>, FrameFault>
        ensures answer { (result ≢ Err FrameFault.NoMemory) → NextReturns self.old result self.new }
        ensures no_memory { result ≡ Err FrameFault.NoMemory → self.new ≡ self.old }
        // There is no other answer for this text, unless memory runs out.
        ensures only { (r : Result (Option RawFrame) FrameFault) (new : Unread) → NextReturns self.old r new
            → (result ≡ Err FrameFault.NoMemory) ⊎ ((result ≡ r) × (self.new ≡ new)) }
        ensures again { IfSome self.old.answered (λ k. NextReturns self.old result self.new) }
    {
        match self.answered {
            Some(check) => Err(check.fault()),
            None => self.read_next(alloc),
        }
    }

    /// How many octets are unread.
    pub fn unread(&self) -> usize
        ensures { result ≡ length self.now.text }
    {
        self.text.len() - self.start
    }

    /// Whether nothing is unread: after a `next` that returned `None`, whether the stream ends after its last frame.
    pub fn clean(&self) -> bool
        ensures { IsTrue result ↔ (self.now.text ≡ []) }
    {
        self.start == self.text.len()
    }
}
