//! A frame that isn't whole yet.

ghost use Rattle.std.specs.Prelude.{◌≡◌, ◌≤◌, ◌<◌, ◌++◌, [], List, ℕ, length, drop, IfOk, IfErr, OnOk, OnErr};
ghost use Rattle.stomp_frame.specs.declared.reading.awaited.Awaited.TheVariants as awaits;
ghost use Rattle.stomp_frame.specs.Inner.Parser.{Returns, Stops, after_eols, frame_at};
ghost use Rattle.stomp_frame.specs.Inner.PartialFrames.{IsPartial};

use crate::command::Command;
use crate::fault::{Check, Stop};
use crate::headers::Headers;
use crate::limits::Limits;
use crate::raw_frame::RawFrame;
use crate::reading::awaited::Awaited;
use crate::reading::bodies::{length_from, take_body};
use crate::reading::lines::{eols_from, take_line};
use crate::reading::parse::{parse_command, parse_header};
use std::alloc::Global;
use std::mem;
use stomp_escape::Octets;

/// What was read of a frame whose octets are in a text; the text keeps them until the frame is whole.
#[derive(Drop)]
pub(crate) struct PartialFrame {
    pub(crate) awaited: Awaited,
    pub(crate) headers: Headers,
    /// How many octets of the frame are parsed: whole lines.
    pub(crate) parsed: usize,
    /// How many octets after these were searched for the end of what is awaited, without finding it.
    pub(crate) searched: usize,
}

impl PartialFrame {
    /// Nothing of a frame.
    pub(crate) fn new(alloc: Global) -> PartialFrame
        ensures { result ≡ record { awaited = awaits.CommandLine; headers = []; parsed = 0; searched = 0 } }
    {
        PartialFrame {
            awaited: Awaited::CommandLine,
            headers: Headers::new(alloc),
            parsed: 0,
            searched: 0,
        }
    }

    /// Where the frame begins: after the end-of-lines at this index, while nothing of it is parsed.
    pub(crate) fn front(&mut self, limits: &Limits, text: &[u8], front: usize) -> usize
        requires within { front ≤ length text.now }
        requires partial { IsPartial limits.now (drop front text.now) self.old }
        ensures order { front ≤ result }
        ensures within { result ≤ length text.now }
        ensures partial { IsPartial limits.now (drop result text.now) self.new }
        ensures skipped { drop result text.now ≡ after_eols (drop front text.now) }
        ensures same { (more : List ℕ)
            → after_eols (drop front text.now ++ more) ≡ after_eols (drop result text.now ++ more) }
    {
        match self.awaited {
            Awaited::HeaderLine(_) => front,
            Awaited::Body(_, _) => front,
            Awaited::CommandLine => {
                let start = eols_from(text, front);
                if start > front {
                    self.searched = 0;
                }
                start
            }
        }
    }

    /// Reads a command's line.
    fn take_command(&mut self, limits: &Limits, text: &[u8]) -> Result<(), Stop>
        requires awaited { self.old.awaited ≡ awaits.CommandLine }
        requires partial { IsPartial limits.now text.now self.old }
        requires front { after_eols text.now ≡ text.now }
        ensures partial { IsPartial limits.now text.now self.new }
        ensures stops { IfErr result (λ e. Stops e (frame_at limits.now text.now)) }
        ensures onward { OnOk result (self.old.parsed < self.new.parsed) }
    {
        let (line, next) = take_line(limits, &text[self.parsed..], &mut self.searched)?;
        let command = parse_command(line)?;
        self.awaited = Awaited::HeaderLine(command);
        self.parsed += next;
        self.searched = 0;
        Ok(())
    }

    /// Reads a header's line, or the empty line.
    fn take_header(
        &mut self,
        alloc: Global,
        limits: &Limits,
        text: &[u8],
        command: Command,
    ) -> Result<(), Stop>
        requires awaited { self.old.awaited ≡ awaits.HeaderLine command }
        requires partial { IsPartial limits.now text.now self.old }
        ensures partial { IsPartial limits.now text.now self.new }
        ensures stops { IfErr result (λ e. Stops e (frame_at limits.now text.now)) }
        ensures onward { OnOk result (self.old.parsed < self.new.parsed) }
    {
        let rest = &text[self.parsed..];
        let (line, next) = take_line(limits, rest, &mut self.searched)?;
        if line.is_empty() {
            self.awaited = Awaited::Body(command, length_from(limits, &self.headers)?);
        } else if self.headers.len() >= limits.headers {
            return Err(Stop::Fault(Check::TooManyHeaders));
        } else {
            let (name, value) = parse_header(alloc, command.has_escapes(), line, rest)?;
            self.headers.push(name, value)?;
        }
        self.parsed += next;
        self.searched = 0;
        Ok(())
    }

    /// Reads the body, and returns the frame and where it ends. Nothing of the next frame is then read.
    fn finish(
        &mut self,
        alloc: Global,
        limits: &Limits,
        text: &[u8],
        command: Command,
        counted: Option<usize>,
    ) -> Result<(RawFrame, usize), Stop>
        requires awaited { self.old.awaited ≡ awaits.Body command counted }
        requires partial { IsPartial limits.now text.now self.old }
        ensures partial { OnErr result (IsPartial limits.now text.now self.new) }
        ensures new { OnOk result (self.new
            ≡ record { awaited = awaits.CommandLine; headers = []; parsed = 0; searched = 0 }) }
        ensures within { IfOk result (λ x. x.1 ≤ length text.now) }
        ensures read { Returns (λ x. (x.0, drop x.1 text.now)) result (frame_at limits.now text.now) }
    {
        let rest = &text[self.parsed..];
        let (body, next) = take_body(limits, counted, rest, &mut self.searched)?;
        let body = Octets::from_front(alloc, rest, body.len())?;
        let end = self.parsed + next;
        // Field by field, which moves less than a whole partial frame.
        let headers = mem::replace(&mut self.headers, Headers::new(alloc));
        self.awaited = Awaited::CommandLine;
        self.parsed = 0;
        self.searched = 0;
        Ok((
            RawFrame {
                command,
                headers,
                body,
            },
            end,
        ))
    }

    /// Reads on to the end of the frame, and returns the frame and where it ends.
    pub(crate) fn frame(
        &mut self,
        alloc: Global,
        limits: &Limits,
        text: &[u8],
    ) -> Result<(RawFrame, usize), Stop>
        requires partial { IsPartial limits.now text.now self.old }
        requires front { after_eols text.now ≡ text.now }
        ensures partial { OnErr result (IsPartial limits.now text.now self.new) }
        ensures new { OnOk result (self.new
            ≡ record { awaited = awaits.CommandLine; headers = []; parsed = 0; searched = 0 }) }
        ensures within { IfOk result (λ x. x.1 ≤ length text.now) }
        ensures read { Returns (λ x. (x.0, drop x.1 text.now)) result (frame_at limits.now text.now) }
    {
        loop {
            match self.awaited {
                Awaited::CommandLine => self.take_command(limits, text)?,
                Awaited::HeaderLine(command) => self.take_header(alloc, limits, text, command)?,
                Awaited::Body(command, counted) => {
                    return self.finish(alloc, limits, text, command, counted);
                }
            }
        }
    }
}
