//! Reading a trace's text.

ghost use Rattle.std.specs.Prelude.{◌≡◌, ◌<◌, ◌∷◌, ℕ, Ok, Err, Some, None, IfOk, IfErr, length, if◌then◌else◌};
ghost use Rattle.trace_audit.specs.Inner.Reading.{line_added, read_from, ReadsAs};
ghost use Rattle.trace_audit.specs.Parsing.{lines_of, AddsLines, GivesTrace, IsFirstBad, IsParseFault};
ghost use Rattle.trace_audit.specs.Trace.{TraceData, no_trace_data};
ghost use Rattle.trace_audit.specs.declared.text.parse_fault.ParseFault.TheVariants as parse;

use super::field_reading::split_at_first;
use super::parse_fault::ParseFault;
use super::row_reading::read_row;
use crate::fault::AddFault;
use crate::trace::Trace;
use mcast_txn::NoMemory;
use std::alloc::Global;

impl Trace {
    /// The trace that a text spells: a line for each row, in the order in which the rows are added. Each line ends in
    /// LF; the last may lack it. Takes the time of a row's `add` for each line.
    ///
    /// Errors: `BadRow` (90) with the number of the first line, from 1, that spells no row or one that `add` refuses;
    /// `NoMemory` (91).
    pub fn parse(alloc: Global, text: &[u8]) -> Result<Trace, ParseFault>
        ensures found { IfOk result (λ trace. AddsLines (lines_of text.now) no_trace_data trace) }
        ensures fault { IfErr result (λ fault. IsParseFault text.now fault) }
        ensures only { (trace : TraceData) → AddsLines (lines_of text.now) no_trace_data trace
            → GivesTrace result (Ok trace) }
        ensures only_fault { (n : ℕ) → IsFirstBad (lines_of text.now) n
            → GivesTrace result (Err (parse.BadRow n)) }
    {
        Trace::read(alloc, text)
    }

    /// The trace that a text spells.
    fn read(alloc: Global, text: &[u8]) -> Result<Trace, ParseFault>
        ensures { ReadsAs result (read_from 1 (lines_of text.now) no_trace_data) }
    {
        let mut trace = Trace::new(alloc);
        let mut rest = text;
        let mut number = 1;
        while !rest.is_empty() {
            let (line, after) = first_line(rest);
            match trace.add_line(alloc, line) {
                Ok(true) => {}
                Ok(false) => return Err(ParseFault::BadRow(number)),
                Err(NoMemory) => return Err(ParseFault::NoMemory),
            }
            rest = after;
            number += 1;
        }
        Ok(trace)
    }

    /// Adds the row that a line spells, and returns whether it spells one that fits.
    #[tactic(auto, unfolding(crate::specs::Inner::Reading::line_added))]
    fn add_line(&mut self, alloc: Global, line: &[u8]) -> Result<bool, NoMemory>
        ensures { IfOk result
            (λ added. (if added then Some self.new else None) ≡ line_added line.now self.old) }
    {
        let Some(row) = read_row(alloc, line)? else {
            return Ok(false);
        };
        match self.add(row) {
            Ok(()) => Ok(true),
            Err(AddFault::Misfit) => Ok(false),
            Err(AddFault::NoMemory) => Err(NoMemory),
        }
    }
}

/// The first line of a text that isn't empty, without its LF, and what comes after it.
pub fn first_line(text: &[u8]) -> (&[u8], &[u8])
    requires { 0 < length text.now }
    ensures first { lines_of text.now ≡ result.0.now ∷ lines_of result.1.now }
    ensures shorter { length result.1.now < length text.now }
{
    match split_at_first(b'\n', text) {
        Some((line, rest)) => (line, rest),
        None => (text, &text[text.len()..]),
    }
}
