//! Texts of traces: which lines are rows, where the first bad one is, and how a trace is printed.

mod lines;

use super::ParseFault;
use crate::{AuditFault, Trace, audit};
use std::alloc::Global;

/// What reading a text came to.
#[derive(Clone, Copy, PartialEq, Eq)]
enum Reading {
    /// It is a trace.
    Trace,
    /// This line is the first bad one.
    Bad(usize),
    /// Memory ran out.
    NoMemory,
}

/// What reading a text comes to.
fn reading_of(alloc: Global, text: &[u8]) -> Reading {
    match Trace::parse(alloc, text) {
        Ok(_) => Reading::Trace,
        Err(ParseFault::BadRow(number)) => Reading::Bad(number),
        Err(ParseFault::NoMemory) => Reading::NoMemory,
    }
}

/// Whether a text is read, and printed as the other; `None` where memory ran out.
fn is_printed_as(alloc: Global, text: &[u8], printed: &[u8]) -> Option<bool> {
    let trace = match Trace::parse(alloc, text) {
        Ok(trace) => trace,
        Err(ParseFault::BadRow(_)) => return Some(false),
        Err(ParseFault::NoMemory) => return None,
    };
    let Ok(again) = trace.print(alloc) else {
        return None;
    };
    Some(again.as_slice() == printed)
}

#[test]
fn lines_are_rows(rt: HostRuntime) {
    const TEXTS: &[&[u8]] = &[
        b"",
        b"log 0 0 1 1.0 0",
        b"log 0 0 1 1.0 0\n",
        b"log 1 0 1 2.1 0,1\nlog 0 0 1 2.1 0,1\n",
        b"log 0 0 1 1.5 0\n",
        b"log 4294967295 0 1 1.0 4294967295\n",
        b"log 0 18446744073709551615 0 1.0 0\n",
        b"log 0 0 18446744073709551615 1.0 0\n",
        b"log 0 0 1 18446744073709551615.4294967295 0\n",
        b"span 0 1 0.0 -\n",
        b"span 18446744073709551615 4294967295 18446744073709551615.4294967295 -\n",
        b"span 3 1 0.0 18446744073709551615.4294967295\nspan 4 1 0.0 -",
        b"span 3 1 0.0 2.1\nlog 1 0 1 2.1 1\nqueue 3 0 1 2.1\n",
        b"span 18446744073709551615 0 0.0 -\nqueue 18446744073709551615 0 1 1.0",
        b"span 0 0 0.0 -\nqueue 0 18446744073709551615 18446744073709551615 18446744073709551615.4294967295",
    ];
    for &text in TEXTS {
        assert!(rt; reading_of(rt.alloc(), text) == Reading::Trace);
    }
}

#[test]
fn other_lines_are_bad(rt: HostRuntime) {
    const TEXTS: &[&[u8]] = &[
        b"\n",
        b"#",
        b"# log 0 0 1 1.0 0\n",
        b"log",
        b"log ",
        b"log 0 0 1 1.0",
        b"log 0 0 1 1.0 ",
        b"log 0 0 1 1.0 0 ",
        b"log 0 0 1 1.0 0 0",
        b" log 0 0 1 1.0 0",
        b"log  0 0 1 1.0 0",
        b"log 0 0  1 1.0 0",
        b"log 0 0 1 1.0 0\r\n",
        b"log\t0 0 1 1.0 0",
        b"Log 0 0 1 1.0 0",
        b"logs 0 0 1 1.0 0",
        b"commit 0 1 1.0 0",
        b"log 00 0 1 1.0 0",
        b"log 0 00 1 1.0 0",
        b"log 0 0 01 1.0 0",
        b"log 0 0 1 00.0 0",
        b"log 0 0 1 1.00 0",
        b"log 0 0 1 1.0 00",
        b"log 0 0 1 1.0 0,01",
        b"log 0 0 +1 1.0 0",
        b"log 0 0 -1 1.0 0",
        b"log 0 0 1 1 0",
        b"log 0 0 1 1. 0",
        b"log 0 0 1 .0 0",
        b"log 0 0 1 1.0.0 0",
        b"log 0 0 1 1.0 0,",
        b"log 0 0 1 1.0 ,0",
        b"log 0 0 1 1.0 0,,1",
        b"log 0 0 1 1.0 0, 1",
        b"log 4294967296 0 1 1.0 4294967296",
        b"log 0 0 1 1.0 0,4294967296",
        b"log 0 18446744073709551616 1 1.0 0",
        b"log 0 0 18446744073709551616 1.0 0",
        b"log 0 0 99999999999999999999 1.0 0",
        b"log 0 0 1 18446744073709551616.0 0",
        b"log 0 0 1 1.4294967296 0",
        b"log 0 0 1 1.0 0\x00",
    ];
    for &text in TEXTS {
        assert!(rt; reading_of(rt.alloc(), text) == Reading::Bad(1));
    }
}

#[test]
fn other_spans_and_queues_are_bad(rt: HostRuntime) {
    const TEXTS: &[&[u8]] = &[
        b"span 0 0 0.0\n",
        b"span 0 0 0.0 \n",
        b"span 0 0 0.0 --\n",
        b"span 0 0 - -\n",
        b"span 0 0 0.0 1\n",
        b"span 01 0 0.0 -\n",
        b"span 18446744073709551616 0 0.0 -\n",
        b"span 0 4294967296 0.0 -\n",
        b"span 0 0 18446744073709551616.0 -\n",
        b"span 0 0 0.0 0.4294967296\n",
        b"queue 3 0 1 1.0",
        b"queue 18446744073709551616 0 1 1.0",
        b"log 1 0 1 1.0 0",
        b"log 0 0 1 1.0 1,0",
        b"log 0 0 1 1.0 0,0",
    ];
    for &text in TEXTS {
        assert!(rt; reading_of(rt.alloc(), text) == Reading::Bad(1));
    }
}

#[test]
fn the_first_bad_line_is_reported(rt: HostRuntime) {
    const CASES: &[(&[u8], usize)] = &[
        (b"log 0 0 1 1.0 0\n\nlog\n", 2),
        (b"log 0 0 1 1.0 0\n\n", 2),
        (b"span 3 0 0.0 -\nspan 3 1 0.0 -\n", 2),
        (b"span 3 0 0.0 -\nqueue 4 0 1 1.0\n", 2),
        (b"queue 3 0 1 1.0\nspan 3 0 0.0 -\n", 1),
        (b"span 3 0 0.0 -\nqueue 3 0 1 1.0\nlog 0 0 1 1.0 1\n", 3),
        (b"span 3 0 0.0 -\nqueue 3 0 1 1.0\nqueue 3 0 1 1", 3),
        (b"span 3 0 0.0 -\n\nspan 3 0 0.0 -\n", 2),
    ];
    for &(text, number) in CASES {
        assert!(rt; reading_of(rt.alloc(), text) == Reading::Bad(number));
    }
}

/// Texts, and what their traces are printed as.
const PRINTED: &[(&[u8], &[u8])] = &[
    (b"", b""),
    (b"log 0 0 1 1.0 0", b"log 0 0 1 1.0 0\n"),
    (
        b"span 9 1 0.0 -\nlog 1 1 1 2.0 0,1\nspan 2 0 1.4294967295 18446744073709551615.7\n\
          queue 9 1 1 2.0\nlog 0 1 1 2.0 0,1\nqueue 2 5 6 7.8\nlog 1 0 1 2.1 0,1\nqueue 9 0 1 2.1\nqueue 2 1 1 2.0",
        b"log 0 1 1 2.0 0,1\nlog 1 1 1 2.0 0,1\nlog 1 0 1 2.1 0,1\n\
          span 2 0 1.4294967295 18446744073709551615.7\nqueue 2 5 6 7.8\nqueue 2 1 1 2.0\n\
          span 9 1 0.0 -\nqueue 9 1 1 2.0\nqueue 9 0 1 2.1\n",
    ),
    (
        b"log 10 0 18446744073709551615 18446744073709551615.4294967295 2,10,4294967295\nlog 9 1 1 1.0 9\n",
        b"log 9 1 1 1.0 9\nlog 10 0 18446744073709551615 18446744073709551615.4294967295 2,10,4294967295\n",
    ),
];

#[test]
fn traces_are_printed_in_order(rt: HostRuntime) {
    for &(text, printed) in PRINTED {
        assert!(rt; is_printed_as(rt.alloc(), text, printed) == Some(true));
        assert!(rt; is_printed_as(rt.alloc(), printed, printed) == Some(true));
    }
}

#[test]
fn refused_growths_are_reported(rt: HostRuntime) {
    for &(text, printed) in PRINTED {
        assert!(rt; is_printed_as(rt.alloc(), text, printed) != Some(false));
    }
}

/// Whether what is written of the answer to a text's trace is this; `None` where memory ran out.
fn is_answered(alloc: Global, text: &[u8], written: &[u8]) -> Option<bool> {
    let trace = match Trace::parse(alloc, text) {
        Ok(trace) => trace,
        Err(ParseFault::BadRow(_)) => return Some(false),
        Err(ParseFault::NoMemory) => return None,
    };
    let answer = match audit(alloc, &trace) {
        Ok(agreed) => agreed.print(alloc),
        Err(AuditFault::NoMemory) => return None,
        Err(fault) => fault.print(alloc),
    };
    let Ok(answer) = answer else {
        return None;
    };
    Some(answer.as_slice() == written)
}

/// Texts, and what is written of the answers to their traces.
const ANSWERED: &[(&[u8], &[u8])] = &[
    (b"", b"complete\n"),
    (
        b"log 0 1 1 2.0 0,1\nlog 0 0 1 2.1 0,1\nlog 1 1 1 2.0 0,1\nlog 1 0 1 2.1 0,1\n",
        b"agreed 1 1 2.0 0,1\nagreed 0 1 2.1 0,1\ncomplete\n",
    ),
    (
        b"log 0 1 1 2.0 0,1\nlog 0 0 1 2.1 0,1\nlog 1 1 1 2.0 0,1\nlog 1 0 1 1.1 0,1\n",
        b"no 93 TwoVerdicts\n",
    ),
    (
        b"log 0 1 1 2.0 0,1\nlog 0 0 1 2.1 0,1\nlog 1 0 1 2.1 0,1\n",
        b"no 95 Hole 1\n",
    ),
    (b"span 0 0 0.0 -\nqueue 0 0 1 1.0\n", b"no 96 QueueRow 0\n"),
    (
        b"span 18446744073709551615 0 0.0 -\nqueue 18446744073709551615 0 1 1.0\n",
        b"no 96 QueueRow 18446744073709551615\n",
    ),
    (b"log 0 0 1 1.0 0\nlog 0 1 1 1.0 0\n", b"no 97 SameStamp\n"),
    (
        b"log 0 0 2 1.0 0\nlog 0 0 1 2.0 0\n",
        b"no 94 SenderOrder\n",
    ),
    (b"log 0 0 2 2.0 0\nlog 0 0 1 1.0 0\n", b"no 92 LogOrder\n"),
    (b"log 0 0 1 1.1 0,1\n", b"agreed 0 1 1.1 0,1\nincomplete\n"),
];

#[test]
fn answers_are_written(rt: HostRuntime) {
    for &(text, written) in ANSWERED {
        assert!(rt; is_answered(rt.alloc(), text, written) == Some(true));
    }
}

#[test]
fn refused_growths_of_answers_are_reported(rt: HostRuntime) {
    for &(text, written) in ANSWERED {
        assert!(rt; is_answered(rt.alloc(), text, written) != Some(false));
    }
}

#[test]
fn faults_of_texts_have_their_numbers(rt: HostRuntime) {
    assert!(rt; ParseFault::BadRow(7).number() == 90);
    assert!(rt; ParseFault::NoMemory.number() == 91);
}
