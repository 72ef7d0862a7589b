//! Frames of few names, drawn from the number of their history.

ghost use Rattle.std.specs.Prelude.{◌<◌};

use super::client::{classified, push};
use std::alloc::Global;
use stomp_frame::{ClientFrame, Command, Headers, NoMemory};

/// Values of accept-version, and whether 1.2 is among them.
const VERSIONS: [(&[u8], bool); 4] = [
    (b"1.2", true),
    (b"1.0,1.1,1.2", true),
    (b"1.1, 1.2 ", true),
    (b"1.0,1.1", false),
];

/// A frame of a history, as plain data: those headers are there that have a value.
#[derive(Clone, Copy)]
pub(super) struct Made {
    /// Its index in its history, from 0, which is the body of a SEND.
    pub index: u8,
    /// Whether it comes from the second of the two connections.
    pub is_second: bool,
    pub command: Command,
    /// The accept-version, and whether 1.2 is among its versions.
    pub versions: Option<(&'static [u8], bool)>,
    pub client: Option<u8>,
    pub id: Option<u8>,
    pub destination: Option<u8>,
    pub ack: Option<&'static [u8]>,
    /// Of a SUBSCRIBE.
    pub part: Option<&'static [u8]>,
    pub transaction: Option<u8>,
    pub receipt: Option<u8>,
}

/// The `part` of a SUBSCRIBE at this index of a history: two of five ask for parts, one doesn't, and two have none.
fn part(index: u8) -> Option<&'static [u8]> {
    match index % 5 {
        0 | 3 => Some(b"yes"),
        1 => Some(b"no"),
        _ => None,
    }
}

/// Puts a header of one letter at the end, if there is a letter.
fn push_letter(
    alloc: Global,
    headers: &mut Headers,
    name: &[u8],
    letter: Option<u8>,
) -> Result<(), NoMemory> {
    match letter {
        Some(letter) => push(alloc, headers, name, &[letter]),
        None => Ok(()),
    }
}

impl Made {
    /// How many headers a SEND has.
    pub(super) fn send_headers(&self) -> usize {
        [self.destination, self.transaction, self.receipt]
            .iter()
            .filter(|header| header.is_some())
            .count()
    }

    /// Puts the headers of several octets at the end.
    fn push_texts(&self, alloc: Global, headers: &mut Headers) -> Result<(), NoMemory> {
        if let Some((versions, _)) = self.versions {
            push(alloc, headers, b"accept-version", versions)?;
            push(alloc, headers, b"host", b"h")?;
        }
        if let Some(ack) = self.ack {
            push(alloc, headers, b"ack", ack)?;
        }
        if let Some(part) = self.part {
            push(alloc, headers, b"part", part)?;
        }
        Ok(())
    }

    /// Puts the headers of one letter each at the end.
    fn push_letters(&self, alloc: Global, headers: &mut Headers) -> Result<(), NoMemory> {
        push_letter(alloc, headers, b"id", self.id)?;
        push_letter(alloc, headers, b"client-id", self.client)?;
        push_letter(alloc, headers, b"destination", self.destination)?;
        push_letter(alloc, headers, b"transaction", self.transaction)?;
        push_letter(alloc, headers, b"receipt", self.receipt)
    }

    fn headers(&self, alloc: Global) -> Result<Headers, NoMemory> {
        let mut headers = Headers::new(alloc);
        self.push_texts(alloc, &mut headers)?;
        self.push_letters(alloc, &mut headers)?;
        Ok(headers)
    }

    /// The client's frame.
    pub(super) fn frame(&self, alloc: Global) -> Result<ClientFrame, NoMemory> {
        let headers = self.headers(alloc)?;
        if self.command == Command::Send {
            return classified(alloc, self.command, headers, &[self.index]);
        }
        classified(alloc, self.command, headers, b"")
    }
}

/// The draws of a history: a linear congruential generator, that begins with the history's number.
#[derive(Drop)]
pub(super) struct Draws {
    state: u32,
}

impl Draws {
    pub(super) fn of(history: u32) -> Draws {
        Draws {
            state: history.wrapping_mul(2_654_435_761),
        }
    }

    /// A number below `n`.
    pub(super) fn below(&mut self, n: u32) -> u32
        requires { 0 < n }
        ensures { result < n }
    {
        self.state = self
            .state
            .wrapping_mul(1_664_525)
            .wrapping_add(1_013_904_223);
        (self.state >> 16) % n
    }

    /// One of these letters.
    fn letter(&mut self, letters: &[u8; 4]) -> u8 {
        letters[self.below(4) as usize]
    }

    /// A destination: of eight, two can't be the name of a topic.
    fn destination(&mut self) -> u8 {
        if self.below(2) == 0 {
            self.letter(b"AAbB")
        } else {
            self.letter(b"!~ \x7f")
        }
    }

    fn command(&mut self) -> Command {
        match self.below(64) {
            0 => Command::Connect,
            1 => Command::Stomp,
            2..=9 => Command::Subscribe,
            10..=17 => Command::Unsubscribe,
            18..=25 => Command::Begin,
            26..=53 => Command::Send,
            54..=60 => Command::Commit,
            61..=62 => Command::Abort,
            _ => Command::Disconnect,
        }
    }

    fn ack(&mut self) -> Option<&'static [u8]> {
        match self.below(4) {
            0 => Some(b"client"),
            1 => Some(b"auto"),
            _ => None,
        }
    }

    /// A frame of this command, with the headers that it requires, and some that it may have.
    fn frame_of(&mut self, index: u8, is_second: bool, command: Command) -> Made {
        let mut made = Made {
            index,
            is_second,
            command,
            versions: None,
            client: None,
            id: None,
            destination: None,
            ack: None,
            part: None,
            transaction: None,
            receipt: None,
        };
        match command {
            Command::Connect | Command::Stomp => {
                made.versions = Some(VERSIONS[self.below(4) as usize]);
                if self.below(2) == 0 {
                    made.client = Some(self.letter(b"pqpq"));
                }
            }
            Command::Subscribe => {
                made.id = Some(self.letter(b"abab"));
                made.destination = Some(self.destination());
                made.ack = self.ack();
                made.part = part(index);
            }
            Command::Unsubscribe => made.id = Some(self.letter(b"abab")),
            Command::Send => made.destination = Some(self.destination()),
            Command::Begin | Command::Commit | Command::Abort => {
                made.transaction = Some(self.letter(b"xyxy"));
            }
            _ => {}
        }
        made
    }

    /// A frame at this index of a history. The first two are of the two connections, and most histories begin with a
    /// CONNECT or a STOMP of each.
    pub(super) fn frame(&mut self, index: u8) -> Made {
        let is_second = index == 1 || (index > 1 && self.below(2) == 1);
        let command = if index > 1 || self.below(8) == 0 {
            self.command()
        } else if self.below(2) == 0 {
            Command::Connect
        } else {
            Command::Stomp
        };
        let mut made = self.frame_of(index, is_second, command);
        if command == Command::Send && self.below(4) != 0 {
            made.transaction = Some(self.letter(b"xyxy"));
        }
        if self.below(4) == 0 {
            made.receipt = Some(self.letter(b"rstu"));
        }
        made
    }
}
