//! A connection's socket.

ghost use Rattle.std.specs.Prelude.{◌≡◌, true, false, None};
ghost use Rattle.mio.specs.Events.{items};
ghost use Rattle.broker_server.specs.Sockets.{SocketReads, SocketWrites, after_event, after_events, first_read};

use crate::conversation::{BrokerCalls, Conversation};
use crate::serving::socket_option::SocketOption;
use mio::event::Event;
use mio::net::TcpStream;
use mio::{Events, Interest, Poll, Token};
use std::io;
use std::io::{ErrorKind, Read, Write};
use std::net::Shutdown;

/// The token of a socket's events.
const SOCKET: Token = Token(0);

/// What the system does where nothing comes from a peer: after so many seconds it asks whether the peer is there, then each
/// so many seconds, and after so many questions without an answer it ends the connection (our choice).
const KEEP_ALIVE: [(SocketOption, u32); 4] = [
    (SocketOption::KeepAliveIdle, 60),
    (SocketOption::KeepAliveInterval, 10),
    (SocketOption::KeepAliveCount, 3),
    (SocketOption::KeepAlive, 1),
];

/// The ERROR of a connection for which there was no memory.
const NO_MEMORY: &[u8] = b"ERROR\nmessage:72 NoMemory\ncontent-length:0\n\n\0\n";

/// What a read gave.
#[derive(Clone, Copy)]
pub(crate) enum Came {
    /// So many octets, one or more.
    Octets(usize),
    /// Nothing is there now.
    Nothing,
    /// It was interrupted, and is to be tried again.
    Again,
    /// The peer has said its last, or is gone.
    End,
}

/// A connection's socket, and what is known of it. Its events come at changes: a read may give something until one gave
/// less than there was room for, and a write may take something until one took less than there was.
#[derive(Drop)]
pub(crate) struct Socket {
    stream: TcpStream,
    readable: bool,
    /// The peer has said its last, which a read will show.
    hung_up: bool,
    blocked: bool,
    /// A write failed: what waits for the peer is dropped. What it had sent can still be read.
    gone: bool,
    /// The first octet that was read, if one was.
    first: Option<u8>,
}

impl Socket {
    /// Nothing is known of it.
    pub(crate) fn new(stream: TcpStream) -> Socket
        ensures { result ≡ record {
          stream = stream;
          readable = true;
          hung_up = false;
          blocked = false;
          gone = false;
          first = None;
        } }
    {
        Socket {
            stream,
            readable: true,
            hung_up: false,
            blocked: false,
            gone: false,
            first: None,
        }
    }

    /// The system is to send what is written at once, and to find a peer that is gone without a word.
    fn set_options(&self) -> io::Result<()> {
        self.stream.set_nodelay(true)?;
        for (option, value) in KEEP_ALIVE {
            option.set(&self.stream, value)?;
        }
        Ok(())
    }

    /// The poll tells of its reads and its writes.
    pub(crate) fn register(&mut self, poll: &Poll) -> io::Result<()> {
        self.set_options()?;
        let both = Interest::READABLE | Interest::WRITABLE;
        poll.registry().register(&mut self.stream, SOCKET, both)
    }

    /// The poll tells of its writes alone.
    pub(crate) fn register_writes(&mut self, poll: &Poll) -> io::Result<()> {
        poll.registry()
            .reregister(&mut self.stream, SOCKET, Interest::WRITABLE)
    }

    /// The poll tells of its reads alone.
    pub(crate) fn register_reads(&mut self, poll: &Poll) -> io::Result<()> {
        poll.registry()
            .reregister(&mut self.stream, SOCKET, Interest::READABLE)
    }

    /// Notes an event.
    fn note_one(&mut self, event: &Event)
        ensures { self.new ≡ after_event event.now self.old }
    {
        if event.token() != SOCKET {
            return;
        }
        if event.is_read_closed() || event.is_error() {
            self.hung_up = true;
        }
        if event.is_readable() || event.is_read_closed() || event.is_error() {
            self.readable = true;
        }
        if event.is_writable() || event.is_write_closed() {
            self.blocked = false;
        }
    }

    /// Notes what the poll told.
    pub(crate) fn note(&mut self, events: &Events)
        ensures { self.new ≡ after_events (items events.now) self.old }
    {
        for event in events.iter() {
            self.note_one(event);
        }
    }

    /// Notes what the poll told when it was waited for, whatever that is. A write is tried again then: the system tells
    /// of room only once a third of what it holds has gone, which takes a slow peer long.
    pub(crate) fn note_waited(&mut self, events: &Events)
        ensures { self.new ≡ after_events (items events.now) (record self.old { blocked = false }) }
    {
        self.blocked = false;
        self.note(events);
    }

    /// A write is to be tried again.
    pub(crate) fn try_again(&mut self)
        ensures { self.new ≡ record self.old { blocked = false } }
    {
        self.blocked = false;
    }

    /// Reads once, into this room, unless nothing can be there. A failed read is the peer's end. Once a write has failed
    /// the poll isn't waited for.
    #[inline(always)]
    pub(crate) fn read(&mut self, room: &mut [u8]) -> Came
        ensures idle { self.old.readable ≡ false → self.old.gone ≡ false → room.new ≡ room.old }
        ensures read { SocketReads self.old result room.new self.new }
    {
        if !self.readable && !self.gone {
            return Came::Nothing;
        }
        match self.stream.read(room) {
            Ok(0) => Came::End,
            Ok(n) => {
                if n < room.len() && !self.hung_up {
                    self.readable = false;
                }
                self.note_first(room);
                Came::Octets(n)
            }
            Err(e) if e.kind() == ErrorKind::WouldBlock => {
                self.readable = false;
                Came::Nothing
            }
            Err(e) if e.kind() == ErrorKind::Interrupted => Came::Again,
            Err(_) => Came::End,
        }
    }

    /// Notes the first octet of this room, where it is the first that was read.
    fn note_first(&mut self, room: &[u8])
        ensures { self.new ≡ record self.old { first = first_read self.old.first room.now } }
    {
        if self.first.is_none() {
            self.first = room.first().copied();
        }
    }

    /// The first octet that was read, if one was.
    pub(crate) fn first(&self) -> Option<u8>
        ensures { result ≡ self.now.first }
    {
        self.first
    }

    /// Writes what waits for the connection, as far as the system takes it; how many octets went out. Once a write has
    /// failed what waits is dropped.
    pub(crate) fn write<C: BrokerCalls>(&mut self, talk: &mut Conversation<C>) -> usize
        ensures written { SocketWrites self.old talk.old.wire result self.new talk.new.wire }
        ensures same { talk.new ≡ record talk.old { wire = talk.new.wire } }
    {
        if self.blocked || talk.wire().len() == 0 {
            return 0;
        }
        if self.gone {
            talk.drop_waiting();
            return 0;
        }
        match talk.drain(&mut self.stream) {
            Ok(sent) => {
                self.blocked = talk.wire().len() > 0;
                sent
            }
            Err(_) => {
                self.gone = true;
                talk.drop_waiting();
                0
            }
        }
    }

    /// Has the system acknowledge at once what was read. That it may not do so harms nobody.
    pub(crate) fn acknowledge(&self) {
        let _ = SocketOption::QuickAck.set(&self.stream, 1);
    }

    /// Whether a write failed.
    pub(crate) fn is_gone(&self) -> bool
        ensures { result ≡ self.now.gone }
    {
        self.gone
    }

    /// Whether the system took less than there was at the last write, and hasn't told since that it takes more.
    pub(crate) fn is_blocked(&self) -> bool
        ensures { result ≡ self.now.blocked }
    {
        self.blocked
    }

    /// Says once that there is no memory, if the system takes that.
    pub(crate) fn say_no_memory(&mut self) {
        let _ = self.stream.write(NO_MEMORY);
    }

    /// Nothing more will be written.
    pub(crate) fn shut(&mut self) {
        let _ = self.stream.shutdown(Shutdown::Write);
    }
}
