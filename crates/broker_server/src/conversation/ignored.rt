//! What a client asks for that the server ignores.

ghost use Rattle.std.specs.Prelude.{◌≡◌, ◌≢◌, ◌↔◌, ◌||◌, ◌==◌, IsTrue, is_some};
ghost use Rattle.std.specs.List.{list_any};
ghost use Rattle.std.specs.Str.{bytes_eq};
ghost use Rattle.stomp_frame.specs.Cases.{is_connect};
ghost use Rattle.stomp_session.specs.Frames.{is_send, is_subscribe};
ghost use Rattle.broker_server.specs.Ignoring.{ignored_in_either, ignored_of, ignored_without, is_other_than, is_wildcard, names_wildcard, nothing_ignored};

use stomp_frame::{Command, RawFrame};

/// What a client asks for that the server ignores, though elsewhere it changes what the client gets (our choice, not the
/// standard's).
#[derive(Clone, Copy)]
pub struct Ignored {
    /// A selector, which leaves MESSAGEs out.
    pub selector: bool,
    /// A durable subscription, which outlasts its connection.
    pub durable: bool,
    /// A destination that stands for many: one with `*`, `>` or `#`.
    pub wildcard: bool,
    /// Messages that outlast the server.
    pub persistent: bool,
    /// Heart-beats.
    pub heart_beat: bool,
}

impl Ignored {
    /// Nothing.
    pub fn nothing() -> Ignored
        ensures { result ≡ nothing_ignored }
    {
        Ignored {
            selector: false,
            durable: false,
            wildcard: false,
            persistent: false,
            heart_beat: false,
        }
    }

    /// What a frame asks for that is ignored.
    pub fn of(frame: &RawFrame) -> Ignored
        ensures { result ≡ ignored_of frame.now }
    {
        let subscribes = is_subscribe(frame.command);
        let sends = is_send(frame.command);
        let connects = is_connect(frame.command);
        Ignored {
            selector: subscribes && frame.headers.first(b"selector").is_some(),
            durable: subscribes && is_other_than(b"false", b"durable", frame),
            wildcard: subscribes && names_wildcard(frame),
            persistent: (subscribes || sends) && is_other_than(b"false", b"persistent", frame),
            heart_beat: connects && is_other_than(b"0,0", b"heart-beat", frame),
        }
    }

    /// Whether it is anything.
    pub fn is_any(self) -> bool
        ensures { IsTrue result ↔ (self ≢ nothing_ignored) }
    {
        self.selector || self.durable || self.wildcard || self.persistent || self.heart_beat
    }

    /// What is here or there.
    pub fn or(self, other: Ignored) -> Ignored
        ensures { result ≡ ignored_in_either self other }
    {
        Ignored {
            selector: self.selector || other.selector,
            durable: self.durable || other.durable,
            wildcard: self.wildcard || other.wildcard,
            persistent: self.persistent || other.persistent,
            heart_beat: self.heart_beat || other.heart_beat,
        }
    }

    /// What is here, and not there.
    pub fn without(self, other: Ignored) -> Ignored
        ensures { result ≡ ignored_without self other }
    {
        Ignored {
            selector: self.selector && !other.selector,
            durable: self.durable && !other.durable,
            wildcard: self.wildcard && !other.wildcard,
            persistent: self.persistent && !other.persistent,
            heart_beat: self.heart_beat && !other.heart_beat,
        }
    }
}

/// Whether a frame is a SUBSCRIBE.
fn is_subscribe(command: Command) -> bool
    ensures { result ≡ is_subscribe command }
{
    matches!(command, Command::Subscribe)
}

/// Whether a frame is a SEND.
pub(super) fn is_send(command: Command) -> bool
    ensures { result ≡ is_send command }
{
    matches!(command, Command::Send)
}

/// Whether a frame is a CONNECT, or a STOMP, which means CONNECT.
fn is_connect(command: Command) -> bool
    ensures { result ≡ is_connect command }
{
    matches!(command, Command::Connect | Command::Stomp)
}

/// Whether a frame's first header of this name has another value than this.
fn is_other_than(value: &[u8], name: &[u8], frame: &RawFrame) -> bool
    ensures { result ≡ is_other_than value.now name.now frame.now }
{
    match frame.headers.first(name) {
        Some(other) => other != value,
        None => false,
    }
}

/// Whether a frame's destination has a `*`, a `>` or a `#`.
fn names_wildcard(frame: &RawFrame) -> bool
    ensures { result ≡ names_wildcard frame.now }
{
    match frame.headers.first(b"destination") {
        Some(name) => has_wildcard(name),
        None => false,
    }
}

/// Whether one of these octets is `*`, `>` or `#`.
fn has_wildcard(text: &[u8]) -> bool
    ensures { result ≡ list_any is_wildcard text.now }
{
    text.iter().any(|b| is_wildcard(*b))
}

/// Whether an octet is `*`, `>` or `#`.
fn is_wildcard(b: u8) -> bool
    ensures { result ≡ is_wildcard b }
{
    b == b'*' || b == b'>' || b == b'#'
}
