//! A client that sends frames to a session.

ghost use Rattle.std.specs.Prelude.{◌≡◌, ◌&&◌, nat_le, IfOk, IfSome};
ghost use Rattle.std.specs.List.{list_all};
ghost use Rattle.stomp_frame.specs.Headers.{IsText, IsPair};

use crate::{MAX_TOPICS, Names, Session, SessionFault, Step};
use std::alloc::Global;
use stomp_frame::{ClientFrame, Command, Headers, NoMemory, Octets, RawFrame, classify};

pub(super) type Pairs<'a> = &'a [(&'a [u8], &'a [u8])];

pub(super) type Answer = Result<Step, (ClientFrame, SessionFault)>;

fn is_ascii(octets: &[u8]) -> bool
    ensures { result ≡ list_all (λ b. nat_le 1 b && nat_le b 127) octets.now }
{
    octets.iter().all(|b| 1 <= *b && *b <= 127)
}

/// The octets, where they are ASCII without NULL, as those of these tests are.
fn text(alloc: Global, octets: &[u8]) -> Result<Octets, NoMemory>
    ensures { IfOk result (λ o. IsText o) }
{
    if !is_ascii(octets) {
        return Err(NoMemory);
    }
    let text = Octets::from_slice(alloc, octets)?;
    Ok(text)
}

fn pair(alloc: Global, name: &[u8], value: &[u8]) -> Result<(Octets, Octets), NoMemory>
    ensures { IfOk result (λ p. IsPair p) }
{
    let name = text(alloc, name)?;
    if name.is_empty() {
        return Err(NoMemory);
    }
    Ok((name, text(alloc, value)?))
}

/// Puts a header at the end.
pub(super) fn push(
    alloc: Global,
    headers: &mut Headers,
    name: &[u8],
    value: &[u8],
) -> Result<(), NoMemory> {
    let (name, value) = pair(alloc, name, value)?;
    headers.push(name, value)
}

/// The client's frame of these headers and this body, which the case table accepts.
pub(super) fn classified(
    alloc: Global,
    command: Command,
    headers: Headers,
    body: &[u8],
) -> Result<ClientFrame, NoMemory> {
    let raw = RawFrame {
        command,
        headers,
        body: Octets::from_slice(alloc, body)?,
    };
    match classify(raw) {
        Ok(frame) => Ok(frame),
        Err(_) => Err(NoMemory),
    }
}

/// A frame with these headers and this body.
pub(super) fn frame_with(
    alloc: Global,
    command: Command,
    pairs: Pairs,
    body: &[u8],
) -> Result<ClientFrame, NoMemory> {
    let mut headers = Headers::new(alloc);
    for (name, value) in pairs {
        push(alloc, &mut headers, name, value)?;
    }
    classified(alloc, command, headers, body)
}

/// A frame with these headers; its body is `m` where it is a SEND.
fn frame(alloc: Global, command: Command, pairs: Pairs) -> Result<ClientFrame, NoMemory> {
    let body = if command == Command::Send {
        b"m".as_slice()
    } else {
        b"".as_slice()
    };
    frame_with(alloc, command, pairs, body)
}

/// The number of the fault, or 0 where the frame was accepted.
fn number(answer: Answer) -> u32 {
    match answer.err() {
        None => 0,
        Some((frame, fault)) => {
            drop(frame);
            fault.number()
        }
    }
}

/// Whether the receipt is this one.
pub(super) fn has(receipt: &Option<Octets>, want: &[u8]) -> bool {
    match receipt {
        Some(receipt) => receipt.as_slice() == want,
        None => false,
    }
}

/// Letters, their commands, and the names of their two headers, which are empty where there are fewer.
const SHAPES: [(u8, Command, &[u8], &[u8]); 6] = [
    (b's', Command::Subscribe, b"id", b"destination"),
    (b'u', Command::Unsubscribe, b"id", b""),
    (b'b', Command::Begin, b"transaction", b""),
    (b'e', Command::Commit, b"transaction", b""),
    (b'a', Command::Abort, b"transaction", b""),
    (b'm', Command::Send, b"destination", b"transaction"),
];

/// The command of a letter, and the names of its headers; any other letter is a DISCONNECT.
fn shape(letter: u8) -> (Command, &'static [u8], &'static [u8]) {
    for (own, command, first, second) in SHAPES {
        if own == letter {
            return (command, first, second);
        }
    }
    (Command::Disconnect, b"", b"")
}

/// The pairs before the first one without a name.
fn pairs_with_names<'a>(pairs: &'a [(&'a [u8], &'a [u8]); 2]) -> Pairs<'a> {
    if pairs[0].0.is_empty() {
        return &pairs[..0];
    }
    if pairs[1].0.is_empty() {
        return &pairs[..1];
    }
    pairs
}

/// Adds a name, where there is room for one more topic.
pub(super) fn add_name(names: &mut Names, name: &[u8]) -> Result<(), NoMemory> {
    if names.len() < MAX_TOPICS {
        names.add(name)?;
    }
    Ok(())
}

/// The names of as many topics, at most 1,024: each has two octets.
pub(super) fn many_names(alloc: Global, count: usize) -> Result<Names, NoMemory> {
    let mut names = Names::new(alloc);
    for index in 0..count {
        let (high, low) = ((index / 32 % 32) as u8, (index % 32) as u8);
        add_name(
            &mut names,
            &[b'@'.wrapping_add(high), b'@'.wrapping_add(low)],
        )?;
    }
    Ok(names)
}

/// A client of a server, with the names of its topics.
pub(super) struct Client {
    alloc: Global,
    names: Names,
    session: Session,
}

impl Drop for Client {
    /// Written out, so that letting a client go is one call for the prover wherever it happens.
    fn drop(self) {
        let Client {
            alloc: _,
            names,
            session,
        } = self;
        drop(names);
        drop(session);
    }
}

impl Client {
    /// A client of a server with the topics `A` and `B`.
    pub(super) fn new(alloc: Global) -> Result<Client, NoMemory> {
        let mut names = Names::new(alloc);
        add_name(&mut names, b"A")?;
        add_name(&mut names, b"B")?;
        Ok(Client::of(alloc, names))
    }

    /// A client of a server with the topics of these names.
    pub(super) fn of(alloc: Global, names: Names) -> Client {
        Client {
            alloc,
            names,
            session: Session::new(alloc),
        }
    }

    /// The names of the topics.
    pub(super) fn names(&self) -> &Names {
        &self.names
    }

    /// Another connection takes this one's place, at the same server.
    pub(super) fn reconnect(&mut self) -> Result<u32, NoMemory> {
        self.session = Session::new(self.alloc);
        self.connect(b"1.2")
    }

    /// A client whose frames of this script were accepted; an error where one wasn't.
    pub(super) fn after(alloc: Global, script: &[u8]) -> Result<Client, NoMemory> {
        let mut client = Client::new(alloc)?;
        for frame in script.chunks(4) {
            if let [letter, x, y, ..] = frame {
                if client.letters(*letter, *x, *y)? != 0 {
                    return Err(NoMemory);
                }
            }
        }
        Ok(client)
    }

    /// A client whose CONNECT was accepted, and then a BEGIN of `x`.
    pub(super) fn begun(alloc: Global) -> Result<Client, NoMemory> {
        Client::after(alloc, b"c..,bx.")
    }

    /// What the session answers to a frame.
    pub(super) fn take(&mut self, frame: ClientFrame) -> Answer {
        self.session.step(frame, &mut self.names)
    }

    pub(super) fn answer(&mut self, command: Command, pairs: Pairs) -> Result<Answer, NoMemory> {
        let frame = frame(self.alloc, command, pairs)?;
        Ok(self.take(frame))
    }

    /// What an accepted frame is answered; nothing where it is refused, or there is no memory for it.
    pub(super) fn step(&mut self, command: Command, pairs: Pairs) -> Option<Step> {
        self.answer(command, pairs).ok()?.ok()
    }

    /// The receipt of an accepted frame that asks for one; nothing where there is none.
    pub(super) fn receipt(&mut self, command: Command, pairs: Pairs) -> Option<Octets>
        ensures { IfSome result (λ receipt. IsText receipt) }
    {
        let frame = frame(self.alloc, command, pairs).ok()?;
        let Step { action, receipt } = self.session.step(frame, &mut self.names).ok()?;
        drop(action);
        receipt
    }

    pub(super) fn tell(&mut self, command: Command, pairs: Pairs) -> Result<u32, NoMemory> {
        Ok(number(self.answer(command, pairs)?))
    }

    /// A frame in three letters: what it is and its headers' values, as `shape` has them; `c` is a CONNECT.
    pub(super) fn letters(&mut self, letter: u8, x: u8, y: u8) -> Result<u32, NoMemory> {
        if letter == b'c' {
            return self.connect(b"1.2");
        }
        let (command, first, second) = shape(letter);
        let pairs: [(&[u8], &[u8]); 2] = [(first, &[x]), (second, &[y])];
        self.tell(command, pairs_with_names(&pairs))
    }

    pub(super) fn connect(&mut self, versions: &[u8]) -> Result<u32, NoMemory> {
        self.tell(
            Command::Connect,
            &[(b"accept-version", versions), (b"host", b"h")],
        )
    }

    pub(super) fn end(&mut self) {
        self.session.end();
    }

    /// Whether the session says that the subscription of this id asked for parts.
    pub(super) fn asks_parts(&self, id: u8) -> bool {
        self.session.asks_parts(&[id])
    }
}

/// What a frame after a script is answered; nothing where a frame is refused, or there is no memory for it.
pub(super) fn step_after(
    alloc: Global,
    script: &[u8],
    command: Command,
    pairs: Pairs,
) -> Option<Step> {
    let mut client = Client::after(alloc, script).ok()?;
    client.step(command, pairs)
}

/// The number that the last frame of a script is answered, where each one before was accepted; else 1000.
pub(super) fn last_number(alloc: Global, script: &[u8]) -> Result<u32, NoMemory> {
    let mut client = Client::new(alloc)?;
    let mut last = 0;
    for frame in script.chunks(4) {
        if let [letter, x, y, ..] = frame {
            if last != 0 {
                return Ok(1000);
            }
            last = client.letters(*letter, *x, *y)?;
        }
    }
    Ok(last)
}
