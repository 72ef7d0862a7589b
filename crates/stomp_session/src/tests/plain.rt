//! What two sessions of one server answer, by looking back over the list of the frames that were accepted.

use super::answers::{PlainAction, PlainAnswer, PlainSend, PlainTxn};
use super::made::Made;
use std::alloc::Global;
use stomp_frame::{Command, NoMemory};

fn is_connect(command: Command) -> bool {
    matches!(command, Command::Connect | Command::Stomp)
}

/// A SUBSCRIBE or an UNSUBSCRIBE of this id.
fn names_subscription(frame: &Made, id: Option<u8>) -> bool {
    matches!(frame.command, Command::Subscribe | Command::Unsubscribe) && frame.id == id
}

/// A BEGIN, a COMMIT or an ABORT of this transaction.
fn names_transaction(frame: &Made, transaction: Option<u8>) -> bool {
    matches!(
        frame.command,
        Command::Begin | Command::Commit | Command::Abort
    ) && frame.transaction == transaction
}

/// The frames of both connections that were accepted, in order, and whether one of each was refused. The topics are some
/// whose names no frame has, and after them `A` and those of the destinations of the frames, in the order of their first
/// uses.
#[derive(Drop)]
pub(super) struct Past {
    alloc: Global,
    before: u32,
    destinations: Vec<u8>,
    accepted: Vec<Made>,
    is_refused: (bool, bool),
}

impl Past {
    pub(super) fn new(alloc: Global, before: u32) -> Result<Past, NoMemory> {
        Ok(Past {
            alloc,
            before,
            destinations: vec![in alloc; b'A'; 1]?,
            accepted: Vec::new(alloc),
            is_refused: (false, false),
        })
    }

    /// The number of a destination's topic; the next number where it has none yet.
    fn topic_of(&self, destination: Option<u8>) -> u32 {
        let mut topic = self.before;
        for own in self.destinations.iter() {
            if destination == Some(*own) {
                return topic;
            }
            topic = topic.wrapping_add(1);
        }
        topic
    }

    /// How many topics there are.
    pub(super) fn topics(&self) -> u32 {
        self.topic_of(None)
    }

    /// 76 where a destination is no topic's and can't be one's, 75 where it is none's and there are 1,024.
    fn destination_refusal(&self, destination: Option<u8>) -> Option<u32> {
        if self.topic_of(destination) != self.topics() {
            return None;
        }
        match destination {
            Some(33..=126) if self.topics() < 1_024 => None,
            Some(33..=126) => Some(75),
            _ => Some(76),
        }
    }

    /// Adds those of these SENDs that go to this topic after the others.
    fn add_part(
        &self,
        topic: u32,
        sends: &[Made],
        parts: &mut Vec<PlainSend>,
    ) -> Result<(), NoMemory> {
        for (index, send) in sends.iter().enumerate() {
            if self.topic_of(send.destination) == topic {
                parts.push(PlainSend {
                    topic,
                    index,
                    body: send.index,
                    headers: send.send_headers(),
                })?;
            }
        }
        Ok(())
    }

    /// The transaction of these SENDs, or nothing where there is none. The next topic is among those that they may go
    /// to.
    fn commit(&self, sends: &[Made]) -> Result<PlainAction, NoMemory> {
        if sends.is_empty() {
            return Ok(PlainAction::Nothing);
        }
        let mut topics = Vec::new(self.alloc);
        let mut parts = Vec::new(self.alloc);
        for topic in self.before..=self.topics() {
            let before = parts.len();
            self.add_part(topic, sends, &mut parts)?;
            if parts.len() != before {
                topics.push(topic)?;
            }
        }
        Ok(PlainAction::Commit(PlainTxn {
            len: sends.len(),
            topics,
            parts,
        }))
    }

    /// Whether a frame was refused, or a DISCONNECT accepted, of the connection of this one.
    fn is_closed(&self, of: &Made) -> bool {
        let is_refused = if of.is_second {
            self.is_refused.1
        } else {
            self.is_refused.0
        };
        is_refused
            || self.accepted.iter().any(|frame| {
                frame.is_second == of.is_second && frame.command == Command::Disconnect
            })
    }

    fn is_connected(&self, of: &Made) -> bool {
        self.accepted.iter().any(|frame| frame.is_second == of.is_second
            && is_connect(frame.command))
    }

    /// Whether the last frame of this one's connection that names its subscription is a SUBSCRIBE.
    fn is_subscribed(&self, of: &Made) -> bool {
        match self.accepted.iter().rev().find(|frame| frame.is_second == of.is_second
            && names_subscription(frame, of.id))
        {
            Some(last) => last.command == Command::Subscribe,
            None => false,
        }
    }

    /// Whether the last frame of a connection that names this subscription is a SUBSCRIBE with `part:yes`, and the
    /// connection isn't closed.
    pub(super) fn asks_parts(&self, of: &Made) -> bool {
        if self.is_closed(of) {
            return false;
        }
        match self.accepted.iter().rev().find(|frame| frame.is_second == of.is_second
            && names_subscription(frame, of.id))
        {
            Some(last) => last.command == Command::Subscribe && last.part == Some(b"yes"),
            None => false,
        }
    }

    /// The frames after the last one of this one's connection that names its transaction, SENDs aside, where that is a
    /// BEGIN: then it is open.
    fn after_begin(&self, of: &Made) -> Option<&[Made]> {
        let index = self.accepted.iter().rposition(|frame| {
            frame.is_second == of.is_second && names_transaction(frame, of.transaction)
        })?;
        if self.accepted[index].command == Command::Begin {
            return Some(&self.accepted[index + 1..]);
        }
        None
    }

    fn is_begun(&self, of: &Made) -> bool {
        self.after_begin(of).is_some()
    }

    /// The SENDs of this frame's transaction, where that is open.
    fn sends(&self, of: &Made) -> Result<Vec<Made>, NoMemory> {
        let mut sends = Vec::new(self.alloc);
        for frame in self.after_begin(of).unwrap_or(&[]) {
            if frame.is_second == of.is_second
                && frame.command == Command::Send
                && frame.transaction == of.transaction
            {
                sends.push(*frame)?;
            }
        }
        Ok(sends)
    }

    fn subscribe_refusal(&self, frame: &Made) -> Option<u32> {
        if frame.ack == Some(b"client") {
            return Some(68);
        }
        if let Some(number) = self.destination_refusal(frame.destination) {
            return Some(number);
        }
        if self.is_subscribed(frame) {
            return Some(63);
        }
        None
    }

    fn send_refusal(&self, frame: &Made) -> Option<u32> {
        if let Some(number) = self.destination_refusal(frame.destination) {
            return Some(number);
        }
        if frame.transaction.is_some() && !self.is_begun(frame) {
            return Some(66);
        }
        None
    }

    fn connect_refusal(&self, frame: &Made) -> Option<u32> {
        if self.is_connected(frame) {
            return Some(61);
        }
        match frame.versions {
            Some((_, true)) => None,
            _ => Some(62),
        }
    }

    /// The number of the frame's refusal, or `None` where it is accepted.
    pub(super) fn refusal(&self, frame: &Made) -> Option<u32> {
        if self.is_closed(frame) {
            return Some(73);
        }
        if is_connect(frame.command) {
            return self.connect_refusal(frame);
        }
        if !self.is_connected(frame) {
            return Some(60);
        }
        match frame.command {
            Command::Subscribe => self.subscribe_refusal(frame),
            Command::Unsubscribe if !self.is_subscribed(frame) => Some(64),
            Command::Begin if self.is_begun(frame) => Some(65),
            Command::Send => self.send_refusal(frame),
            Command::Commit | Command::Abort if !self.is_begun(frame) => Some(66),
            _ => None,
        }
    }

    fn action(&self, frame: &Made) -> Result<PlainAction, NoMemory> {
        match frame.command {
            Command::Connect | Command::Stomp => Ok(PlainAction::Connected(frame.client)),
            Command::Subscribe => Ok(PlainAction::Subscribe(
                frame.id,
                Some(self.topic_of(frame.destination)),
            )),
            Command::Unsubscribe => Ok(PlainAction::Unsubscribe(frame.id)),
            Command::Send if frame.transaction.is_none() => self.commit(&[*frame]),
            Command::Commit => self.commit(&self.sends(frame)?),
            Command::Disconnect => Ok(PlainAction::Disconnect),
            _ => Ok(PlainAction::Nothing),
        }
    }

    /// What the frame is answered. Any but a CONNECT or a STOMP has the receipt that it asks for.
    fn answer(&self, frame: &Made) -> Result<PlainAnswer, NoMemory> {
        if let Some(number) = self.refusal(frame) {
            return Ok(PlainAnswer::Refused(number));
        }
        let receipt = if is_connect(frame.command) {
            None
        } else {
            frame.receipt
        };
        Ok(PlainAnswer::Accepted(self.action(frame)?, receipt))
    }

    /// Whether the frame is answered this.
    pub(super) fn is_answer(&self, frame: &Made, told: &PlainAnswer) -> Result<bool, NoMemory> {
        Ok(self.answer(frame)? == *told)
    }

    /// Adds an accepted frame after the others; a refused one closes its connection.
    pub(super) fn put(&mut self, frame: &Made) -> Result<(), NoMemory> {
        if self.refusal(frame).is_some() {
            if frame.is_second {
                self.is_refused.1 = true;
            } else {
                self.is_refused.0 = true;
            }
            return Ok(());
        }
        if let Some(destination) = frame.destination {
            if self.topic_of(frame.destination) == self.topics() {
                self.destinations.push(destination)?;
            }
        }
        self.accepted.push(*frame)?;
        Ok(())
    }
}
