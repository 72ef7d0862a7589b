//! Connections of the core.

ghost use Rattle.std.specs.Prelude.{◌≡◌, ◌==◌, true, false, None, take, is_err, OnOk, OnErr};
ghost use Rattle.std.specs.List.{flat_map, position};
ghost use Rattle.std.specs.Option.{is_some};
ghost use Rattle.stomp_frame.specs.ServerFrames.{raw_of_server, error_frame};
ghost use Rattle.stomp_frame.specs.Writing.{spelling_of};
ghost use Rattle.delivery.specs.Core.Output.{messages_for};
ghost use Rattle.delivery.specs.Inner.Leaving.{has_parting, gone_endpoint};
ghost use Rattle.delivery.specs.Inner.Nexts.{JudgesAt, staged_endpoint};
ghost use Rattle.delivery.specs.Inner.Senders.{receipt_in, asked_endpoint, confirmed_endpoint_if, reads_frames, refused_endpoint};
ghost use Rattle.delivery.specs.Inner.Subscriptions.{shorter_endpoint, longer_endpoint, stage_parts};
ghost use Rattle.delivery.specs.Inner.View.{new_endpoint, fed_endpoint, written_endpoint};

use crate::connection_fault::ConnectionFault;
use crate::messages::write_messages;
use crate::open_endpoint::OpenEndpoint;
use crate::stage::Stage;
use mcast_txn::Released;
use std::alloc::Global;
use std::marker::Model;
use std::mem;
use stomp_frame::{FrameReader, Limits, NoMemory, Octets, RawFrame, ServerFrame, write_server};
use stomp_session::{Names, Session, Step};

/// The limits of the core's readers, in octets, headers and octets.
const READER_LIMITS: Limits = Limits {
    line: 4096,
    headers: 64,
    body: 1_048_576,
};

/// A connection's endpoint: its sender, once it has one, how far it is, the numbers of its subscriptions that aren't
/// closed, in order, and its octets out.
#[derive(Drop)]
pub(crate) struct Endpoint {
    pub(crate) sender: Option<u64>,
    pub(crate) stage: Stage,
    pub(crate) live: Vec<u64>,
    pub(crate) output: Octets,
}

impl Model for Endpoint {
    ghost use Rattle.delivery.specs.Inner.View.{EndpointView};

    ghost Value = { EndpointView };

    ghost view = { λ l. record { sender = l.sender; stage = l.stage; live = l.live.items; output = l.output } };
}

impl Endpoint {
    /// The endpoint of a connection that has just been opened. It takes no memory.
    pub(crate) fn new(alloc: Global) -> Endpoint
        ensures { result ≡ new_endpoint }
    {
        Endpoint {
            sender: None,
            stage: Stage::Open(OpenEndpoint {
                reader: FrameReader::new(alloc, READER_LIMITS),
                session: Session::new(alloc),
                receipt: None,
            }),
            live: Vec::new(alloc),
            output: Octets::new(alloc),
        }
    }

    /// Feeds these octets to its reader, if it is open.
    pub(crate) fn feed(&mut self, octets: &[u8]) -> Result<(), NoMemory>
        ensures ok { OnOk result (self.new ≡ fed_endpoint octets.now self.old) }
        ensures err { OnErr result (self.new ≡ self.old) }
    {
        if let Stage::Open(endpoint) = &mut self.stage {
            endpoint.reader.feed(octets)?;
        }
        Ok(())
    }

    /// Writes a frame to its octets out. After `NoMemory` it is what it was.
    #[inline(never)]
    pub(crate) fn write(&mut self, frame: &ServerFrame) -> Result<(), NoMemory>
        ensures ok { OnOk result
            (self.new ≡ written_endpoint (spelling_of (raw_of_server frame.now)) self.old) }
        ensures err { OnErr result (self.new ≡ self.old) }
    {
        write_server(frame, &mut self.output)
    }

    /// What its next frame asks for, if it is open. The topics' names get the frame's destination, where it is accepted
    /// and has a new one.
    pub(crate) fn next_step(
        &mut self,
        alloc: Global,
        names: &mut Names,
    ) -> Result<Option<Step>, (ConnectionFault, Option<RawFrame>)>
        ensures stays { self.new ≡ staged_endpoint self.new.stage self.old }
        ensures judges { JudgesAt names.old self.old.stage result self.new.stage names.new }
    {
        if let Stage::Open(endpoint) = &mut self.stage {
            endpoint.next_step(alloc, names)
        } else {
            Ok(None)
        }
    }

    /// Takes back what was written after this many octets.
    pub(crate) fn take_back(&mut self, len: usize)
        ensures { self.new ≡ record self.old { output = take len self.old.output } }
    {
        self.output.truncate(len);
    }

    /// The index of this number among those of the subscriptions that aren't closed.
    fn index_of(&self, sub: u64) -> Option<usize>
        ensures { result ≡ position (λ n. n == sub) self.now.live }
    {
        self.live.iter().position(|n| *n == sub)
    }

    /// Takes the number of a subscription that is closed out of those that aren't.
    pub(crate) fn forget(&mut self, sub: u64)
        ensures { self.new ≡ shorter_endpoint sub self.old }
    {
        if let Some(index) = self.index_of(sub) {
            self.live.remove(index);
        }
    }

    /// It is gone. The RECEIPT of its DISCONNECT is written, if it asked for one; after `NoMemory` it is left out.
    pub(crate) fn depart(&mut self) -> Result<(), NoMemory>
        ensures gone { self.new ≡ gone_endpoint (is_err result) self.old }
        ensures asked { OnErr result (has_parting self.old.stage ≡ true) }
    {
        let Stage::Leaving(Some(id)) = mem::replace(&mut self.stage, Stage::Gone) else {
            return Ok(());
        };
        self.write(&ServerFrame::Receipt { id: id.as_slice() })
    }

    /// Writes an item's MESSAGEs, for the subscription of this id, which asked for parts or didn't, to its octets out.
    /// After `NoMemory` it is what it was.
    pub(crate) fn write_item(
        &mut self,
        parts: bool,
        id: &[u8],
        item: &Released,
    ) -> Result<(), NoMemory>
        ensures ok { OnOk result
            (self.new ≡ written_endpoint (flat_map spelling_of (messages_for parts id.now item.now)) self.old) }
        ensures err { OnErr result (self.new ≡ self.old) }
    {
        write_messages(parts, id, item, &mut self.output)
    }

    /// Whether the SUBSCRIBE of the open subscription of this id asked for parts; none of an endpoint that isn't open
    /// did.
    pub(crate) fn asks_parts(&self, id: &[u8]) -> bool
        ensures { result ≡ stage_parts id.now self.now.stage }
    {
        match &self.stage {
            Stage::Open(open) => open.session.asks_parts(id),
            Stage::Leaving(_) => false,
            Stage::Gone => false,
        }
    }

    /// Keeps the receipt that the frame of its transaction asked for, if it is open.
    pub(crate) fn keep_receipt(&mut self, receipt: Option<Octets>)
        ensures { self.new ≡ asked_endpoint receipt self.old }
    {
        if let Stage::Open(endpoint) = &mut self.stage {
            endpoint.receipt = receipt;
        }
    }

    /// Takes out the receipt that its transaction asked for, if the endpoint is open.
    fn take_receipt(&mut self) -> Option<Octets>
        ensures value { result ≡ receipt_in self.old.stage }
        ensures taken { self.new ≡ asked_endpoint None self.old }
    {
        match &mut self.stage {
            Stage::Open(open) => open.receipt.take(),
            Stage::Leaving(_) => None,
            Stage::Gone => None,
        }
    }

    /// Its transaction is decided: the RECEIPT is written, if it asked for one and the endpoint is open. Whether
    /// there was no memory for it: then it is left out, and the endpoint is leaving.
    pub(crate) fn confirm(&mut self) -> bool
        ensures asked { result ≡ true → is_some (receipt_in self.old.stage) ≡ true }
        ensures new { self.new ≡ confirmed_endpoint_if result self.old }
    {
        let Some(receipt) = self.take_receipt() else {
            return false;
        };
        let frame = ServerFrame::Receipt {
            id: receipt.as_slice(),
        };
        match self.write(&frame) {
            Ok(()) => false,
            Err(NoMemory) => {
                self.stage = Stage::Leaving(None);
                true
            }
        }
    }

    /// Its transaction is withdrawn: an open endpoint is leaving, with an ERROR of this message and the receipt that
    /// the transaction asked for. Whether there was no memory for it: then it is left out.
    pub(crate) fn refuse(&mut self, message: &[u8]) -> bool
        ensures asked { result ≡ true → reads_frames self.old.stage ≡ true }
        ensures new { self.new ≡ refused_endpoint result message.now self.old }
    {
        let Stage::Open(_) = &self.stage else {
            return false;
        };
        let receipt = self.take_receipt();
        let frame = error_of(message, &receipt);
        let cut = self.write(&frame).is_err();
        self.stage = Stage::Leaving(None);
        cut
    }
}

/// The ERROR of this message, with this receipt.
fn error_of<'a>(message: &'a [u8], receipt: &'a Option<Octets>) -> ServerFrame<'a>
    ensures { raw_of_server result ≡ error_frame message.now receipt.now false }
{
    let asked = match receipt {
        Some(receipt) => Some(receipt.as_slice()),
        None => None,
    };
    ServerFrame::Error {
        message,
        receipt: asked,
        version: false,
    }
}
