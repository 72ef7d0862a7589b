//! What a connection has to write.

ghost use Rattle.std.specs.Prelude.{◌≡◌, ◌++◌, ◌≤◌, ◌<◌, ◌↔◌, [], IsTrue, length, drop, nat_lt, slice_get, IfSome, OnOk, OnErr};
ghost use Rattle.stomp_frame.specs.ServerFrames.{raw_of_server};
ghost use Rattle.delivery.specs.Core.Output.{messages_for};
ghost use Rattle.broker_server.specs.Delivering.{full_wire};
ghost use Rattle.broker_server.specs.Wires.{spelling_with_eol};

use crate::writing::{write_message, write_with_eol};
use mcast_txn::Released;
use std::alloc::Global;
use std::marker::Model;
use stomp_frame::{NoMemory, Octets, ServerFrame};

/// As many octets as may wait before no further item is taken, and no further MESSAGE of one put. As many that were written may lie before those that
/// wait, and as many may have been in the room that an empty wire keeps (our choice).
const FULL: usize = 65_536;

/// The octets that wait to be written to a connection. In contracts it is the list of them.
pub struct Wire {
    alloc: Global,
    octets: Octets,
    /// How many of them were written.
    written: usize,
}

impl Drop for Wire {
    /// Written out, so that letting a wire go is one call for the prover wherever it happens.
    fn drop(self) {
        let Wire {
            alloc: _,
            octets,
            written: _,
        } = self;
        drop(octets);
    }
}

impl Model for Wire {
    ghost use Rattle.std.specs.Prelude.{List, ℕ, ◌≤◌, length, drop};

    ghost Value = { List ℕ };

    ghost view = { λ w. drop w.written w.octets };

    ghost invariant = { λ w. w.written ≤ length w.octets };
}

impl Wire {
    /// Nothing to write. It takes no memory yet.
    pub fn new(alloc: Global) -> Wire
        ensures { result ≡ [] }
    {
        Wire {
            alloc,
            octets: Octets::new(alloc),
            written: 0,
        }
    }

    /// Puts octets behind those that wait. After `NoMemory` nothing has changed.
    pub fn put(&mut self, piece: &[u8]) -> Result<(), NoMemory>
        ensures ok { OnOk result (self.new ≡ self.old ++ piece.now) }
        ensures err { OnErr result (self.new ≡ self.old) }
    {
        self.tidy();
        self.octets.extend(piece)
    }

    /// Puts a frame with its EOL behind the octets that wait. After `NoMemory` nothing has changed.
    #[inline(never)]
    pub fn put_frame(&mut self, frame: &ServerFrame) -> Result<(), NoMemory>
        ensures ok { OnOk result (self.new ≡ self.old ++ spelling_with_eol (raw_of_server frame.now)) }
        ensures err { OnErr result (self.new ≡ self.old) }
    {
        self.tidy();
        write_with_eol(frame, &mut self.octets)
    }

    /// Puts the MESSAGE of an item's SEND, by its index, behind the octets that wait, with its EOL: for the subscription
    /// of this id, which asked for parts or didn't. After `NoMemory` nothing has changed.
    #[inline(always)]
    pub fn put_message(
        &mut self,
        id: &[u8],
        parts: bool,
        item: &Released,
        at: usize,
    ) -> Result<(), NoMemory>
        requires { at < length item.now.sends }
        ensures ok { OnOk result (IfSome (slice_get (messages_for parts id.now item.now) at)
            (λ f. self.new ≡ self.old ++ spelling_with_eol f)) }
        ensures err { OnErr result (self.new ≡ self.old) }
    {
        self.tidy();
        write_message(id, parts, item, at, &mut self.octets)
    }

    /// The octets that wait.
    pub fn pending(&self) -> &[u8]
        ensures { result.now ≡ self.now }
    {
        &self.octets.as_slice()[self.written..]
    }

    /// How many octets wait.
    pub fn len(&self) -> usize
        ensures { result ≡ length self.now }
    {
        self.octets.len() - self.written
    }

    /// Whether none waits.
    pub fn is_empty(&self) -> bool
        ensures { IsTrue result ↔ (self.now ≡ []) }
    {
        self.len() == 0
    }

    /// The first `n` of those that wait were written: as many as wait, at most. It moves none of the others. Where none
    /// is left, room that held more than 65,536 octets is given back.
    pub fn wrote(&mut self, n: usize)
        requires { n ≤ length self.old }
        ensures { self.new ≡ drop n self.old }
    {
        let left = self.len() - n;
        if left > 0 {
            self.written = self.octets.len() - left;
            return;
        }
        if self.octets.len() > FULL {
            self.octets = Octets::new(self.alloc);
        } else {
            self.octets.truncate(0);
        }
        self.written = 0;
    }

    /// Whether a further item may be taken, or a further MESSAGE of one put: fewer than 65,536 octets wait.
    pub fn may_take(&self) -> bool
        ensures { result ≡ nat_lt (length self.now) full_wire }
    {
        self.len() < FULL
    }

    /// Lets go of what was written, where that is 65,536 octets or more, and as many as wait: so each octet is moved at
    /// most once for one that was written. Out of memory it stays.
    #[inline(always)]
    fn tidy(&mut self)
        ensures { self.new ≡ self.old }
    {
        if self.written >= FULL && self.written >= self.len() {
            self.let_go();
        }
    }

    /// Lets go of what was written; out of memory it stays. It is seldom called, and so apart.
    #[inline(never)]
    fn let_go(&mut self)
        ensures { self.new ≡ self.old }
    {
        if let Ok(octets) = Octets::from_slice(self.alloc, self.pending()) {
            self.octets = octets;
            self.written = 0;
        }
    }
}
