//! What a connection asks of the broker.

use crate::conversation::conversation_fault::ConversationFault;
use broker_locks::CommitFault;
use mcast_group::SubFault;
use mcast_txn::{Released, Topic, Txn};
use sender_gate::{ClaimFault, Flying, Gate};
use stomp_frame::ClientFrame;
use stomp_session::{Names, Session, Step};

/// What a connection asks of the broker: the running one, or one of a test. Each call may wait for other threads. What
/// a call makes of it is the implementation's to say: where nothing need be said, `ghost called = { λ old row new. Unit
/// {0} };`, and where the calls are kept, that the list of them has grown by this one.
pub trait BrokerCalls {
    ghost use Rattle.std.specs.Prelude.{◌≡◌, ℕ, Bool, List, map, Ok, Err, IfOk, IfErr};
    ghost use Rattle.std.specs.Option.{is_some, option_map};
    ghost use Rattle.stomp_frame.specs.ClientFrames.{raw_of};
    ghost use Rattle.mcast_txn.specs.Transaction.{topics_of};
    ghost use Rattle.broker_locks.specs.Commits.{IsUntouched};
    ghost use Rattle.broker_server.specs.Judging.{Grows, IsFrameAccepted, IsFrameRefused};
    ghost use Rattle.broker_server.specs.BrokerRows.{AsksInOrder, BrokerRow, IsGateAfter, SubName, LooksUp, Claims, GivesBack, Subscribes, Unsubscribes, AsksLag, Takes, TakesFlags, AsksRoom, GivesRoomBack, Commits};

    /// An open subscription: its topic, its number, its flag, and the end of its queue that takes.
    type Sub: Drop;

    /// Room that is reserved at the topics of a transaction. It isn't `Drop`: it is used by a commit, or given back.
    type Room;

    /// What a call makes of it: of the old one, the call with its answer, and the new one.
    ghost called: { Self → BrokerRow → Self → Type 0 };

    /// Which subscription it is.
    ghost name: { Self.Sub → SubName };

    /// What it answers to who wants to hold so many octets: whether they are granted.
    ghost grants: { Self → ℕ → Bool → Type 0 };

    /// Has the session take a frame whose destination may be none of these names, which are the first of those of all
    /// topics: the others are put behind them first. A name that the frame adds is then known to all connections.
    /// Refused as the session refuses it, or for want of memory for a name: 72.
    fn step(
        &mut self,
        session: &mut Session,
        frame: ClientFrame,
        names: &mut Names,
    ) -> Result<Step, (ClientFrame, ConversationFault)>
        ensures called { called self.old (LooksUp names.old names.new) self.new }
        ensures accepted { IfOk result (λ step. (known : List (List ℕ)) × Grows names.old known
            × IsFrameAccepted (raw_of frame) step session.old known session.new names.new) }
        ensures refused { IfErr result (λ e. (known : List (List ℕ)) × Grows names.old known
            × IsFrameRefused (raw_of frame) e.1 session.old known) }
        ensures back { IfErr result (λ e. e.0 ≡ frame) };

    /// Claims the sender of this client-id, or a new one, and gives its gate.
    fn claim(&mut self, client: Option<&[u8]>) -> Result<Gate, ClaimFault>
        ensures claimed { IfOk result
            (λ gate. called self.old (Claims (option_map (λ id. id.now) client.entry) (Ok gate)) self.new) }
        ensures refused { IfErr result
            (λ why. called self.old (Claims (option_map (λ id. id.now) client.entry) (Err why)) self.new) };

    /// Gives the gate of a sender back.
    fn give_back(&mut self, gate: Gate)
        ensures { called self.old (GivesBack gate) self.new };

    /// Begins a subscription at the topic.
    fn subscribe(&mut self, topic: Topic) -> Result<Self::Sub, SubFault>
        ensures begun { IfOk result (λ sub. called self.old (Subscribes topic (Ok (name sub))) self.new) }
        ensures refused { IfErr result (λ why. called self.old (Subscribes topic (Err why)) self.new) };

    /// Ends a subscription.
    fn unsubscribe(&mut self, sub: Self::Sub)
        ensures { called self.old (Unsubscribes (name sub)) self.new };

    /// Ends these subscriptions, in order.
    fn end_all(&mut self, subs: Vec<Self::Sub>)
        ensures { AsksInOrder called self.old (map (λ sub. Unsubscribes (name sub)) subs.items) self.new }
    {
        for sub in subs {
            self.unsubscribe(sub);
        }
    }

    /// A subscription's flag: one bit of the word that `take_flags` gives. Others of the connection may have the same.
    fn flag(sub: &Self::Sub) -> u64
        ensures { result ≡ (name sub.now).flag };

    /// Which of the connection's subscriptions may have something: the flags of those that were told so since this was
    /// asked last. One whose flag isn't among these, and wasn't since its queue was found empty, or it began, had
    /// nothing at one moment of the call.
    fn take_flags(&mut self) -> u64
        ensures { called self.old (TakesFlags result) self.new };

    /// Whether a subscription has lagged.
    fn has_lagged(&mut self, sub: &Self::Sub) -> bool
        ensures { called self.old (AsksLag (name sub.now) result) self.new };

    /// Takes the next item of a subscription's queue, or `None` where it was empty at one moment of the call.
    fn take(&mut self, sub: &mut Self::Sub) -> Option<Released>
        ensures taken { called self.old (Takes (name sub.old) result) self.new }
        ensures same { name sub.new ≡ name sub.old };

    /// Asks for room at the topics of a transaction: there is some at each of them, or none is reserved.
    fn reserve(&mut self, txn: &Txn) -> Option<Self::Room>
        ensures { called self.old (AsksRoom (topics_of txn.now) (is_some result)) self.new };

    /// Gives room back that isn't used.
    fn give_room_back(&mut self, room: Self::Room)
        ensures { called self.old GivesRoomBack self.new };

    /// Whether the connection may hold so many octets that aren't committed. It holds fewer before.
    fn may_hold(&self, octets: u64) -> bool
        ensures { grants self.now octets result };

    /// This transaction, which is about to be committed: what it weighs may be counted from now on, until it is gone.
    fn charged(&self, txn: Txn) -> Txn
        ensures { result ≡ txn };

    /// Commits a transaction by the room that was reserved for it, and gives the gate of its sender again, which goes
    /// on behind it. The flight is as its gate began it.
    fn commit(&mut self, flying: Flying, room: Self::Room) -> Result<Gate, (Gate, CommitFault)>
        requires { IsUntouched flying.state }
        ensures committed { IfOk result (λ gate. called self.old (Commits flying.state (Ok gate)) self.new) }
        ensures refused { IfErr result (λ e. called self.old (Commits flying.state (Err e)) self.new) }
        ensures left { IfOk result (λ gate. IsGateAfter flying.state gate) }
        ensures left_too { IfErr result (λ e. IsGateAfter flying.state e.0) };
}
