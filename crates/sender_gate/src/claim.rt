//! What a claim gets.

ghost use Rattle.std.specs.Prelude.{◌≡◌, ◌<◌};
ghost use Rattle.sender_gate.specs.Senders.{max_senders};

use mcast_txn::Sender;

/// What a claim that isn't refused goes on with: the kept sender at an index, which isn't in use, or a new one.
#[derive(Drop)]
pub(crate) enum Claim {
    Kept(usize),
    New(Sender),
}

impl Claim {
    /// A claim of this new sender, whose number is below 2^64 by its type.
    pub(crate) fn of_new(sender: Sender) -> Claim
        ensures claim { result ≡ Claim.New sender }
        ensures number { sender.0 < max_senders }
    {
        Claim::New(sender)
    }
}
