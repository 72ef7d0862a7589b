//! Laws: functions that do nothing, whose contracts are theorems about kept senders.

ghost use Rattle.sender_gate.specs.Senders.{ClaimedIsInUse, GivenBackIsClaimed};

/// A gate that was given back is the one that the next claim of its client-id gets, and that claim isn't refused.
pub fn given_back_is_claimed()
    ensures { GivenBackIsClaimed }
{}

/// A client-id is in use once it was claimed: until its gate was given back, each further claim of it is refused.
pub fn claimed_is_in_use()
    ensures { ClaimedIsInUse }
{}
