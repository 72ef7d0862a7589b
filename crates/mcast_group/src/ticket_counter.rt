//! What counts tickets.

use crate::fault::ProposeFault;

/// What counts the tickets that topics give, and may refuse one. It is asked for a ticket once nothing else can refuse
/// it.
pub trait TicketCounter {
    ghost use Rattle.std.specs.Prelude.{IfErr, OnOk};
    ghost use Rattle.mcast_group.specs.declared.fault.ProposeFault.{ProposeFault};

    /// What it may be after it counted one ticket more, by what it was.
    ghost counted: { Self → Self → Type 0 };

    /// What it may be after it refused one, by what it was, with the fault.
    ghost refused: { Self → Self → ProposeFault → Type 0 };

    /// Counts one ticket more, which is given then.
    fn count(&mut self) -> Result<(), ProposeFault>
        ensures counted { OnOk result (counted self.old self.new) }
        ensures refused { IfErr result (refused self.old self.new) };
}

/// Counts no ticket, and refuses none.
#[derive(Drop)]
pub(crate) struct Uncounted;

impl TicketCounter for Uncounted {
    ghost counted = { λ old new. Unit {0} };

    ghost refused = { λ old new fault. Prim.⊥ };

    fn count(&mut self) -> Result<(), ProposeFault> {
        Ok(())
    }
}
