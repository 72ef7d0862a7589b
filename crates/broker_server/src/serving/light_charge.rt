//! What the light transactions of a connection count as.

ghost use Rattle.std.specs.Prelude.{◌≡◌, ◌≤◌, ◌<◌, ◌-◌, None, IfSome, MatchOption};
ghost use Rattle.std.specs.Arc.{arc_value};

use mcast_txn::{Charge, Meter};
use std::alloc::Global;
use std::sync::Arc;

/// So many octets light transactions of a connection count as together (our choice).
const TOGETHER: u64 = 65_536;

/// A charge that the next light transactions of a connection share, each of which counts so until it is gone. For one it
/// costs a count up and a count down, and for 64 KiB of them a block of memory.
#[derive(Drop)]
pub(crate) struct LightCharge {
    charge: Option<Arc<Charge>>,
    /// How many octets of it no transaction has used.
    left: u64,
}

impl LightCharge {
    /// There is none yet.
    pub(crate) fn new() -> LightCharge
        ensures { result ≡ record { charge = None; left = 0 } }
    {
        LightCharge {
            charge: None,
            left: 0,
        }
    }

    /// The next transaction weighs so much, counted by this meter: where less is left there is a new charge. Out of memory
    /// there is none.
    #[inline(always)]
    pub(crate) fn add(&mut self, alloc: Global, meter: &Arc<Meter>, weight: u64)
        ensures used { weight ≤ self.old.left → self.new ≡ record self.old { left = self.old.left - weight } }
        ensures renewed { self.old.left < weight → MatchOption self.new.charge (self.new.left ≡ 0)
            (λ charge. ((arc_value charge).weight ≡ 65536) × (self.new.left ≡ 65536 - weight)) }
    {
        if weight > self.left {
            self.renew(alloc, meter);
        }
        self.left = self.left.saturating_sub(weight);
    }

    /// A new charge, of which nothing is used.
    #[inline(never)]
    fn renew(&mut self, alloc: Global, meter: &Arc<Meter>)
        ensures { MatchOption self.new.charge (self.new.left ≡ 0)
            (λ charge. ((arc_value charge).weight ≡ 65536) × (self.new.left ≡ 65536)) }
    {
        match Charge::new(alloc, meter, TOGETHER) {
            Ok(charge) => {
                self.charge = Some(charge);
                self.left = TOGETHER;
            }
            Err(_) => {
                self.charge = None;
                self.left = 0;
            }
        }
    }

    /// It, for the transaction that was added last, if there is one.
    #[inline(always)]
    pub(crate) fn share(&self) -> Option<Arc<Charge>>
        ensures none { self.now.charge ≡ None → result ≡ None }
        ensures same { IfSome result (λ charge. IfSome self.now.charge (λ own. arc_value charge ≡ arc_value own)) }
    {
        match &self.charge {
            Some(charge) => charge.clone().ok(),
            None => None,
        }
    }
}
