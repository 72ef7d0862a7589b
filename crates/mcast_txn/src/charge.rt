//! What committed transactions count as.

ghost use Rattle.std.specs.Prelude.{◌≡◌, IfOk};
ghost use Rattle.std.specs.Arc.{arc_value};

use crate::meter::Meter;
use std::alloc::Global;
use std::sync::Arc;
use stomp_frame::NoMemory;

/// What a transaction weighs, or several of one sender together, counted to the sender until this is dropped. Each of them
/// has it, and then its flight, so that it goes with the last of their parts.
pub struct Charge {
    meter: Arc<Meter>,
    weight: u64,
}

impl Drop for Charge {
    /// It counts no longer.
    fn drop(self) {
        let Charge { meter, weight } = self;
        meter.sub_sent(weight);
        drop(meter);
    }
}

impl Charge {
    /// So much counts to the sender that has this meter. Out of memory it doesn't.
    pub fn new(alloc: Global, meter: &Arc<Meter>, weight: u64) -> Result<Arc<Charge>, NoMemory>
        ensures { IfOk result (λ charge. (arc_value charge).weight ≡ weight) }
    {
        let meter = meter.clone()?;
        meter.add_sent(weight);
        Ok(Arc::new(alloc, Charge { meter, weight })?)
    }
}
