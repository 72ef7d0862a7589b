//! Who asks for room.

use crate::serving::hub::Hub;
use broker_locks::Side;
use std::alloc::Global;
use std::sync::Wait;

/// Who asks for room: the thread of the connection that has this desk.
#[derive(Drop)]
pub(crate) struct Asker<'a, R: Wait, W: Side, T: Side> {
    pub(crate) rt: &'a R,
    pub(crate) alloc: Global,
    pub(crate) hub: &'a Hub<R, W, T>,
    pub(crate) desk: usize,
    /// Whether it owes its topics turns.
    pub(crate) owes_turns: bool,
    /// Half of what a queue holds, and one at least.
    pub(crate) most: u64,
}
