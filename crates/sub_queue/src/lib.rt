//! The queues of subscriptions: where a topic puts what it releases.
#![tactic(auto)]

mod board_end;
mod board_rule;
mod ends;
mod left;
mod outlet;
mod queue_end;
mod rule;
mod source;
mod taken_so_far;
mod taker;
mod vec_outlet;

pub use ends::{close, ruled};
pub use left::Left;
pub use outlet::Outlet;
pub use source::Source;
pub use taken_so_far::TakenSoFar;
pub use taker::Taker;
pub use vec_outlet::VecOutlet;

#[cfg(test)]
mod tests;
