//! One connection's session: what its frames open and close, and what the connection has to do for each.
#![tactic(auto)]

mod action;
mod destination;
mod fault;
mod found_last;
mod judged;
pub mod law;
mod name;
mod name_set;
mod names;
mod opened;
mod phase;
mod route;
mod session;
mod subscription;
mod subscriptions;
mod transactions;
mod versions;

pub use action::{Action, Step};
pub use fault::SessionFault;
pub use names::{MAX_TOPICS, Names, is_name};
pub use phase::Phase;
pub use session::Session;
pub use versions::has_version;

#[cfg(test)]
mod tests;
