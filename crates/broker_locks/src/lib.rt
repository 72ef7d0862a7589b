//! The topics of a broker behind locks: commits of transactions by any number of threads.
#![tactic(auto)]

mod broker;
mod commit;
mod counts;
mod done_rows;
mod fault;
mod kept_rows;
mod kept_span;
pub mod law;
mod locked;
mod locked_topic;
mod log_section;
mod no_room;
mod open_counts;
mod part_octets;
mod place;
mod places;
mod point;
mod reserved;
mod room;
mod server_fault;
mod shares;
mod side;
mod subscribed;
mod tally;
mod total;
mod total_counter;
mod trace_rows;
mod worker;

pub use broker::Broker;
pub use commit::commit_on;
pub use counts::Counts;
pub use fault::CommitFault;
pub use locked_topic::LOG_LIMIT;
pub use no_room::NoRoom;
pub use part_octets::PartOctets;
pub use place::Place;
pub use places::Places;
pub use point::Point;
pub use reserved::Reserved;
pub use server_fault::ServerFault;
pub use shares::Shares;
pub use side::Side;
pub use subscribed::Subscribed;
pub use tally::Tally;
pub use worker::Worker;
