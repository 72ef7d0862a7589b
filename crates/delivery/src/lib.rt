//! The core of the broker: topics, connections and senders over events.
#![tactic(auto)]

mod commit_list;
mod connection_fault;
mod endpoint;
mod event;
mod event_list;
mod in_flight;
mod kept;
pub mod law;
mod messages;
mod net;
mod net_state;
mod open_endpoint;
mod oracle;
mod outcome;
mod refusal;
mod sender_state;
mod sending;
mod shared_topics;
mod stage;
mod sub;
mod table;
mod topics;

pub use connection_fault::ConnectionFault;
pub use event::Event;
pub use event_list::EventList;
pub use kept::Kept;
pub use messages::write_messages;
pub use net::{MAX_CAPACITY, Net};
pub use net_state::{QueueReport, Report};
pub use oracle::agreed::{CommitRow, agreed};
pub use oracle::due::{QueueItem, due};
pub use outcome::Outcome;
pub use refusal::Refusal;
pub use stomp_session::MAX_TOPICS;
pub use topics::Topics;
