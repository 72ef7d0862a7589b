//! The server on loopback, each test with a port that the system chooses.

mod capacity;
mod client;
mod drawn;
mod ending;
mod errors;
mod figures;
mod ignored;
mod large;
mod lines;
mod log_lines;
mod logged;
mod made;
mod many;
mod memory;
mod orders;
mod peers;
mod places;
mod queued;
mod served;
mod sizes;
mod slow;
mod subscribed;
mod turnstiles;
mod unconnected;
mod unread;
mod waiting;
