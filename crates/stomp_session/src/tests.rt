//! Worked examples of the session's table, made histories, the calls with ample memory, and their answers without it.

mod answers;
mod client;
mod first_uses;
mod histories;
mod made;
mod memory;
mod names;
mod parts;
mod plain;
mod session;
mod shared;
mod transactions;
