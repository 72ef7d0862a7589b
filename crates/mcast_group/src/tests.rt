//! Worked rows of a topic and its subscriptions, each refusal, made schedules, and what is answered out of memory.

mod calls;
mod cell_group;
mod cells;
mod closing;
mod draining;
mod made;
mod many;
mod memory;
mod parts;
mod plain;
mod rooms;
mod schedules;
mod segments;
mod shared;
mod subscriptions;
