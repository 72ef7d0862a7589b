//! What isn't written yet of an item.

use mcast_txn::Released;

/// What isn't written yet of an item: its MESSAGEs from one on.
#[derive(Drop)]
pub(crate) struct ItemRest {
    pub(crate) item: Released,
    /// The index of the next of its SENDs.
    pub(crate) next: usize,
}
