//! By what room may have been made at a topic.

/// By what room may have been made at a topic.
#[derive(Clone, Copy)]
pub(crate) enum RoomMade {
    /// The subscription of this number took something, or isn't waited for any more.
    At(u64),
    /// A turn released something.
    Turned,
    /// A part was cancelled, room that was reserved was given back, or some subscriptions aren't waited for any more.
    Freed,
}
