//! How the SENDs of a part are stored.

use crate::parts::PartMessage;
use crate::parts::shared_sends::SharedSends;

/// The SENDs of a part: the only one of its transaction, in the part itself, or those that the transaction has, too.
#[derive(Drop)]
pub(crate) enum StoredSends {
    One(PartMessage),
    Shared(SharedSends),
}
