//! Where a list of octets lies.

use crate::short_octets::ShortOctets;

/// Where a list of octets lies: in the value itself where there are few, and else in memory of its own.
#[derive(Drop)]
pub(crate) enum Storage {
    Short(ShortOctets),
    Long(Vec<u8>),
}
