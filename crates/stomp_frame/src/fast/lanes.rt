//! Octets that are looked at at once.

ghost use Rattle.std.specs.Prelude.{◌≡◌};
ghost use Rattle.stomp_frame.specs.Inner.Usual.{first_set};

/// How many octets are looked at at once.
pub(crate) const LANES: usize = 16;

/// The index of the lowest bit that is set, or 16.
#[inline(always)]
pub(crate) fn first_set(mask: u64) -> usize
    ensures { result ≡ first_set mask }
{
    if mask == 0 {
        LANES
    } else {
        mask.trailing_zeros() as usize
    }
}
