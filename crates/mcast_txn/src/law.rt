//! Laws: functions that do nothing, whose contracts are theorems.

ghost use Rattle.std.specs.Prelude.{◌≡◌, Some};
ghost use Rattle.mcast_txn.specs.Ballot.{Decision};

use crate::ballot::Verdict;
use once_cell::race::Note;

/// Notes of one cell that know a verdict know the same one, in whichever threads they were made.
pub fn one_verdict(one: &mut Note<Verdict>, other: Note<Verdict>)
    requires { other.cell ≡ one.old.cell }
    ensures same { (a b : Decision) → one.old.known ≡ Some a → other.known ≡ Some b → a ≡ b }
    ensures kept { one.new ≡ one.old }
{
    one.compare(other);
}
