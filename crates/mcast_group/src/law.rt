//! Laws: functions that do nothing, whose contracts are theorems about one topic.

ghost use Rattle.std.specs.Prelude.{◌≡◌, true, Some, slice_get};
ghost use Rattle.std.specs.Option.{is_some};
ghost use Rattle.mcast_txn.specs.Flight.{Sight, cell_of};
ghost use Rattle.mcast_group.specs.Counted.{CountedReleases, CountedTurns};
ghost use Rattle.mcast_group.specs.Laws.{KeepsSound, TurnLeavesNone, TurnLeavesNothingDue};
ghost use Rattle.mcast_group.specs.Machine.{HasOneRowEach};

use crate::cell_group::CellGroup;
use crate::departed::Departed;
use mcast_txn::Verdict;
use sub_queue::Outlet;

/// A topic stays sound, whatever is asked of it.
pub fn stays_sound()
    ensures { KeepsSound }
{}

/// A turn of a sound topic that its verdicts fit, each with one row for a topic, leaves no part
/// pending, and a turn of any topic leaves nothing due.
pub fn turns()
    ensures none { TurnLeavesNone }
    ensures nothing_due { TurnLeavesNothingDue }
{}

/// A verdict has one row for a topic, by its type.
pub(crate) fn has_one_row_each(verdict: &Verdict)
    ensures { HasOneRowEach verdict.now }
{
    let _ = verdict.rows();
}

/// A release to outlets that count what was taken, as vectors do, is the machine's, with the answer as a function of
/// what each shows; and so is a turn.
pub fn counts()
    ensures releases { CountedReleases }
    ensures turns { CountedTurns }
{}

/// Two notes of one cell by which parts learnt, at whatever two topics and in whatever threads, know one verdict: so
/// the parts of a transaction leave their topics with one stamp. `CellGroup::turn` keeps such a note of each part that
/// learns in it, of the cell of the part's own flight, and that part's stamp is the verdict's.
pub fn one_verdict<Q: Outlet + Drop, P: Outlet + Drop>(
    one: &mut CellGroup<Q>,
    index: usize,
    other: &mut CellGroup<P>,
    other_index: usize,
)
    requires { (a b : Sight) → slice_get one.old.notes index ≡ Some a
        → slice_get other.old.notes other_index ≡ Some b → b.cell ≡ a.cell }
    ensures same { (a b : Sight) → slice_get one.old.notes index ≡ Some a
        → slice_get other.old.notes other_index ≡ Some b → b ≡ a }
    ensures kept { one.new ≡ one.old }
    ensures other_kept { other.new ≡ other.old }
{
    if let (Some(mut note), Some(other_note)) = (one.note(index), other.note(other_index)) {
        note.agree(other_note);
    }
}

/// Parts whose flights have one cell, and which were kept with a note of it, were released with one stamp, at whatever
/// topics and in whatever threads. `Group::release_part` gives such parts. A part gets its note as it learns, and
/// `turn` is `learn_found` and then `release` until nothing is due, which is `release_part` without the part: so the
/// stamps of what a turn releases are those of this law.
pub fn one_stamp(one: Departed, other: Departed)
    requires cell { cell_of other.flight ≡ cell_of one.flight }
    requires seen { is_some one.seen ≡ true }
    requires other_seen { is_some other.seen ≡ true }
    ensures { one.stamp ≡ other.stamp }
{
    if let (Some(mut seen), Some(other_seen)) = (one.into_seen(), other.into_seen()) {
        seen.agree(other_seen);
    }
}
