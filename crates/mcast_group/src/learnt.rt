//! What a pending part has learnt.

ghost use Rattle.std.specs.Prelude.{◌≡◌, IfSome, None, Some};
ghost use Rattle.mcast_group.specs.Noted.{HasStampOf, IsStampOf};

use mcast_txn::{Seen, Stamp};
use std::marker::Model;

/// The stamp that a part has learnt, if it has, and a note that knows the verdict with that stamp, if its flight's cell
/// gave one.
#[derive(Drop)]
pub(crate) struct Learnt {
    stamp: Option<Stamp>,
    seen: Option<Seen>,
}

impl Model for Learnt {
    ghost use Rattle.std.specs.Prelude.{IfSome};
    ghost use Rattle.mcast_group.specs.Noted.{HasStampOf};
    ghost use Rattle.mcast_group.specs.Inner.Learnt.{LearntState};

    ghost Value = { LearntState };

    ghost view = { λ l. record { stamp = l.stamp; seen = l.seen } };

    ghost invariant = { λ l. IfSome l.seen (HasStampOf l.stamp) };
}

impl Learnt {
    /// Nothing.
    pub(crate) fn nothing() -> Learnt
        ensures { result ≡ record { stamp = None; seen = None } }
    {
        Learnt {
            stamp: None,
            seen: None,
        }
    }

    /// This stamp, with a note of its verdict where the cell gave one.
    pub(crate) fn of(stamp: Stamp, seen: Option<Seen>) -> Learnt
        requires { IfSome seen (IsStampOf stamp) }
        ensures { result ≡ record { stamp = Some stamp; seen = seen } }
    {
        Learnt {
            stamp: Some(stamp),
            seen,
        }
    }

    /// The stamp, if there is one.
    pub(crate) fn stamp(&self) -> Option<Stamp>
        ensures { result ≡ self.now.stamp }
    {
        self.stamp
    }

    /// The note, if there is one.
    pub(crate) fn into_seen(self) -> Option<Seen>
        ensures seen { result ≡ self.seen }
        ensures known { IfSome result (HasStampOf self.stamp) }
    {
        self.seen
    }
}
