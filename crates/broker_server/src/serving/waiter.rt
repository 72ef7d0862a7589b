//! What a connection waits for room with.

ghost use Rattle.std.specs.Prelude.{◌≡◌};

use crate::serving::bell::Bell;
use crate::serving::links::Links;
use broker_locks::Reserved;
use std::mem;
use std::sync::{Arc, Mutex, Wait};

/// What the connection at a desk waits for room with. It can't be let go of, since it may have room.
pub(crate) struct Waiter {
    /// What its thread is told by, once a connection has the desk.
    bell: Mutex<Option<Arc<Bell>>>,
    /// Between whom it stands in a line, while it does: who holds the line's lock reads and writes it.
    links: Mutex<Links>,
    /// The room that it has while it waits for more.
    kept: Mutex<Reserved>,
}

impl Waiter {
    /// No connection has the desk, and this room is kept, which is none.
    pub(crate) fn new(none: Reserved) -> Waiter {
        Waiter {
            bell: Mutex::new(None),
            links: Mutex::new(Links {
                before: None,
                behind: None,
            }),
            kept: Mutex::new(none),
        }
    }

    /// Its thread is told by this from now on; or no connection has the desk any more.
    pub(crate) fn set_bell<R: Wait>(&self, rt: &R, bell: Option<Arc<Bell>>) {
        *self.bell.lock(rt) = bell;
    }

    /// Tells its thread.
    pub(crate) fn ring<R: Wait>(&self, rt: &R) {
        if let Some(bell) = &*self.bell.lock(rt) {
            bell.ring();
        }
    }

    /// Between whom it stands.
    pub(crate) fn links<R: Wait>(&self, rt: &R) -> Links {
        *self.links.lock(rt)
    }

    /// It stands between these from now on.
    pub(crate) fn set_links<R: Wait>(&self, rt: &R, links: Links) {
        *self.links.lock(rt) = links;
    }

    /// Who stands before it from now on.
    pub(crate) fn set_before<R: Wait>(&self, rt: &R, before: Option<usize>) {
        self.links.lock(rt).before = before;
    }

    /// Who stands behind it from now on.
    pub(crate) fn set_behind<R: Wait>(&self, rt: &R, behind: Option<usize>) {
        self.links.lock(rt).behind = behind;
    }

    /// Keeps this room, and gives what it kept.
    pub(crate) fn swap_kept<R: Wait>(&self, rt: &R, room: Reserved) -> Reserved {
        mem::replace(&mut *self.kept.lock(rt), room)
    }

    /// The room that it keeps, once nobody waits with it any more.
    pub(crate) fn into_kept(self) -> Reserved {
        let Waiter {
            bell: _,
            links: _,
            kept,
        } = self;
        kept.into_inner()
    }
}
