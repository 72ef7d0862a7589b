//! What a server did, and what is there.

ghost use Rattle.std.specs.Prelude.{◌≡◌};

use crate::serving::activity::Activity;
use crate::serving::endings::Endings;
use std::fmt;
use std::fmt::{Display, Formatter};

/// What a server did since it began, and what is there now. Its `Display` is the log's line of figures: each a name,
/// `=` and a decimal number. Those that came were refused, are there, or ended.
#[derive(Clone, Copy, PartialEq, Eq)]
pub(crate) struct Figures {
    /// Connections that are there now.
    pub(crate) connections: u64,
    /// Connections that came, those refused, too.
    pub(crate) came: u64,
    /// Connections that were closed at once, since 256 were there.
    pub(crate) refused: u64,
    pub(crate) ended: Endings,
    /// Topics that have a name now.
    pub(crate) topics: u64,
    /// What all of them did, and those that are there have.
    pub(crate) activity: Activity,
}

impl Figures {
    /// Nothing.
    pub(crate) fn new() -> Figures
        ensures { result ≡ record {
          connections = 0;
          came = 0;
          refused = 0;
          ended = result.ended;
          topics = 0;
          activity = result.activity;
        } }
    {
        Figures {
            connections: 0,
            came: 0,
            refused: 0,
            ended: Endings::new(),
            topics: 0,
            activity: Activity::new(),
        }
    }
}

impl Display for Figures {
    fn fmt<W: fmt::Write>(&self, f: &mut Formatter<W>) -> fmt::Result {
        let Figures {
            connections,
            came,
            refused,
            ended,
            topics,
            activity,
        } = self;
        write!(
            f,
            "connections={connections} came={came} refused={refused} {ended} topics={topics} {activity}"
        )
    }
}
