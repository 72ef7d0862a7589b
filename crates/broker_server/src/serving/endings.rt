//! By what connections ended.

ghost use Rattle.std.specs.Prelude.{◌≡◌};
ghost use Rattle.broker_server.specs.Figures.{endings_with};

use crate::conversation::{ConversationFault, Exit};
use crate::serving::why_left::WhyLeft;
use std::fmt;
use std::fmt::{Display, Formatter};

/// How many connections ended, by what ended them. Its `Display` is its part of the log's line of figures.
#[derive(Clone, Copy, PartialEq, Eq)]
pub(crate) struct Endings {
    /// By their DISCONNECT.
    pub(crate) disconnect: u64,
    /// By an ERROR that isn't a lag's.
    pub(crate) error: u64,
    /// Their peers closed them.
    pub(crate) closed: u64,
    /// By a lag: told of it, or lost behind it.
    pub(crate) lag: u64,
    /// A write failed.
    pub(crate) write_failed: u64,
    /// Their CONNECTs didn't come in time.
    pub(crate) unconnected: u64,
    /// By what failed here, memory, descriptors, a thread or a poll, or as the server ended.
    pub(crate) other: u64,
}

impl Endings {
    /// None.
    pub(crate) fn new() -> Endings
        ensures { result ≡ record {
          disconnect = 0;
          error = 0;
          closed = 0;
          lag = 0;
          write_failed = 0;
          unconnected = 0;
          other = 0;
        } }
    {
        Endings {
            disconnect: 0,
            error: 0,
            closed: 0,
            lag: 0,
            write_failed: 0,
            unconnected: 0,
            other: 0,
        }
    }

    /// One more ended so.
    pub(crate) fn add(&mut self, left: &WhyLeft)
        ensures { self.new ≡ endings_with left.now self.old }
    {
        match left {
            WhyLeft::By(Exit::Disconnect, _) => self.disconnect = self.disconnect.saturating_add(1),
            WhyLeft::By(Exit::Error(ConversationFault::Lagged { topic: _, items: _ }), _)
            | WhyLeft::Untaken => self.lag = self.lag.saturating_add(1),
            WhyLeft::By(Exit::Error(_), _) => self.error = self.error.saturating_add(1),
            WhyLeft::By(Exit::Lost, _) => self.closed = self.closed.saturating_add(1),
            WhyLeft::WriteFailed => self.write_failed = self.write_failed.saturating_add(1),
            WhyLeft::Unconnected(_) => self.unconnected = self.unconnected.saturating_add(1),
            WhyLeft::NoMemory | WhyLeft::PollFailed | WhyLeft::Closing => {
                self.other = self.other.saturating_add(1);
            }
        }
    }
}

impl Display for Endings {
    fn fmt<W: fmt::Write>(&self, f: &mut Formatter<W>) -> fmt::Result {
        write!(
            f,
            "ended_disconnect={} ended_error={}",
            self.disconnect, self.error
        )?;
        write!(f, " ended_closed={} ended_lag={}", self.closed, self.lag)?;
        write!(
            f,
            " ended_write_failed={} ended_unconnected={} ended_other={}",
            self.write_failed, self.unconnected, self.other
        )
    }
}
