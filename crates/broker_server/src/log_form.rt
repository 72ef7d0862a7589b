//! How the lines of a log begin.

ghost use Rattle.std.specs.Prelude.{◌≡◌};
ghost use Rattle.broker_server.specs.LogForms.{front_of};

use log::Level;

/// How the lines of a log begin.
#[derive(Clone, Copy)]
pub enum LogForm {
    /// By their level, as `[WARN  serve]`.
    Plain,
    /// By their priority, as `<4>` of a warning, and then so: journald takes it off, and keeps it.
    Prioritized,
}

impl LogForm {
    /// What stands before a line of this level.
    pub(crate) fn front(self, level: Level) -> &'static str
        ensures { result.now ≡ front_of self level }
    {
        match (self, level) {
            (LogForm::Plain, _) => "",
            (LogForm::Prioritized, Level::Error) => "<3>",
            (LogForm::Prioritized, Level::Warn) => "<4>",
            (LogForm::Prioritized, _) => "<6>",
        }
    }
}
