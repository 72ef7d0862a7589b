//! Laws of the definitions: the contracts of functions that do nothing.

ghost use Rattle.stomp_session.specs.Open.{AsksAsWanted, LaterNamesStand};

/// A session goes on standing for the frames that it accepted while other connections make topics: these get the
/// numbers after those that are there.
pub fn later_names_stand()
    ensures { LaterNamesStand }
{}

/// After a SUBSCRIBE that it accepted, a session says of its subscription what the SUBSCRIBE wants.
pub fn asks_as_wanted()
    ensures { AsksAsWanted }
{}
