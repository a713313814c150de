//! What holds of every list of events.

ghost use Rattle.relay_core.specs.Isolation.{ActionsStayInside, SessionsAreIsolated};

/// What is done for the events of one session is what would be done if only they had come.
pub fn sessions_are_isolated()
    ensures { SessionsAreIsolated }
{}

/// Whatever is done at an event of a session is done at connections that were let in to it.
pub fn actions_stay_inside()
    ensures { ActionsStayInside }
{}
