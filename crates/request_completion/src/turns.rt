// What an event makes of a session, and what it tells it.
ghost use Rattle.request_completion.specs.SessionTransitions.{SessionsTakeTurns, AsksAreTurns};

/// What an event makes of a session and tells it is a transition: it rests, asks, begins, writes, ends, or hears how its commit
/// ends.
pub fn session_turns()
    ensures { SessionsTakeTurns }
{}

/// Who asks was free, or had its transaction open, and the ask is told alone.
pub fn asks_are_turns()
    ensures { AsksAreTurns }
{}
