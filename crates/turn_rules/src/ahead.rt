use machine::Event;

/// Why a line makes no event now.
#[derive(Clone, Copy, Debug, PartialEq, Eq)]
pub enum Why {
    /// Its session's request is in flight, and the stages of its node serve it.
    Reply,
    /// The name that it awaits is not posted.
    Name,
}

/// What is ahead of an actor's present line.
#[derive(Clone, Copy, Debug, PartialEq, Eq)]
pub enum NextAction {
    /// The actor makes this event.
    Makes(Event),
    /// The line waits.
    Waits(Why),
    /// Nothing is left to do, and the line is passed.
    Passes,
}
