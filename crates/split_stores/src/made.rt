// How an event was made.
use event_parts::Stopped;

/// What came of making an event.
#[derive(Clone, Copy, Debug, PartialEq, Eq)]
pub enum Made {
    /// The event was made and logged, or logged alone where its parts do not agree.
    Did,
    /// It was refused, or its store call failed, as it is logged.
    Stopped(Stopped),
    /// The seat has drawn all its ticks, so many. Nothing was done.
    Spent { drawn: u64 },
    /// Memory was refused. Nothing was done.
    NoMemory,
}
