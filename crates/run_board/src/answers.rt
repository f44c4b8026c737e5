use stamp_base::{NodeNo, Term};
use turn_rules::Why;

/// What became of an actor's present line.
#[derive(Clone, Copy, Debug, PartialEq, Eq)]
pub enum Advance {
    /// Its next event was made. An ask was made of this node, whose oracle has this term.
    Did { asked: Option<(NodeNo, Term)> },
    /// It waits, and nothing was made.
    Waits(Why),
    /// No line is left.
    Ended,
    /// Memory was refused, and nothing was made.
    NoMemory,
}
