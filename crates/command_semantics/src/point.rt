ghost use Rattle.std.specs.Prelude.{◌≡◌};
ghost use Rattle.command_semantics.specs.Interruptions.{refused_by};

use history_book::Cause;
use machine::Doing;
use stamp_base::NodeNo;
use system_parts::Place;

/// Where the run of a line stands.
#[derive(Clone, Copy, Debug, PartialEq, Eq)]
pub enum Point {
    /// No event was made yet.
    Opens,
    /// The request of the session is served step by step; once it has ended, a completion follows.
    Drives,
    /// The node that serves the request has no stamp left, and asks for a further range.
    Extends,
    /// A completion of the session is made to its end.
    Finishes,
    /// A read of the session is made to its answer.
    Reads,
    /// Whatever the actor has under way is made to its end.
    Steps,
    /// No event is left.
    Over,
}

/// How an event of a run stopped short.
#[derive(Clone, Copy, Debug, PartialEq, Eq)]
pub enum Interruption {
    /// A request was refused its stamp, and stays.
    NoStamp,
    /// A begin was told to wait, and stays.
    NotYet,
    /// The event was refused with another cause.
    Refused,
    /// The event's store call failed.
    Faulted,
}

/// What the run of a line looks at: what its session is doing, the node that holds the session's request with the place where
/// it stands, whether the request is a commit, and whether a sweep is open.
#[derive(Clone, Copy, Debug, PartialEq, Eq)]
pub struct View {
    /// What the session is doing.
    pub doing: Doing,
    /// The node that holds the session's request, and the place where that stands. None without a request in flight.
    pub request: Option<(NodeNo, Place)>,
    /// Whether the request is a commit.
    pub commit: bool,
    /// Whether a sweep is open.
    pub sweeping: bool,
}

/// How a run takes a refusal with this cause.
pub fn refused(cause: &Cause) -> Interruption
    ensures { result ≡ refused_by cause.now }
{
    match cause {
        Cause::NoStamp { .. } => Interruption::NoStamp,
        Cause::NotYet { .. } => Interruption::NotYet,
        _ => Interruption::Refused,
    }
}
