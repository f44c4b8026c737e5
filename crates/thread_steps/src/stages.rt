use history_book::Cause;
use stamp_base::{NodeNo, SessionNo, Stage, Stamp, Term};
use std::sync::Wait;

/// What became of a request that a stage of its node was to serve.
#[derive(Clone, Copy, Debug, PartialEq, Eq)]
pub enum StageStep {
    /// The stage is held.
    Held,
    /// The node's oracle is not of that term, or no request of the session stands in a place of the stage.
    Stale { found: Option<Term> },
    /// The request was accepted, or the range of stamps extended.
    Went,
    /// The stamp was drawn.
    Did { start: Stamp, commit: Option<Stamp> },
    /// The placing of the commit's record has ended.
    Settled,
    /// The request was answered.
    Answered,
    /// The event was refused.
    Refused(Cause),
    /// The event's store call failed.
    Fault,
    /// Memory was refused, and nothing was made.
    NoMemory,
}

/// What stages make their steps at: the board, or what stands for it in a test.
pub trait Steps {
    /// The next step of a stage of the node for the session's request, which the instance of the term serves.
    fn stage_step<R: Wait>(
        &self,
        rt: &R,
        node: NodeNo,
        term: Term,
        stage: Stage,
        session: SessionNo,
    ) -> StageStep;

    /// The term of the node's oracle, if it has one. A request of another term is not there any more.
    fn term_of<R: Wait>(&self, rt: &R, node: NodeNo) -> Option<Term>;

    /// Whether the node's stage is held.
    fn is_held<R: Wait>(&self, rt: &R, node: NodeNo, stage: Stage) -> bool;

    /// How many turns were made so far, by stages and actors.
    fn turns_made<R: Wait>(&self, rt: &R) -> usize;

    /// Whether a thread that finds the steps taken by another may give its processor away, from now on. Until it is told, it keeps
    /// it.
    fn let_yield(&self, _may: bool) {}
}
