ghost use Rattle.system_parts.specs.KeyRead.{PassedAreLate, AnswersOwnOrBelow, AnswersResolved, PassesDeadOrLate, ReadsMarkOldAlone, ReadsEnd};
ghost use Rattle.system_parts.specs.CutReads.{CutReadsAreWhole};

use crate::asks::Ask;
use stamp_base::{KeyNo, Stamp, TxnId, Value};

/// What a read of a key found.
#[derive(Clone, Copy, Debug, PartialEq, Eq)]
pub struct Answer {
    /// The writer and what it wrote; None where no cell answers.
    pub found: Option<(TxnId, Value)>,
    /// The shadow that may be set, where the commit table decided the cell that answers: key, version and commit.
    pub heal: Option<(KeyNo, TxnId, Stamp)>,
}

/// What a read of a key does next.
#[derive(Clone, Copy, Debug, PartialEq, Eq)]
pub enum Next {
    /// What is kept of this transaction decides the cell that the read has come to.
    Recall(TxnId),
    /// It makes this call on a store.
    Ask(Ask),
    /// It has its answer.
    Done(Answer),
}

/// A read passes over a cell unasked only where it is another's and has a shadow that is not below the start.
pub fn passed_are_late()
    ensures { PassedAreLate }
{}

/// Unasked, only an own cell answers, or one whose shadow is below the start.
pub fn answers_own_or_below()
    ensures { AnswersOwnOrBelow }
{}

/// A cell that was resolved answers exactly where its commit is below the start.
pub fn answers_resolved()
    ensures { AnswersResolved }
{}

/// A read passes over a cell that it resolved only where the cell is dead or its commit is not below the start.
pub fn passes_dead_or_late()
    ensures { PassesDeadOrLate }
{}

/// A read marks a version only where it may: at the epoch or below, unless it may mark every one.
pub fn reads_mark_old_alone()
    ensures { ReadsMarkOldAlone }
{}

/// A read ends within three steps for each cell.
pub fn reads_end()
    ensures { ReadsEnd }
{}

/// A read that has the cells down to the first with a shadow below the start alone asks and answers what it does over
/// all of them.
pub fn cut_reads_are_whole()
    ensures { CutReadsAreWhole }
{}
