ghost use Rattle.system_parts.specs.Sweep.{SweepsEnd, SweepMarksOldAlone, SweepErasesMarked, UndecidedOnlyAbove};

/// A sweep knows the keys within three steps, and then makes one step for each key and at most one more.
pub fn sweeps_end()
    ensures { SweepsEnd }
{}

/// A sweep marks no transaction above the epoch.
pub fn sweep_marks_old_alone()
    ensures { SweepMarksOldAlone }
{}

/// A sweep erases only the cells of a transaction that is marked.
pub fn sweep_erases_marked()
    ensures { SweepErasesMarked }
{}

/// A sweep ends undecided only where the table is empty and the transaction is above the epoch.
pub fn undecided_only_above()
    ensures { UndecidedOnlyAbove }
{}
