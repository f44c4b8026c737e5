// What every step keeps, and what stands at the end.
ghost use Rattle.run_board.specs.Further.{AdvancesGoFurther, StageStepsGoFurther, EndedRunsAreWhole, OthersStaySeated};

/// Whichever actor advances, the script stays, and no actor's place falls.
pub fn advances_go_further()
    ensures { AdvancesGoFurther }
{}

/// Whichever stage makes a step, the script stays, and no actor's place falls.
pub fn stage_steps_go_further()
    ensures { StageStepsGoFurther }
{}

/// Where every actor has ended, the turns are whole.
pub fn ended_runs_are_whole()
    ensures { EndedRunsAreWhole }
{}

/// After a turn of a session, every other actor sits where it sat.
pub fn others_stay_seated()
    ensures { OthersStaySeated }
{}
