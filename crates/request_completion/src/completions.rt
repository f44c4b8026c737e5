// What becomes of a completion.
ghost use Rattle.request_completion.specs.Completions.{IdleStepsCompleteNothing, CompletionStepsTell, OthersLeaveCompletions, StepsMoveCompletions};

/// A step that is refused as idle finds no completion under way.
pub fn idle_steps_complete_nothing()
    ensures { IdleStepsCompleteNothing }
{}

/// A step of a completion tells the first of what is left as done, or a fault.
pub fn completion_steps_tell()
    ensures { CompletionStepsTell }
{}

/// A client whose completion is under way is moved by its own steps alone, or vanishes.
pub fn others_leave_completions()
    ensures { OthersLeaveCompletions }
{}

/// Its own step goes on to what is left, or has failed and frees the session.
pub fn steps_move_completions()
    ensures { StepsMoveCompletions }
{}
