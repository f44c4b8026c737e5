// What the reader's mode keeps out of a script.
ghost use Rattle.thread_scripts.specs.Laws.{RunScriptsAreForThreads};

/// A script that was read for threads has no line that a replay alone can carry out: none makes a stage's event itself.
pub fn run_scripts_are_for_threads()
    ensures { RunScriptsAreForThreads }
{}
