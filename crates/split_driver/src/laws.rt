// What the reader's mode keeps out of a script.
ghost use Rattle.split_driver.specs.Splits.{SplitScriptsMaySplit};

/// A script that was read for split stores turns on nothing that they have not, and no line names the master.
pub fn split_scripts_may_split()
    ensures { SplitScriptsMaySplit }
{}
