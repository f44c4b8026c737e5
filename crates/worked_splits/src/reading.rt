// Scripts that are read for split stores.
ghost use Rattle.std.specs.Prelude.{◌≤◌, IfOk, vec_len};
ghost use Rattle.stamp_base.specs.declared.limits.TheConstants.{LINE_LIMIT};
ghost use Rattle.session_script.specs.Script.{data_of};
ghost use Rattle.split_driver.specs.Splits.{MaySplit};

use session_script::{Mode, Script, ScriptFault, read_script};
use split_driver::split_scripts_may_split;
use std::alloc::Global;

/// The script that the text is.
pub fn read(alloc: Global, text: &str) -> Result<Script, ScriptFault>
    ensures may_split { IfOk result (λ script. MaySplit (data_of script)) }
    ensures few { IfOk result (λ script. vec_len script.lines ≤ LINE_LIMIT) }
{
    split_scripts_may_split();
    read_script(alloc, text.as_bytes(), Mode::Split)
}
