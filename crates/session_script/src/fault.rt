ghost use Rattle.std.specs.Prelude.{◌≡◌};

use crate::cause::ScriptCause;
use std::alloc::AllocError;

/// Why bytes are no script.
#[derive(Clone, Copy, Debug, PartialEq, Eq)]
pub enum ScriptFault {
    /// The first bad line, and its first cause. Line 0 stands for the bytes as a whole.
    At { line: u64, cause: ScriptCause },
    /// Memory was refused.
    NoMemory,
}

impl From<AllocError> for ScriptFault {
    ghost use Rattle.session_script.specs.declared.fault.ScriptFault.TheVariants.{NoMemory};

    ghost from_gives = { λ _ fault. fault ≡ NoMemory };

    fn from(_: AllocError) -> ScriptFault {
        ScriptFault::NoMemory
    }
}
