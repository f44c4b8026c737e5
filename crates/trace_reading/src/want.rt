// What is wanted where a trace can't be read.
use stamp_base::NoMemory;
use std::alloc::{AllocError, AllocFailed};

/// What a line wants, by the member that lacks it. Operations, and what a read lists, are counted from 0.
#[derive(Clone, Copy, Debug, PartialEq, Eq)]
pub enum Want {
    /// The line is not JSON.
    Json,
    /// The line is not an object.
    Object,
    /// `type` is not one of the four words.
    Type,
    /// `process` is not a name.
    Process,
    /// `time` is not a whole number.
    Time,
    /// `began` is not a whole number.
    Began,
    /// `committing` is not a whole number.
    Committing,
    /// `value` is not an array.
    Operations,
    /// The first member of this operation is not one of the three words.
    Function { operation: u64 },
    /// The second member of this operation is not a name.
    Key { operation: u64 },
    /// The third member of this read is neither null, nor a name, nor an array.
    Answer { operation: u64 },
    /// This member of the array that this read gave is not a name.
    Listed { operation: u64, member: u64 },
    /// The third member of this write is not a name.
    Written { operation: u64 },
    /// The fourth member of this operation is not a whole number.
    Version { operation: u64 },
}

/// Why something was not read.
#[derive(Clone, Copy, Debug, PartialEq, Eq)]
pub enum Stop {
    /// The line wants this first.
    Wants(Want),
    /// Memory was refused.
    NoMemory,
}

impl From<AllocError> for Stop {
    ghost use Rattle.std.specs.Prelude.{◌≡◌};
    ghost use Rattle.trace_reading.specs.declared.want.Stop.TheVariants.{NoMemory};

    ghost from_gives = { λ _ stop. stop ≡ NoMemory };

    fn from(_: AllocError) -> Stop {
        Stop::NoMemory
    }
}

impl<T: Drop> From<AllocFailed<T>> for Stop {
    ghost use Rattle.std.specs.Prelude.{◌≡◌};
    ghost use Rattle.trace_reading.specs.declared.want.Stop.TheVariants.{NoMemory};

    ghost from_gives = { λ _ stop. stop ≡ NoMemory };

    fn from(_: AllocFailed<T>) -> Stop {
        Stop::NoMemory
    }
}

impl From<NoMemory> for Stop {
    ghost use Rattle.std.specs.Prelude.{◌≡◌};
    ghost use Rattle.trace_reading.specs.declared.want.Stop.TheVariants.{NoMemory};

    ghost from_gives = { λ _ stop. stop ≡ NoMemory };

    fn from(_: NoMemory) -> Stop {
        Stop::NoMemory
    }
}
