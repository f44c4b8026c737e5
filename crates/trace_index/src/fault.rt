// Why what was recorded is no trace.
use stamp_base::NoMemory;
use std::alloc::{AllocError, AllocFailed};

/// What does not let writers be known by their values, or by their versions.
#[derive(Clone, Copy, Debug, PartialEq, Eq)]
pub enum Unclear {
    /// This value was written at the key before.
    WrittenTwice,
    /// Nobody wrote this value at the key.
    WrittenByNobody,
    /// This version of the key is told of another writer too: its number stands in the value's place.
    VersionTwice,
    /// The key has lists here, and single values before, or the other way round.
    BothWays,
}

/// Why what was recorded is no trace.
#[derive(Clone, Copy, Debug, PartialEq, Eq)]
pub enum Fault {
    /// An operation of the transaction at this place, by its own place there, with its key and value by their numbers.
    At {
        txn: usize,
        member: u64,
        key: u64,
        value: u64,
        what: Unclear,
    },
    /// Memory was refused.
    NoMemory,
}

impl From<AllocError> for Fault {
    ghost use Rattle.std.specs.Prelude.{◌≡◌};
    ghost use Rattle.trace_index.specs.declared.fault.Fault.TheVariants.{NoMemory};

    ghost from_gives = { λ _ fault. fault ≡ NoMemory };

    fn from(_: AllocError) -> Fault {
        Fault::NoMemory
    }
}

impl<T: Drop> From<AllocFailed<T>> for Fault {
    ghost use Rattle.std.specs.Prelude.{◌≡◌};
    ghost use Rattle.trace_index.specs.declared.fault.Fault.TheVariants.{NoMemory};

    ghost from_gives = { λ _ fault. fault ≡ NoMemory };

    fn from(_: AllocFailed<T>) -> Fault {
        Fault::NoMemory
    }
}

impl From<NoMemory> for Fault {
    ghost use Rattle.std.specs.Prelude.{◌≡◌};
    ghost use Rattle.trace_index.specs.declared.fault.Fault.TheVariants.{NoMemory};

    ghost from_gives = { λ _ fault. fault ≡ NoMemory };

    fn from(_: NoMemory) -> Fault {
        Fault::NoMemory
    }
}
