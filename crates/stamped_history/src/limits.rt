use stamp_base::NoMemory;
use std::alloc::{AllocError, AllocFailed};

/// What a history has no more of, or none of.
#[derive(Clone, Copy, Debug, PartialEq, Eq)]
pub enum Limit {
    /// A session is none of the sixteen.
    Sessions,
    /// More than 4,096 keys are read or written.
    Keys,
    /// A value is not of 1 to 64 visible bytes.
    Values,
    /// A stamp is above 2^62, or numbers are too great to be made stamps of.
    Stamps,
    /// The text is longer than 16 MiB.
    Bytes,
}

/// Why there is no history.
#[derive(Clone, Copy, Debug, PartialEq, Eq)]
pub enum NoHistory {
    /// A limit of histories is passed.
    Past(Limit),
    /// Memory was refused.
    NoMemory,
}

impl From<NoMemory> for NoHistory {
    ghost from_gives = { λ _ _. Unit {0} };

    fn from(_: NoMemory) -> NoHistory {
        NoHistory::NoMemory
    }
}

impl From<AllocError> for NoHistory {
    ghost from_gives = { λ _ _. Unit {0} };

    fn from(_: AllocError) -> NoHistory {
        NoHistory::NoMemory
    }
}

impl<T: Drop> From<AllocFailed<T>> for NoHistory {
    ghost from_gives = { λ _ _. Unit {0} };

    fn from(_: AllocFailed<T>) -> NoHistory {
        NoHistory::NoMemory
    }
}
