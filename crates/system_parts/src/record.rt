use stamp_base::Term;

/// What a take of the master record gives: an instance of its own term, which draws the stamps above
/// its epoch up to its ceiling.
#[derive(Clone, Copy, Debug, PartialEq, Eq)]
pub struct Grant {
    /// The term of the instance.
    pub term: Term,
    /// The greatest stamp that earlier terms may draw.
    pub epoch: u64,
    /// The end of the lease, in ticks of the clock.
    pub until: u64,
    /// The greatest stamp that this term may draw.
    pub ceiling: u64,
}

/// Why a take was not granted, the first cause that holds. `reading` and `until` are in ticks of the base clock.
#[derive(Clone, Copy, Debug, PartialEq, Eq)]
pub enum TakeRefused {
    /// The store failed. The take took effect when it was made, or never will.
    StoreFault,
    /// The record is held, and the reading is below `until` and the skew.
    Early { reading: u64, until: u64 },
    /// A further range would go past the last stamp.
    Spent { ceiling: u64 },
}

/// Why a renewal was refused, the first cause that holds.
#[derive(Clone, Copy, Debug, PartialEq, Eq)]
pub enum RenewRefused {
    /// The store failed. The renewal took effect when it was made, or never will.
    StoreFault,
    /// The record has another term, 0 where it is free.
    Replaced { found: u64 },
}

/// Why an extension was refused, the first cause that holds.
#[derive(Clone, Copy, Debug, PartialEq, Eq)]
pub enum ExtendRefused {
    /// The store failed. The extension took effect when it was made, or never will.
    StoreFault,
    /// The record has another term, 0 where it is free.
    Replaced { found: u64 },
    /// A further range would go past the last stamp.
    Spent { ceiling: u64 },
}
