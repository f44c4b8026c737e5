// What a script may set of a setup.
ghost use Rattle.std.specs.Prelude.{◌≡◌};
ghost use Rattle.stamp_base.specs.SetupNumbers.{bounds_of};

use crate::Stamp;

/// A number of a setup.
#[derive(Clone, Copy, Debug, PartialEq, Eq)]
pub enum SetupNumber {
    /// How many nodes there are.
    Nodes,
    /// For how many ticks of the base clock a grant or a renewal lasts.
    Lease,
    /// By how many ticks two nodes' clocks may differ.
    Skew,
    /// How many stamps one grant or extension brings.
    Range,
    /// How many buckets an instance keeps conflicts in.
    Buckets,
    /// How many keys a bucket keeps.
    Width,
    /// How many requests an instance holds at once.
    Slots,
    /// How many entries a batch holds.
    Batch,
    /// How many persist workers a node has.
    Workers,
    /// How many decisions a session keeps.
    Cache,
}

/// What is off in a setup until a script turns it on.
#[derive(Clone, Copy, Debug, PartialEq, Eq)]
pub enum SetupFlag {
    /// Sessions place their own commit records.
    Direct,
    /// A commit is checked with the keys that its transaction read.
    Strict,
}

/// The range of a number, both ends included, and what it is where a script does not set it.
#[derive(Clone, Copy, Debug, PartialEq, Eq)]
pub struct Bounds {
    /// The least that it may be.
    pub least: u64,
    /// The most that it may be.
    pub most: u64,
    /// What it is where a script does not set it.
    pub default: u64,
}

impl Bounds {
    const fn of(least: u64, most: u64, default: u64) -> Bounds
        ensures { result ≡ record { least = least; most = most; default = default } }
    {
        Bounds {
            least,
            most,
            default,
        }
    }
}

impl SetupNumber {
    /// The table of all numbers of a setup.
    pub fn bounds(self) -> Bounds
        ensures { result ≡ bounds_of self }
    {
        match self {
            SetupNumber::Nodes => Bounds::of(1, 8, 2),
            SetupNumber::Lease => Bounds::of(1, 1_000_000, 10),
            SetupNumber::Skew => Bounds::of(0, 1_000_000, 2),
            SetupNumber::Range => Bounds::of(1, Stamp::GREATEST, 100),
            SetupNumber::Buckets => Bounds::of(1, 4096, 64),
            SetupNumber::Width => Bounds::of(1, 64, 4),
            SetupNumber::Slots => Bounds::of(1, 1024, 64),
            SetupNumber::Batch => Bounds::of(1, 256, 8),
            SetupNumber::Workers => Bounds::of(1, 8, 2),
            SetupNumber::Cache => Bounds::of(0, 1024, 0),
        }
    }
}
