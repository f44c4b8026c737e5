use stamp_base::{KeyNo, NodeNo, SessionNo, Stamp, Term};

/// Why an event was refused. `reading` and `until` are in ticks of the base clock.
#[derive(Clone, Copy, Debug, PartialEq, Eq)]
pub enum Cause {
    /// A key of the write list has a recorded commit above the start.
    Conflict { key: KeyNo, by: Stamp },
    /// A key is not kept, and its bucket has forgotten a commit above the start.
    Hidden { key: KeyNo, water: u64 },
    /// The start is at most the instance's epoch.
    OldEpoch { start: Stamp, epoch: u64 },
    /// The reading is not below the end of the instance's lease.
    Expired { reading: u64, until: u64 },
    /// The master record has another term: `found`, or 0 where it is free.
    Replaced { found: u64 },
    /// A further range would pass the greatest stamp.
    Spent { ceiling: u64 },
    /// The instance has drawn all stamps of its range.
    NoStamp { last: u64 },
    /// The commit's place in the commit table has an invalid mark.
    Invalid { start: Stamp },
    /// It is not known whether the commit was placed.
    Open { start: Stamp },
    /// The instance crashed while the begin was in flight.
    Crashed { node: NodeNo, term: Term },
    /// A commit that was drawn below the start is not settled.
    NotYet { commit: Stamp },
    /// The instance holds no request of the session, or none in that place.
    NoRequest { session: SessionNo },
    /// The node has no instance.
    NoOracle { node: NodeNo },
    /// The instance holds as many requests as it has slots.
    Full { in_flight: u64 },
    /// The lease of another may not have ended by all clocks.
    Early { reading: u64, until: u64 },
    /// The node has an instance already.
    Holding { term: Term },
    /// The session has no transaction.
    NoTransaction,
    /// An operation of that actor is under way.
    Busy,
    /// A transaction writes at most 64 keys.
    TooManyKeys,
    /// The session has vanished.
    Gone,
    /// The actor has nothing under way of that kind.
    Idle,
    /// A sweep found no entry, and may not mark above its epoch.
    Undecided { start: Stamp, epoch: u64 },
}
