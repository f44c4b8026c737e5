// Own writes stand, in every history of the machine.
ghost use Rattle.service_laws.specs.OwnWrites.{OwnAtFirst, EventsKeepOwn, OwnAlways};

/// Before the first event nothing is written.
pub fn own_writes_at_first()
    ensures { OwnAtFirst }
{}

/// Every event keeps it, in every state that is reached, that the cell of an open transaction's write is gone only where a sweep
/// has erased it.
pub fn events_keep_own_writes()
    ensures { EventsKeepOwn }
{}

/// In every history of the machine a read gives what its transaction wrote last at the key, unless a sweep has erased that very
/// cell since, or a call of a sweep on the cells failed.
pub fn own_writes_stand()
    ensures { OwnAlways }
{}
