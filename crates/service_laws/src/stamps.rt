// Stamps keep to real time.
ghost use Rattle.service_laws.specs.Stamps.{StampsAtFirst, EventsKeepStamps, StampsAlways, SnapshotsAlways};

/// What ties the stamps to what was told holds before the first event.
pub fn stamps_at_first()
    ensures { StampsAtFirst }
{}

/// Every event with a steady reading keeps it, in every state that is reached.
pub fn events_keep_stamps()
    ensures { EventsKeepStamps }
{}

/// In every history of the machine, each start and each commit is above all stamps that any session was told before it was asked
/// for.
pub fn stamps_are_fresh()
    ensures { StampsAlways }
{}

/// So the snapshots of a session rise, and the commits that it was told are in its later snapshots.
pub fn snapshots_rise()
    ensures { SnapshotsAlways }
{}
