// All that users rely on.
ghost use Rattle.service_laws.specs.Service.{ServiceAtFirst, EventsKeepService, ServiceNow, ServiceAlways};

/// What it rests on holds before the first event.
pub fn service_at_first()
    ensures { ServiceAtFirst }
{}

/// Every event with a steady reading keeps it, in every state that is reached.
pub fn events_keep_service()
    ensures { EventsKeepService }
{}

/// Where events have kept it, users may rely on the history: told outcomes are true, stamps keep to real time, own writes stand,
/// and with strict reads there is one copy.
pub fn service_stands()
    ensures { ServiceNow }
{}

/// So they may on every history of the machine.
pub fn service_is_kept()
    ensures { ServiceAlways }
{}
