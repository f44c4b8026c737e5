// What users rely on, in the histories of scripts.
ghost use Rattle.script_service.specs.Service.{OrdersKeepService, ScriptsKeepService, TurnsKeepService};

use command_semantics::{events_lower_what_is_left, events_stay_told};
use service_laws::{events_keep_service, service_at_first, service_stands};

/// The history of a script that is carried out in file order keeps what users rely on. All that is asked for is that the numbers of
/// the setup are in range, no clock is ahead by more than the skew, and the ticks are few.
pub fn scripts_keep_service()
    ensures { ScriptsKeepService }
{
    events_lower_what_is_left();
    service_at_first();
    events_keep_service();
    service_stands();
}

/// So does the history that turns make of a script, whichever turns are made.
pub fn turns_keep_service()
    ensures { TurnsKeepService }
{
    service_at_first();
    events_keep_service();
    service_stands();
}

/// So does the history of events in any order, where each reads the clocks as they stand when it is made, and they tick no longer
/// than the script's lines in all.
pub fn orders_keep_service()
    ensures { OrdersKeepService }
{
    events_stay_told();
    service_at_first();
    events_keep_service();
    service_stands();
}
