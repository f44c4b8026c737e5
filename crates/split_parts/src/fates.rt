// The planned fates of calls.
ghost use Rattle.std.specs.Prelude.{◌≡◌};
ghost use Rattle.port_io.specs.Planned.{planned_fate};

use port_io::Fate;
use stamp_base::Store;

/// The fate that is planned for the call of this number on the store, counted from 1.
#[tactic(auto, unfolding(port_io::specs::Planned::planned_fate))]
pub(crate) fn planned_fate(faults: &[(Store, u64, Fate)], store: Store, number: u64) -> Fate
    ensures { result ≡ planned_fate faults.now store number }
{
    for fault in faults {
        // The number first, since it tells more than the store.
        if fault.1 == number && fault.0 == store {
            return fault.2;
        }
    }
    Fate::Works
}
