// The store that a next step asks, told before the step is made.
ghost use Rattle.std.specs.Prelude.{◌≡◌};
ghost use Rattle.machine.specs.Events.Step.{step_asks, store_asked};
ghost use Rattle.machine.specs.Events.Heal.{heal_asks};
ghost use Rattle.machine.specs.Events.SweepStep.{sweep_step_asks};

use crate::asks;
use event_parts::Client;
use invalidator::Sweep;
use stamp_base::Store;
use system_parts::Ask;

/// The store that the session's next step asks, or none where the step is refused or has nothing to ask.
pub fn next_store(client: &Client) -> Option<Store>
    ensures { result ≡ step_asks client.now }
{
    if client.check_step().is_err() {
        return None;
    }
    match client.to_place() {
        Some(_) => Some(Store::Table),
        None => asked_store(&client.next()),
    }
}

/// The store that the next step of the open sweep asks. None where no sweep is open.
pub fn sweep_store(sweep: &Option<Sweep>) -> Option<Store>
    ensures { result ≡ sweep_step_asks sweep.now }
{
    match sweep {
        Some(open) => asked_store(&open.next()),
        None => None,
    }
}

/// The store that the session asks to set the shadow that its last read offers: none where no shadow is offered.
pub fn heal_store(client: &Client) -> Option<Store>
    ensures { result ≡ heal_asks client.now }
{
    match client.offer() {
        Some(_) => Some(Store::Cells),
        None => None,
    }
}

fn asked_store(ask: &Option<Ask>) -> Option<Store>
    ensures { result ≡ store_asked ask.now }
{
    match ask {
        Some(ask) => Some(asks::store_of(ask)),
        None => None,
    }
}
