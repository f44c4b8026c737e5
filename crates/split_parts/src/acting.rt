// One event over the parts that are lent to it: they fill up an engine, which makes the event as the whole system does, and go
// back as it left them.
ghost use Rattle.std.specs.Prelude.{◌≡◌, IfOk, OnErr};
ghost use Rattle.stamp_base.specs.Setups.{numbers_of};
ghost use Rattle.machine.specs.Machine.{asks};
ghost use Rattle.cluster_core.specs.Required.{CanMake};
ghost use Rattle.split_parts.specs.Acts.{Acts, timed_by};
ghost use Rattle.split_parts.specs.Agrees.{Agrees, CallsFit};
ghost use Rattle.split_parts.specs.Making.{Ends};
ghost use Rattle.split_parts.specs.Parts.{LeasesBySetup, filled, seen, setup_of};

use crate::direct::act_direct;
use crate::noting::{act_noted, noted_item};
use crate::{Event, Lent};
use cluster_core::ClusterState;
use event_parts::Stopped;
use history_book::Item;
use machine::Event as TimedEvent;
use stamp_base::{NoMemory, Setup};
use std::alloc::Global;

/// What an event appended, and how it stopped, where it was refused or its store call failed.
#[derive(Drop)]
pub struct Acted {
    /// The items that it appended, in order.
    pub items: Vec<Item>,
    /// How it stopped; None where it was made in full.
    pub stopped: Option<Stopped>,
}

/// Makes the event of the parts that are lent, which agree: the items and the parts are those of the step of the filled state,
/// which has the lent parts and is as at the opening elsewhere, under the fate that is planned for the store call, which is
/// counted. After want of memory all parts are as before. Nothing is done where a lent record leases by other numbers than the
/// setup. NoMemory where memory is refused.
pub fn act(alloc: Global, lent: &mut Lent<'_>, event: &Event) -> Result<Acted, NoMemory>
    requires { Agrees (seen lent.old) event.now }
    ensures acted { LeasesBySetup (seen lent.old) → IfOk result (λ acted. Acts (seen lent.old) (seen lent.new) (timed_by (seen lent.old) event.now) acted) }
    ensures refused { OnErr result (seen lent.new ≡ seen lent.old) }
{
    let setup = lent.setup();
    if !lent.leases_by(&setup) {
        return Ok(Acted {
            items: Vec::new(alloc),
            stopped: None,
        });
    }
    let timed = lent.timed(event);
    act_timed(alloc, lent, setup, &timed)
}

/// Makes the machine's event of the lent parts, where a lent record leases by the setup.
fn act_timed(
    alloc: Global,
    lent: &mut Lent<'_>,
    setup: Setup,
    event: &TimedEvent,
) -> Result<Acted, NoMemory>
    requires setup { numbers_of setup ≡ setup_of (seen lent.old) }
    requires leases { LeasesBySetup (seen lent.old) }
    requires calls { CallsFit (seen lent.old) (asks (filled (seen lent.old)) event.now) }
    requires can { CanMake (filled (seen lent.old)) event.now }
    ensures acted { IfOk result (λ acted. Acts (seen lent.old) (seen lent.new) event.now acted) }
    ensures refused { OnErr result (seen lent.new ≡ seen lent.old) }
{
    if let Some(item) = noted_item(event) {
        return act_noted(alloc, lent, event, item);
    }
    if lent.has_all(event) {
        return act_direct(alloc, lent, event);
    }
    let name = lent.new_name(event)?;
    let mut engine = ClusterState::open(alloc, setup)?;
    lent.swap(&mut engine);
    let made = lent.make(&mut engine, event);
    lent.swap(&mut engine);
    let stopped = ended(made)?;
    lent.note(event, name);
    Ok(Acted {
        items: engine.into_items(),
        stopped,
    })
}

/// How the event stopped, if it did.
pub(crate) fn ended(made: Result<(), Stopped>) -> Result<Option<Stopped>, NoMemory>
    ensures { Ends made result }
{
    match made {
        Ok(()) => Ok(None),
        Err(Stopped::NoMemory) => Err(NoMemory),
        Err(stopped) => Ok(Some(stopped)),
    }
}
