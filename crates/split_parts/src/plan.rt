// What a script sets, without its lines.
ghost use Rattle.std.specs.Prelude.{◌≡◌, []};
ghost use Rattle.stamp_base.specs.Setups.{numbers_of};
ghost use Rattle.script_data.specs.Data.{IsSound};

use port_io::Fate;
use session_script::Script;
use stamp_base::{NoMemory, Setup, Store};
use std::alloc::Global;

/// What a script sets, without its lines: the setup, the lead of each node's clock, and the planned faults. It stays as it is while
/// events are made, so no lock guards it.
#[derive(Drop)]
pub struct Plan {
    /// The setup.
    pub setup: Setup,
    /// The lead of each node's clock, in ticks, from node `a` on.
    pub leads: Vec<u64>,
    /// The store, the number of the call on it from 1 on, and its fate.
    pub faults: Vec<(Store, u64, Fate)>,
    pub ghost sound: { IsSound (record { setup = numbers_of setup; leads = leads.items; faults = faults.items; lines = [] }) },
}

impl Plan {
    ghost use Rattle.std.specs.Prelude.{◌≤◌, All, IfOk};
    ghost use Rattle.split_parts.specs.Plans.{plan_data, planned_by};

    /// What the script sets. NoMemory where memory is refused.
    pub fn new(alloc: Global, script: &Script) -> Result<Plan, NoMemory>
        ensures { IfOk result (λ plan. plan_data plan ≡ planned_by script.now) }
    {
        let mut leads = Vec::new(alloc);
        leads.extend_from_slice(&script.leads)?;
        let mut faults = Vec::new(alloc);
        faults.extend_from_slice(&script.faults)?;
        Ok(Plan {
            setup: script.setup,
            leads,
            faults,
        })
    }

    /// What the type says of the leads.
    pub(crate) fn tell_leads(&self)
        ensures { All (λ lead. lead ≤ 1000000) self.now.leads.items }
    {
        // (what a type says of a value is known once a field was read)
        let _setup = self.setup;
    }
}
