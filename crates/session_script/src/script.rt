ghost use Rattle.stamp_base.specs.Setups.{numbers_of};
ghost use Rattle.script_data.specs.Data.{IsSound};

use crate::setting::Setting;
use port_io::Fate;
use script_data::Line;
use stamp_base::{NodeNo, Setup, SetupNumber, Store};
use std::alloc::{AllocError, Global};

/// A script that was read: what it sets, and its actors' lines in file order. The numbers of the setup are in their
/// ranges, and what else holds of every script is stated by this type.
#[derive(Debug, Drop)]
pub struct Script {
    /// The setup.
    pub setup: Setup,
    /// The lead of each node's clock, in ticks, from node `a` on.
    pub leads: Vec<u64>,
    /// The planned faults: the store, the number of the call on it from 1 on, and its fate.
    pub faults: Vec<(Store, u64, Fate)>,
    /// The actors' lines in file order.
    pub lines: Vec<Line>,
    pub ghost sound: { IsSound (record { setup = numbers_of setup; leads = leads.items; faults = faults.items; lines = lines.items }) },
}

impl Script {
    ghost use Rattle.std.specs.Prelude.{◌≡◌, ◌<◌, OnOk, OnErr};
    ghost use Rattle.session_script.specs.declared.setting.Setting.TheVariants.{Number, Lead, Fault};
    ghost use Rattle.stamp_base.specs.declared.setup_number.SetupNumber.TheVariants.{Nodes};
    ghost use Rattle.session_script.specs.Script.{data_of};
    ghost use Rattle.session_script.specs.Settings.{IsInBounds, with_setting};

    /// Sets what a setup line sets. Where memory is refused the script is as before.
    pub(crate) fn set(&mut self, alloc: Global, setting: &Setting) -> Result<(), AllocError>
        requires bounds { IsInBounds (numbers_of self.old.setup) setting.now }
        requires sound { IsSound (with_setting (data_of self.old) setting.now) }
        ensures set { OnOk result (data_of self.new ≡ with_setting (data_of self.old) setting.now) }
        ensures memory { OnErr result (data_of self.new ≡ data_of self.old) }
    {
        match setting {
            Setting::Number {
                number: SetupNumber::Nodes,
                value,
            } => self.set_nodes(alloc, *value),
            Setting::Lead { node, lead } => {
                self.set_lead(*node, *lead);
                Ok(())
            }
            Setting::Fault {
                store,
                number,
                fate,
            } => self.plan_fault(*store, *number, *fate),
            Setting::Number { .. } | Setting::Flag(_) | Setting::Buckets { .. } => {
                setting.apply_to(&mut self.setup);
                Ok(())
            }
        }
    }

    fn set_nodes(&mut self, alloc: Global, nodes: u64) -> Result<(), AllocError>
        requires { IsSound (with_setting (data_of self.old) (Number Nodes nodes)) }
        ensures set { OnOk result (data_of self.new ≡ with_setting (data_of self.old) (Number Nodes nodes)) }
        ensures memory { OnErr result (data_of self.new ≡ data_of self.old) }
    {
        self.leads = vec![in alloc; 0; nodes as usize]?;
        self.setup.nodes = nodes;
        Ok(())
    }

    fn set_lead(&mut self, node: NodeNo, lead: u64)
        requires there { node < self.old.setup.nodes }
        requires sound { IsSound (with_setting (data_of self.old) (Lead node lead)) }
        ensures { data_of self.new ≡ with_setting (data_of self.old) (Lead node lead) }
    {
        self.leads[node.value() as usize] = lead;
    }

    fn plan_fault(&mut self, store: Store, number: u64, fate: Fate) -> Result<(), AllocError>
        requires { IsSound (with_setting (data_of self.old) (Fault store number fate)) }
        ensures set { OnOk result (data_of self.new ≡ with_setting (data_of self.old) (Fault store number fate)) }
        ensures memory { OnErr result (data_of self.new ≡ data_of self.old) }
    {
        self.faults.extend_from_slice(&[(store, number, fate)])?;
        Ok(())
    }
}
