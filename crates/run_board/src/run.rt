ghost use Rattle.std.specs.Prelude.{◌≡◌, ◌≤◌, [], IfOk, vec_len};
ghost use Rattle.stamp_base.specs.declared.limits.TheConstants.{LINE_LIMIT};
ghost use Rattle.history_book.specs.Isolation.{Isolated};
ghost use Rattle.cause_rules.specs.Explained.{Explained};
ghost use Rattle.cause_rules.specs.Strict.{SerialIfStrict};
ghost use Rattle.session_script.specs.Script.{data_of};
ghost use Rattle.turn_rules.specs.Carried.{carried_items};
ghost use Rattle.turn_rules.specs.Lawful.{AreLawful};
ghost use Rattle.turn_rules.specs.Told.{AreForThreads};
ghost use Rattle.run_board.specs.Run.{reached_by};

use crate::seated::{Seated, all_seated, pass_all, see_sessions};
use history_book::Item;
use planned_cluster::{Cluster, PlannedCluster};
use port_io::{PlannedWeather, Weather};
use session_script::{PostedNames, Script};
use stamp_base::NoMemory;
use std::alloc::Global;
use std::marker::Model;
use turn_rules::{Holds, Turn};

/// A script, the turns that were made of it, and what stands after them.
#[derive(Drop)]
pub struct ScriptRun {
    pub(crate) script: Script,
    pub(crate) planned: PlannedCluster,
    pub(crate) names: PostedNames,
    pub(crate) held: Vec<Holds>,
    pub(crate) seated: Vec<Seated>,
    // Whether the last decision found no stamp, and nothing else was made since, one for each node.
    pub(crate) lacking: Vec<bool>,
    // Beside these there is room for one more for each item that is still kept for a request in flight.
    pub(crate) turns: Vec<Turn>,
}

impl Model for ScriptRun {
    ghost use Rattle.std.specs.Prelude.{◌+◌, ◌≤◌, vec_len};
    ghost use Rattle.std.specs.Vec.{vec_capacity};
    ghost use Rattle.session_script.specs.Script.{data_of};
    ghost use Rattle.planned_cluster.specs.Standing.{StandsAt};
    ghost use Rattle.turn_rules.specs.Carried.{carried};
    ghost use Rattle.run_board.specs.Run.{Ran, SitsAt, IsCarriedOut};

    ghost Value = { Ran };

    ghost view = { λ r. record { script = data_of r.script; turns = r.turns.items } };

    ghost invariant = { λ r.
        StandsAt (data_of r.script) (carried (data_of r.script) r.turns.items).played r.planned.cluster r.planned.clock (⟦<PlannedWeather as Weather>⟧.ahead r.planned.weather)
        × SitsAt (data_of r.script) (carried (data_of r.script) r.turns.items) r.names.names r.held.items r.seated.items
        × IsCarriedOut (data_of r.script) r.turns.items r.lacking.items
        × (vec_len r.turns + r.planned.cluster.spare ≤ vec_capacity r.turns) };
}

impl ScriptRun {
    /// No turn was made yet. NoMemory where memory is refused.
    pub fn open(alloc: Global, script: Script) -> Result<ScriptRun, NoMemory>
        requires few { vec_len script.lines ≤ LINE_LIMIT }
        requires for_threads { AreForThreads script.lines.items }
        ensures script { IfOk result (λ run. run.script ≡ data_of script) }
        ensures turns { IfOk result (λ run. run.turns ≡ []) }
    {
        see_sessions(script.lines.as_slice());
        let planned = PlannedCluster::open(alloc, script.setup, script.faults.as_slice())?;
        let nodes = script.setup.nodes;
        let mut seated = all_seated(alloc, nodes, script.lines.as_slice())?;
        let held = Vec::from_elem(alloc, Holds::none(), nodes as usize)?;
        let lacking = Vec::from_elem(alloc, false, nodes as usize)?;
        pass_all(&planned, script.leads.as_slice(), &mut seated);
        Ok(ScriptRun {
            script,
            planned,
            names: PostedNames::new(alloc),
            held,
            seated,
            lacking,
            turns: Vec::new(alloc),
        })
    }

    /// The history that the turns have made. It is isolated, each of its refusals is shown by what stands before it, and where the
    /// setup asks for strict reads it is serial.
    pub fn history(&self) -> &[Item]
        ensures value { result.now ≡ carried_items self.now.script self.now.turns }
        ensures isolated { Isolated result.now }
        ensures explained { Explained self.now.script.setup result.now }
        ensures serial { SerialIfStrict self.now.script.setup result.now }
    {
        self.planned.cluster.history()
    }

    /// The script that is carried out.
    pub fn script(&self) -> &Script
        ensures { data_of result.now ≡ self.now.script }
    {
        &self.script
    }

    /// The cluster, and the turns that led there.
    pub fn into_parts(self) -> (Cluster, Vec<Turn>)
        ensures history { result.0.history ≡ carried_items self.script self.turns }
        ensures state { result.0.state ≡ (reached_by self).played.state }
        ensures turns { result.1.items ≡ self.turns }
        ensures lawful { AreLawful self.script self.turns }
    {
        let ScriptRun { planned, turns, .. } = self;
        let PlannedCluster { cluster, .. } = planned;
        (cluster.into_cluster(), turns)
    }
}
