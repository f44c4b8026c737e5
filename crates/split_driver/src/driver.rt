// A script carried out over split stores.
ghost use Rattle.std.specs.Prelude.{◌≡◌, ◌≤◌, All, IfErr, IfOk, length, vec_len};
ghost use Rattle.stamp_base.specs.declared.limits.TheConstants.{LINE_LIMIT};
ghost use Rattle.stamp_base.specs.Setups.{numbers_of};
ghost use Rattle.session_script.specs.Script.{data_of};
ghost use Rattle.command_semantics.specs.Answers.{Answers};
ghost use Rattle.command_semantics.specs.Planned.{Planned};
ghost use Rattle.service_rules.specs.Service.{KeepsService};
ghost use Rattle.planned_cluster.specs.Fitting.{SessionIsThere};
ghost use Rattle.thread_scripts.specs.Actors.{actors_of};
ghost use Rattle.log_refinement.specs.Served.{Served};
ghost use Rattle.script_data.specs.Data.{ScriptData};
ghost use Rattle.split_driver.specs.Splits.{CarriedOut, MaySplit, Splits, SplitStops, SplitsTo};
ghost use Rattle.split_driver.specs.Waits.{Waited};

use crate::SplitStop;
use crate::ending::{finish, settle, wait_for_ever};
use crate::jobs::{jobs_of, play_all};
use crate::waits::all_waited;
use cluster_core::Cluster;
use log_refinement::{
    settled_logs_answer, settled_logs_are_planned, settled_logs_keep_service, settled_logs_serve,
};
use planned_cluster::see_session;
use script_data::Line;
use session_script::Script;
use split_stores::{PartGate, Split};
use std::alloc::Global;
use std::sync::Wait;
use std::thread::Threads;
use thread_scripts::actors_with_lines;

/// Carries a script out over split stores, where each event passes the gate under the locks of its parts: the cluster that the logs
/// settle into. Each line was carried out, and one that awaits a name behind the line that posts it; the history answers the
/// script, serves it, and is as the script plans. That it ends is not promised: an actor may wait for what never comes. Torn where
/// an entry kept something else than comes of its event, Spent where an actor has drawn all its ticks, NoMemory where memory is
/// refused.
pub fn run_split<R: Threads + Wait + Sync, G: PartGate>(
    rt: &R,
    alloc: Global,
    script: &Script,
    gate: &G,
) -> Result<Cluster, SplitStop>
    requires few { vec_len script.now.lines ≤ LINE_LIMIT }
    requires may_split { MaySplit (data_of script.now) }
    ensures split { IfOk result (SplitsTo (data_of script.now)) }
    ensures answers { IfOk result (λ cluster. Answers (data_of script.now) cluster.history) }
    ensures carried { IfOk result (CarriedOut (data_of script.now)) }
    ensures waited { IfOk result (λ cluster. Waited cluster.history) }
    ensures served { IfOk result (λ cluster. Served (data_of script.now) cluster.history) }
    ensures planned { IfOk result (λ cluster. Planned (data_of script.now) cluster.history) }
    ensures service { IfOk result (λ cluster. KeepsService (data_of script.now).setup cluster.history) }
    ensures setup { IfOk result (λ cluster. cluster.state.setup ≡ numbers_of script.now.setup) }
    ensures stopped { IfErr result (SplitStops (data_of script.now)) }
{
    let split = carry_out(rt, alloc, script, gate);
    let waited = keep_waited(rt, alloc, split);
    answering(script, waited)
}

// No clause reaches what an actor finds posted, so the history tells it. Where a name were awaited before its post, nobody is there
// who sets it right.
fn keep_waited<R: Wait>(
    rt: &R,
    alloc: Global,
    split: Result<Cluster, SplitStop>,
) -> Result<Cluster, SplitStop>
    ensures splits { (script : ScriptData) → Splits script split → Splits script result }
    ensures waited { IfOk result (λ cluster. Waited cluster.history) }
{
    match split {
        Ok(cluster) => {
            if all_waited(alloc, cluster.history())? {
                Ok(cluster)
            } else {
                wait_for_ever(rt)
            }
        }
        Err(stop) => Err(stop),
    }
}

// What the logs settle into answers the script, serves it, and is as it plans.
fn answering(script: &Script, split: Result<Cluster, SplitStop>) -> Result<Cluster, SplitStop>
    requires few { vec_len script.now.lines ≤ LINE_LIMIT }
    requires may_split { MaySplit (data_of script.now) }
    requires split { Splits (data_of script.now) split }
    requires waited { IfOk split (λ cluster. Waited cluster.history) }
    ensures split { IfOk result (SplitsTo (data_of script.now)) }
    ensures answers { IfOk result (λ cluster. Answers (data_of script.now) cluster.history) }
    ensures carried { IfOk result (CarriedOut (data_of script.now)) }
    ensures waited { IfOk result (λ cluster. Waited cluster.history) }
    ensures served { IfOk result (λ cluster. Served (data_of script.now) cluster.history) }
    ensures planned { IfOk result (λ cluster. Planned (data_of script.now) cluster.history) }
    ensures service { IfOk result (λ cluster. KeepsService (data_of script.now).setup cluster.history) }
    ensures setup { IfOk result (λ cluster. cluster.state.setup ≡ numbers_of script.now.setup) }
    ensures stopped { IfErr result (SplitStops (data_of script.now)) }
{
    see_sessions(&script.lines);
    settled_logs_answer();
    settled_logs_serve();
    settled_logs_are_planned();
    settled_logs_keep_service();
    split
}

// Sessions that the lines name are those that there are, as their types say.
fn see_sessions(lines: &[Line])
    ensures { All (λ line. SessionIsThere line.actor) lines.now }
{
    for line in lines {
        see_session(&line.actor);
    }
}

fn carry_out<R: Threads + Wait + Sync, G: PartGate>(
    rt: &R,
    alloc: Global,
    script: &Script,
    gate: &G,
) -> Result<Cluster, SplitStop>
    requires few { vec_len script.now.lines ≤ LINE_LIMIT }
    requires may_split { MaySplit (data_of script.now) }
    ensures { Splits (data_of script.now) result }
{
    let actors = actors_with_lines(alloc, script)?;
    if actors.is_empty() {
        return settle_nothing(alloc, script);
    }
    let (split, seats) = Split::open(alloc, script, actors.len())?;
    let jobs = jobs_of(alloc, &split, actors, seats)?;
    let played = play_all(rt, alloc, &split, script, jobs, gate)?;
    finish(rt, alloc, script, split, played)
}

// Where no actor has lines, one log stays empty.
fn settle_nothing(alloc: Global, script: &Script) -> Result<Cluster, SplitStop>
    requires none { length (actors_of (data_of script.now)) ≡ 0 }
    requires may_split { MaySplit (data_of script.now) }
    ensures { Splits (data_of script.now) result }
{
    let (split, seats) = Split::open(alloc, script, 1)?;
    settle(alloc, split, seats)
}
