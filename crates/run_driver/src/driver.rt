ghost use Rattle.std.specs.Prelude.{◌≡◌, ◌<◌, ◌≤◌, IfOk, vec_len};
ghost use Rattle.stamp_base.specs.declared.limits.TheConstants.{LINE_LIMIT};
ghost use Rattle.session_script.specs.Script.{data_of};
ghost use Rattle.thread_steps.specs.Done.{parts_for};
ghost use Rattle.turn_rules.specs.Told.{AreForThreads};
ghost use Rattle.run_driver.specs.Runs.{RunsTo};
ghost use Rattle.thread_scripts.specs.Actors.{actors_of};

use crate::rest::finish;
use actor_threads::play;
use cluster_core::Cluster;
use reply_pipeline::Gate;
use run_board::Board;
use session_script::Script;
use stamp_base::NoMemory;
use std::alloc::Global;
use std::marker::Brand;
use std::sync::Wait;
use std::sync::ledger::{Blank, Ledger};
use std::thread::Threads;
use thread_scripts::parts_of;
use turn_rules::Turn;

/// Carries a script out on threads, which pass the gate before each step of a stage: the cluster, and the turns that led there.
/// They are a whole list of lawful turns of the script, in whatever order the threads made them, and the history is what they make
/// of it. That it ends is not promised: an actor may wait for what never comes. NoMemory where memory is refused.
pub fn run<R: Threads + Wait + Sync, G: Gate>(
    rt: &R,
    alloc: Global,
    script: Script,
    gate: &G,
) -> Result<(Cluster, Vec<Turn>), NoMemory>
    requires few { vec_len script.lines ≤ LINE_LIMIT }
    requires for_threads { AreForThreads script.lines.items }
    ensures { IfOk result (λ r. RunsTo (data_of script) r.0.history r.1.items) }
{
    let blank = Blank::new(parts_of(alloc, &script)?);
    run_as::<Brand, R, G>(rt, alloc, script, blank, gate)
}

fn run_as<L: Ledger + Send + Sync, R: Threads + Wait + Sync, G: Gate>(
    rt: &R,
    alloc: Global,
    script: Script,
    blank: Blank,
    gate: &G,
) -> Result<(Cluster, Vec<Turn>), NoMemory>
    requires name { blank.name ≡ L.name }
    requires parts { (blank.parts ≡ L.parts) × (0 < L.parts) }
    requires actors { L.parts ≡ parts_for (actors_of (data_of script)) }
    requires few { vec_len script.lines ≤ LINE_LIMIT }
    requires for_threads { AreForThreads script.lines.items }
    ensures { IfOk result (λ r. RunsTo (data_of script) r.0.history r.1.items) }
{
    let setup = script.setup;
    let (board, shares) = Board::<L>::open(alloc, script, blank)?;
    let lines = board.script().lines.as_slice();
    let shares = play(rt, alloc, &setup, lines, &board, shares, gate)?;
    finish(rt, &setup, board, shares)
}
