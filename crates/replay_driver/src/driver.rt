// Carrying out a script line by line.
ghost use Rattle.std.specs.Prelude.{◌≡◌, ◌<◌, ◌≤◌, ◌+◌, IfOk, OnOk, length, vec_len};
ghost use Rattle.stamp_base.specs.declared.limits.TheConstants.{LINE_LIMIT};
ghost use Rattle.stamp_base.specs.Setups.{numbers_of};
ghost use Rattle.session_script.specs.Script.{data_of};
ghost use Rattle.command_semantics.specs.Answers.{Answers};
ghost use Rattle.command_semantics.specs.Planned.{Planned};
ghost use Rattle.command_semantics.specs.Runs.{replayed, script_played};
ghost use Rattle.replay_driver.specs.Playing.{IsPlayedTo};

use crate::choosing::make_next;
use crate::progress::{Progress, Silent};
use cluster_core::Cluster;
use command_semantics::{
    Point, events_lower_what_is_left, lines_are_answered, scripts_are_planned,
};
use planned_cluster::{PlannedCluster, see_session};
use port_io::{PlannedWeather, Weather};
use session_script::Script;
use stamp_base::{LINE_LIMIT, NoMemory};
use std::alloc::Global;

/// The cluster once all the script's lines were carried out, each to its end. A refused line ends nothing: its refusal stands in
/// the history. NoMemory where memory is refused.
pub fn replay(alloc: Global, script: &Script) -> Result<Cluster, NoMemory>
    requires { vec_len script.now.lines ≤ LINE_LIMIT }
    ensures history { IfOk result (λ cluster. cluster.history ≡ replayed (data_of script.now)) }
    ensures state { IfOk result (λ cluster. cluster.state ≡ (script_played (data_of script.now)).state) }
    ensures answered { IfOk result (λ cluster. Answers (data_of script.now) cluster.history) }
    ensures planned { IfOk result (λ cluster. Planned (data_of script.now) cluster.history) }
    ensures setup { IfOk result (λ cluster. cluster.state.setup ≡ numbers_of script.now.setup) }
{
    replay_told(alloc, script, &Silent)
}

/// The cluster once all the script's lines were carried out, as `replay` gives it. Behind each line, `progress` is told how many
/// were carried out. NoMemory where memory is refused.
pub fn replay_told<P: Progress>(
    alloc: Global,
    script: &Script,
    progress: &P,
) -> Result<Cluster, NoMemory>
    requires { vec_len script.now.lines ≤ LINE_LIMIT }
    ensures history { IfOk result (λ cluster. cluster.history ≡ replayed (data_of script.now)) }
    ensures state { IfOk result (λ cluster. cluster.state ≡ (script_played (data_of script.now)).state) }
    ensures answered { IfOk result (λ cluster. Answers (data_of script.now) cluster.history) }
    ensures planned { IfOk result (λ cluster. Planned (data_of script.now) cluster.history) }
    ensures setup { IfOk result (λ cluster. cluster.state.setup ≡ numbers_of script.now.setup) }
{
    lines_are_answered();
    scripts_are_planned();
    let mut play = PlannedCluster::open(alloc, script.setup, &script.faults)?;
    for place in 0..script.lines.len() {
        see_session(&script.lines[place].actor);
        play_line(&mut play, script, place)?;
        progress.carried_out(place + 1, script.lines.len());
    }
    Ok(play.cluster.into_cluster())
}

/// Carries out the line at this place, event by event, to its end.
fn play_line(play: &mut PlannedCluster, script: &Script, place: usize) -> Result<(), NoMemory>
    requires place { place < length script.now.lines.items }
    requires played { IsPlayedTo (data_of script.now) place play.old.cluster play.old.clock
        (⟦<PlannedWeather as Weather>⟧.ahead play.old.weather) }
    ensures { OnOk result (IsPlayedTo (data_of script.now) (place + 1) play.new.cluster play.new.clock
        (⟦<PlannedWeather as Weather>⟧.ahead play.new.weather)) }
{
    events_lower_what_is_left();
    let line = &script.lines[place];
    let mut point = Point::Opens;
    while point != Point::Over {
        point = make_next(play, &script.leads, line, point)?;
    }
    Ok(())
}
