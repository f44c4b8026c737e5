// The logs of all seats, made again in the order of their ticks.
ghost use Rattle.std.specs.Prelude.{◌≡◌, ◌≤◌, ◌+◌, ◌*◌, ◌^◌, ◌↔◌, drop, All, IfOk, IfErr, IsTrue, OnOk, MatchResult, length};
ghost use Rattle.stamp_base.specs.Setups.{numbers_of};
ghost use Rattle.machine.specs.Machine.{IsSteadyAt, reading_of};
ghost use Rattle.script_data.specs.Data.{ScriptData};
ghost use Rattle.command_semantics.specs.Master.{last_master};
ghost use Rattle.command_semantics.specs.Runs.{Played, played};
ghost use Rattle.planned_cluster.specs.Standing.{OpensFor, StandsAt};
ghost use Rattle.split_stores.specs.Logs.{risen_by, rise_of};
ghost use Rattle.split_stores.specs.Merging.{logs_of};
ghost use Rattle.split_parts.specs.Plans.{plan_data};
ghost use Rattle.split_parts.specs.Acts.{timed_at};
ghost use Rattle.split_stores.specs.Merged.{played_with, IsReplayed, IsSettledAt, Settled, Differ, TurnStops, ReplayStops, SettleStops};

use crate::merging::merge;
use crate::seat::{ActorSeat, Entry};
use cluster_core::{Cluster, Stopped};
use command_semantics::events_stay_told;
use history_book::Item;
use machine::Event as TimedEvent;
use planned_cluster::PlannedCluster;
use port_io::{PlannedWeather, Weather};
use split_parts::{Plan, timed};
use stamp_base::{NoMemory, NodeNo};
use std::alloc::Global;
use tick_word::TickWord;

/// Why logs were not settled.
#[derive(Clone, Copy, Debug, PartialEq, Eq)]
pub enum SettleStop {
    /// Another number of seats was handed in (`given`) than was made.
    Missing {
        made: usize,
        given: usize,
    },
    /// The first tick at which something else was kept than comes of the event, and the first pair of items that differ there;
    /// None where a list has ended.
    Torn {
        tick: u64,
        kept: Option<Item>,
        replayed: Option<Item>,
    },
    /// Memory was refused.
    NoMemory,
}

impl From<NoMemory> for SettleStop {
    ghost use Rattle.std.specs.Prelude.{◌≡◌};
    ghost use Rattle.split_stores.specs.declared.settling.SettleStop.TheVariants.{NoMemory};

    ghost from_gives = { λ _ e. e ≡ NoMemory };

    fn from(_: NoMemory) -> SettleStop {
        SettleStop::NoMemory
    }
}

/// The cluster that the events of all logs lead to in the order of their ticks, where each entry kept what its event appends
/// there. Its history is what they kept, in that order.
pub(crate) fn settle_logs(
    alloc: Global,
    plan: &Plan,
    word: TickWord,
    actors: usize,
    seats: Vec<ActorSeat>,
) -> Result<Cluster, SettleStop>
    requires actors { (actors ≡ word.seats) × (actors ≤ 26) }
    requires of_word { All (λ s. s.word ≡ word.id) seats.items }
    ensures settled { IfOk result (λ cluster. Settled (plan_data plan.now) (logs_of seats.items) cluster) }
    ensures all { OnOk result (length seats.items ≡ actors) }
    ensures stopped { IfErr result (SettleStops (plan_data plan.now) actors seats.items) }
{
    if seats.len() != actors {
        return Err(SettleStop::Missing {
            made: actors,
            given: seats.len(),
        });
    }
    let merged = merge(alloc, word, seats)?;
    replay(alloc, plan, merged.as_slice())
}

/// Makes all events again, in this order.
fn replay(alloc: Global, plan: &Plan, merged: &[Entry]) -> Result<Cluster, SettleStop>
    requires { risen_by merged.now ≤ 26 * 2 ^ 40 }
    ensures { MatchResult result (IsSettledAt (plan_data plan.now) merged.now) (ReplayStops (plan_data plan.now) merged.now) }
{
    let mut play = PlannedCluster::open(alloc, plan.setup, plan.faults.as_slice())?;
    replay_all(&mut play, plan, merged)?;
    Ok(play.cluster.into_cluster())
}

/// Makes all events again, in this order, in a cluster before its first event.
fn replay_all(play: &mut PlannedCluster, plan: &Plan, merged: &[Entry]) -> Result<(), SettleStop>
    requires opens { OpensFor (numbers_of plan.now.setup) plan.now.faults.items play.old.cluster play.old.clock (⟦<PlannedWeather as Weather>⟧.ahead play.old.weather) }
    requires risen { risen_by merged.now ≤ 26 * 2 ^ 40 }
    ensures { MatchResult result (λ _. IsSettledAt (plan_data plan.now) merged.now play.new.cluster) (ReplayStops (plan_data plan.now) merged.now) }
{
    // (a law of events that read the clocks, which the loop stands on)
    events_stay_told();
    for entry in merged {
        if let Err(stop) = replay_one(play, plan.leads.as_slice(), entry) {
            return Err(stop);
        }
    }
    Ok(())
}

/// Makes one event again, and compares what is told with what was kept.
fn replay_one(play: &mut PlannedCluster, leads: &[u64], entry: &Entry) -> Result<(), SettleStop>
    requires rise { play.old.clock + rise_of entry.now.event ≤ 2 ^ 60 }
    requires leads { All (λ lead. lead ≤ 2 ^ 60) leads.now }
    requires steady { IsSteadyAt play.old.cluster.state.setup.skew play.old.cluster.state.seen (reading_of (timed_at play.old.clock leads.now (last_master play.old.cluster.history) entry.now.event)) }
    ensures { (script : ScriptData) (p : Played) → script.leads ≡ leads.now →
        StandsAt script p play.old.cluster play.old.clock (⟦<PlannedWeather as Weather>⟧.ahead play.old.weather) →
        MatchResult result
        (λ _. IsReplayed script p entry.now × StandsAt script (played_with script p entry.now.event) play.new.cluster play.new.clock (⟦<PlannedWeather as Weather>⟧.ahead play.new.weather))
        (TurnStops script p entry.now) }
{
    let before = play.cluster.history().len();
    make_again(
        play,
        &timed(play.clock, leads, master_at(play), &entry.event),
    )?;
    match difference(entry.kept.as_slice(), since(play.cluster.history(), before)) {
        None => Ok(()),
        Some((kept, replayed)) => Err(SettleStop::Torn {
            tick: entry.tick,
            kept,
            replayed,
        }),
    }
}

/// The node that took the master record last.
fn master_at(play: &PlannedCluster) -> NodeNo
    ensures { result ≡ last_master play.now.cluster.history }
{
    play.cluster.master()
}

/// Makes the event. A refusal and a fault are told in the history.
fn make_again(play: &mut PlannedCluster, event: &TimedEvent) -> Result<(), NoMemory>
    requires { IsSteadyAt play.old.cluster.state.setup.skew play.old.cluster.state.seen (reading_of event.now) }
    ensures { OnOk result ((script : ScriptData) (p : Played) →
        StandsAt script p play.old.cluster play.old.clock (⟦<PlannedWeather as Weather>⟧.ahead play.old.weather) →
        StandsAt script (played script p event.now) play.new.cluster play.new.clock (⟦<PlannedWeather as Weather>⟧.ahead play.new.weather)) }
{
    match play.make(event) {
        Ok(()) => Ok(()),
        Err(Stopped::Refused(_)) => Ok(()),
        Err(Stopped::StoreFault(_)) => Ok(()),
        Err(Stopped::NoMemory) => Err(NoMemory),
    }
}

/// The items from this place on.
fn since(items: &[Item], before: usize) -> &[Item]
    ensures { result.now ≡ drop before items.now }
{
    if before < items.len() {
        &items[before..]
    } else {
        &[]
    }
}

/// The first pair of items that differ, none where a list has ended.
#[tactic(auto, unfolding(crate::specs::Merged::Differ))]
fn difference(kept: &[Item], replayed: &[Item]) -> Option<(Option<Item>, Option<Item>)>
    ensures { Differ kept.now replayed.now result }
{
    let mut left = kept;
    let mut right = replayed;
    while let [mine, rest @ ..] = left {
        match right {
            [theirs, others @ ..] if is_same(mine, theirs) => {
                left = rest;
                right = others;
            }
            [theirs, ..] => return Some((Some(*mine), Some(*theirs))),
            [] => return Some((Some(*mine), None)),
        }
    }
    match right {
        [theirs, ..] => Some((None, Some(*theirs))),
        [] => None,
    }
}

fn is_same(mine: &Item, theirs: &Item) -> bool
    ensures { IsTrue result ↔ (mine.now ≡ theirs.now) }
{
    *mine == *theirs
}
