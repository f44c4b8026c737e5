// What comes of the logs once all actors have ended.
ghost use Rattle.std.specs.Prelude.{◌≡◌, ℕ, List, All, IfOk, length, map};
ghost use Rattle.std.specs.List.{AllZip};
ghost use Rattle.script_data.specs.Data.{ScriptData};
ghost use Rattle.session_script.specs.Script.{data_of};
ghost use Rattle.thread_scripts.specs.Actors.{actors_of};
ghost use Rattle.split_stores.specs.Logs.{Logged};
ghost use Rattle.split_stores.specs.Makes.{planned_by};
ghost use Rattle.split_stores.specs.Merged.{SettleStops};
ghost use Rattle.split_stores.specs.Merging.{logs_of};
ghost use Rattle.split_stores.specs.Orders.{without_lines};
ghost use Rattle.split_driver.specs.Actors.{IsOfAll, IsPlayedOf, IsSpentBy, IsSpentFrom, IsThrough, SettlesBy, TearsBy};
ghost use Rattle.split_driver.specs.Splits.{AreLogs, Splits};
ghost use Rattle.split_driver.specs.Waits.{Waited};

use crate::SplitStop;
use crate::jobs::Job;
use crate::play_stop::PlayStop;
use cluster_core::Cluster;
use session_script::Script;
use split_stores::{ActorSeat, SettleStop, Split};
use stamp_base::NoMemory;
use std::alloc::Global;
use std::sync::Wait;
use std::thread::Parker;

/// How the actors have ended.
#[derive(Clone, Copy, Debug, PartialEq, Eq)]
pub(crate) enum End {
    /// Each with the end of its lines.
    ClusterModel,
    GaveUp,
    NoMemory,
    Spent { drawn: u64 },
}

impl End {
    /// With one actor more, which ended so. That ticks are spent goes before want of memory, and this before an actor that gave up.
    fn then(self, answer: &Result<(), PlayStop>) -> End
        ensures whole { result ≡ End.ClusterModel → (self ≡ End.ClusterModel) × IsThrough answer.now }
        ensures spent { IsSpentFrom self answer.now result }
    {
        match (self, answer) {
            (End::Spent { drawn }, _) => End::Spent { drawn },
            (_, Err(PlayStop::Spent { drawn })) => End::Spent { drawn: *drawn },
            (End::NoMemory, _) | (_, Err(PlayStop::NoMemory)) => End::NoMemory,
            (End::GaveUp, _) | (_, Err(_)) => End::GaveUp,
            (End::ClusterModel, Ok(())) => End::ClusterModel,
        }
    }
}

/// Settles what the actors have logged, unless one of them met the end of its ticks or of memory.
pub(crate) fn finish<R: Wait>(
    rt: &R,
    alloc: Global,
    script: &Script,
    split: Split,
    played: Vec<Job>,
) -> Result<Cluster, SplitStop>
    requires plan { split.plan ≡ planned_by script.now }
    requires all { split.seats ≡ length (actors_of (data_of script.now)) }
    requires played { AllZip (IsPlayedOf split.id script.now.lines.items) (actors_of (data_of script.now)) played.items }
    ensures { Splits (data_of script.now) result }
{
    match end_of(&played) {
        End::ClusterModel => settle_whole(alloc, script, split, played),
        End::GaveUp => settle_torn(rt, alloc, script, split, played),
        End::NoMemory => Err(SplitStop::NoMemory),
        End::Spent { drawn } => Err(SplitStop::Spent { drawn }),
    }
}

// How all actors together have ended.
fn end_of(played: &[Job]) -> End
    ensures whole { result ≡ End.ClusterModel → All (λ p. IsThrough p.answer) played.now }
    ensures spent { IsSpentBy played.now result }
{
    let mut end = End::ClusterModel;
    for one in played {
        end = end.then(&one.answer);
    }
    end
}

// Where each actor came to the end of its lines, its log follows them.
fn settle_whole(
    alloc: Global,
    script: &Script,
    split: Split,
    played: Vec<Job>,
) -> Result<Cluster, SplitStop>
    requires plan { split.plan ≡ planned_by script.now }
    requires all { split.seats ≡ length (actors_of (data_of script.now)) }
    requires played { AllZip (IsPlayedOf split.id script.now.lines.items) (actors_of (data_of script.now)) played.items }
    requires whole { All (λ p. IsThrough p.answer) played.items }
    ensures { Splits (data_of script.now) result }
{
    let seats = seats_of(alloc, played)?;
    settle(alloc, split, seats)
}

// Where an actor gave up, parts did not agree, and the logs do not settle. Else nobody is there who goes on with its lines.
fn settle_torn<R: Wait>(
    rt: &R,
    alloc: Global,
    script: &Script,
    split: Split,
    played: Vec<Job>,
) -> Result<Cluster, SplitStop>
    requires plan { split.plan ≡ planned_by script.now }
    requires all { split.seats ≡ length (actors_of (data_of script.now)) }
    requires played { AllZip (IsPlayedOf split.id script.now.lines.items) (actors_of (data_of script.now)) played.items }
    ensures { Splits (data_of script.now) result }
{
    let seats = seats_of(alloc, played)?;
    let settled = settle(alloc, split, seats);
    give_up(rt, &settled)
}

#[tactic(auto, using(crate::proofs::SettleLemmas::splits_not))]
fn give_up<R: Wait>(rt: &R, settled: &Result<Cluster, SplitStop>) -> Result<Cluster, SplitStop>
    ensures { (script plan : ScriptData) (logs : List Logged) → plan ≡ without_lines script → AreLogs script logs → SettlesBy plan (logs_of logs) settled.now → Splits script result }
{
    match settled {
        Ok(_) => wait_for_ever(rt),
        Err(stop) => Err(*stop),
    }
}

/// Nobody is there who goes on.
pub(crate) fn wait_for_ever<R: Wait>(rt: &R) -> Result<Cluster, SplitStop>
    ensures splits { (script : ScriptData) → Splits script result }
    ensures waited { IfOk result (λ cluster. Waited cluster.history) }
{
    let parker = Parker::new();
    for _ in rt.forever() {
        parker.park(rt);
    }
    unreachable!()
}

fn seats_of(alloc: Global, played: Vec<Job>) -> Result<Vec<ActorSeat>, NoMemory>
    ensures { IfOk result (λ seats. seats.items ≡ map (λ p. p.seat) played.items) }
{
    let mut seats = Vec::with_capacity(alloc, played.len())?;
    for one in played {
        seats.push_reserved(one.seat);
    }
    Ok(seats)
}

/// Settles logs of which none is missing.
pub(crate) fn settle(
    alloc: Global,
    split: Split,
    seats: Vec<ActorSeat>,
) -> Result<Cluster, SplitStop>
    requires word { All (λ s. s.word ≡ split.id) seats.items }
    requires all { length seats.items ≡ split.seats }
    ensures { SettlesBy split.plan (logs_of seats.items) result }
{
    match split.settle(alloc, seats) {
        Ok(cluster) => Ok(cluster),
        Err(stop) => Err(why(&stop)),
    }
}

// All seats were handed in.
fn why(stop: &SettleStop) -> SplitStop
    requires { IsOfAll stop.now }
    ensures { (plan : ScriptData) (seats : ℕ) (logs : List Logged) → SettleStops plan seats logs stop.now → TearsBy plan (logs_of logs) result }
{
    match stop {
        SettleStop::Missing { .. } => unreachable!(),
        SettleStop::Torn {
            tick,
            kept,
            replayed,
        } => SplitStop::Torn {
            tick: *tick,
            kept: *kept,
            replayed: *replayed,
        },
        SettleStop::NoMemory => SplitStop::NoMemory,
    }
}
