// The actors of a script, each on a thread of its own.
ghost use Rattle.std.specs.Prelude.{◌≡◌, ◌≤◌, All, IfOk, vec_len};
ghost use Rattle.std.specs.List.{AllZip};
ghost use Rattle.std.specs.Vec.{vec_capacity};
ghost use Rattle.stamp_base.specs.declared.limits.TheConstants.{LINE_LIMIT};
ghost use Rattle.split_stores.specs.Logs.{IsNew};
ghost use Rattle.split_driver.specs.Runs.{RiseInBounds};
ghost use Rattle.split_driver.specs.Actors.{IsJobOf, IsPlayedBy};

use crate::play_stop::PlayStop;
use crate::posting::Posting;
use crate::threads::{join_all, start_all};
use history_book::Actor;
use session_script::Script;
use split_stores::{ActorSeat, PartGate, Split};
use stamp_base::NoMemory;
use std::alloc::Global;
use std::sync::Wait;
use std::thread;
use std::thread::Threads;

/// An actor with its log, and, once it has ended, why it ended before its lines did, if so.
#[derive(Drop)]
pub(crate) struct Job {
    pub(crate) actor: Actor,
    pub(crate) seat: ActorSeat,
    pub(crate) answer: Result<(), PlayStop>,
}

/// A seat for each actor.
pub(crate) fn jobs_of(
    alloc: Global,
    split: &Split,
    actors: Vec<Actor>,
    seats: Vec<ActorSeat>,
) -> Result<Vec<Job>, NoMemory>
    requires paired { vec_len seats ≡ vec_len actors }
    requires seats { All (IsNew split.now.id) seats.items }
    ensures { IfOk result (λ jobs. AllZip (IsJobOf split.now.id) actors.items jobs.items) }
{
    let mut jobs = Vec::with_capacity(alloc, actors.len())?;
    let mut seats = seats;
    for actor in actors {
        // There is a seat for each actor.
        if let Some(seat) = seats.pop() {
            jobs.push_reserved(Job {
                actor,
                seat,
                answer: Ok(()),
            });
        }
    }
    Ok(jobs)
}

/// Each actor carries out its lines on a thread of its own, and nothing is carried out on this one. Where a thread cannot be made,
/// or the gate refuses it, no further one is started and those that run are joined: an actor that was left out would be waited for.
pub(crate) fn play_all<R: Threads + Wait + Sync, G: PartGate>(
    rt: &R,
    alloc: Global,
    split: &Split,
    script: &Script,
    jobs: Vec<Job>,
    gate: &G,
) -> Result<Vec<Job>, NoMemory>
    requires jobs { All (λ job. IsNew split.now.id job.seat) jobs.items }
    requires few { vec_len script.now.lines ≤ LINE_LIMIT }
    requires ticks { RiseInBounds script.now.lines.items }
    ensures { IfOk result (λ played. AllZip (IsPlayedBy script.now.lines.items) jobs.items played.items) }
{
    let posting = Posting::new();
    run_all(rt, alloc, split, &posting, script, jobs, gate)
}

// The room for all threads and for what they give back is made before the first starts.
fn run_all<R: Threads + Wait + Sync, G: PartGate>(
    rt: &R,
    alloc: Global,
    split: &Split,
    posting: &Posting,
    script: &Script,
    jobs: Vec<Job>,
    gate: &G,
) -> Result<Vec<Job>, NoMemory>
    requires jobs { All (λ job. IsNew split.now.id job.seat) jobs.items }
    requires few { vec_len script.now.lines ≤ LINE_LIMIT }
    requires ticks { RiseInBounds script.now.lines.items }
    ensures { IfOk result (λ played. AllZip (IsPlayedBy script.now.lines.items) jobs.items played.items) }
{
    let threads = Vec::with_capacity(alloc, jobs.len())?;
    let played = Vec::with_capacity(alloc, jobs.len())?;
    thread::scope(
        thread::scope_env(),
        rt,
        move |scope| -> Result<Vec<Job>, NoMemory>
            requires { All (λ job. IsNew split.now.id job.seat) jobs.items × (vec_len script.now.lines ≤ LINE_LIMIT) × RiseInBounds script.now.lines.items
                × (vec_len threads ≡ 0) × (vec_len jobs ≤ vec_capacity threads) × (vec_len played ≡ 0) × (vec_len jobs ≤ vec_capacity played) }
            ensures { IfOk result (λ played. AllZip (IsPlayedBy script.entry.now.lines.items) jobs.items played.items) }
        {
            let started = start_all(
                scope, rt, alloc, split, posting, script, gate, jobs, threads,
            );
            let played = join_all(rt, started.threads, played);
            if started.all {
                Ok(played)
            } else {
                Err(NoMemory)
            }
        },
    )
}
