// The threads of actors: each gets the job of its actor, and gives it back when it ends.
ghost use Rattle.std.specs.Prelude.{◌≡◌, ◌≤◌, All, IfOk, IsTrue, map, vec_len};
ghost use Rattle.std.specs.List.{AllZip};
ghost use Rattle.std.specs.Vec.{vec_capacity};
ghost use Rattle.stamp_base.specs.declared.limits.TheConstants.{LINE_LIMIT};
ghost use Rattle.split_stores.specs.Logs.{IsNew};
ghost use Rattle.split_driver.specs.Runs.{RiseInBounds};
ghost use Rattle.split_driver.specs.Actors.{GivesBack, IsPlayedBy, task};

use crate::jobs::Job;
use crate::playing::play_lines;
use crate::posting::Posting;
use session_script::Script;
use split_stores::{PartGate, Split};
use stamp_base::NoMemory;
use std::alloc::Global;
use std::marker::Model;
use std::snapshot::Snapshot;
use std::sync::Wait;
use std::thread::{Promise, PromisedHandle, Scope, Threads};

/// The promise of an actor's thread: it gives back the job that it was given, with what the script's lines made of it.
#[derive(Drop)]
pub(crate) struct Plays {
    job: Snapshot<Job>,
    script: Snapshot<Script>,
}

impl Promise<Job> for Plays {
    ghost use Rattle.split_driver.specs.Actors.{IsPlayedBy};

    ghost kept_by = { λ p played. IsPlayedBy p.script.value.lines.items p.job.value played };
}

/// The thread of an actor. Contracts see the job that it was given, and the script's lines.
#[derive(Drop)]
pub(crate) struct ActorThread {
    handle: PromisedHandle<Job, Plays>,
}

impl Model for ActorThread {
    ghost use Rattle.split_driver.specs.Actors.{Task};

    ghost Value = { Task };

    ghost view = { λ t. record { job = t.handle.promise.job.value; lines = t.handle.promise.script.value.lines.items } };
}

impl ActorThread {
    fn of(handle: PromisedHandle<Job, Plays>) -> ActorThread
        ensures { result ≡ task handle.promise.script.value.lines.items handle.promise.job.value }
    {
        ActorThread { handle }
    }

    /// The job, once the thread has ended.
    fn join<R: Threads>(self, rt: &R) -> Job
        ensures { GivesBack self result }
    {
        self.handle.join(rt)
    }
}

/// The threads that were started, and whether that is all of them.
#[derive(Drop)]
pub(crate) struct Started {
    pub(crate) threads: Vec<ActorThread>,
    pub(crate) all: bool,
}

/// Starts the thread of each actor, up to the first that is refused.
pub(crate) fn start_all<'s, E: 's, R: Wait + Sync + 's, G: PartGate + 's>(
    scope: &Scope<'s, E>,
    rt: &'s R,
    alloc: Global,
    split: &'s Split,
    posting: &'s Posting,
    script: &'s Script,
    gate: &'s G,
    jobs: Vec<Job>,
    threads: Vec<ActorThread>,
) -> Started
    requires jobs { All (λ job. IsNew split.now.id job.seat) jobs.items }
    requires few { vec_len script.now.lines ≤ LINE_LIMIT }
    requires ticks { RiseInBounds script.now.lines.items }
    requires none { vec_len threads ≡ 0 }
    requires room { vec_len jobs ≤ vec_capacity threads }
    ensures all { IsTrue result.all → result.threads.items ≡ map (task script.now.lines.items) jobs.items }
    ensures few { vec_len result.threads ≤ vec_len jobs }
{
    let mut threads = threads;
    for job in jobs {
        match start(scope, rt, alloc, split, posting, script, gate, job) {
            Ok(thread) => threads.push_reserved(thread),
            Err(NoMemory) => {
                return Started {
                    threads,
                    all: false,
                };
            }
        }
    }
    Started { threads, all: true }
}

// Where the thread is refused nobody waits any more, since nobody would post what this actor posts.
fn start<'s, E: 's, R: Wait + Sync + 's, G: PartGate + 's>(
    scope: &Scope<'s, E>,
    rt: &'s R,
    alloc: Global,
    split: &'s Split,
    posting: &'s Posting,
    script: &'s Script,
    gate: &'s G,
    job: Job,
) -> Result<ActorThread, NoMemory>
    requires job { IsNew split.now.id job.seat }
    requires few { vec_len script.now.lines ≤ LINE_LIMIT }
    requires ticks { RiseInBounds script.now.lines.items }
    ensures { IfOk result (λ thread. thread ≡ task script.now.lines.items job) }
{
    if gate.may_start_thread() {
        let promise = Plays {
            job: Snapshot::of(&job),
            script: Snapshot::of(script),
        };
        let started = scope.spawn_with(
            promise,
            move || -> Job
                requires { IsNew split.now.id job.seat × (vec_len script.now.lines ≤ LINE_LIMIT) × RiseInBounds script.now.lines.items }
                ensures { IsPlayedBy script.entry.now.lines.items job result }
            { play(rt, alloc, split, posting, script, gate, job) },
        );
        if let Ok(handle) = started {
            return Ok(ActorThread::of(handle));
        }
    }
    posting.close(rt);
    Err(NoMemory)
}

// What the thread of an actor does.
fn play<R: Wait, G: PartGate>(
    rt: &R,
    alloc: Global,
    split: &Split,
    posting: &Posting,
    script: &Script,
    gate: &G,
    job: Job,
) -> Job
    requires new { IsNew split.now.id job.seat }
    requires few { vec_len script.now.lines ≤ LINE_LIMIT }
    requires ticks { RiseInBounds script.now.lines.items }
    ensures { IsPlayedBy script.now.lines.items job result }
{
    let mut job = job;
    job.answer = play_lines(
        rt,
        alloc,
        split,
        posting,
        &mut job.seat,
        job.actor,
        script.lines.as_slice(),
        gate,
    );
    job.seat.rises();
    job
}

/// Waits for all of them, and puts the jobs in their order.
#[tactic(auto, using(std::proofs::lemmas::Slice::Zip::all_zipped_more))]
pub(crate) fn join_all<R: Threads>(rt: &R, threads: Vec<ActorThread>, played: Vec<Job>) -> Vec<Job>
    requires none { vec_len played ≡ 0 }
    requires room { vec_len threads ≤ vec_capacity played }
    ensures { AllZip GivesBack threads.items result.items }
{
    let mut played = played;
    for thread in threads {
        played.push_reserved(thread.join(rt));
    }
    played
}
