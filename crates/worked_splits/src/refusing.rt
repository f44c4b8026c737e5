// Runs in which the thread of an actor is refused: each ends, for want of memory.
ghost use Rattle.std.specs.Prelude.{◌≤◌, vec_len};
ghost use Rattle.stamp_base.specs.declared.limits.TheConstants.{LINE_LIMIT};
ghost use Rattle.session_script.specs.Script.{data_of};
ghost use Rattle.split_driver.specs.Splits.{MaySplit};

use crate::reading::read;
use cluster_core::Cluster;
use session_script::Script;
use split_driver::{SplitStop, run_split};
use split_stores::{Event, OpenPartGate, PartGate};
use std::alloc::Global;
use std::sync::Wait;
use std::sync::atomic::{AtomicU64, Ordering};
use std::test::Fail;
use std::thread::Threads;

/// A gate that refuses one thread, that which is asked for behind so many others.
#[derive(Drop)]
struct RefusingGate {
    refused: u64,
    asked: AtomicU64,
}

impl RefusingGate {
    fn new(refused: u64) -> RefusingGate {
        RefusingGate {
            refused,
            asked: AtomicU64::new(0),
        }
    }

    /// How many threads were asked for.
    fn asked(&self) -> u64 {
        self.asked.load(Ordering::SeqCst)
    }
}

impl PartGate for RefusingGate {
    fn inside<R: Wait>(&self, _rt: &R, _event: &Event) {}

    fn may_start_thread(&self) -> bool {
        self.asked.fetch_add(1, Ordering::SeqCst) != self.refused
    }
}

/// Whether the run ends for want of memory where this thread is refused, and no further one is asked for.
fn stops_at<R: Threads + Wait + Sync>(rt: &R, alloc: Global, script: &Script, refused: u64) -> bool
    requires few { vec_len script.now.lines ≤ LINE_LIMIT }
    requires may_split { MaySplit (data_of script.now) }
{
    let gate = RefusingGate::new(refused);
    let split = run_split(rt, alloc, script, &gate);
    matches!(split, Err(SplitStop::NoMemory)) && gate.asked().checked_sub(refused) == Some(1)
}

fn have_one_history(left: &Result<Cluster, SplitStop>, right: &Result<Cluster, SplitStop>) -> bool {
    match (left, right) {
        (Ok(left), Ok(right)) => left.history() == right.history(),
        _ => false,
    }
}

/// Whether the run has the plain history where none of its threads is refused, of which there are so many.
fn is_plain_behind<R: Threads + Wait + Sync>(
    rt: &R,
    alloc: Global,
    script: &Script,
    threads: u64,
) -> bool
    requires few { vec_len script.now.lines ≤ LINE_LIMIT }
    requires may_split { MaySplit (data_of script.now) }
{
    let gate = RefusingGate::new(threads);
    let split = run_split(rt, alloc, script, &gate);
    let plain = run_split(rt, alloc, script, &OpenPartGate);
    have_one_history(&split, &plain) && gate.asked() == threads
}

/// Whether the run of the text ends so for each of its threads. False where it is no script.
fn ends<R: Threads + Wait + Sync>(rt: &R, alloc: Global, text: &str, threads: u64) -> bool {
    let Ok(script) = read(alloc, text) else {
        return false;
    };
    for refused in 0..threads {
        if !stops_at(rt, alloc, &script, refused) {
            return false;
        }
    }
    is_plain_behind(rt, alloc, &script, threads)
}

/// The first actor waits for a name of the second, and this one for a name of the first; the last line is a begin.
const LAST_BEGIN: &str = "\
s0 post p1
a await p1
a take
a post p2
s0 await p2
s0 begin a
";

#[test]
fn a_run_that_ends_with_a_begin_ends(rt: HostRuntime) -> Result<(), Fail> {
    assert!(rt; ends(&rt, rt.alloc(), LAST_BEGIN, 2));
    Ok(())
}

const LAST_SUBMIT: &str = "\
s0 post p1
a await p1
a take
a post p2
s0 await p2
s0 begin a
s0 write k0 v
s0 submit a
";

#[test]
fn a_run_that_ends_with_a_submit_ends(rt: HostRuntime) -> Result<(), Fail> {
    assert!(rt; ends(&rt, rt.alloc(), LAST_SUBMIT, 2));
    Ok(())
}

/// Each actor waits for a name that another posts.
const LAST_AWAIT: &str = "\
s1 post p1
a await p1
a take
a post p2
s0 await p2
s0 begin a
s0 post p3
s1 await p3
";

#[test]
fn a_run_that_ends_with_an_await_ends(rt: HostRuntime) -> Result<(), Fail> {
    assert!(rt; ends(&rt, rt.alloc(), LAST_AWAIT, 3));
    Ok(())
}
