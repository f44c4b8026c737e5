// Runs in which threads can't be made: what they would have done is done by the thread that waits for them.
use std::alloc::{AllocError, Global};
use std::sync::Wait;
use std::sync::atomic::{AtomicU64, Ordering};
use std::test::Fail;
use std::thread::Threads;
use worked_rows::{Gate, GatePlace, call, is_isolated, open_sink, open_source};

/// An always open gate that refuses the threads from this number on, so many of them; they are counted from 1.
#[derive(Drop)]
struct RefusingGate {
    from: u64,
    count: u64,
    asked: AtomicU64,
}

impl RefusingGate {
    fn new(from: u64, count: u64) -> RefusingGate {
        RefusingGate {
            from,
            count,
            asked: AtomicU64::new(0),
        }
    }
}

impl Gate for RefusingGate {
    fn pass<R: Wait>(&self, _rt: &R, _place: GatePlace) {}

    fn may_start_thread(&self) -> bool {
        let number = self.asked.fetch_add(1, Ordering::SeqCst).wrapping_add(1);
        number < self.from || number - self.from >= self.count
    }
}

/// Two nodes with three stages each, and three actors, have so many threads.
const THREADS: u64 = 9;

/// More than all.
const ALL: u64 = 100;

/// The last line of a session asks for a begin.
const LAST_BEGIN: &str = "\
a take
a post taken
s0 await taken
s0 begin a
s1 await taken
s1 begin a
";

/// The last line of a session submits a commit.
const LAST_SUBMIT: &str = "\
a take
a post taken
s0 await taken
s0 begin a
s0 write k0 v
s0 submit a
s1 await taken
s1 begin a
";

/// A node awaits what a session posts, whose thread is started behind its own.
const AWAITED: &str = "\
a take
a post taken
s0 await taken
s0 begin a
s0 post begun
a await begun
a renew
s1 await begun
s1 begin a
";

/// Whether the script is carried out to its end where the gate refuses these threads.
fn ends<R: Threads + Wait + Sync>(
    rt: &R,
    alloc: Global,
    script: &str,
    from: u64,
    count: u64,
) -> Result<bool, AllocError> {
    let mut source = open_source(alloc, script.as_bytes(), &[])?;
    let mut sink = open_sink(alloc, 4096, &[])?;
    let gate = RefusingGate::new(from, count);
    let status = call(rt, alloc, &["run"], &mut source, &mut sink, &gate)?;
    Ok(status == 0 && is_isolated(rt, alloc, sink.bytes())?)
}

/// Whether it is where any one of the threads is refused, and where all are.
fn ends_always<R: Threads + Wait + Sync>(
    rt: &R,
    alloc: Global,
    script: &str,
) -> Result<bool, AllocError> {
    for number in 1..=THREADS {
        if !ends(rt, alloc, script, number, 1)? {
            return Ok(false);
        }
    }
    ends(rt, alloc, script, 1, ALL)
}

#[test]
fn a_last_begin_is_answered(rt: HostRuntime) -> Result<(), Fail> {
    assert!(rt; ends_always(&rt, rt.alloc(), LAST_BEGIN)?);
    Ok(())
}

#[test]
fn a_last_commit_is_placed(rt: HostRuntime) -> Result<(), Fail> {
    assert!(rt; ends_always(&rt, rt.alloc(), LAST_SUBMIT)?);
    Ok(())
}

#[test]
fn an_awaited_name_is_posted(rt: HostRuntime) -> Result<(), Fail> {
    assert!(rt; ends_always(&rt, rt.alloc(), AWAITED)?);
    Ok(())
}
