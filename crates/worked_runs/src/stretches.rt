// Scripts carried out on threads at a gate that stands open, where sessions serve what they ask themselves.
use crate::stuck::stuck;
use crate::threads::scripts;
use std::alloc::{AllocError, Global};
use std::sync::Wait;
use std::test::Fail;
use std::thread::Threads;
use worked_rows::{Gate, GatePlace, call, is_isolated, joined, open_sink, open_source};

/// So many bytes are enough for each history.
const ROOM: usize = 1 << 16;

/// A gate that no step need wait for.
struct StandingGate;

impl Gate for StandingGate {
    fn pass<R: Wait>(&self, _rt: &R, _place: GatePlace) {}

    fn stands_open(&self) -> bool {
        true
    }
}

/// Whether the script behind this setup is carried out so, and what comes of it is isolated.
fn is_run<R: Threads + Wait + Sync>(
    rt: &R,
    alloc: Global,
    setup: &str,
    script: &str,
) -> Result<bool, AllocError> {
    let whole = joined(alloc, &[setup, script])?;
    let mut source = open_source(alloc, &whole, &[])?;
    let mut sink = open_sink(alloc, ROOM, &[])?;
    let status = call(rt, alloc, &["run"], &mut source, &mut sink, &StandingGate)?;
    Ok(status == 0 && is_isolated(rt, alloc, sink.bytes())?)
}

#[test]
fn what_sessions_serve_themselves_is_isolated(rt: HostRuntime) -> Result<(), Fail> {
    for script in &scripts(rt.alloc())? {
        for _again in 0..10 {
            assert!(rt; is_run(&rt, rt.alloc(), "", script)?, "{script}");
        }
    }
    Ok(())
}

#[test]
fn what_sessions_place_themselves_is_isolated(rt: HostRuntime) -> Result<(), Fail> {
    let setup = "commits direct\n";
    for script in &scripts(rt.alloc())? {
        assert!(rt; is_run(&rt, rt.alloc(), setup, script)?, "{script}");
    }
    Ok(())
}

/// What once waited for ever ends so too, however often it is run.
#[test]
fn what_once_stuck_ends_where_sessions_serve(rt: HostRuntime) -> Result<(), Fail> {
    for script in &stuck(rt.alloc())? {
        for _again in 0..30 {
            assert!(rt; is_run(&rt, rt.alloc(), "", script)?, "{script}");
        }
    }
    Ok(())
}
