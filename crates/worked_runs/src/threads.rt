// Scripts carried out on threads: those with one order are carried out in that of the file, and whatever comes of the others is
// isolated.
use crate::stuck::stuck;
use stamp_base::{NodeNo, Stage};
use std::alloc::{AllocError, Global};
use std::sync::Wait;
use std::test::Fail;
use std::thread::Threads;
use worked_rows::{
    Gate, GatePlace, call, first_untold, is_carried_out, is_isolated, keeps_lines, open_sink,
    open_source, reads_nothing,
};
use worked_texts::commits::PLAIN_PATH;
use worked_texts::{Meeting, threads};

const RUN: &[&str] = &["run"];

#[test]
fn scripts_with_one_order_are_run_in_it(rt: HostRuntime) -> Result<(), Fail> {
    assert_eq!(rt;
        first_untold(&rt, rt.alloc(), RUN, threads::replays())?,
        None
    );
    Ok(())
}

/// Scripts that threads carry out in many orders.
static FREE: [&str; 8] = [
    PLAIN_PATH,
    "\
a take
s0 begin a
s0 write k0 v0
s0 commit a
s1 begin a
s1 read k0
s1 write k0 v1
s1 commit a
s2 begin a
s2 write k0 v2
s2 read k0
s2 commit a
",
    "\
workers 2
batch 1
a take
s0 begin a
s0 write k0 v
s0 commit a
clock tick 12
b take
s1 begin b
s1 read k0
s1 commit b
a crash
",
    "\
fault table 1 applied
fault cells 3 unchanged
a take
s0 begin a
s0 write k0 v
s0 write k1 w
s0 commit a
s0 finish
s1 begin a
s1 read k0
s1 read k1
",
    // A session vanishes with its commit in flight, and the janitor sweeps it up beside a reader.
    "\
a take
s0 begin a
s0 write k0 v
s0 write k1 w
s0 post written
s0 submit a
s0 vanish
s0 post gone
janitor await gone
janitor sweep a 1
janitor sweep a 2
s1 await written
s1 begin a
s1 read k1
s1 read k0
s1 commit a
",
    // The same over a crash and a takeover, with faults on every store.
    "\
fault cells 4 applied
fault table 2 unchanged
fault master 2 unchanged
a take
a renew
s0 begin a
s0 write k0 v
s0 write k1 w
s0 submit a
s0 vanish
s0 post gone
a await gone
a crash
a post crashed
clock await crashed
clock tick 12
clock post late
b await late
b take
b renew
b post taken
janitor await taken
janitor sweep b 1
s1 await taken
s1 begin b
s1 read k0
s1 read k1
s1 write k1 x
s1 commit b
",
    // A request that is drawn is answered, though the request stage is held meanwhile.
    "\
a take
a post t
s0 await t
s0 begin a
s0 write k0 v
s0 submit a
s0 post drawn
a await drawn
a hold request
a post held
s0 await held
s1 await held
s0 collect
s0 post done
s1 begin a
a await done
a free request
",
    "\
nodes 3
a take
s0 begin master
s0 write k0 v0
s0 commit master
clock tick 12
b take
s1 begin master
s1 read k0
s1 write k1 v1
s1 commit master
clock tick 24
c take
a crash
s2 begin master
s2 write k0 v2
s2 submit master
s2 collect
",
];

/// Behind a function, a proof that goes over the scripts does not look into their texts.
fn free() -> &'static [&'static str] {
    &FREE
}

/// All of these, and those that once stuck.
pub fn scripts(alloc: Global) -> Result<Vec<String>, AllocError> {
    let mut scripts = stuck(alloc)?;
    for script in free() {
        scripts.push(script.to_string(alloc)?)?;
    }
    Ok(scripts)
}

/// Whether the script behind this setup is carried out on threads, and what they made is isolated.
fn is_run<R: Threads + Wait + Sync>(
    rt: &R,
    alloc: Global,
    setup: &str,
    script: &str,
) -> Result<bool, AllocError> {
    is_carried_out(rt, alloc, RUN, setup, &[script], &["audit"])
}

#[test]
fn whatever_threads_make_is_isolated(rt: HostRuntime) -> Result<(), Fail> {
    for script in &scripts(rt.alloc())? {
        assert!(rt; is_run(&rt, rt.alloc(), "", script)?, "{script}");
    }
    Ok(())
}

#[test]
fn whatever_threads_make_of_direct_commits_is_isolated(rt: HostRuntime) -> Result<(), Fail> {
    let setup = "commits direct\n";
    for script in &scripts(rt.alloc())? {
        assert!(rt; is_run(&rt, rt.alloc(), setup, script)?, "{script}");
    }
    Ok(())
}

/// What once waited for ever ends now, however often it is run.
#[test]
fn what_once_stuck_ends_a_hundred_times(rt: HostRuntime) -> Result<(), Fail> {
    for script in &stuck(rt.alloc())? {
        for _again in 0..100 {
            assert!(rt; is_run(&rt, rt.alloc(), "", script)?, "{script}");
        }
    }
    Ok(())
}

/// A clock that ticks, so that there is no order to choose.
const TICKS: &str = "clock tick 12\nclock tick 13\n";

const TICKED: &str = "tick 12\ntick 13\n";

#[test]
fn a_source_that_fails_ends_a_run(rt: HostRuntime) -> Result<(), Fail> {
    assert!(rt; reads_nothing(&rt, rt.alloc(), RUN, TICKS, 1)?);
    Ok(())
}

#[test]
fn a_sink_that_fails_ends_a_run(rt: HostRuntime) -> Result<(), Fail> {
    for sent in 0..2 {
        assert!(rt; keeps_lines(&rt, rt.alloc(), RUN, TICKS, TICKED, sent)?);
    }
    Ok(())
}

/// A gate at which the persist stage of one node and the reply stage of another meet.
#[derive(Drop)]
struct MeetingGate {
    meeting: Meeting,
}

impl Gate for MeetingGate {
    fn pass<R: Wait>(&self, _rt: &R, place: GatePlace) {
        if place.node == NodeNo::FIRST && place.stage == Stage::Persist {
            self.meeting.meet_from_left();
        } else if place.node != NodeNo::FIRST && place.stage == Stage::Reply {
            self.meeting.meet_from_right();
        }
    }
}

/// A commit at one node, and a begin at another that takes over beside it.
const MEETING: &str = "\
a take
a post p1
s0 await p1
s0 begin a
s0 write k0 v
s0 post p2
a await p2
a post p3
s0 await p3
s0 submit a
s0 post p4
s0 collect
clock await p4
clock tick 12
clock post p5
b await p5
b take
b post p6
s1 await p6
s1 begin b
s1 read k0
";

/// No single thread passes this gate: a stage of each node is at work at the same time.
#[test]
fn two_stages_meet(rt: HostRuntime) -> Result<(), Fail> {
    let mut source = open_source(rt.alloc(), MEETING.as_bytes(), &[])?;
    let mut sink = open_sink(rt.alloc(), 4096, &[])?;
    let gate = MeetingGate {
        meeting: Meeting::new(),
    };
    let status = call(&rt, rt.alloc(), RUN, &mut source, &mut sink, &gate)?;
    assert_eq!(rt; status, 0);
    assert!(rt; gate.meeting.have_met());
    assert!(rt; is_isolated(&rt, rt.alloc(), sink.bytes())?);
    Ok(())
}
