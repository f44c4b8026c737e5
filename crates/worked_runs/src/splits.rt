// Scripts over split stores whose lines wait for each other by names, so that threads have one order to carry them out in: that of
// the file.
use std::alloc::{AllocError, Global};
use std::sync::Wait;
use std::test::Fail;
use std::thread::Threads;
use worked_rows::{answer_of, answers};
use worked_texts::READ_BEHIND;

const RUN_SPLIT: &[&str] = &["run", "split"];

/// A commit that is collected, and nothing left to finish.
const COLLECTED: &str = "\
a take
a post p1
s0 await p1
s0 begin a
s0 write k0 v
s0 submit a
s0 collect
s0 finish
";

/// A session that aborts erases what it wrote.
const ABORTED: &str = "\
a take
a post p
s0 await p
s0 begin a
s0 write k0 v
s0 abort
";

/// The put of a commit fails, and the session places it by itself.
const PUT_FAULTED: &str = "\
fault table 1 unchanged
a take
a post p
s0 await p
s0 begin a
s0 write k0 v
s0 commit a
";

/// A node serves a commit line by line, and another session heals a cell that it finds.
const HEALED: &str = "\
a take
a post p
s0 await p
s0 begin a
s0 write k0 v
s0 ask-commit a
s0 post q
a await q
a accept s0
a decide s0
a put s0
a answer s0
a post r
s1 await r
s1 begin a
s1 read k0
s1 heal
";

/// The node's clock runs ahead.
const AHEAD: &str = "\
skew 3
lead a 2
a take
";

/// Each request needs a range of its own.
const SMALL_RANGE: &str = "\
range 1
a take
a post p
s0 await p
s0 begin a
s0 write k0 v
s0 commit a
";

/// A sweep finds what a session that vanished has left.
const SWEPT: &str = "\
a take
a post p
s0 await p
s0 begin a
s0 write k0 v
s0 vanish
s0 post q
a await q
a crash
a post r
clock await r
clock tick 20
clock post t
a await t
a take
a post u
janitor await u
janitor sweep a 1
";

/// The second node serves, at a later time.
const SECOND_NODE: &str = "\
a take
a post p
clock await p
clock tick 20
clock post t
b await t
b take
b post u
s0 await u
s0 begin b
s0 write k0 v
s0 commit b
";

/// A session places its commit by itself: in one line, and by two.
const DIRECT: &str = "\
commits direct
a take
a post p
s0 await p
s0 begin a
s0 write k0 v
s0 commit a
s0 begin a
s0 write k1 w
s0 submit a
s0 collect
";

/// A shadow is not set, and a session remembers what became of the version when it reads it once more.
const REMEMBERED: &str = "\
cache 2
fault cells 2 unchanged
a take
a post p
s0 await p
s0 begin a
s0 write k0 v
s0 commit a
s0 post q
s1 await q
s1 begin a
s1 read k0
s1 read k0
";

/// Two sessions write what the other has read, and one of them is refused.
const STRICT: &str = "\
reads strict
a take
a post p
s0 await p
s0 begin a
s0 read k0
s0 write k1 v
s0 post q
s1 await q
s1 begin a
s1 read k1
s1 write k0 v
s1 commit a
s1 post r
s0 await r
s0 commit a
";

/// The first node is asked before any has led, then the node that leads, and then the node that took over.
const LED: &str = "\
s0 begin master
s0 post o
a await o
a take
a post p
s0 await p
s0 begin master
s0 write k0 v
s0 commit master
s0 post q
a await q
a crash
a post r
clock await r
clock tick 20
clock post t
b await t
b take
b post u
s0 await u
s0 begin master
s0 write k0 w
s0 submit master
s0 collect
";

/// In each of them names leave one order of the lines.
const IN_ONE_ORDER: [&str; 11] = [
    ABORTED,
    PUT_FAULTED,
    HEALED,
    AHEAD,
    SMALL_RANGE,
    SWEPT,
    SECOND_NODE,
    DIRECT,
    REMEMBERED,
    STRICT,
    LED,
];

/// Whether the script comes to one history over split stores and in file order.
fn is_one<R: Threads + Wait + Sync>(
    rt: &R,
    alloc: Global,
    script: &str,
) -> Result<bool, AllocError> {
    let (replayed, _) = answer_of(rt, alloc, &["replay"], script.as_bytes())?;
    answers(rt, alloc, RUN_SPLIT, script.as_bytes(), &replayed, 0)
}

#[test]
fn a_commit_is_read_over_split_stores(rt: HostRuntime) -> Result<(), Fail> {
    assert!(rt; is_one(&rt, rt.alloc(), READ_BEHIND)?);
    Ok(())
}

#[test]
fn a_commit_is_collected_over_split_stores(rt: HostRuntime) -> Result<(), Fail> {
    assert!(rt; is_one(&rt, rt.alloc(), COLLECTED)?);
    let (written, _) = answer_of(&rt, rt.alloc(), RUN_SPLIT, COLLECTED.as_bytes())?;
    assert!(rt; written.as_slice().ends_with("refused s0 idle\n".as_bytes()));
    Ok(())
}

#[test]
fn each_form_of_line_is_carried_out_over_split_stores(rt: HostRuntime) -> Result<(), Fail> {
    for script in IN_ONE_ORDER {
        assert!(rt; is_one(&rt, rt.alloc(), script)?);
    }
    Ok(())
}
