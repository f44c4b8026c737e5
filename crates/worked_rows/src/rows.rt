// What a replay writes for a script, byte for byte, and that it is isolated, and serial where reads are strict.
use crate::calls::is_carried_out;
use crate::told::first_untold;
use std::alloc::{AllocError, Global};
use std::sync::Wait;
use std::test::Fail;
use std::thread::Threads;
use worked_texts::{
    Replay, commits, conflicts, direct, direct_faults, examples, leases, many_keys, masters,
    outcomes, refusals, remembered, strict, takeovers, threads,
};

/// How many topics the worked examples have.
pub const TOPICS: usize = 14;

/// How many each topic has.
const COUNTS: [usize; TOPICS] = [10, 5, 1, 4, 8, 6, 9, 8, 7, 4, 4, 15, 6, 7];

/// The worked examples of a topic.
pub fn topic(number: usize) -> &'static [Replay] {
    match number {
        0 => commits::replays(),
        1 => conflicts::replays(),
        2 => many_keys::replays(),
        3 => strict::replays(),
        4 => takeovers::replays(),
        5 => leases::replays(),
        6 => outcomes::replays(),
        7 => refusals::replays(),
        8 => examples::replays(),
        9 => remembered::replays(),
        10 => direct::replays(),
        11 => direct_faults::replays(),
        12 => masters::replays(),
        _ => threads::replays(),
    }
}

const REPLAY: &[&str] = &["replay"];

const AUDIT: &[&str] = &["audit"];

const STRICT_AUDIT: &[&str] = &["audit", "strict"];

/// Setup lines in front of the examples of takeovers, and the audit that their histories pass.
static FORMS: [(&str, &[&str]); 5] = [
    ("commits direct\n", AUDIT),
    ("commits direct\ncache 2\n", AUDIT),
    ("cache 2\nreads strict\n", STRICT_AUDIT),
    ("commits direct\nreads strict\n", STRICT_AUDIT),
    ("commits direct\ncache 2\nreads strict\n", STRICT_AUDIT),
];

/// The same in front of the examples of direct commits, which have their own line.
static FORMS_OF_DIRECT: [(&str, &[&str]); 3] = [
    ("cache 2\n", AUDIT),
    ("reads strict\n", STRICT_AUDIT),
    ("cache 2\nreads strict\n", STRICT_AUDIT),
];

// Behind functions, a proof that goes over the forms does not look into their texts.

fn forms() -> &'static [(&'static str, &'static [&'static str])] {
    &FORMS
}

fn forms_of_direct() -> &'static [(&'static str, &'static [&'static str])] {
    &FORMS_OF_DIRECT
}

/// The name of the first example whose script, behind this setup, is not replayed to a history that passes the audit. None where
/// each is.
fn first_failing<R: Threads + Wait + Sync>(
    rt: &R,
    alloc: Global,
    setup: &str,
    replays: &[Replay],
    audit: &[&str],
) -> Result<Option<&'static str>, AllocError> {
    for replay in replays {
        if !is_carried_out(rt, alloc, REPLAY, setup, replay.script, audit)? {
            return Ok(Some(replay.name));
        }
    }
    Ok(None)
}

#[test]
fn each_script_is_replayed(rt: HostRuntime) -> Result<(), Fail> {
    for number in 0..TOPICS {
        let replays = topic(number);
        assert_eq!(rt; replays.len(), COUNTS[number]);
        assert_eq!(rt; first_untold(&rt, rt.alloc(), REPLAY, replays)?, None);
        assert_eq!(rt; first_failing(&rt, rt.alloc(), "", replays, AUDIT)?, None);
    }
    Ok(())
}

#[test]
fn strict_histories_are_serial(rt: HostRuntime) -> Result<(), Fail> {
    let replays = strict::replays();
    assert_eq!(rt;
        first_failing(&rt, rt.alloc(), "", replays, STRICT_AUDIT)?,
        None
    );
    Ok(())
}

#[test]
fn takeovers_pass_in_each_form(rt: HostRuntime) -> Result<(), Fail> {
    for (setup, audit) in forms() {
        for replays in [takeovers::replays(), leases::replays()] {
            assert_eq!(rt;
                first_failing(&rt, rt.alloc(), setup, replays, audit)?,
                None
            );
        }
    }
    Ok(())
}

#[test]
fn direct_commits_pass_in_each_form(rt: HostRuntime) -> Result<(), Fail> {
    for (setup, audit) in forms_of_direct() {
        for replays in [direct::replays(), direct_faults::replays()] {
            assert_eq!(rt;
                first_failing(&rt, rt.alloc(), setup, replays, audit)?,
                None
            );
        }
    }
    Ok(())
}
