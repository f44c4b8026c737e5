// What the program says of words that are no command, and of bytes that are no script.
use crate::calls::answers;
use crate::told::{Told, first_unlike};
use std::alloc::{AllocError, Global};
use std::test::Fail;
use worked_texts::commits::PLAIN_PATH;

pub const USAGE: &str =
    "usage: omid replay [summary|json|compact N] | run [split] | audit [strict] | storm N\n";

/// Words that are no command.
static NO_COMMANDS: [&[&str]; 35] = [
    &[],
    &["replay", "now"],
    &["audit", "now"],
    &["strict"],
    &["audit", "Strict"],
    &["audit", "strict", "strict"],
    &["replay", "strict"],
    &["Replay"],
    &["run", "now"],
    &["json"],
    &["replay", "JSON"],
    &["replay", "json", "summary"],
    &["summary"],
    &["replay", "Summary"],
    &["replay", "summary", "summary"],
    // Nearly a compaction.
    &["compact", "5"],
    &["replay", "compact"],
    &["replay", "compact", "0"],
    &["replay", "compact", "05"],
    &["replay", "compact", "+5"],
    &["replay", "compact", "4611686018427387905"],
    &["replay", "compact", "18446744073709551621"],
    &["replay", "compact", "5", "5"],
    &["replay", "Compact", "5"],
    // Nearly a storm.
    &["storm"],
    &["storm", ""],
    &["storm", "0"],
    &["storm", "01"],
    &["storm", "+1"],
    &["storm", "-1"],
    &["storm", " 1"],
    &["storm", "1x"],
    &["storm", "20001"],
    &["storm", "18446744073709551617"],
    &["storm", "1", "1"],
];

/// A script, and what is said of it.
static BAD_SCRIPTS: [Told; 31] = [
    ("a\0take\n", "script line 1: bad byte\n", 3),
    ("# one\n\na take\r\r\n", "script line 3: bad byte\n", 3),
    ("s16 begin a\n", "script line 1: unknown actor\n", 3),
    ("c take\n", "script line 1: unknown actor\n", 3),
    ("a fly\n", "script line 1: unknown verb\n", 3),
    ("a\n", "script line 1: wrong number of words\n", 3),
    ("a take now\n", "script line 1: wrong number of words\n", 3),
    ("cache 1025\n", "script line 1: out of range\n", 3),
    ("commits late\n", "script line 1: unknown kind\n", 3),
    (
        "clock tick 12345678901234567890\n",
        "script line 1: bad number\n",
        3,
    ),
    ("clock tick 007\n", "script line 1: bad number\n", 3),
    ("clock tick 0\n", "script line 1: out of range\n", 3),
    ("lead a 3\n", "script line 1: out of range\n", 3),
    ("janitor sweep a 0\n", "script line 1: out of range\n", 3),
    ("a take\ns1 begin z\n", "script line 2: unknown node\n", 3),
    ("a put s16\n", "script line 1: bad session\n", 3),
    ("s0 write k4096 v\n", "script line 1: bad key\n", 3),
    (
        "s0 write k0 aaaaaaaaaaaaaaaaaaaaaaaaaaaaaaaaaaaaaaaaaaaaaaaaaaaaaaaaaaaaaaaaa\n",
        "script line 1: bad value\n",
        3,
    ),
    ("a hold all\n", "script line 1: unknown stage\n", 3),
    (
        "fault rows 1 applied\n",
        "script line 1: unknown store\n",
        3,
    ),
    ("fault cells 1 late\n", "script line 1: unknown kind\n", 3),
    ("a post p.1\n", "script line 1: bad name\n", 3),
    ("a take\nlease 5\n", "script line 2: setup order\n", 3),
    ("lead a 1\nskew 3\n", "script line 2: setup order\n", 3),
    ("nodes 2\nnodes 2\n", "script line 2: setup twice\n", 3),
    (
        "fault cells 1 applied\nfault cells 1 unchanged\n",
        "script line 2: setup twice\n",
        3,
    ),
    ("lead a 1\nlead a 2\n", "script line 2: setup twice\n", 3),
    ("a post p\ns0 post p\n", "script line 2: posted twice\n", 3),
    ("s0 await p\n", "script line 1: name not posted\n", 3),
    (
        "s0 await p\ns0 post p\n",
        "script line 1: name not posted\n",
        3,
    ),
    // The first bad line is named, whatever stands behind it.
    (
        "a take\ns0 read k\nlease 5\n\0\n",
        "script line 2: bad key\n",
        3,
    ),
];

/// The same of a script for threads.
static BAD_IN_A_RUN: [Told; 2] = [
    ("a accept s0\n", "script line 1: replay only\n", 3),
    (
        "a take\ns0 ask-begin a\n",
        "script line 2: replay only\n",
        3,
    ),
];

/// Words that replay a script.
static REPLAYS: [&[&str]; 4] = [
    &["replay"],
    &["replay", "summary"],
    &["replay", "json"],
    &["replay", "compact", "5"],
];

// Behind functions, a proof that goes over the rows does not look into their texts.

fn no_commands() -> &'static [&'static [&'static str]] {
    &NO_COMMANDS
}

fn replays() -> &'static [&'static [&'static str]] {
    &REPLAYS
}

fn bad_scripts() -> &'static [Told] {
    &BAD_SCRIPTS
}

fn bad_in_a_run() -> &'static [Told] {
    &BAD_IN_A_RUN
}

#[test]
fn words_that_are_no_command_get_the_usage(rt: HostRuntime) -> Result<(), Fail> {
    for words in no_commands() {
        assert_eq!(rt;
            first_unlike(&rt, rt.alloc(), words, &[(PLAIN_PATH, USAGE, 2)])?,
            None
        );
    }
    Ok(())
}

/// A bad script is named in place of what is written of a good one.
#[test]
fn bad_scripts_are_named(rt: HostRuntime) -> Result<(), Fail> {
    for words in replays() {
        assert_eq!(rt; first_unlike(&rt, rt.alloc(), words, bad_scripts())?, None);
    }
    Ok(())
}

#[test]
fn what_only_a_replay_can_do_is_named(rt: HostRuntime) -> Result<(), Fail> {
    assert_eq!(rt;
        first_unlike(&rt, rt.alloc(), &["run"], bad_in_a_run())?,
        None
    );
    Ok(())
}

/// One byte more than a script may have is said of no line.
#[test]
fn too_many_bytes_are_named(rt: HostRuntime) -> Result<(), Fail> {
    let script = vec![in rt.alloc(); b'\n'; 16_777_217]?;
    let report = b"script line 0: too long\n";
    assert!(rt; answers(&rt, rt.alloc(), &["replay"], &script, report, 3)?);
    Ok(())
}

/// As many lines as this, each of which is an actor's.
fn ticks(alloc: Global, lines: usize) -> Result<Vec<u8>, AllocError> {
    let mut script = Vec::new(alloc);
    for _ in 0..lines {
        script.extend_from_slice(b"clock tick 1\n")?;
    }
    Ok(script)
}

#[test]
fn a_line_too_many_is_named(rt: HostRuntime) -> Result<(), Fail> {
    let script = ticks(rt.alloc(), 131_073)?;
    let report = b"script line 131073: too many lines\n";
    assert!(rt; answers(&rt, rt.alloc(), &["replay"], &script, report, 3)?);
    Ok(())
}

/// As many planned faults as this.
fn faults(alloc: Global, lines: u64) -> Result<Vec<u8>, AllocError> {
    let mut script = Vec::new(alloc);
    for before in 0..lines {
        let number = before + 1;
        let line = format!(in alloc; "fault cells {number} unchanged\n")?;
        script.extend_from_slice(line.as_bytes())?;
    }
    Ok(script)
}

#[test]
fn a_fault_too_many_is_named(rt: HostRuntime) -> Result<(), Fail> {
    let script = faults(rt.alloc(), 33)?;
    let report = b"script line 33: too many faults\n";
    for word in ["replay", "run"] {
        assert!(rt;
            answers(&rt, rt.alloc(), &[word], &script, report, 3)?,
            "{word}"
        );
    }
    Ok(())
}
