// Each word with a small trace that is as asked and one that is not.
use crate::check::omid_check;
use crate::status;
use port_io::{MemSink, MemSource};
use std::alloc::{AllocError, Global};
use std::process::Abort;
use std::test::Fail;

/// Each of two transactions reads what the other one writes over.
const SKEW: &str = r#"{"type": "ok", "process": 0, "value": [["w", "x", 0], ["w", "y", 0]]}
{"type": "ok", "process": 1, "value": [["r", "x", 0], ["r", "y", 0], ["w", "x", 1]]}
{"type": "ok", "process": 2, "value": [["r", "x", 0], ["r", "y", 0], ["w", "y", 2]]}
"#;

/// A process does not see what it committed before.
const FORGOTTEN: &str = r#"{"type": "ok", "process": 0, "value": [["w", "x", 1]]}
{"type": "ok", "process": 0, "value": [["r", "x", null]]}
"#;

/// Another process does not.
const UNSEEN: &str = r#"{"type": "ok", "process": 0, "value": [["w", "x", 1]]}
{"type": "ok", "process": 1, "value": [["r", "x", null]]}
"#;

/// A process does not see what was committed before its transaction was asked for.
const STALE: &str = r#"{"type": "invoke", "process": 0, "time": 1, "value": [["w", "x", 1]]}
{"type": "ok", "process": 0, "time": 2, "value": [["w", "x", 1]]}
{"type": "invoke", "process": 1, "time": 3, "value": [["r", "x", null]]}
{"type": "ok", "process": 1, "time": 4, "value": [["r", "x", null]]}
"#;

/// It was asked for before the other one was committed.
const BESIDE: &str = r#"{"type": "invoke", "process": 0, "time": 1, "value": [["w", "x", 1]]}
{"type": "invoke", "process": 1, "time": 2, "value": [["r", "x", null]]}
{"type": "ok", "process": 0, "time": 3, "value": [["w", "x", 1]]}
{"type": "ok", "process": 1, "time": 4, "value": [["r", "x", null]]}
"#;

const USAGE: &str =
    "usage: omid_check [stamps] snapshot | serializable [session | real-time], committed, levels, or help\n";

fn bytes_of(alloc: Global, text: &str) -> Result<Vec<u8>, AllocError> {
    let mut bytes = Vec::new(alloc);
    bytes.extend_from_slice(text.as_bytes())?;
    Ok(bytes)
}

fn words_of(alloc: Global, text: &str) -> Result<Vec<String>, AllocError> {
    let mut words = Vec::new(alloc);
    for word in text.split(' ') {
        words.push(word.to_string(alloc)?)?;
    }
    Ok(words)
}

/// The status of a call, and what was written.
fn called(alloc: Global, words: &str, trace: &str) -> Result<(u8, Vec<u8>), Fail> {
    let words = words_of(alloc, words)?;
    let mut source = MemSource::new(bytes_of(alloc, trace)?, vec![in alloc; 0; 1]?);
    let mut sink = MemSink::open(alloc, 2_000, vec![in alloc; 0; 1]?)?;
    let code = omid_check(alloc, &words, &mut source, &mut sink);
    let mut held = Vec::new(alloc);
    held.extend_from_slice(sink.bytes())?;
    Ok((code, held))
}

#[test]
fn levels_differ(rt: HostRuntime) -> Result<(), Fail> {
    for (words, trace, status, told) in [
        (
            "snapshot",
            SKEW,
            status::DONE,
            "snapshot isolated transactions=3\n",
        ),
        (
            "serializable",
            SKEW,
            status::REFUSED,
            "not serializable: write skew\n  line 2 r y before line 3 w y (rw)\n  line 3 r x before line 2 w x (rw)\n",
        ),
        ("session", SKEW, status::USAGE, USAGE),
        ("snapshot real time", SKEW, status::USAGE, USAGE),
    ] {
        let (code, held) = called(rt.alloc(), words, trace)?;
        assert_eq!(rt; code, status);
        assert_eq!(rt; str::from_utf8(held.as_slice()), Ok(told));
    }
    Ok(())
}

#[test]
fn sessions_see_their_commits(rt: HostRuntime) -> Result<(), Fail> {
    for (words, trace, status, told) in [
        (
            "snapshot",
            FORGOTTEN,
            status::DONE,
            "snapshot isolated transactions=2\n",
        ),
        (
            "serializable",
            FORGOTTEN,
            status::DONE,
            "serializable transactions=2\n",
        ),
        (
            "snapshot session",
            FORGOTTEN,
            status::REFUSED,
            "not snapshot isolated in sessions: G-single\n  line 2 r x before line 1 w x (rw)\n  line 1 before line 2 (session)\n",
        ),
        (
            "serializable session",
            FORGOTTEN,
            status::REFUSED,
            "not serializable in sessions: G-single\n  line 1 before line 2 (session)\n  line 2 r x before line 1 w x (rw)\n",
        ),
        (
            "snapshot session",
            UNSEEN,
            status::DONE,
            "snapshot isolated in sessions transactions=2\n",
        ),
        (
            "serializable session",
            UNSEEN,
            status::DONE,
            "serializable in sessions transactions=2\n",
        ),
    ] {
        let (code, held) = called(rt.alloc(), words, trace)?;
        assert_eq!(rt; code, status);
        assert_eq!(rt; str::from_utf8(held.as_slice()), Ok(told));
    }
    Ok(())
}

#[test]
fn time_is_kept(rt: HostRuntime) -> Result<(), Fail> {
    for (words, trace, status, told) in [
        (
            "snapshot session",
            STALE,
            status::DONE,
            "snapshot isolated in sessions transactions=2\n",
        ),
        (
            "snapshot real-time",
            STALE,
            status::REFUSED,
            "not snapshot isolated in real time: G-single\n  line 4 r x before line 2 w x (rw)\n  line 2 before line 4 (real time)\n",
        ),
        (
            "serializable real-time",
            STALE,
            status::REFUSED,
            "not serializable in real time: G-single\n  line 2 before line 4 (real time)\n  line 4 r x before line 2 w x (rw)\n",
        ),
        (
            "snapshot real-time",
            BESIDE,
            status::DONE,
            "snapshot isolated in real time transactions=2\n",
        ),
        (
            "serializable real-time",
            BESIDE,
            status::DONE,
            "serializable in real time transactions=2\n",
        ),
    ] {
        let (code, held) = called(rt.alloc(), words, trace)?;
        assert_eq!(rt; code, status);
        assert_eq!(rt; str::from_utf8(held.as_slice()), Ok(told));
    }
    Ok(())
}

/// Each of two transactions read what the other one wrote.
const ROUND: &str = r#"{"type": "ok", "process": 0, "value": [["w", "x", 1], ["r", "y", 2]]}
{"type": "ok", "process": 1, "value": [["w", "y", 2], ["r", "x", 1]]}
"#;

/// The writer of what was read did not commit.
const DIRTY: &str = r#"{"type": "fail", "process": 0, "value": [["w", "x", 1]]}
{"type": "ok", "process": 1, "value": [["r", "x", 1]]}
"#;

/// The writer of what was read wrote over it.
const INTERMEDIATE: &str = r#"{"type": "ok", "process": 0, "value": [["w", "x", 1], ["w", "x", 2]]}
{"type": "ok", "process": 1, "value": [["r", "x", 1]]}
"#;

/// Two that read one version wrote over it.
const LOST: &str = r#"{"type": "ok", "process": 0, "value": [["w", "x", 1]]}
{"type": "ok", "process": 1, "value": [["r", "x", 1], ["w", "x", 2]]}
{"type": "ok", "process": 2, "value": [["r", "x", 1], ["w", "x", 3]]}
"#;

#[test]
fn reads_are_of_committed_transactions(rt: HostRuntime) -> Result<(), Fail> {
    for (trace, status, told) in [
        (SKEW, status::DONE, "committed reads transactions=3\n"),
        (LOST, status::DONE, "committed reads transactions=3\n"),
        (
            ROUND,
            status::REFUSED,
            "not committed reads: G1c\n  line 1 w x before line 2 r x (wr)\n  line 2 w y before line 1 r y (wr)\n",
        ),
        (
            DIRTY,
            status::REFUSED,
            "not committed reads: dirty read (G1a)\n  line 2 r x\n",
        ),
        (
            INTERMEDIATE,
            status::REFUSED,
            "not committed reads: intermediate read (G1b)\n  line 2 r x\n",
        ),
    ] {
        let (code, held) = called(rt.alloc(), "committed", trace)?;
        assert_eq!(rt; code, status);
        assert_eq!(rt; str::from_utf8(held.as_slice()), Ok(told));
    }
    Ok(())
}

#[test]
fn levels_stand_in_order(rt: HostRuntime) -> Result<(), Fail> {
    for (trace, status, told) in [
        (
            SKEW,
            status::DONE,
            "snapshot real-time: holds
snapshot session: holds
snapshot: holds
committed: holds
serializable real-time: does not hold
serializable session: does not hold
serializable: does not hold
",
        ),
        (
            DIRTY,
            status::REFUSED,
            "serializable real-time: does not hold
serializable session: does not hold
serializable: does not hold
snapshot real-time: does not hold
snapshot session: does not hold
snapshot: does not hold
committed: does not hold
",
        ),
    ] {
        let (code, held) = called(rt.alloc(), "levels", trace)?;
        assert_eq!(rt; code, status);
        assert_eq!(rt; str::from_utf8(held.as_slice()), Ok(told));
    }
    Ok(())
}
