// Traces that tell the order of versions by numbers, and beside each one that is not so by one operation; errors by line and member.
use crate::check::omid_check;
use crate::status;
use port_io::{MemSink, MemSource};
use std::alloc::{AllocError, Global};
use std::process::Abort;
use std::test::Fail;

/// A version is written over by its reader.
const NUMBERED: &str = r#"{"type": "ok", "process": 0, "value": [["w", "x", 1, 1]]}
{"type": "ok", "process": 1, "value": [["r", "x", 1, 1], ["w", "x", 2, 2]]}
"#;

/// And its number is told to be lower.
const LOWER: &str = r#"{"type": "ok", "process": 0, "value": [["w", "x", 1, 1]]}
{"type": "ok", "process": 1, "value": [["r", "x", 1, 1], ["w", "x", 2, 0]]}
"#;

/// Two writers have one number.
const NUMBERED_TWICE: &str = r#"{"type": "ok", "process": 0, "value": [["w", "x", 1, 1]]}
{"type": "ok", "process": 1, "value": [["r", "x", 1, 1], ["w", "x", 2, 1]]}
"#;

/// A transaction's own versions stand one behind another.
const RUN: &str = r#"{"type": "ok", "process": 0, "value": [["w", "x", 1, 1], ["w", "x", 2, 2]]}
{"type": "ok", "process": 1, "value": [["r", "x", 2, 2], ["w", "x", 3, 3]]}
"#;

/// And another's between them.
const RUN_BROKEN: &str =
    r#"{"type": "ok", "process": 0, "value": [["w", "x", 1, 1], ["w", "x", 2, 3]]}
{"type": "ok", "process": 1, "value": [["w", "x", 3, 2]]}
"#;

/// Nobody wrote what was read.
const OF_NOBODY: &str = r#"{"type": "ok", "process": 0, "value": [["w", "x", 1], ["r", "y", 5]]}
"#;

const WRITTEN_TWICE: &str = r#"{"type": "ok", "process": 0, "value": [["w", "x", 1]]}
{"type": "ok", "process": 0, "value": [["w", "y", 1], ["r", "x", 1], ["w", "x", 1]]}
"#;

fn bytes_of(alloc: Global, text: &str) -> Result<Vec<u8>, AllocError> {
    let mut bytes = Vec::new(alloc);
    bytes.extend_from_slice(text.as_bytes())?;
    Ok(bytes)
}

fn words_of(alloc: Global, text: &str) -> Result<Vec<String>, AllocError> {
    let mut words = Vec::new(alloc);
    for word in text.split(' ') {
        words.push(word.to_string(alloc)?)?;
    }
    Ok(words)
}

/// The status of a call, and what was written.
fn called(alloc: Global, words: &str, trace: &str) -> Result<(u8, Vec<u8>), Fail> {
    let words = words_of(alloc, words)?;
    let mut source = MemSource::new(bytes_of(alloc, trace)?, vec![in alloc; 0; 1]?);
    let mut sink = MemSink::open(alloc, 2_000, vec![in alloc; 0; 1]?)?;
    let code = omid_check(alloc, &words, &mut source, &mut sink);
    let mut held = Vec::new(alloc);
    held.extend_from_slice(sink.bytes())?;
    Ok((code, held))
}

#[test]
fn numbers_order_versions(rt: HostRuntime) -> Result<(), Fail> {
    for (trace, status, told) in [
        (NUMBERED, status::DONE, "snapshot isolated transactions=2\n"),
        (
            LOWER,
            status::REFUSED,
            "not snapshot isolated: G1c\n  line 1 w x before line 2 r x (wr)\n  line 2 w x before line 1 w x (ww)\n",
        ),
        (
            NUMBERED_TWICE,
            status::BAD_INPUT,
            "trace line 2: value[1]: version 1 is told of two writers at x\n",
        ),
        (RUN, status::DONE, "snapshot isolated transactions=2\n"),
        (
            OF_NOBODY,
            status::BAD_INPUT,
            "trace line 1: value[1]: 5 is read and written by nobody at y\n",
        ),
        (
            WRITTEN_TWICE,
            status::BAD_INPUT,
            "trace line 2: value[2]: 1 is written twice at x\n",
        ),
    ] {
        let (code, held) = called(rt.alloc(), "snapshot", trace)?;
        assert_eq!(rt; code, status);
        assert_eq!(rt; str::from_utf8(held.as_slice()), Ok(told));
    }
    Ok(())
}

#[test]
fn a_run_is_not_broken(rt: HostRuntime) -> Result<(), Fail> {
    let (code, held) = called(rt.alloc(), "snapshot", RUN_BROKEN)?;
    assert_eq!(rt; code, status::REFUSED);
    assert_eq!(rt;
        held.as_slice().starts_with(b"not snapshot isolated: G0\n"),
        true
    );
    Ok(())
}
