// Traces that only the order of sessions or of moments decides, each with one that lacks it by an operation.
use crate::check::omid_check;
use crate::status;
use port_io::{MemSink, MemSource};
use std::alloc::{AllocError, Global};
use std::process::Abort;
use std::test::Fail;

/// What the second process wrote was there for its reader, which found what the first one wrote: so that was written over it.
const IN_SESSION: &str = r#"{"type": "ok", "process": 0, "value": [["w", "x", 1]]}
{"type": "ok", "process": 1, "value": [["w", "x", 2]]}
{"type": "ok", "process": 1, "value": [["r", "x", 1]]}
"#;

/// And the first process found what the second one wrote.
const OUT_OF_SESSION: &str = r#"{"type": "ok", "process": 0, "value": [["w", "x", 1]]}
{"type": "ok", "process": 1, "value": [["w", "x", 2]]}
{"type": "ok", "process": 1, "value": [["r", "x", 1]]}
{"type": "ok", "process": 0, "value": [["r", "x", 2]]}
"#;

/// The reader of the first write was asked for after the second write was answered: so the first was written over it.
const IN_TIME: &str = r#"{"type": "invoke", "process": 0, "time": 0, "value": [["w", "x", 1]]}
{"type": "invoke", "process": 1, "time": 1, "value": [["w", "x", 2]]}
{"type": "ok", "process": 1, "time": 2, "value": [["w", "x", 2]]}
{"type": "invoke", "process": 2, "time": 3, "value": [["r", "x", null]]}
{"type": "ok", "process": 2, "time": 4, "value": [["r", "x", 1]]}
{"type": "ok", "process": 0, "time": 5, "value": [["w", "x", 1]]}
"#;

const OUT_OF_TIME: &str = r#"{"type": "invoke", "process": 0, "time": 0, "value": [["w", "x", 1]]}
{"type": "invoke", "process": 1, "time": 1, "value": [["w", "x", 2]]}
{"type": "ok", "process": 1, "time": 2, "value": [["w", "x", 2]]}
{"type": "invoke", "process": 2, "time": 3, "value": [["r", "x", null]]}
{"type": "ok", "process": 2, "time": 4, "value": [["r", "x", 1]]}
{"type": "ok", "process": 0, "time": 5, "value": [["w", "x", 1]]}
{"type": "invoke", "process": 3, "time": 6, "value": [["r", "x", null]]}
{"type": "ok", "process": 3, "time": 7, "value": [["r", "x", 2]]}
"#;

fn bytes_of(alloc: Global, text: &str) -> Result<Vec<u8>, AllocError> {
    let mut bytes = Vec::new(alloc);
    bytes.extend_from_slice(text.as_bytes())?;
    Ok(bytes)
}

fn words_of(alloc: Global, text: &str) -> Result<Vec<String>, AllocError> {
    let mut words = Vec::new(alloc);
    for word in text.split(' ') {
        words.push(word.to_string(alloc)?)?;
    }
    Ok(words)
}

/// The status of a call.
fn status_of(alloc: Global, words: &str, trace: &str) -> Result<u8, Fail> {
    let words = words_of(alloc, words)?;
    let mut source = MemSource::new(bytes_of(alloc, trace)?, vec![in alloc; 0; 1]?);
    let mut sink = MemSink::open(alloc, 2_000, vec![in alloc; 0; 1]?)?;
    Ok(omid_check(alloc, &words, &mut source, &mut sink))
}

#[test]
fn asked_orders_decide(rt: HostRuntime) -> Result<(), Fail> {
    for (words, trace, status) in [
        ("snapshot session", IN_SESSION, status::DONE),
        ("snapshot session", OUT_OF_SESSION, status::REFUSED),
        ("serializable session", IN_SESSION, status::DONE),
        ("serializable session", OUT_OF_SESSION, status::REFUSED),
        ("snapshot", OUT_OF_SESSION, status::DONE),
        ("snapshot real-time", IN_TIME, status::DONE),
        ("snapshot real-time", OUT_OF_TIME, status::REFUSED),
        ("serializable real-time", IN_TIME, status::DONE),
        ("serializable real-time", OUT_OF_TIME, status::REFUSED),
    ] {
        assert_eq!(rt; status_of(rt.alloc(), words, trace)?, status);
    }
    Ok(())
}
