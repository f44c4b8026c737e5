// Each anomaly, and beside it a trace that lacks it by an operation; and what is said of damaged traces.
use crate::check::omid_check;
use crate::status;
use port_io::{MemSink, MemSource};
use std::alloc::{AllocError, Global};
use std::process::Abort;
use std::test::Fail;

/// A word, a trace that is not so, the anomaly that is named, and what stands in place of the last operation's line where it is.
static ANOMALIES: [(
    &'static str,
    &'static str,
    &'static str,
    &'static str,
    &'static str,
); 10] = [
    (
        "snapshot",
        "not snapshot isolated: dirty read (G1a)\n",
        r#"{"type": "fail", "process": 0, "value": [["w", "x", 1]]}
"#,
        r#"{"type": "ok", "process": 1, "value": [["r", "y", null], ["r", "x", 1]]}
"#,
        r#"{"type": "ok", "process": 1, "value": [["r", "y", null]]}
"#,
    ),
    (
        "snapshot",
        "not snapshot isolated: intermediate read (G1b)\n",
        r#"{"type": "ok", "process": 0, "value": [["w", "x", 1], ["w", "x", 2]]}
"#,
        r#"{"type": "ok", "process": 1, "value": [["r", "y", null], ["r", "x", 1]]}
"#,
        r#"{"type": "ok", "process": 1, "value": [["r", "y", null]]}
"#,
    ),
    (
        "snapshot",
        "not snapshot isolated: own write not read\n",
        r#"{"type": "ok", "process": 0, "value": [["w", "x", 1]]}
"#,
        r#"{"type": "ok", "process": 1, "value": [["w", "x", 2], ["r", "x", 1]]}
"#,
        r#"{"type": "ok", "process": 1, "value": [["w", "x", 2]]}
"#,
    ),
    (
        "snapshot",
        "not snapshot isolated: G0\n",
        r#"{"type": "ok", "process": 0, "value": [["w", "x", 1, 1], ["w", "y", 1, 2]]}
"#,
        r#"{"type": "ok", "process": 1, "value": [["w", "x", 2, 2], ["w", "y", 2, 1]]}
"#,
        r#"{"type": "ok", "process": 1, "value": [["w", "x", 2, 2]]}
"#,
    ),
    (
        "snapshot",
        "not snapshot isolated: G1c\n",
        r#"{"type": "ok", "process": 0, "value": [["w", "x", 1], ["r", "y", 2]]}
"#,
        r#"{"type": "ok", "process": 1, "value": [["w", "y", 2], ["r", "x", 1]]}
"#,
        r#"{"type": "ok", "process": 1, "value": [["w", "y", 2]]}
"#,
    ),
    (
        "snapshot",
        "not snapshot isolated: lost update\n",
        r#"{"type": "ok", "process": 0, "value": [["w", "x", 0]]}
{"type": "ok", "process": 1, "value": [["r", "x", 0], ["w", "x", 1]]}
"#,
        r#"{"type": "ok", "process": 2, "value": [["r", "x", 0], ["w", "x", 2]]}
"#,
        r#"{"type": "ok", "process": 2, "value": [["r", "x", 0]]}
"#,
    ),
    (
        "snapshot",
        "not snapshot isolated: G-single\n",
        r#"{"type": "ok", "process": 0, "value": [["w", "x", 0], ["w", "y", 0]]}
{"type": "ok", "process": 1, "value": [["r", "x", 0], ["r", "y", 0], ["w", "x", 1], ["w", "y", 1]]}
"#,
        r#"{"type": "ok", "process": 2, "value": [["r", "x", 0], ["r", "y", 1]]}
"#,
        r#"{"type": "ok", "process": 2, "value": [["r", "x", 0]]}
"#,
    ),
    (
        "snapshot",
        "not snapshot isolated: long fork\n",
        r#"{"type": "ok", "process": 0, "value": [["w", "x", 0], ["w", "y", 0]]}
{"type": "ok", "process": 1, "value": [["r", "x", 0], ["w", "x", 1]]}
{"type": "ok", "process": 2, "value": [["r", "y", 0], ["w", "y", 1]]}
{"type": "ok", "process": 3, "value": [["r", "x", 1], ["r", "y", 0]]}
"#,
        r#"{"type": "ok", "process": 4, "value": [["r", "y", 1], ["r", "x", 0]]}
"#,
        r#"{"type": "ok", "process": 4, "value": [["r", "y", 1]]}
"#,
    ),
    (
        "serializable",
        "not serializable: write skew\n",
        r#"{"type": "ok", "process": 0, "value": [["w", "x", 0], ["w", "y", 0]]}
{"type": "ok", "process": 1, "value": [["r", "x", 0], ["r", "y", 0], ["w", "x", 1]]}
"#,
        r#"{"type": "ok", "process": 2, "value": [["r", "y", 0], ["w", "y", 2], ["r", "x", 0]]}
"#,
        r#"{"type": "ok", "process": 2, "value": [["r", "y", 0], ["w", "y", 2]]}
"#,
    ),
    (
        "serializable",
        "not serializable: G2-item\n",
        r#"{"type": "ok", "process": 0, "value": [["w", "x", 0], ["w", "y", 0], ["w", "z", 0]]}
{"type": "ok", "process": 1, "value": [["r", "x", 0], ["r", "y", 0], ["w", "y", 1]]}
{"type": "ok", "process": 2, "value": [["r", "y", 0], ["r", "z", 0], ["w", "z", 1]]}
"#,
        r#"{"type": "ok", "process": 3, "value": [["r", "x", 0], ["w", "x", 1], ["r", "z", 0]]}
"#,
        r#"{"type": "ok", "process": 3, "value": [["r", "x", 0], ["w", "x", 1]]}
"#,
    ),
];

/// Lines that can't be read, each with what is said of it.
static DAMAGED: [(&'static str, &'static str); 12] = [
    (r#"{"type": "ok""#, "trace line 2: JSON is wanted\n"),
    ("5", "trace line 2: an object is wanted\n"),
    (
        r#"{"type": "done", "process": 0, "value": []}"#,
        "trace line 2: type: invoke, ok, fail or info is wanted\n",
    ),
    (
        r#"{"type": "ok", "value": []}"#,
        "trace line 2: process: a text or a whole number is wanted\n",
    ),
    (
        r#"{"type": "ok", "process": 0, "time": -1, "value": []}"#,
        "trace line 2: time: a whole number is wanted\n",
    ),
    (
        r#"{"type": "ok", "process": 0}"#,
        "trace line 2: value: an array is wanted\n",
    ),
    (
        r#"{"type": "ok", "process": 0, "value": [["r", "x", 1], ["x", "x", 1]]}"#,
        "trace line 2: value[1][0]: r, w or append is wanted\n",
    ),
    (
        r#"{"type": "ok", "process": 0, "value": [["w", null, 1]]}"#,
        "trace line 2: value[0][1]: a text or a whole number is wanted\n",
    ),
    (
        r#"{"type": "ok", "process": 0, "value": [["r", "x", {}]]}"#,
        "trace line 2: value[0][2]: null, a text, a whole number or an array is wanted\n",
    ),
    (
        r#"{"type": "ok", "process": 0, "value": [["r", "x", [1, null]]]}"#,
        "trace line 2: value[0][2][1]: a text or a whole number is wanted\n",
    ),
    (
        r#"{"type": "ok", "process": 0, "value": [["w", "x"]]}"#,
        "trace line 2: value[0][2]: a text or a whole number is wanted\n",
    ),
    (
        r#"{"type": "ok", "process": 0, "value": [["r", "x", 1, "a"]]}"#,
        "trace line 2: value[0][3]: a whole number is wanted\n",
    ),
];

const GOOD: &str = r#"{"type": "ok", "process": 0, "value": [["w", "x", 1]]}
"#;

/// The status of a call on the two parts of a trace, and what was written.
fn called(alloc: Global, word: &str, front: &str, back: &str) -> Result<(u8, Vec<u8>), Fail> {
    let mut words = Vec::new(alloc);
    words.push(word.to_string(alloc)?)?;
    let mut bytes = Vec::new(alloc);
    bytes.extend_from_slice(front.as_bytes())?;
    bytes.extend_from_slice(back.as_bytes())?;
    let mut source = MemSource::new(bytes, vec![in alloc; 0; 1]?);
    let mut sink = MemSink::open(alloc, 2_000, vec![in alloc; 0; 1]?)?;
    let code = omid_check(alloc, &words, &mut source, &mut sink);
    let mut held = Vec::new(alloc);
    held.extend_from_slice(sink.bytes())?;
    Ok((code, held))
}

#[test]
fn anomalies_have_their_names(rt: HostRuntime) -> Result<(), Fail> {
    for (word, name, front, back, without) in &ANOMALIES {
        let (code, held) = called(rt.alloc(), *word, *front, *back)?;
        assert_eq!(rt; code, status::REFUSED);
        assert_eq!(rt; held.as_slice().starts_with((*name).as_bytes()), true);
        let (code, held) = called(rt.alloc(), *word, *front, *without)?;
        assert_eq!(rt; code, status::DONE);
    }
    Ok(())
}

#[test]
fn damaged_traces_name_line_and_member(rt: HostRuntime) -> Result<(), Fail> {
    for (line, told) in &DAMAGED {
        let (code, held) = called(rt.alloc(), "snapshot", GOOD, *line)?;
        assert_eq!(rt; code, status::BAD_INPUT);
        assert_eq!(rt; str::from_utf8(held.as_slice()), Ok(*told));
    }
    Ok(())
}
