// A trace with lists for each anomaly, and beside each one that lacks it by one operation; errors by line and member.
use crate::check::omid_check;
use crate::status;
use port_io::{MemSink, MemSource};
use std::alloc::Global;
use std::process::Abort;
use std::test::Fail;

/// What is asked, the lines before the last one, a last line with which it is refused, what is said then, and a last line with which
/// it is not.
static LISTS: [(
    &'static str,
    &'static str,
    &'static str,
    &'static str,
    &'static str,
); 9] = [
    (
        "snapshot",
        r#"{"type": "ok", "process": 0, "value": [["append", "x", 1]]}
{"type": "ok", "process": 1, "value": [["r", "x", [1]], ["append", "x", 2]]}
{"type": "ok", "process": 2, "value": [["r", "x", [1, 2]]]}
"#,
        r#"{"type": "ok", "process": 3, "value": [["r", "x", [2, 1]]]}"#,
        "not snapshot isolated: incompatible order\n  line 4 r x beside line 3 r x\n",
        r#"{"type": "ok", "process": 3, "value": [["r", "x", [1]]]}"#,
    ),
    (
        "snapshot",
        r#"{"type": "fail", "process": 0, "value": [["append", "x", 1]]}
{"type": "ok", "process": 1, "value": [["append", "x", 2]]}
"#,
        r#"{"type": "ok", "process": 2, "value": [["r", "x", [1, 2]]]}"#,
        "not snapshot isolated: dirty read (G1a)\n  line 3 r x beside line 1 append x\n",
        r#"{"type": "ok", "process": 2, "value": [["r", "x", [2]]]}"#,
    ),
    (
        "committed",
        r#"{"type": "fail", "process": 0, "value": [["append", "x", 1]]}
{"type": "info", "process": 1, "value": [["append", "x", 2]]}
"#,
        r#"{"type": "ok", "process": 2, "value": [["r", "x", [1, 2]]]}"#,
        "not committed reads: dirty read (G1a)\n  line 3 r x\n",
        r#"{"type": "ok", "process": 2, "value": [["r", "x", [2]]]}"#,
    ),
    (
        "snapshot",
        r#"{"type": "ok", "process": 0, "value": [["append", "x", 1], ["append", "x", 2]]}
"#,
        r#"{"type": "ok", "process": 1, "value": [["r", "x", [2, 1]]]}"#,
        "not snapshot isolated: list out of order\n  line 2 r x beside line 1 append x\n",
        r#"{"type": "ok", "process": 1, "value": [["r", "x", [1, 2]]]}"#,
    ),
    (
        "snapshot",
        r#"{"type": "ok", "process": 0, "value": [["append", "x", 1], ["append", "x", 3]]}
{"type": "info", "process": 1, "value": [["append", "x", 2]]}
"#,
        r#"{"type": "ok", "process": 2, "value": [["r", "x", [1, 2, 3]]]}"#,
        "not snapshot isolated: list out of order\n  line 3 r x beside line 2 append x\n",
        r#"{"type": "ok", "process": 2, "value": [["r", "x", [1, 3, 2]]]}"#,
    ),
    (
        "snapshot",
        r#"{"type": "ok", "process": 0, "value": [["append", "x", 1], ["append", "x", 2]]}
"#,
        r#"{"type": "ok", "process": 1, "value": [["r", "x", [2]]]}"#,
        "not snapshot isolated: list with a gap\n  line 2 r x beside line 1 append x\n",
        r#"{"type": "ok", "process": 1, "value": [["r", "x", null]]}"#,
    ),
    (
        "snapshot",
        r#"{"type": "ok", "process": 0, "value": [["append", "x", 1], ["append", "x", 2]]}
{"type": "ok", "process": 1, "value": [["append", "x", 3]]}
"#,
        r#"{"type": "ok", "process": 2, "value": [["r", "x", [1, 3]]]}"#,
        "not snapshot isolated: list with a gap\n  line 3 r x beside line 1 append x\n",
        r#"{"type": "ok", "process": 2, "value": [["r", "x", [1, 2, 3]]]}"#,
    ),
    (
        "snapshot",
        r#"{"type": "ok", "process": 0, "value": [["append", "x", 1], ["append", "x", 2]]}
"#,
        r#"{"type": "ok", "process": 1, "value": [["r", "x", [1]]]}"#,
        "not snapshot isolated: intermediate read (G1b)\n  line 2 r x\n",
        r#"{"type": "ok", "process": 1, "value": [["r", "x", []]]}"#,
    ),
    (
        "serializable",
        r#"{"type": "ok", "process": 0, "value": [["r", "x", []], ["append", "y", 1]]}
"#,
        r#"{"type": "ok", "process": 1, "value": [["r", "y", []], ["append", "x", 1], ["r", "x", [1]]]}"#,
        "not serializable: write skew\n  line 1 r x before line 2 w x (rw)\n  line 2 r y before line 1 w y (rw)\n",
        r#"{"type": "ok", "process": 1, "value": [["append", "x", 1], ["r", "x", [1]]]}"#,
    ),
];

/// Lines that can't be read, or don't show who appended what, each with what is said of it.
static DAMAGED: [(&'static str, &'static str); 6] = [
    (
        r#"{"type": "ok", "process": 0, "value": [["r", "x", []], ["append", "x"]]}"#,
        "trace line 2: value[1][2]: a text or a whole number is wanted\n",
    ),
    (
        r#"{"type": "ok", "process": 0, "value": [["r", "x", [1, []]]]}"#,
        "trace line 2: value[0][2][1]: a text or a whole number is wanted\n",
    ),
    (
        r#"{"type": "ok", "process": 0, "value": [["r", "y", []], ["r", "x", [1, 5]]]}"#,
        "trace line 2: value[1]: 5 is read and written by nobody at x\n",
    ),
    (
        r#"{"type": "ok", "process": 0, "value": [["append", "y", 1], ["append", "x", 1]]}"#,
        "trace line 2: value[1]: 1 is written twice at x\n",
    ),
    (
        r#"{"type": "ok", "process": 0, "value": [["r", "x", null], ["w", "x", 2]]}"#,
        "trace line 2: value[1]: a list and a single value are told at x\n",
    ),
    (
        r#"{"type": "ok", "process": 0, "value": [["w", "y", 1], ["r", "y", [1]]]}"#,
        "trace line 2: value[1]: a list and a single value are told at y\n",
    ),
];

const GOOD: &str = r#"{"type": "ok", "process": 0, "value": [["append", "x", 1]]}
"#;

/// The status of a call on the two parts of a trace, and what was written.
fn called(alloc: Global, word: &str, front: &str, back: &str) -> Result<(u8, Vec<u8>), Fail> {
    let mut words = Vec::new(alloc);
    words.push(word.to_string(alloc)?)?;
    let mut bytes = Vec::new(alloc);
    bytes.extend_from_slice(front.as_bytes())?;
    bytes.extend_from_slice(back.as_bytes())?;
    let mut source = MemSource::new(bytes, vec![in alloc; 0; 1]?);
    let mut sink = MemSink::open(alloc, 2_000, vec![in alloc; 0; 1]?)?;
    let code = omid_check(alloc, &words, &mut source, &mut sink);
    let mut held = Vec::new(alloc);
    held.extend_from_slice(sink.bytes())?;
    Ok((code, held))
}

#[test]
fn wrong_lists_are_named(rt: HostRuntime) -> Result<(), Fail> {
    for (word, front, back, told, without) in &LISTS {
        let (code, held) = called(rt.alloc(), *word, *front, *back)?;
        assert_eq!(rt; code, status::REFUSED);
        assert_eq!(rt; str::from_utf8(held.as_slice()), Ok(*told));
        let (code, held) = called(rt.alloc(), *word, *front, *without)?;
        assert_eq!(rt; code, status::DONE);
    }
    Ok(())
}

#[test]
fn damaged_lists_name_line_and_member(rt: HostRuntime) -> Result<(), Fail> {
    for (line, told) in &DAMAGED {
        let (code, held) = called(rt.alloc(), "snapshot", GOOD, *line)?;
        assert_eq!(rt; code, status::BAD_INPUT);
        assert_eq!(rt; str::from_utf8(held.as_slice()), Ok(*told));
    }
    Ok(())
}
