// Histories as JSON: what a replay writes, and what an audit says of it.
use crate::calls::{answer_of, answers, joined};
use crate::rows::{TOPICS, topic};
use crate::told::{Told, first_unlike};
use std::alloc::{AllocError, Global};
use std::sync::Wait;
use std::test::Fail;
use std::thread::Threads;
use worked_texts::Replay;
use worked_texts::commits::PLAIN_PATH;
use worked_texts::json::{EACH_KIND, EACH_KIND_JSON, PLAIN_JSON};

/// A history, what an audit of it must write, and its status.
static AUDITS: [Told; 15] = [
    (PLAIN_JSON, "isolated items=20\n", 0),
    (EACH_KIND_JSON, "isolated items=53\n", 0),
    // late_put: a commit that is placed after a read counts.
    (
        r#"{"kind":"begin","session":"s0","start":1}
{"key":"k0","kind":"write","session":"s0","start":1,"value":"v"}
{"kind":"begin","session":"s1","start":101}
{"key":"k0","kind":"read","session":"s1","start":101}
{"commit":2,"kind":"placed","start":1}
"#,
        "not isolated: read 4 2\n",
        7,
    ),
    // The same with blanks, empty lines and members in another order, and without the last line feed.
    (
        r#"

{ "start" : 1, "kind" : "begin", "session" : "s0" }
{"kind":"write","session":"s0","start":1,"key":"k0","value":"v"}

{"kind":"begin","session":"s1","start":101}
{"kind":"read","session":"s1","start":101,"key":"k0"}
{"kind":"placed","start":1,"commit":2}"#,
        "not isolated: read 4 2\n",
        7,
    ),
    // One format alone: that of the first line that is not empty.
    (
        "{\"kind\":\"begin\",\"session\":\"s0\",\"start\":1}\nbegin s1 start=2\n",
        "history line 2: not an item\n",
        3,
    ),
    (
        "\nbegin s1 start=2\n{\"kind\":\"begin\",\"session\":\"s0\",\"start\":1}\n",
        "history line 3: not an item\n",
        3,
    ),
    (
        " {\"kind\":\"tick\",\"to\":1}\n",
        "history line 1: not an item\n",
        3,
    ),
    // A carriage return is a blank of JSON, escapes are read, and of a member that is repeated the last counts.
    (
        "{\"kind\":\"tick\",\"to\":1}\r\n{\"kind\":\"\\u0074ick\",\"to\":1,\"to\":2}\n",
        "isolated items=2\n",
        0,
    ),
    // ClusterModel numbers alone, up to 64 bits.
    (
        "{\"kind\":\"begin\",\"session\":\"s0\",\"start\":1}\n{\"kind\":\"begin\",\"session\":\"s1\",\"start\":2.0}\n",
        "history line 2: not an item\n",
        3,
    ),
    (
        "{\"kind\":\"tick\",\"to\":18446744073709551615}\n{\"kind\":\"tick\",\"to\":18446744073709551616}\n",
        "history line 2: not an item\n",
        3,
    ),
    (
        "{\"kind\":\"tick\",\"to\":0}\n{\"kind\":\"tick\",\"to\":-0}\n",
        "history line 2: not an item\n",
        3,
    ),
    // A member too little, one too much, and one that is null.
    ("{\"kind\":\"tick\"}\n", "history line 1: not an item\n", 3),
    (
        "{\"kind\":\"tick\",\"to\":1,\"by\":1}\n",
        "history line 1: not an item\n",
        3,
    ),
    (
        "{\"commit\":null,\"kind\":\"draw\",\"node\":\"a\",\"session\":\"s0\",\"start\":1,\"term\":1}\n",
        "history line 1: not an item\n",
        3,
    ),
    // A line that ends too early.
    (
        "{\"kind\":\"tick\",\"to\":1}\n{\"kind\":\"tick\",\"to\"",
        "history line 2: not an item\n",
        3,
    ),
];

/// A script, its history as JSON, and the status.
static REPLAYS: [Told; 3] = [
    (PLAIN_PATH, PLAIN_JSON, 0),
    (EACH_KIND, EACH_KIND_JSON, 0),
    ("", "", 0),
];

// Behind functions, a proof that goes over the rows does not look into their texts.

fn audits() -> &'static [Told] {
    &AUDITS
}

fn replays() -> &'static [Told] {
    &REPLAYS
}

/// Whether an audit says the same of the example's history in either form.
fn has_one_report<R: Threads + Wait + Sync>(
    rt: &R,
    alloc: Global,
    replay: &Replay,
) -> Result<bool, AllocError> {
    let script = joined(alloc, replay.script)?;
    let history = joined(alloc, replay.history)?;
    let (report, _) = answer_of(rt, alloc, &["audit"], &history)?;
    let (json, status) = answer_of(rt, alloc, &["replay", "json"], &script)?;
    Ok(status == 0 && answers(rt, alloc, &["audit"], &json, &report, 0)?)
}

#[test]
fn histories_are_written_as_json(rt: HostRuntime) -> Result<(), Fail> {
    let words = ["replay", "json"];
    assert_eq!(rt; first_unlike(&rt, rt.alloc(), &words, replays())?, None);
    Ok(())
}

#[test]
fn histories_in_json_are_judged(rt: HostRuntime) -> Result<(), Fail> {
    assert_eq!(rt; first_unlike(&rt, rt.alloc(), &["audit"], audits())?, None);
    Ok(())
}

#[test]
fn both_formats_have_one_report(rt: HostRuntime) -> Result<(), Fail> {
    for number in 0..TOPICS {
        for replay in topic(number) {
            assert!(rt; has_one_report(&rt, rt.alloc(), replay)?, "{}", replay.name);
        }
    }
    Ok(())
}
