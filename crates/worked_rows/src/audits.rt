// What the program says of histories that it audits, byte for byte.
use crate::calls::answers;
use crate::told::{Told, first_unlike};
use std::alloc::{AllocError, Global};
use std::sync::Wait;
use std::test::Fail;
use std::thread::Threads;
use worked_texts::commits::PLAIN_HISTORY;

/// One item of each kind.
const EACH_KIND: &str =
    "tick 12\nnote s1 post p\ntake a reading=0 term=1 epoch=0 until=10 ceiling=100\nrenew a reading=5 term=1 until=15\nextend a term=1 ceiling=200\nask-begin s1 a\naccept s1 a term=1 reading=0\ndraw s1 a term=1 start=1\nbegin s1 start=1\nwrite s1 start=1 k0 v\nread s1 start=1 k0 from=1 v\nask-commit s1 a start=1\nplaced start=1 commit=2\ncommitted s1 start=1 commit=2\nmark janitor start=7\nstep s1 fetch k0 cells=2\nend s1 start=3 read-only\nrefused s1 busy\nfault a table\ncrash a term=1\nvanish s1\n";

/// Each of two transactions reads a key that the other writes, and both commit; and the same as JSON.
const SKEW: &str =
    "begin s0 start=1\nbegin s1 start=2\nread s0 start=1 k0 none\nwrite s0 start=1 k1 p\nread s1 start=2 k1 none\nwrite s1 start=2 k0 q\nplaced start=1 commit=3\nplaced start=2 commit=4\n";

const SKEW_JSON: &str = r#"{"kind":"begin","session":"s0","start":1}
{"kind":"begin","session":"s1","start":2}
{"key":"k0","kind":"read","session":"s0","start":1}
{"key":"k1","kind":"write","session":"s0","start":1,"value":"p"}
{"key":"k1","kind":"read","session":"s1","start":2}
{"key":"k0","kind":"write","session":"s1","start":2,"value":"q"}
{"commit":3,"kind":"placed","start":1}
{"commit":4,"kind":"placed","start":2}
"#;

/// Histories, and what an audit says of each.
static AUDITS: [Told; 19] = [
    // nothing: no bytes, and lines that say nothing
    ("", "isolated items=0\n", 0),
    ("\n\n", "isolated items=0\n", 0),
    // plain_path; below, the last line feed is missing
    (PLAIN_HISTORY, "isolated items=20\n", 0),
    (EACH_KIND, "isolated items=21\n", 0),
    (
        "begin s0 start=1\n\nwrite s0 start=1 k0 v\n\n\nplaced start=1 commit=2",
        "isolated items=3\n",
        0,
    ),
    // Two writers of one key, both committed.
    (
        "ask-begin s0 a\nbegin s0 start=1\nask-begin s1 a\nbegin s1 start=2\nwrite s0 start=1 k0 p\nwrite s1 start=2 k0 q\nplaced start=1 commit=3\nplaced start=2 commit=4\n",
        "not isolated: apart 7 8\n",
        7,
    ),
    // late_put: a commit that is placed after a read counts, and items are numbered without empty lines
    (
        "begin s0 start=1\nwrite s0 start=1 k0 v\nbegin s1 start=101\nread s1 start=101 k0 none\nplaced start=1 commit=2\n",
        "not isolated: read 4 2\n",
        7,
    ),
    (
        "\n\nbegin s0 start=1\nwrite s0 start=1 k0 v\n\nbegin s1 start=101\nread s1 start=101 k0 none\nplaced start=1 commit=2\n",
        "not isolated: read 4 2\n",
        7,
    ),
    // The same cut short; lines are numbered with the empty ones.
    (
        "begin s0 start=1\nwrite s0 start=1 k0 v\nbegin s1 start=101\nread s1 start=101 k0 none\nplaced start=1 com",
        "history line 5: not an item\n",
        3,
    ),
    (
        "\n\nbegin s0 start=1\n\nbegin s0\nbegin s1\n",
        "history line 5: not an item\n",
        3,
    ),
    // The rule on stamps is tried first.
    (
        "placed start=2 commit=1\nread s0 start=5 k0 none\n",
        "not isolated: stamped 1 1\n",
        7,
    ),
    (
        "placed start=1 commit=9\nbegin s0 start=9\n",
        "not isolated: stamped 1 2\n",
        7,
    ),
    // A commit that was placed before a begin was asked for, and one that was not.
    (
        "placed start=1 commit=9\nask-begin s0 a\nbegin s0 start=5\n",
        "not isolated: fresh 1 3\n",
        7,
    ),
    (
        "ask-begin s0 a\nplaced start=1 commit=9\nbegin s0 start=5\n",
        "isolated items=3\n",
        0,
    ),
    // A read of what nobody wrote.
    (
        "read s0 start=5 k0 from=1 v\n",
        "not isolated: read 1 1\n",
        7,
    ),
    // No carriage return is dropped, and blanks are no empty line.
    ("tick 1\r\n", "history line 1: not an item\n", 3),
    ("tick 1\n \n", "history line 2: not an item\n", 3),
    // A script is no history.
    ("a take\n", "history line 1: not an item\n", 3),
    (SKEW, "isolated items=8\n", 0),
];

/// The same of audits that ask for a serial history too.
static STRICT: [Told; 6] = [
    (SKEW, "not isolated: serial 5 7\n", 7),
    (SKEW_JSON, "not isolated: serial 5 7\n", 7),
    (PLAIN_HISTORY, "isolated items=20\n", 0),
    // The second of the two does not commit.
    (
        "begin s0 start=1\nbegin s1 start=2\nread s0 start=1 k0 none\nwrite s0 start=1 k1 p\nread s1 start=2 k1 none\nwrite s1 start=2 k0 q\nplaced start=1 commit=3\n",
        "isolated items=7\n",
        0,
    ),
    // Neither apart nor serial: isolation is judged first.
    (
        "begin s0 start=1\nbegin s1 start=2\nread s1 start=2 k0 none\nwrite s0 start=1 k0 p\nwrite s1 start=2 k0 q\nplaced start=1 commit=3\nplaced start=2 commit=4\n",
        "not isolated: apart 6 7\n",
        7,
    ),
    ("a take\n", "history line 1: not an item\n", 3),
];

// Behind functions, a proof that goes over the rows does not look into their texts.

fn audits() -> &'static [Told] {
    &AUDITS
}

fn strict() -> &'static [Told] {
    &STRICT
}

/// A history of 9,000 items, whose transactions come one after the other. The last two end with the items 8997 and 9000, at the
/// commits 29985 and 29995.
fn long_history(alloc: Global) -> Result<Vec<u8>, AllocError> {
    let mut text = Vec::new(alloc);
    for number in 0..3000_u64 {
        let key = number % 8;
        let start = 10 * number + 1;
        let commit = start + 4;
        let items = format!(in alloc;
            "begin s0 start={start}\nwrite s0 start={start} k{key} v\nplaced start={start} commit={commit}\n"
        )?;
        text.extend_from_slice(items.as_bytes())?;
    }
    Ok(text)
}

/// What may stand behind that history, and what an audit says then.
static LONG: [Told; 5] = [
    ("", "isolated items=9000\n", 0),
    (
        "begin s0 start=29985\n",
        "not isolated: stamped 8997 9001\n",
        7,
    ),
    (
        "write s0 start=29993 k7 v\nplaced start=29993 commit=29999\n",
        "not isolated: apart 9000 9002\n",
        7,
    ),
    (
        "read s0 start=30001 k7 none\n",
        "not isolated: read 9001 8999\n",
        7,
    ),
    (
        "begin s0 start=29993\n",
        "not isolated: fresh 9000 9001\n",
        7,
    ),
];

fn long() -> &'static [Told] {
    &LONG
}

/// Whether an audit says so of the history with the last items behind it.
fn is_judged_behind<R: Threads + Wait + Sync>(
    rt: &R,
    alloc: Global,
    history: &[u8],
    last: &str,
    report: &str,
    ended: u8,
) -> Result<bool, AllocError> {
    let mut whole = history.to_vec(alloc)?;
    whole.extend_from_slice(last.as_bytes())?;
    answers(rt, alloc, &["audit"], &whole, report.as_bytes(), ended)
}

#[test]
fn histories_are_judged(rt: HostRuntime) -> Result<(), Fail> {
    assert_eq!(rt; first_unlike(&rt, rt.alloc(), &["audit"], audits())?, None);
    Ok(())
}

#[test]
fn histories_are_judged_strictly(rt: HostRuntime) -> Result<(), Fail> {
    let words = ["audit", "strict"];
    assert_eq!(rt; first_unlike(&rt, rt.alloc(), &words, strict())?, None);
    Ok(())
}

#[test]
fn long_histories_are_judged(rt: HostRuntime) -> Result<(), Fail> {
    let history = long_history(rt.alloc())?;
    for (last, report, ended) in long() {
        assert!(rt;
            is_judged_behind(&rt, rt.alloc(), &history, last, report, *ended)?,
            "{last}"
        );
    }
    Ok(())
}
