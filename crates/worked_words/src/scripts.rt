// Scripts of each kind of line, bad ones, and the longest.
use port_io::Fate;
use session_script::{Mode, ScriptFault, Verb, read_script};
use stamp_base::{Setup, Stage, Store};
use std::alloc::Global;
use std::test::Fail;

/// A script, its first bad line and the cause, in either mode.
static BAD: [(&str, u64, &str); 81] = [
    // The first bad line.
    ("a\0take", 1, "bad byte"),
    ("\0", 1, "bad byte"),
    ("a take\r", 1, "bad byte"),
    ("a take\r\r\n", 1, "bad byte"),
    ("q\x7f", 1, "bad byte"),
    ("nodes 3\nd take", 2, "unknown actor"),
    ("nodes 1\nb take", 2, "unknown actor"),
    ("lease", 1, "wrong number of words"),
    ("lease 5 5", 1, "wrong number of words"),
    ("buckets 1", 1, "wrong number of words"),
    ("fault cells 1", 1, "wrong number of words"),
    ("cache", 1, "wrong number of words"),
    ("commits", 1, "wrong number of words"),
    ("# a take\n\n \t\na take\nq\n\0", 5, "unknown actor"),
    ("a take\r\nq\r\n", 2, "unknown actor"),
    ("a take\ns1 begin z", 2, "unknown node"),
    ("nodes 1\ns1 begin b", 2, "unknown node"),
    // What is wrong with a setup line.
    ("nodes 0", 1, "out of range"),
    ("nodes 9", 1, "out of range"),
    ("nodes two", 1, "bad number"),
    ("lease 0", 1, "out of range"),
    ("lease 1000001", 1, "out of range"),
    ("skew 1000001", 1, "out of range"),
    ("skew -1", 1, "bad number"),
    ("range 0", 1, "out of range"),
    ("range 4611686018427387905", 1, "out of range"),
    ("range 12345678901234567890", 1, "bad number"),
    ("buckets 0 4", 1, "out of range"),
    ("buckets 4097 x", 1, "out of range"),
    ("buckets 64 x", 1, "bad number"),
    ("buckets 64 0", 1, "out of range"),
    ("buckets 64 65", 1, "out of range"),
    ("slots 0", 1, "out of range"),
    ("slots 1025", 1, "out of range"),
    ("batch 257", 1, "out of range"),
    ("workers 0", 1, "out of range"),
    ("workers 9", 1, "out of range"),
    ("lead a 3", 1, "out of range"),
    ("skew 1\nlead a 2", 2, "out of range"),
    ("lead c 1", 1, "unknown node"),
    ("lead c x", 1, "unknown node"),
    ("lead master 1", 1, "unknown node"),
    ("lead a x", 1, "bad number"),
    ("fault cell 0 none", 1, "unknown store"),
    ("fault cells x none", 1, "bad number"),
    ("fault table 0 none", 1, "out of range"),
    ("fault table 1000001 none", 1, "out of range"),
    ("fault master 1 none", 1, "unknown kind"),
    ("fault master 1 works", 1, "unknown kind"),
    ("cache x", 1, "bad number"),
    ("commits late", 1, "unknown kind"),
    ("reads serial", 1, "unknown kind"),
    // Setup lines stand in front, and each once.
    ("a take\nlease 5", 2, "setup order"),
    ("a take\nlease 0", 2, "out of range"),
    ("a post p\nfault cells 1 applied", 2, "setup order"),
    ("lead a 1\nnodes 3", 2, "setup order"),
    ("lead a 1\nskew 3", 2, "setup order"),
    ("nodes 2\nlead a 0\nnodes 2", 3, "setup order"),
    ("skew 2\nlead b 0\nskew 2", 3, "setup order"),
    ("lease 5\na take\nlease 5", 3, "setup order"),
    ("a take\ncommits direct", 2, "setup order"),
    ("a take\nreads strict", 2, "setup order"),
    ("nodes 2\nnodes 2", 2, "setup twice"),
    ("nodes 2\nnodes 3", 2, "setup twice"),
    ("lease 5\n# again\nlease 6", 3, "setup twice"),
    ("skew 0\nskew 0", 2, "setup twice"),
    ("range 5\nrange 6", 2, "setup twice"),
    ("buckets 1 1\nbuckets 2 2", 2, "setup twice"),
    ("slots 1\nslots 2", 2, "setup twice"),
    ("batch 1\nbatch 2", 2, "setup twice"),
    ("workers 1\nworkers 2", 2, "setup twice"),
    ("lead a 1\nlead b 1\nlead a 1", 3, "setup twice"),
    ("commits direct\ncommits direct", 2, "setup twice"),
    ("reads strict\nreads strict", 2, "setup twice"),
    (
        "fault cells 1 applied\nfault table 1 applied\nfault cells 1 unchanged",
        3,
        "setup twice",
    ),
    // Names are posted in front of where they are awaited, and once.
    ("s0 await p", 1, "name not posted"),
    ("a post p\ns0 await p\ns1 await q", 3, "name not posted"),
    ("a post p\ns0 await P", 2, "name not posted"),
    ("s0 await p\na post p", 1, "name not posted"),
    ("a post p\ns0 post p", 2, "posted twice"),
    ("a post p\na post q\njanitor post q", 3, "posted twice"),
];

/// The same, of a script for threads.
static BAD_IN_A_RUN: [(&str, u64, &str); 3] = [
    ("a accept s0", 1, "replay only"),
    ("# run\n\na accept s0", 3, "replay only"),
    ("a hold persist\na accept s0", 2, "replay only"),
];

/// A script, and how many lines it has that are not empty.
static COUNTED: [(&str, usize); 15] = [
    ("", 0),
    ("\n\n \n", 0),
    ("# one\n  # two \x01\n\t\n#", 0),
    ("# any byte \0\r\na take", 1),
    ("a take", 1),
    ("\ta  take \t", 1),
    ("a take\r\n\r\ns0 begin a\r\n", 2),
    ("s15 read k4095\ns0 read k0\n", 2),
    ("lease 5\nb take\ns0 begin b", 2),
    ("commits direct\na take", 1),
    ("reads strict\na take", 1),
    ("cache 3\na accept s0\ns0 submit master", 2),
    (
        "s0 write k0 aaaaaaaaaaaaaaaaaaaaaaaaaaaaaaaaaaaaaaaaaaaaaaaaaaaaaaaaaaaaaaaa",
        1,
    ),
    ("s0 write k0 #", 1),
    (
        "clock post p\na await p\nb await p\ns0 post abcdefghijklmn-Z\njanitor await abcdefghijklmn-Z",
        5,
    ),
];

// Behind functions, a proof that goes over the rows does not look into their texts.

fn bad() -> &'static [(&'static str, u64, &'static str)] {
    &BAD
}

fn bad_in_a_run() -> &'static [(&'static str, u64, &'static str)] {
    &BAD_IN_A_RUN
}

fn counted() -> &'static [(&'static str, usize)] {
    &COUNTED
}

/// How many lines a script has, or its bad line and the text of the cause.
fn outcome(
    rt: &HostRuntime,
    bytes: &[u8],
    mode: Mode,
) -> Result<Result<usize, (u64, &'static [u8])>, Fail> {
    match read_script(rt.alloc(), bytes, mode) {
        Ok(script) => Ok(Ok(script.lines.len())),
        Err(ScriptFault::At { line, cause }) => Ok(Err((line, cause.text()))),
        Err(ScriptFault::NoMemory) => Err(Fail::from("no memory")),
    }
}

/// Each script is refused at the line for the cause.
fn refuses(rt: &HostRuntime, mode: Mode, rows: &[(&str, u64, &str)]) -> Result<(), Fail> {
    for (script, line, cause) in rows {
        match outcome(rt, script.as_bytes(), mode)? {
            Ok(_) => return Err(Fail::from(*script)),
            Err((at, text)) => {
                if at != *line || text != cause.as_bytes() {
                    return Err(Fail::from(*script));
                }
            }
        }
    }
    Ok(())
}

#[test]
fn names_the_first_bad_line(rt: HostRuntime) -> Result<(), Fail> {
    refuses(&rt, Mode::Replay, bad())?;
    refuses(&rt, Mode::Run, bad())?;
    refuses(&rt, Mode::Run, bad_in_a_run())?;
    refuses(&rt, Mode::Split, bad())
}

#[test]
fn counts_the_lines_of_a_script(rt: HostRuntime) -> Result<(), Fail> {
    for (script, count) in counted() {
        for mode in [Mode::Replay, Mode::Split] {
            if outcome(&rt, script.as_bytes(), mode)? != Ok(*count) {
                return Err(Fail::from(*script));
            }
        }
    }
    Ok(())
}

#[test]
fn takes_in_a_run_what_runs_take(rt: HostRuntime) -> Result<(), Fail> {
    let Ok(script) = read_script(rt.alloc(), b"# run\na hold persist\n", Mode::Run) else {
        return Err(Fail::from("no script"));
    };
    let [hold] = script.lines.as_slice() else {
        return Err(Fail::from("lines"));
    };
    let stage = Stage::Persist;
    assert_eq!(rt; hold.number, 2);
    assert!(rt; hold.verb == Verb::Hold { stage });
    Ok(())
}

#[test]
fn sets_what_setup_lines_say(rt: HostRuntime) -> Result<(), Fail> {
    let bytes =
        b"nodes 3\nlease 20\nskew 5\nrange 4611686018427387904\nbuckets 4096 64\nslots 1024\nbatch 256\nworkers 8\nlead c 5\nlead a 1\nfault table 3 applied\nfault cells 1000000 unchanged\n# now\nc take\n";
    let Ok(script) = read_script(rt.alloc(), bytes, Mode::Run) else {
        return Err(Fail::from("no script"));
    };
    let setup = script.setup;
    assert_eq!(rt;
        [setup.nodes, setup.lease, setup.skew, setup.range],
        [3, 20, 5, 1 << 62]
    );
    assert_eq!(rt; [setup.buckets, setup.width, setup.slots], [4096, 64, 1024]);
    assert_eq!(rt; [setup.batch, setup.workers, setup.cache], [256, 8, 0]);
    assert_eq!(rt; script.leads.as_slice(), [1, 0, 5].as_slice());
    let [table, cells] = script.faults.as_slice() else {
        return Err(Fail::from("faults"));
    };
    assert!(rt; *table == (Store::Table, 3, Fate::FailsApplied));
    assert!(rt; *cells == (Store::Cells, 1_000_000, Fate::FailsUnchanged));
    let [take] = script.lines.as_slice() else {
        return Err(Fail::from("lines"));
    };
    assert_eq!(rt; take.number, 14);
    Ok(())
}

#[test]
fn turns_on_what_setup_lines_name(rt: HostRuntime) -> Result<(), Fail> {
    let bytes = b"commits direct\ncache 2\nreads strict\na take\n";
    let Ok(script) = read_script(rt.alloc(), bytes, Mode::Run) else {
        return Err(Fail::from("no script"));
    };
    let setup = script.setup;
    assert!(rt; setup.direct);
    assert!(rt; setup.strict);
    assert_eq!(rt; setup.cache, 2);
    Ok(())
}

#[test]
fn sets_nothing_without_setup_lines(rt: HostRuntime) -> Result<(), Fail> {
    let Ok(script) = read_script(rt.alloc(), b"\n\nb take\n", Mode::Replay) else {
        return Err(Fail::from("no script"));
    };
    assert!(rt; script.setup == Setup::default());
    assert_eq!(rt; script.leads.as_slice(), [0, 0].as_slice());
    assert!(rt; script.faults.is_empty());
    assert_eq!(rt; script.lines.len(), 1);
    Ok(())
}

/// The text over and over.
fn repeated(alloc: Global, text: &str, times: usize) -> Result<Vec<u8>, Fail> {
    let mut bytes = Vec::new(alloc);
    for _ in 0..times {
        bytes.extend_from_slice(text.as_bytes())?;
    }
    Ok(bytes)
}

/// As many planned faults as there may be, and this text behind them.
fn behind_all_faults(alloc: Global, last: &str) -> Result<Vec<u8>, Fail> {
    let mut bytes = Vec::new(alloc);
    for number in 1..33 {
        let line = format!(in alloc; "fault cells {number} unchanged\n")?;
        bytes.extend_from_slice(line.as_bytes())?;
    }
    bytes.extend_from_slice(last.as_bytes())?;
    Ok(bytes)
}

#[test]
fn takes_as_much_as_it_may(rt: HostRuntime) -> Result<(), Fail> {
    let rows = [
        (behind_all_faults(rt.alloc(), "lease 1\na take")?, 1),
        (repeated(rt.alloc(), "clock tick 1\n", 131_072)?, 131_072),
        (repeated(rt.alloc(), "\n", 16_777_216)?, 0),
    ];
    for (script, count) in &rows {
        assert!(rt; outcome(&rt, script, Mode::Run)? == Ok(*count), "{count}");
    }
    Ok(())
}

#[test]
fn takes_no_more(rt: HostRuntime) -> Result<(), Fail> {
    let rows: [(Vec<u8>, u64, &str); 4] = [
        (
            behind_all_faults(rt.alloc(), "fault cells 33 unchanged")?,
            33,
            "too many faults",
        ),
        (
            behind_all_faults(rt.alloc(), "fault cells 32 applied")?,
            33,
            "setup twice",
        ),
        (
            repeated(rt.alloc(), "clock tick 1\n", 131_073)?,
            131_073,
            "too many lines",
        ),
        (repeated(rt.alloc(), "\n", 16_777_217)?, 0, "too long"),
    ];
    for (script, line, cause) in &rows {
        assert!(rt;
            outcome(&rt, script, Mode::Replay)? == Err((*line, cause.as_bytes())),
            "{cause}"
        );
    }
    Ok(())
}

/// As many names as there are lines for, each posted and awaited.
fn very_many_names(alloc: Global) -> Result<Vec<u8>, Fail> {
    let mut bytes = Vec::new(alloc);
    for number in 0..65_536 {
        let lines = format!(in alloc; "a post n{number}\nb await n{number}\n")?;
        bytes.extend_from_slice(lines.as_bytes())?;
    }
    Ok(bytes)
}

#[test]
fn reads_very_many_names(rt: HostRuntime) -> Result<(), Fail> {
    let script = very_many_names(rt.alloc())?;
    assert!(rt; outcome(&rt, &script, Mode::Run)? == Ok(131_072));
    Ok(())
}
