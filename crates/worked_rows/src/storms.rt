// Storms, and the summaries of histories.
use crate::calls::{answers, joined};
use crate::ports::{call, open_sink, open_source};
use omid_top::OpenGate;
use std::test::Fail;
use worked_texts::commits::PLAIN_PATH;
use worked_texts::takeovers::{LATE_PUT, TAKEN_OVER};

/// How many transactions, and the summary of their history.
static STORMS: [(&str, &str); 6] = [
    (
        "1",
        "transactions=1 committed=1 conflict=0 hidden=0 other=0 items=17\n",
    ),
    (
        "2",
        "transactions=2 committed=2 conflict=0 hidden=0 other=0 items=31\n",
    ),
    (
        "4",
        "transactions=4 committed=4 conflict=0 hidden=0 other=0 items=59\n",
    ),
    (
        "5",
        "transactions=5 committed=5 conflict=0 hidden=0 other=0 items=75\n",
    ),
    (
        "2000",
        "transactions=2000 committed=1904 conflict=96 hidden=0 other=30 items=28867\n",
    ),
    (
        "20000",
        "transactions=20000 committed=19034 conflict=966 hidden=0 other=300 items=288647\n",
    ),
];

/// A script in pieces, and the summary of its history.
static SUMMARIES: [(&[&str], &str); 3] = [
    (
        &[PLAIN_PATH],
        "transactions=2 committed=1 conflict=0 hidden=0 other=0 items=20\n",
    ),
    (
        &[TAKEN_OVER, LATE_PUT],
        "transactions=2 committed=0 conflict=0 hidden=0 other=1 items=23\n",
    ),
    (
        &[],
        "transactions=0 committed=0 conflict=0 hidden=0 other=0 items=0\n",
    ),
];

// Behind functions, a proof that goes over the rows does not look into their texts.

fn storms() -> &'static [(&'static str, &'static str)] {
    &STORMS
}

fn summaries() -> &'static [(&'static [&'static str], &'static str)] {
    &SUMMARIES
}

#[test]
fn each_storm_is_summed_up(rt: HostRuntime) -> Result<(), Fail> {
    for (transactions, summary) in storms() {
        let words = ["storm", *transactions];
        assert!(rt;
            answers(&rt, rt.alloc(), &words, b"a", summary.as_bytes(), 0)?,
            "{transactions}"
        );
    }
    Ok(())
}

#[test]
fn each_history_is_summed_up(rt: HostRuntime) -> Result<(), Fail> {
    let words = ["replay", "summary"];
    for (script, summary) in summaries() {
        let script = joined(rt.alloc(), script)?;
        assert!(rt;
            answers(&rt, rt.alloc(), &words, &script, summary.as_bytes(), 0)?,
            "{summary}"
        );
    }
    Ok(())
}

/// A storm asks nothing of its source, whose first read fails, and its one write can fail.
#[test]
fn a_storm_reads_nothing(rt: HostRuntime) -> Result<(), Fail> {
    for (failing, ended) in [(2, 0), (1, 5)] {
        let mut source = open_source(rt.alloc(), b"", &[1])?;
        let mut sink = open_sink(rt.alloc(), 1024, &[failing])?;
        let status = call(
            &rt,
            rt.alloc(),
            &["storm", "1"],
            &mut source,
            &mut sink,
            &OpenGate,
        )?;
        assert_eq!(rt; status, ended);
    }
    Ok(())
}
