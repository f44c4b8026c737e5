// Sources and sinks that fail, or move a byte at a time.
use crate::drips::{DripSink, DripSource};
use crate::failing::{first_lines, keeps_lines, reads_nothing};
use crate::ports::{call, open_sink, open_source};
use omid_top::OpenGate;
use std::alloc::{AllocError, Global};
use std::sync::Wait;
use std::test::Fail;
use std::thread::Threads;
use worked_texts::commits::{PLAIN_HISTORY, PLAIN_PATH};
use worked_texts::json::PLAIN_JSON;

/// Words and what they read, the text that they write, in so many writes, and the status.
struct Call {
    words: &'static [&'static str],
    input: &'static str,
    text: &'static str,
    writes: usize,
    ended: u8,
}

static CALLS: [Call; 4] = [
    // Histories go out line by line.
    Call {
        words: &["replay"],
        input: PLAIN_PATH,
        text: PLAIN_HISTORY,
        writes: 20,
        ended: 0,
    },
    Call {
        words: &["replay", "json"],
        input: PLAIN_PATH,
        text: PLAIN_JSON,
        writes: 20,
        ended: 0,
    },
    // What the plain path leaves goes out at once, and so does a report.
    Call {
        words: &["replay", "compact", "3"],
        input: PLAIN_PATH,
        text: "k0 from=1 v\nrows before=1 after=1 water=3\n",
        writes: 1,
        ended: 0,
    },
    Call {
        words: &["audit"],
        input: "placed start=2 commit=1\n",
        text: "not isolated: stamped 1 1\n",
        writes: 1,
        ended: 7,
    },
];

/// Behind a function, a proof that goes over the rows does not look into their texts.
fn calls() -> &'static [Call] {
    &CALLS
}

/// Whether two lines of the text went out to a sink that has room for no more.
fn fills_the_sink<R: Threads + Wait + Sync>(
    rt: &R,
    alloc: Global,
    made: &Call,
) -> Result<bool, AllocError> {
    let lines = first_lines(alloc, made.text, 2)?;
    let mut source = open_source(alloc, made.input.as_bytes(), &[])?;
    let mut sink = open_sink(alloc, lines.len(), &[])?;
    let status = call(rt, alloc, made.words, &mut source, &mut sink, &OpenGate)?;
    Ok(status == 5 && sink.bytes() == lines.as_slice())
}

/// Whether the text goes out where each read gives one byte and each write takes one.
fn drips<R: Threads + Wait + Sync>(rt: &R, alloc: Global, made: &Call) -> Result<bool, AllocError> {
    let bytes = made.input.as_bytes().to_vec(alloc)?;
    let mut source = DripSource { bytes, at: 0 };
    let bytes = Vec::new(alloc);
    let mut sink = DripSink { bytes, faults: 0 };
    let status = call(rt, alloc, made.words, &mut source, &mut sink, &OpenGate)?;
    Ok(status == made.ended && sink.bytes.as_slice() == made.text.as_bytes())
}

#[test]
fn a_source_that_fails_gives_nothing(rt: HostRuntime) -> Result<(), Fail> {
    for Call { words, input, .. } in calls() {
        for number in 1..3 {
            assert!(rt; reads_nothing(&rt, rt.alloc(), words, input, number)?);
        }
    }
    Ok(())
}

#[test]
fn a_sink_that_fails_keeps_whole_lines(rt: HostRuntime) -> Result<(), Fail> {
    for made in calls() {
        for sent in 0..made.writes {
            assert!(rt; keeps_lines(&rt, rt.alloc(), made.words, made.input, made.text, sent)?);
        }
    }
    Ok(())
}

#[test]
fn a_sink_that_takes_nothing_more_ends_the_program(rt: HostRuntime) -> Result<(), Fail> {
    for made in calls() {
        // What goes out at once has no first lines.
        if made.writes > 1 {
            assert!(rt; fills_the_sink(&rt, rt.alloc(), made)?);
        }
    }
    Ok(())
}

#[test]
fn a_byte_at_a_time_is_enough(rt: HostRuntime) -> Result<(), Fail> {
    for made in calls() {
        assert!(rt; drips(&rt, rt.alloc(), made)?);
    }
    Ok(())
}
