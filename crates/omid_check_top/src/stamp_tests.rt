// Histories with stamps, read and judged as an audit does it.
use crate::check::omid_check;
use crate::status;
use crate::traces::{MARIADB_SNAPSHOT_ISOLATION, POSTGRES_REPEATABLE_READ, POSTGRES_SERIALIZABLE};
use history_json::read_history;
use port_io::{MemSink, MemSource};
use si_judge::{Verdict, judge};
use std::alloc::{AllocError, Global};
use std::process::Abort;
use std::test::Fail;

/// Each call with its trace, and how many items it writes: three for each transaction that committed, and one for each of its
/// operations.
static SHOWN: [(&'static str, &'static str, usize); 4] = [
    ("stamps snapshot", POSTGRES_REPEATABLE_READ, 239),
    ("stamps serializable session", POSTGRES_SERIALIZABLE, 226),
    ("stamps serializable", MARIADB_SNAPSHOT_ISOLATION, 233),
    ("stamps snapshot real-time", MARIADB_SNAPSHOT_ISOLATION, 233),
];

/// A value that no history tells.
const BLANK: &str = r#"{"type": "ok", "process": 0, "value": [["w", "x", "a b"]]}
"#;

fn bytes_of(alloc: Global, text: &str) -> Result<Vec<u8>, AllocError> {
    let mut bytes = Vec::new(alloc);
    bytes.extend_from_slice(text.as_bytes())?;
    Ok(bytes)
}

/// The status of a call, and what was written.
fn called(alloc: Global, words: &str, trace: &str) -> Result<(u8, Vec<u8>), Fail> {
    let mut all = Vec::new(alloc);
    for word in words.split(' ') {
        all.push(word.to_string(alloc)?)?;
    }
    let mut source = MemSource::new(bytes_of(alloc, trace)?, vec![in alloc; 0; 1]?);
    let mut sink = MemSink::open(alloc, 20_000, vec![in alloc; 0; 1]?)?;
    let code = omid_check(alloc, &all, &mut source, &mut sink);
    let mut held = Vec::new(alloc);
    held.extend_from_slice(sink.bytes())?;
    Ok((code, held))
}

/// How many items the bytes are, where they are a history that is isolated.
fn isolated_items(alloc: Global, bytes: &[u8]) -> Option<usize> {
    let Ok(items) = read_history(alloc, bytes) else {
        return None;
    };
    match judge(alloc, &items) {
        Ok(Verdict::Isolated) => Some(items.len()),
        _ => None,
    }
}

#[test]
fn histories_with_stamps_are_isolated(rt: HostRuntime) -> Result<(), Fail> {
    for (words, trace, items) in &SHOWN {
        let (code, held) = called(rt.alloc(), *words, *trace)?;
        assert_eq!(rt; code, status::DONE);
        assert_eq!(rt; isolated_items(rt.alloc(), &held), Some(*items));
    }
    Ok(())
}

#[test]
fn a_limit_is_named(rt: HostRuntime) -> Result<(), Fail> {
    let (code, held) = called(rt.alloc(), "stamps snapshot", BLANK)?;
    assert_eq!(rt; code, status::UNFIT);
    assert_eq!(rt;
        str::from_utf8(held.as_slice()),
        Ok("no history: a value is not of 1 to 64 visible bytes\n")
    );
    Ok(())
}
