// The verdicts of the five traces of real stores, and what is said of a trace that is not decided.
use crate::check::omid_check;
use crate::status;
use crate::traces::{
    MARIADB_REPEATABLE_READ, MARIADB_SNAPSHOT_ISOLATION, POSTGRES_READ_COMMITTED,
    POSTGRES_REPEATABLE_READ, POSTGRES_SERIALIZABLE,
};
use port_io::{MemSink, MemSource};
use std::alloc::{AllocError, Global};
use std::process::Abort;
use std::test::Fail;

/// Each trace with its statuses for `snapshot` and for `serializable`.
static VERDICTS: [(&'static str, u8, u8); 5] = [
    (POSTGRES_READ_COMMITTED, status::REFUSED, status::REFUSED),
    (POSTGRES_REPEATABLE_READ, status::DONE, status::REFUSED),
    (POSTGRES_SERIALIZABLE, status::DONE, status::DONE),
    (MARIADB_REPEATABLE_READ, status::UNDECIDED, status::REFUSED),
    (MARIADB_SNAPSHOT_ISOLATION, status::DONE, status::DONE),
];

fn bytes_of(alloc: Global, text: &str) -> Result<Vec<u8>, AllocError> {
    let mut bytes = Vec::new(alloc);
    bytes.extend_from_slice(text.as_bytes())?;
    Ok(bytes)
}

/// The status of a call with this word, and what the sink has then.
fn called(alloc: Global, word: &str, trace: &str) -> Result<(u8, Vec<u8>), Fail> {
    let mut words = Vec::new(alloc);
    words.push(word.to_string(alloc)?)?;
    let mut source = MemSource::new(bytes_of(alloc, trace)?, vec![in alloc; 0; 1]?);
    let mut sink = MemSink::open(alloc, 20_000, vec![in alloc; 0; 1]?)?;
    let code = omid_check(alloc, &words, &mut source, &mut sink);
    let mut held = Vec::new(alloc);
    held.extend_from_slice(sink.bytes())?;
    Ok((code, held))
}

#[test]
fn real_traces_have_their_verdicts(rt: HostRuntime) -> Result<(), Fail> {
    for (trace, snapshot, serializable) in &VERDICTS {
        let (code, held) = called(rt.alloc(), "snapshot", *trace)?;
        assert_eq!(rt; code, *snapshot);
        let (code, held) = called(rt.alloc(), "serializable", *trace)?;
        assert_eq!(rt; code, *serializable);
    }
    Ok(())
}

#[test]
fn an_undecided_trace_names_its_key(rt: HostRuntime) -> Result<(), Fail> {
    let (code, held) = called(rt.alloc(), "snapshot", MARIADB_REPEATABLE_READ)?;
    assert_eq!(rt; code, status::UNDECIDED);
    assert_eq!(rt;
        str::from_utf8(held.as_slice()),
        Ok("not decided: writers of 0\n")
    );
    Ok(())
}
