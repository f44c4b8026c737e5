// Each public call with ample memory, and reads, writes and store calls that fail by number.
use port_io::{
    CalmWeather, Failed, Fate, MemSink, MemSource, OneFate, PlannedWeather, ReadStop, Sink,
    SinkStop, SinkWhy, Source, StdSink, StdSource, Store, Weather, read_up_to, write_all_of,
};
use stamp_base::NoMemory;
use std::alloc::{AllocError, Global};
use std::fs;
use std::test::Fail;

fn bytes_of(alloc: Global, text: &[u8]) -> Result<Vec<u8>, AllocError> {
    let mut bytes = Vec::new(alloc);
    bytes.extend_from_slice(text)?;
    Ok(bytes)
}

fn numbers_of(alloc: Global, numbers: &[u64]) -> Result<Vec<u64>, AllocError> {
    let mut all = Vec::new(alloc);
    all.extend_from_slice(numbers)?;
    Ok(all)
}

fn hello(alloc: Global, failing: &[u64]) -> Result<MemSource, AllocError> {
    let (bytes, failing) = (bytes_of(alloc, b"hello")?, numbers_of(alloc, failing)?);
    Ok(MemSource::new(bytes, failing))
}

#[test]
fn reads_to_the_end_within_the_limit(rt: HostRuntime) -> Result<(), Fail> {
    let alloc = rt.alloc();
    let bytes = read_up_to(alloc, &mut hello(alloc, &[3])?, 5)?;
    assert_eq!(rt; bytes.as_slice(), b"hello".as_slice());
    for (failing, limit, stop) in [
        (3, 4, ReadStop::TooLong),
        (1, 5, ReadStop::Failed),
        (2, 5, ReadStop::Failed),
    ] {
        let told = read_up_to(alloc, &mut hello(alloc, &[failing])?, limit);
        assert_eq!(rt; told.err(), Some(stop));
    }
    Ok(())
}

// More than one piece.
#[test]
fn reads_long_input(rt: HostRuntime) -> Result<(), Fail> {
    let long = vec![in rt.alloc(); 7u8; 20_000]?;
    let mut source = MemSource::new(long, Vec::new(rt.alloc()));
    let bytes = read_up_to(rt.alloc(), &mut source, 20_000)?;
    assert_eq!(rt; bytes.len(), 20_000);
    Ok(())
}

/// What a sink of so much room holds after `hello`, and why it took no more.
fn written(
    alloc: Global,
    room: usize,
    failing: &[u64],
) -> Result<(MemSink, Option<SinkStop>), NoMemory> {
    let mut sink = MemSink::open(alloc, room, numbers_of(alloc, failing)?)?;
    let stop = write_all_of(&mut sink, b"hello").err();
    Ok((sink, stop))
}

#[test]
fn writes_all_that_fits(rt: HostRuntime) -> Result<(), Fail> {
    let (sink, stop) = written(rt.alloc(), 5, &[])?;
    assert_eq!(rt; stop, None);
    assert_eq!(rt; sink.bytes(), b"hello".as_slice());
    for (failing, why) in [(3, SinkWhy::TookNothing), (2, SinkWhy::Failed)] {
        let (sink, stop) = written(rt.alloc(), 3, &[failing])?;
        assert_eq!(rt; stop, Some(SinkStop { sent: 3, why }));
        assert_eq!(rt; sink.bytes(), b"hel".as_slice());
    }
    Ok(())
}

// A failed read or write takes nothing, and the next one goes on.
#[test]
fn goes_on_after_a_failure(rt: HostRuntime) -> Result<(), Fail> {
    let mut source = hello(rt.alloc(), &[2])?;
    let mut piece = [0u8; 3];
    for (want, front) in [(Ok(3), b'h'), (Err(Failed), b'h'), (Ok(2), b'l')] {
        assert_eq!(rt; source.read(&mut piece), want);
        assert_eq!(rt; piece[0], front);
    }
    let mut sink = MemSink::open(rt.alloc(), 3, numbers_of(rt.alloc(), &[2])?)?;
    for want in [Ok(2), Err(Failed), Ok(1), Ok(0)] {
        assert_eq!(rt; sink.write(b"xy"), want);
    }
    Ok(())
}

#[test]
fn fails_the_planned_calls(rt: HostRuntime) -> Result<(), Fail> {
    let faults = vec![in rt.alloc(); (Store::Cells, 2, Fate::FailsApplied)]?;
    let mut planned = PlannedWeather::new(faults);
    for (store, want) in [
        (Store::Cells, Fate::Works),
        (Store::Master, Fate::Works),
        (Store::Cells, Fate::FailsApplied),
        (Store::Cells, Fate::Works),
    ] {
        assert_eq!(rt; planned.next(store), want);
    }
    assert_eq!(rt; CalmWeather::new().next(Store::Table), Fate::Works);
    Ok(())
}

#[test]
fn one_fate_for_every_call(rt: HostRuntime) {
    for (fate, works, applies) in [
        (Fate::Works, true, true),
        (Fate::FailsUnchanged, false, false),
        (Fate::FailsApplied, false, true),
    ] {
        assert_eq!(rt; (fate.works(), fate.applies()), (works, applies));
        let mut weather = OneFate::new(fate);
        assert_eq!(rt; weather.next(Store::Table), fate);
        assert_eq!(rt; weather.next(Store::Cells), fate);
    }
}

/// A file where tests are run, which can be read back.
const STANDARD_OUTPUT: &str = "/dev/stdout";

const WRITTEN: &[u8] = b"kept, then written\n";

// Where tests are run, standard input is at its end.
#[test]
fn stands_on_the_system(rt: HostRuntime) -> Result<(), Fail> {
    let mut source = StdSource::new(rt.stdin());
    let mut piece = [7; 4];
    assert_eq!(rt; source.read(&mut piece), Ok(0));
    assert_eq!(rt; piece, [7; 4]);
    let mut sink = StdSink::new(rt.stdout());
    assert_eq!(rt; write_all_of(&mut sink, WRITTEN), Ok(()));
    assert_eq!(rt; sink.finish(), Ok(()));
    let held = fs::read(&rt, STANDARD_OUTPUT).ok().ok_or("no file")?;
    assert!(rt; held.as_slice().ends_with(WRITTEN));
    Ok(())
}
