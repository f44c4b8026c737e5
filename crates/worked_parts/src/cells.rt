// Each call where it works and where it fails, and the front of a key with several versions.
ghost use Rattle.std.specs.Prelude.{◌≡◌};
ghost use Rattle.cell_store.specs.Calls.{looked};

use crate::numbers::{stamp, value};
use cell_store::{Cell, Cells, StoreError, StoreFault};
use port_io::{CalmWeather, Fate, OneFate};
use stamp_base::{KeyNo, Stamp};
use std::alloc::Global;
use std::test::Fail;

/// Where the weather is calm, a call does not fail.
fn cell_at(cells: &Cells, key: KeyNo, version: Stamp) -> Option<Cell>
    ensures { result ≡ looked cells.now.rows key version }
{
    match cells.look(&mut CalmWeather::new(), key, version) {
        Ok(found) => found,
        Err(StoreFault) => unreachable!(),
    }
}

/// A put of an x, unless the row has a shadow.
fn put(
    cells: &mut Cells,
    fate: Fate,
    key: KeyNo,
    version: Stamp,
) -> Option<Result<(), StoreError>> {
    let x = value(b"x")?;
    match cell_at(cells, key, version) {
        Some(
            Cell {
                shadow: Some(_),
                ..
            },
        ) => None,
        _ => Some(cells.put(&mut OneFate::new(fate), key, version, x)),
    }
}

/// A shadow is set, unless one is there.
fn set_shadow(
    cells: &mut Cells,
    fate: Fate,
    key: KeyNo,
    version: Stamp,
    commit: Stamp,
) -> Option<Result<(), StoreFault>> {
    match cell_at(cells, key, version) {
        Some(
            Cell {
                shadow: Some(_),
                ..
            },
        ) => None,
        _ => Some(cells.set_shadow(&mut OneFate::new(fate), key, version, commit)),
    }
}

/// A row is put, and has a shadow 5 later if 10 divides its version.
fn add(cells: &mut Cells, key: KeyNo, version: u64) -> Option<()> {
    let row = stamp(version);
    put(cells, Fate::Works, key, row)?.ok()?;
    if version % 10 == 0 {
        let commit = stamp(version.saturating_add(5));
        return set_shadow(cells, Fate::Works, key, row, commit)?.ok();
    }
    Some(())
}

/// Versions 1 to 60 of the key, of which those that 10 divides are committed 5 later.
fn committed_by_tens(alloc: Global, key: KeyNo) -> Option<Cells> {
    let mut cells = Cells::new(alloc);
    for number in 1..61u64 {
        add(&mut cells, key, number)?;
    }
    Some(cells)
}

/// One bare row.
fn one_row(alloc: Global, key: KeyNo, version: Stamp) -> Option<Cells> {
    let mut cells = Cells::new(alloc);
    put(&mut cells, Fate::Works, key, version)?.ok()?;
    Some(cells)
}

fn shadow_at(cells: &Cells, key: KeyNo, version: Stamp) -> Option<Stamp> {
    cell_at(cells, key, version)?.shadow
}

#[test]
fn a_row_is_shadowed(rt: HostRuntime) -> Result<(), Fail> {
    let (key, version) = (KeyNo::LAST, Stamp::FIRST);
    let mut cells = one_row(rt.alloc(), key, version).ok_or("a row")?;
    let set = set_shadow(&mut cells, Fate::Works, key, version, Stamp::LAST);
    assert_eq!(rt; set, Some(Ok(())));
    assert_eq!(rt; shadow_at(&cells, key, version), Some(Stamp::LAST));
    Ok(())
}

#[test]
fn a_row_is_removed(rt: HostRuntime) -> Result<(), Fail> {
    let (key, version) = (KeyNo::FIRST, Stamp::LAST);
    let mut cells = one_row(rt.alloc(), key, version).ok_or("a row")?;
    let removed = cells.remove_bare(&mut CalmWeather::new(), key, version);
    assert_eq!(rt; removed, Ok(()));
    assert_eq!(rt; cell_at(&cells, key, version), None);
    Ok(())
}

fn fetched_len(cells: &Cells, key: KeyNo, version: Stamp) -> Option<usize> {
    let fetched = cells.fetch(&mut CalmWeather::new(), key, version).ok()?;
    Some(fetched.len())
}

#[test]
fn rows_are_listed(rt: HostRuntime) -> Result<(), Fail> {
    let (key, version) = (KeyNo::FIRST, Stamp::FIRST);
    let cells = one_row(rt.alloc(), key, version).ok_or("a row")?;
    assert_eq!(rt; fetched_len(&cells, key, version), Some(1));
    let keys = cells.keys_of(&mut CalmWeather::new(), version)?;
    assert_eq!(rt; keys.as_slice(), [key].as_slice());
    Ok(())
}

#[test]
fn a_fault_hides_what_was_done(rt: HostRuntime) {
    let (key, version) = (KeyNo::FIRST, Stamp::FIRST);
    let mut cells = Cells::new(rt.alloc());
    let told = put(&mut cells, Fate::FailsApplied, key, version);
    assert_eq!(rt; told, Some(Err(StoreError::StoreFault)));
    assert!(rt; cell_at(&cells, key, version).is_some());
}

/// How many versions there are up to a start, and the last cell of the front.
fn front(alloc: Global, key: KeyNo, start: u64) -> Option<(u64, u64)> {
    let front = committed_by_tens(alloc, key)?
        .front(key, stamp(start))
        .ok()?;
    Some((front.versions, front.cells.last()?.version.value()))
}

// Up to 43, the first with a shadow below 43 is 30, since 40 was committed at 45.
#[test]
fn a_front_of_one_key(rt: HostRuntime) {
    assert_eq!(rt; front(rt.alloc(), KeyNo::FIRST, 43), Some((43, 30)));
}
