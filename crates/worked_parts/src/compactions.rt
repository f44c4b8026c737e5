// Stores with three commits of one key and a row that is not committed, compacted to different waters.
ghost use Rattle.std.specs.Prelude.{◌≡◌};
ghost use Rattle.cell_store.specs.Calls.{looked};

use crate::numbers::{stamp, value};
use cell_compaction::{Archive, TooOld};
use cell_store::{Cell, Cells, StoreFault};
use commit_table::Table;
use port_io::CalmWeather;
use stamp_base::{KeyNo, Mark, NoMemory, Stamp, Value};
use std::alloc::Global;
use std::test::Fail;

/// Where the weather is calm, a call does not fail.
fn cell_at(cells: &Cells, key: KeyNo, version: Stamp) -> Option<Cell>
    ensures { result ≡ looked cells.now.rows key version }
{
    match cells.look(&mut CalmWeather::new(), key, version) {
        Ok(found) => found,
        Err(StoreFault) => unreachable!(),
    }
}

/// Puts a bare row where there is none.
fn put(cells: &mut Cells, key: KeyNo, version: u64, bytes: &[u8]) -> Option<()> {
    let (version, value) = (stamp(version), value(bytes)?);
    if cell_at(cells, key, version).is_none() {
        cells
            .put(&mut CalmWeather::new(), key, version, value)
            .ok()?;
    }
    Some(())
}

/// The rows of p, q and r at one key, and of z at another.
fn four_rows(alloc: Global) -> Cells {
    let mut cells = Cells::new(alloc);
    put(&mut cells, KeyNo::FIRST, 1, b"p");
    put(&mut cells, KeyNo::FIRST, 3, b"q");
    put(&mut cells, KeyNo::FIRST, 5, b"r");
    put(&mut cells, KeyNo::LAST, 7, b"z");
    cells
}

fn commit(table: &mut Table, start: u64, commit: u64) {
    let mark = Mark::Committed(stamp(commit));
    let _ = table.put_if_absent(&mut CalmWeather::new(), stamp(start), mark);
}

/// The first three are committed.
fn three_commits(alloc: Global) -> Table {
    let mut table = Table::new(alloc);
    commit(&mut table, 1, 2);
    commit(&mut table, 3, 4);
    commit(&mut table, 5, 6);
    table
}

fn compacted(alloc: Global, water: u64) -> Result<Archive, NoMemory> {
    Archive::compact(alloc, four_rows(alloc), &three_commits(alloc), stamp(water))
}

/// How many rows there are before, and after.
fn counts(alloc: Global, water: u64) -> Option<(u64, u64)> {
    let archive = compacted(alloc, water).ok()?;
    Some((archive.before(), archive.after()))
}

fn row(version: u64, bytes: &[u8]) -> Option<(Stamp, Value)> {
    Some((stamp(version), value(bytes)?))
}

#[test]
fn rows_below_the_water_go(rt: HostRuntime) {
    assert_eq!(rt; counts(rt.alloc(), 1), Some((4, 4)));
    assert_eq!(rt; counts(rt.alloc(), 5), Some((4, 3)));
    assert_eq!(rt; counts(rt.alloc(), 8), Some((4, 1)));
}

#[test]
fn readers_from_the_water_on_are_answered(rt: HostRuntime) -> Result<(), Fail> {
    let archive = compacted(rt.alloc(), 5)?;
    let (start, water) = (stamp(4), stamp(5));
    let old = Err(TooOld { start, water });
    assert_eq!(rt; archive.read_at(start, KeyNo::FIRST), old);
    assert_eq!(rt; archive.read_at(water, KeyNo::FIRST), Ok(row(3, b"q")));
    assert_eq!(rt; archive.read_at(Stamp::LAST, KeyNo::LAST), Ok(None));
    Ok(())
}
