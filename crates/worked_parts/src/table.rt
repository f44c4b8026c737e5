// Each call once in calm weather, and a failure that took effect.
use commit_table::{Put, StoreError, Table};
use port_io::{CalmWeather, Fate, OneFate};
use stamp_base::{Mark, Stamp};
use std::test::Fail;

const COMMITTED: Mark = Mark::Committed(Stamp::LAST);

#[test]
fn an_entry_comes_and_goes(rt: HostRuntime) {
    let mut calm = CalmWeather::new();
    let mut table = Table::new(rt.alloc());
    let put = table.put_if_absent(&mut calm, Stamp::FIRST, COMMITTED);
    assert_eq!(rt; put, Ok(Put::Placed));
    assert_eq!(rt; table.get(&mut calm, Stamp::FIRST), Ok(Some(COMMITTED)));
    assert_eq!(rt; table.remove_committed(&mut calm, Stamp::FIRST), Ok(()));
}

#[test]
fn a_place_is_used(rt: HostRuntime) -> Result<(), Fail> {
    let mut table = Table::new(rt.alloc());
    table.reserve(Stamp::FIRST)?;
    let put = table.put_reserved(&mut CalmWeather::new(), Stamp::FIRST, Mark::Invalid);
    assert_eq!(rt; put, Ok(Put::Placed));
    Ok(())
}

#[test]
fn a_fault_hides_what_was_done(rt: HostRuntime) {
    let mut table = Table::new(rt.alloc());
    let mut applied = OneFate::new(Fate::FailsApplied);
    let put = table.put_if_absent(&mut applied, Stamp::FIRST, Mark::Invalid);
    assert_eq!(rt; put, Err(StoreError::StoreFault));
    assert_eq!(rt; table.mark_of(Stamp::FIRST), Some(Mark::Invalid));
}
