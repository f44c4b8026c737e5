// Whether the parts of an event agree.
ghost use Rattle.std.specs.Prelude.{◌≡◌};
ghost use Rattle.split_parts.specs.Agrees.{HasParts};
ghost use Rattle.split_parts.specs.Parts.{seen};
ghost use Rattle.worked_splits.specs.Standing.{Stands};

use crate::reading::read;
use cell_store::Cells;
use master_record::Master;
use port_io::CalmWeather;
use script_data::Target;
use split_stores::{
    CellsPart, ClockPart, Event, Lent, MasterPart, NodePart, Plan, SessionPart, act, agrees,
};
use stamp_base::{KeyNo, NodeNo, SessionNo, Stamp, Value};
use std::alloc::Global;
use std::test::Fail;

/// Makes the event, if its parts agree. False where it was not done.
fn does(alloc: Global, lent: &mut Lent<'_>, event: &Event) -> bool
    requires stands { Stands 0 0 (seen lent.old) }
    requires parts { HasParts (seen lent.old) event.now }
    ensures { Stands 0 0 (seen lent.new) }
{
    if !agrees(lent, event) {
        return false;
    }
    match act(alloc, lent, event) {
        Ok(acted) => acted.stopped.is_none(),
        Err(_) => false,
    }
}

/// The node takes over, and the session's transaction begins at the first stamp of the node's term.
fn begins(alloc: Global, lent: &mut Lent<'_>) -> bool
    requires { Stands 0 0 (seen lent.old) }
    ensures { Stands 0 0 (seen lent.new) }
{
    let node = NodeNo::FIRST;
    let target = Target::Node(node);
    let session = SessionNo::FIRST;
    does(alloc, lent, &Event::Take { node })
        && does(alloc, lent, &Event::AskBegin { session, target })
        && does(alloc, lent, &Event::Accept { node, session })
        && does(alloc, lent, &Event::Decide { node, session })
        && does(alloc, lent, &Event::Answer { node, session })
}

/// What `agrees` says of the first write of the session that has begun, over these cells. None where it could not begin.
fn write_agrees(alloc: Global, value: Value, cells: Cells) -> Option<bool> {
    let Ok(script) = read(alloc, "") else {
        return None;
    };
    let Ok(plan) = Plan::new(alloc, &script) else {
        return None;
    };
    let record = Master::free(plan.setup.lease, plan.setup.skew, plan.setup.range);
    let Ok(mut session) = SessionPart::new(alloc, SessionNo::FIRST, 0) else {
        return None;
    };
    let mut clock = ClockPart::new(alloc);
    let mut node = NodePart::new(alloc, NodeNo::FIRST);
    let mut cells = CellsPart::new(alloc, cells);
    let mut master = MasterPart::new(alloc, record);
    let mut lent = Lent::none(&plan);
    lent.s0 = Some(&mut session);
    lent.clock = Some(&mut clock);
    lent.node = Some(&mut node);
    lent.cells = Some(&mut cells);
    lent.master = Some(&mut master);
    if !begins(alloc, &mut lent) {
        return None;
    }
    let write = Event::Write {
        session: SessionNo::FIRST,
        key: KeyNo::FIRST,
        value,
    };
    Some(agrees(&lent, &write))
}

/// Cells in which the first key has a version of the first stamp, with a shadow.
fn shadowed(alloc: Global, value: Value) -> Option<Cells> {
    let mut cells = Cells::new(alloc);
    let mut calm = CalmWeather::new();
    let (key, start, commit) = (KeyNo::FIRST, Stamp::FIRST, Stamp::new(2)?);
    if cells.shadow_of(key, start).is_some() {
        return None;
    }
    if cells.put(&mut calm, key, start, value).is_err() {
        return None;
    }
    if cells.shadow_of(key, start).is_some() {
        return None;
    }
    match cells.set_shadow(&mut calm, key, start, commit) {
        Ok(()) => Some(cells),
        Err(_) => None,
    }
}

#[test]
fn a_write_over_a_shadow_does_not_agree(rt: HostRuntime) -> Result<(), Fail> {
    let value = Value::new("v".as_bytes()).ok_or("a value")?;
    let cells = shadowed(rt.alloc(), value).ok_or("cells with a shadow")?;
    assert_eq!(rt; write_agrees(rt.alloc(), value, cells), Some(false));
    Ok(())
}

#[test]
fn a_write_over_empty_cells_agrees(rt: HostRuntime) -> Result<(), Fail> {
    let value = Value::new("v".as_bytes()).ok_or("a value")?;
    let cells = Cells::new(rt.alloc());
    assert_eq!(rt; write_agrees(rt.alloc(), value, cells), Some(true));
    Ok(())
}
