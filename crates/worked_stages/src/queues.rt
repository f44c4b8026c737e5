// Pools that are out, and who waits at the queues and is woken.
ghost use Rattle.std.specs.Prelude.{◌≡◌, All, IfSome, length};
ghost use Rattle.stage_queues.specs.Opening.{IsNew};

use stage_queues::{Queues, StagePass};
use stamp_base::{NodeNo, Setup};
use std::sync::Wait;
use std::test::Fail;

mod closing;
mod waking;

fn one_worker() -> Setup
    ensures nodes { result.nodes ≡ 2 }
    ensures workers { result.workers ≡ 1 }
{
    let mut setup = Setup::default();
    setup.workers = 1;
    setup
}

fn last(passes: &mut Vec<StagePass>) -> Option<StagePass>
    ensures { IfSome result (λ p. p.held ≡ 0) }
{
    let pass = passes.pop()?;
    if pass.held() == 0 { Some(pass) } else { None }
}

#[test]
fn a_pool_that_is_out(rt: HostRuntime) -> Result<(), Fail> {
    let (queues, mut passes) = Queues::open(rt.alloc(), &one_worker(), 0)?;
    let mut pass = last(&mut passes).ok_or("a pass")?;
    let node = NodeNo::FIRST;
    assert_eq!(rt; queues.buffers(), 3);
    let first = queues
        .take_batch(&rt, node, &mut pass)
        .ok_or("a first batch")?;
    let second = queues
        .take_batch(&rt, node, &mut pass)
        .ok_or("a second batch")?;
    let third = queues
        .take_batch(&rt, node, &mut pass)
        .ok_or("a third batch")?;
    assert_eq!(rt; (first.slot(), second.slot(), third.slot()), (0, 1, 2));
    assert!(rt; queues.take_batch(&rt, node, &mut pass).is_none());
    assert_eq!(rt; pass.held(), 3);
    queues.give_batch(&rt, node, &mut pass, second);
    let again = queues
        .take_batch(&rt, node, &mut pass)
        .ok_or("a batch again")?;
    assert_eq!(rt; again.slot(), 1);
    assert!(rt; queues.take_batch(&rt, node, &mut pass).is_none());
    Ok(())
}

/// The last of the passes of these queues.
fn last_of(queues: &Queues, passes: &mut Vec<StagePass>) -> Option<StagePass>
    requires { All (IsNew queues.now) passes.old.items }
    ensures pass { IfSome result (IsNew queues.now) }
    ensures others { All (IsNew queues.now) passes.new.items }
{
    passes.pop()
}

/// The passes of two threads, joined, where one holds a batch and the other two.
fn joined<R: Wait>(
    rt: &R,
    queues: &Queues,
    mut mine: StagePass,
    mut theirs: StagePass,
) -> Option<StagePass>
    requires nodes { length queues.now.nodes ≡ 2 }
    requires mine { IsNew queues.now mine }
    requires theirs { IsNew queues.now theirs }
{
    let node = NodeNo::FIRST;
    let _first = queues.take_batch(rt, node, &mut mine)?;
    let _second = queues.take_batch(rt, node, &mut theirs)?;
    let _third = queues.take_batch(rt, node, &mut theirs)?;
    Some(mine.join(queues, theirs))
}

#[test]
fn two_passes_are_joined(rt: HostRuntime) -> Result<(), Fail> {
    let (queues, mut passes) = Queues::open(rt.alloc(), &one_worker(), 0)?;
    let mine = last_of(&queues, &mut passes).ok_or("a pass")?;
    let theirs = last_of(&queues, &mut passes).ok_or("another pass")?;
    let both = joined(&rt, &queues, mine, theirs).ok_or("a batch is lacking")?;
    assert_eq!(rt; (both.worker(), both.held()), (0, 3));
    Ok(())
}
