// Events that have two parts in common lock them in one order.
use crate::reading::read;
use split_driver::run_split;
use split_stores::{Event, PartGate};
use std::alloc::{AllocError, Global};
use std::hint::spin_loop;
use std::sync::Wait;
use std::test::Fail;
use std::thread;

/// How often the actors carry out their lines.
const ROUNDS: usize = 200;

/// For how many turns an event gives way under its locks, and how long each turn takes.
const TURNS: usize = 8;

const SPINS: usize = 500;

/// A gate at which each event gives way to others, which come to their locks meanwhile. It takes its time too, since nobody is
/// given way to where there are processors enough.
struct GivingGate;

impl PartGate for GivingGate {
    fn inside<R: Wait>(&self, _rt: &R, _event: &Event) {
        for _ in 0..TURNS {
            thread::yield_now();
            for _ in 0..SPINS {
                spin_loop();
            }
        }
    }
}

/// A node that draws one stamp at a time, so that each begin extends what it may draw.
const HEAD: &str = "\
range 1
a take
a post p1
b await p1
s0 await p1
s1 await p1
s2 await p1
";

/// Five actors, whose events have these pairs of parts in common, by two kinds of event each: the session and a node, the clock and
/// the node, and the node and the master record. Four of them lock node `a` again and again: while one holds it, a renewal and an
/// extension come to wait for it side by side. No session stays with a request that nobody goes on with, but for `s0`, which asks
/// all the same.
const ROUND: &str = "\
a accept s0
a renew
a accept s0
a renew
a renew
a renew
b crash
b crash
s0 begin a
s0 begin a
s0 begin a
s0 begin a
s1 begin a
s1 abort
s1 begin b
s2 begin a
s2 abort
s2 begin b
";

fn rounds(alloc: Global) -> Result<String, AllocError> {
    let mut text = HEAD.to_string(alloc)?;
    for _ in 0..ROUNDS {
        text.push_str(ROUND)?;
    }
    Ok(text)
}

/// Where one kind of event locks two of these parts in another order than the others, two actors soon wait for each other for ever.
#[test]
fn parts_are_locked_in_one_order(rt: HostRuntime) -> Result<(), Fail> {
    let text = rounds(rt.alloc())?;
    let script = read(rt.alloc(), text.as_str()).ok().ok_or("a script")?;
    let split = run_split(&rt, rt.alloc(), &script, &GivingGate);
    assert!(rt; split.is_ok());
    Ok(())
}
