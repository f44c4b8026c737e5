// Scripts in which many sessions do the same.
use std::alloc::{AllocError, Global};
use std::ops::Range;

/// The lines once for each number, which stands in the place of each `N`.
fn numbered(alloc: Global, lines: &str, numbers: Range<usize>) -> Result<String, AllocError> {
    let mut script = String::new(alloc);
    for number in numbers {
        let number = number.to_string(alloc)?;
        script.push_str(&lines.replace(alloc, "N", &number)?)?;
    }
    Ok(script)
}

/// The sessions are told to ask, names that go to and fro give them time, and the node crashes and takes over again.
const CRASH: &str = "\
a post rN
clock await rN
clock post yN0
a await yN0
a post xN1
clock await xN1
clock post yN1
a await yN1
a post xN2
clock await xN2
clock post yN2
a await yN2
a post xN3
a crash
clock await xN3
clock tick 20
clock post zN
a await zN
a take
";

/// A session asks for a begin behind each takeover.
const ASKS: &str = "\
sN await r1
sN begin a
sN await r2
sN begin a
sN await r3
sN begin a
sN await r4
sN begin a
sN await r5
sN begin a
";

/// Thirteen sessions, each of which asks five times for a begin at a held request stage, and loses the request to a crash: more
/// tickets than the queue has room for.
pub fn crowd(alloc: Global) -> Result<String, AllocError> {
    let crashes = numbered(alloc, CRASH, 1..6)?;
    let sessions = numbered(alloc, ASKS, 0..13)?;
    format!(in alloc;
        "a take\na hold request\n{crashes}a post last\n{sessions}s0 await last\ns0 begin a\na free request\n"
    )
}

/// A session that wants a range of its own each time.
const COMMITS: &str = "\
sN await t
sN begin a
sN commit a
sN begin a
sN commit a
sN begin a
sN commit a
";

/// A request is drawn, and its stage is held behind it.
const DRAWN: &str = "\
s0 await t
s0 begin a
s0 write k0 v
s0 submit a
s0 post p
a await p
a hold request
a post q
s0 await q
s0 collect
s0 post r
a await r
a free request
";

/// A request that is drawn is answered though its stage is held behind it, while fifteen sessions want a range of their own each
/// time.
pub fn drawn_in_a_crowd(alloc: Global) -> Result<String, AllocError> {
    let sessions = numbered(alloc, COMMITS, 1..16)?;
    format!(in alloc; "range 1\nbatch 256\na take\na post t\n{sessions}{DRAWN}")
}
