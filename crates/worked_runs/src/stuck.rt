// Scripts on threads that once waited for ever where a user would have them end.
use crate::crowd::{crowd, drawn_in_a_crowd};
use std::alloc::{AllocError, Global};

/// A held persist stage keeps nothing of an instance that is gone: the next one's begin is served before the stage is freed.
const LEFT_BY_A_CRASH: &str = "\
a take
a post t
s0 await t
s0 begin a
s0 write k0 v
s0 post w
a await w
a hold persist
a post h
s0 await h
s0 submit a
s0 post sub
a await sub
a crash
clock await sub
clock tick 20
clock post ticked
a await ticked
a take
a post again
s1 await again
s1 begin a
s1 post began
a await began
a free persist
s0 finish
s1 commit a
";

/// A request that is drawn is answered while its session waits for others.
const SUBMITTED: &str = "\
a take
a post p0
s0 await p0
s0 begin a
s0 write k0 v
s0 submit a
s0 post p1
clock await p1
clock tick 1
clock post p2
s1 await p2
s1 read k0
s1 post p3
s0 await p3
s0 collect
";

/// All of them.
pub fn stuck(alloc: Global) -> Result<Vec<String>, AllocError> {
    let mut scripts = Vec::new(alloc);
    scripts.push(crowd(alloc)?)?;
    scripts.push(LEFT_BY_A_CRASH.to_string(alloc)?)?;
    scripts.push(SUBMITTED.to_string(alloc)?)?;
    scripts.push(drawn_in_a_crowd(alloc)?)?;
    Ok(scripts)
}
