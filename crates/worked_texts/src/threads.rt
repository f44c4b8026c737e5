// Scripts whose lines wait for each other by names, so that threads have one order to carry them out in: that of the file.
use crate::answers::{
    DRAWN, S0_BEGINS, S0_COMPLETES_2, S0_IS_DEAD, S0_IS_HANDED_2, S0_IS_INVALID, S0_PLACES_2,
    S1_BEGINS_2, S1_BEGINS_3, S1_BEGINS_AT_B, S1_BEGINS_WITH_AN_EXTENSION, S1_MARKS,
};
use crate::replay::{READ_BEHIND, Replay};

/// A node with several workers, whose batches have one entry.
const WORKERS: &str = "\
workers 4
batch 1
";

/// A commit waits behind a held stage. `paused_stage.omid` of `examples/` begins so.
const HELD: &str = "\
a take
a post p1
s0 await p1
s0 begin a
s0 write k0 v
s0 post p2
a await p2
a hold persist
a post p3
s0 await p3
s0 submit a
s0 post p4
";

const HELD_HISTORY: &str = "\
take a reading=0 term=1 epoch=0 until=10 ceiling=100
note a post p1
note s0 await p1
ask-begin s0 a
accept s0 a term=1 reading=0
draw s0 a term=1 start=1
begin s0 start=1
write s0 start=1 k0 v
note s0 post p2
note a await p2
note a hold persist
note a post p3
note s0 await p3
ask-commit s0 a start=1
accept s0 a term=1 reading=0
draw s0 a term=1 start=1 commit=2
note s0 post p4
";

/// Another oracle takes over, and a reader marks the transaction.
const HELD_PUT: &str = "\
clock await p4
clock tick 12
clock post p5
b await p5
b take
b post p6
s1 await p6
s1 begin b
s1 read k0
s1 post p7
a await p7
a free persist
s0 collect
";

const HELD_PUT_HISTORY: &[&str] = &[
    HELD_HISTORY,
    "note clock await p4\n",
    "tick 12\n",
    "note clock post p5\n",
    "note b await p5\n",
    "take b reading=12 term=2 epoch=100 until=22 ceiling=200\n",
    "note b post p6\n",
    "note s1 await p6\n",
    S1_BEGINS_AT_B,
    S1_MARKS,
    "note s1 post p7\n",
    "note a await p7\n",
    "note a free persist\n",
    S0_IS_INVALID,
];

/// The oracle crashes.
const HELD_CRASH: &str = "\
a await p4
a crash
a free persist
a post p5
s0 await p5
s0 finish
s0 post p6
clock await p6
clock tick 12
clock post p7
b await p7
b take
b post p8
s1 await p8
s1 begin b
s1 read k0
";

const HELD_CRASH_HISTORY: &[&str] = &[
    HELD_HISTORY,
    "note a await p4\n",
    "crash a term=1\n",
    "refused s0 open start=1\n",
    "note a free persist\n",
    "note a post p5\n",
    "note s0 await p5\n",
    S0_IS_DEAD,
    "note s0 post p6\n",
    "note clock await p6\n",
    "tick 12\n",
    "note clock post p7\n",
    "note b await p7\n",
    "take b reading=12 term=2 epoch=100 until=22 ceiling=200\n",
    "note b post p8\n",
    "note s1 await p8\n",
    S1_BEGINS_AT_B,
    "step s1 fetch k0 cells=0\n",
    "read s1 start=101 k0 none\n",
];

/// A range of two stamps is used up, and the request stage extends it.
const RANGE_OF_TWO: &str = "range 2\n";

const EXTENDED_HISTORY: &[&str] = &[
    "take a reading=0 term=1 epoch=0 until=10 ceiling=2\n",
    "note a post p1\n",
    "note s0 await p1\n",
    S0_BEGINS,
    DRAWN,
    S0_PLACES_2,
    S0_COMPLETES_2,
    "note s0 post p2\n",
    "note s1 await p2\n",
    S1_BEGINS_WITH_AN_EXTENSION,
    "step s1 fetch k0 cells=1\n",
    "read s1 start=3 k0 from=1 v\n",
];

/// Reads are strict, and each of two transactions reads a key that the other writes.
const STRICT: &str = "\
reads strict
a take
a post p1
s0 await p1
s0 begin a
s0 post p2
s1 await p2
s1 begin a
s1 read k1
s1 post p3
s0 await p3
s0 read k0
s0 write k1 p
s0 commit a
s0 post p4
s1 await p4
s1 write k0 q
s1 commit a
";

const STRICT_HISTORY: &[&str] = &[
    "take a reading=0 term=1 epoch=0 until=10 ceiling=100\n",
    "note a post p1\n",
    "note s0 await p1\n",
    S0_BEGINS,
    "note s0 post p2\n",
    "note s1 await p2\n",
    S1_BEGINS_2,
    "step s1 fetch k1 cells=0\n",
    "read s1 start=2 k1 none\n",
    "note s1 post p3\n",
    "note s0 await p3\n",
    "step s0 fetch k0 cells=0\n",
    "read s0 start=1 k0 none\n",
    "write s0 start=1 k1 p\n",
    "ask-commit s0 a start=1\n",
    "accept s0 a term=1 reading=0\n",
    "draw s0 a term=1 start=1 commit=3\n",
    "placed start=1 commit=3\n",
    "committed s0 start=1 commit=3\n",
    "step s0 shadow k1 1 3\n",
    "step s0 remove 1\n",
    "note s0 post p4\n",
    "note s1 await p4\n",
    "write s1 start=2 k0 q\n",
    "ask-commit s1 a start=2\n",
    "accept s1 a term=1 reading=0\n",
    "refused s1 conflict key=k1 by=3\n",
    "step s1 erase k0 2\n",
];

/// Sessions place their own commits: a persist stage that is held keeps none back.
const DIRECT: &str = "\
commits direct
a take
a hold persist
a post p1
s0 await p1
s0 begin a
s0 write k0 v
s0 commit a
s0 post p2
s1 await p2
s1 begin a
s1 read k0
";

const DIRECT_HISTORY: &[&str] = &[
    "take a reading=0 term=1 epoch=0 until=10 ceiling=100\n",
    "note a hold persist\n",
    "note a post p1\n",
    "note s0 await p1\n",
    S0_BEGINS,
    DRAWN,
    S0_IS_HANDED_2,
    S0_PLACES_2,
    S0_COMPLETES_2,
    "note s0 post p2\n",
    "note s1 await p2\n",
    S1_BEGINS_3,
    "step s1 fetch k0 cells=1\n",
    "read s1 start=3 k0 from=1 v\n",
];

/// Sessions name the master, before a takeover and behind it.
const MASTER: &str = "\
a take
a post p1
s0 await p1
s0 begin master
s0 post p2
a await p2
a crash
a post p3
clock await p3
clock tick 12
clock post p4
b await p4
b take
b post p5
s1 await p5
s1 begin master
";

const MASTER_HISTORY: &[&str] = &[
    "take a reading=0 term=1 epoch=0 until=10 ceiling=100\n",
    "note a post p1\n",
    "note s0 await p1\n",
    S0_BEGINS,
    "note s0 post p2\n",
    "note a await p2\n",
    "crash a term=1\n",
    "note a post p3\n",
    "note clock await p3\n",
    "tick 12\n",
    "note clock post p4\n",
    "note b await p4\n",
    "take b reading=12 term=2 epoch=100 until=22 ceiling=200\n",
    "note b post p5\n",
    "note s1 await p5\n",
    S1_BEGINS_AT_B,
];

static REPLAYS: [Replay; 7] = [
    Replay {
        name: "threads",
        script: &[HELD, HELD_PUT],
        history: HELD_PUT_HISTORY,
    },
    Replay {
        name: "threads, several workers",
        script: &[WORKERS, HELD, HELD_PUT],
        history: HELD_PUT_HISTORY,
    },
    Replay {
        name: "threads, a crash behind a held stage",
        script: &[HELD, HELD_CRASH],
        history: HELD_CRASH_HISTORY,
    },
    Replay {
        name: "threads, an extension",
        script: &[RANGE_OF_TWO, READ_BEHIND],
        history: EXTENDED_HISTORY,
    },
    Replay {
        name: "threads, strict reads",
        script: &[STRICT],
        history: STRICT_HISTORY,
    },
    Replay {
        name: "threads, direct commits",
        script: &[DIRECT],
        history: DIRECT_HISTORY,
    },
    Replay {
        name: "threads, sessions find the master",
        script: &[MASTER],
        history: MASTER_HISTORY,
    },
];

/// Behind a function, a proof that goes over the rows does not look into their texts.
pub fn replays() -> &'static [Replay] {
    &REPLAYS
}
