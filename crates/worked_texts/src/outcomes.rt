// Store faults, crashes and sessions that vanish, and what becomes of their transactions.
use crate::answers::{
    B_TAKES_OVER, BEGUN, DRAWN, JANITOR_COMPLETES, S0_COMPLETES_2, S0_FINDS_ITS_COMMIT, S0_IS_DEAD,
    S0_PLACES_2, S1_BEGINS_3, S1_BEGINS_AT_B,
};
use crate::replay::Replay;

/// The put of a commit fails: its session finds out what became of it.
pub const FAULTED_PUT: &str = "\
a take
s0 begin a
s0 write k0 v
s0 commit a
s0 finish
";

/// The put did nothing.
const UNPLACED_HISTORY: &[&str] = &[
    BEGUN,
    DRAWN,
    "fault a table\n",
    "refused s0 open start=1\n",
    S0_IS_DEAD,
];

/// The put took effect.
const UNHEARD_HISTORY: &[&str] = &[BEGUN, DRAWN, S0_FINDS_ITS_COMMIT, S0_COMPLETES_2];

/// A session that settles its own commit starts over after a fault.
const FAULTED_RESOLVE: &str = "\
fault table 1 unchanged
fault table 2 unchanged
a take
s0 begin a
s0 write k0 v
s0 commit a
s0 finish
s0 finish
";

const FAULTED_RESOLVE_HISTORY: &[&str] = &[
    BEGUN,
    DRAWN,
    "fault a table\n",
    "refused s0 open start=1\n",
    "step s0 look k0 1 none\n",
    "fault s0 table\n",
    S0_IS_DEAD,
];

/// The oracle crashes with a commit that was drawn. A reader and a sweep come after the takeover.
pub const CRASH: &str = "\
a take
s0 begin a
s0 write k0 v
s0 submit a
a crash
s0 finish
clock tick 12
b take
s1 begin b
s1 read k0
janitor sweep b 1
";

pub const CRASH_HISTORY: &[&str] = &[
    BEGUN,
    DRAWN,
    "crash a term=1\n",
    "refused s0 open start=1\n",
    S0_IS_DEAD,
    B_TAKES_OVER,
    S1_BEGINS_AT_B,
    "step s1 fetch k0 cells=0\n",
    "read s1 start=101 k0 none\n",
    "step janitor get 1 invalid\n",
    "step janitor keys 1 count=0\n",
];

/// A session vanishes in the middle of its completion, and a reader comes upon what is left.
pub const HALF_COMPLETED: &str = "\
a take
s0 begin a
s0 write k0 v
s0 write k1 w
s0 submit a
a put s0
a answer s0
s0 step
s0 vanish
s1 begin a
s1 read k1
";

/// Behind the begin.
pub const HALF_COMPLETED_HISTORY: &str = "\
write s0 start=1 k0 v
write s0 start=1 k1 w
ask-commit s0 a start=1
accept s0 a term=1 reading=0
draw s0 a term=1 start=1 commit=2
placed start=1 commit=2
committed s0 start=1 commit=2
step s0 shadow k0 1 2
vanish s0
ask-begin s1 a
accept s1 a term=1 reading=0
draw s1 a term=1 start=3
begin s1 start=3
step s1 fetch k1 cells=1
step s1 get 1 committed=2
read s1 start=3 k1 from=1 w
";

/// A sweep completes it.
const SWEPT: &str = "\
janitor sweep a 1
s1 read k1
";

const SWEPT_HISTORY: &[&str] = &[
    BEGUN,
    HALF_COMPLETED_HISTORY,
    JANITOR_COMPLETES,
    "step s1 fetch k1 cells=1\n",
    "read s1 start=3 k1 from=1 w\n",
];

/// A session vanishes while its commit is in flight. The commit goes on, and a sweep completes it.
pub const GONE_IN_FLIGHT: &str = "\
a take
s0 begin a
s0 write k0 v
s0 submit a
s0 vanish
s0 collect
janitor sweep a 1
";

const GONE_IN_FLIGHT_HISTORY: &[&str] = &[
    BEGUN,
    DRAWN,
    "vanish s0\n",
    S0_PLACES_2,
    "step janitor get 1 committed=2\n",
    "step janitor keys 1 count=1\n",
    "step janitor shadow k0 1 2\n",
    "step janitor remove 1\n",
];

/// A take fails and takes effect: the node has no instance, and has to wait for the end of its own lease.
const FAULTED_TAKE: &str = "\
fault master 1 applied
a take
s0 begin a
a take
clock tick 12
a take
";

const FAULTED_TAKE_HISTORY: &str = "\
take a reading=0 term=1 epoch=0 until=10 ceiling=100
fault a master
refused s0 no-oracle node=a
refused a early reading=0 until=10
tick 12
take a reading=12 term=2 epoch=100 until=22 ceiling=200
";

/// A write fails, and ends its transaction.
const FAULTED_WRITE: &str = "\
fault cells 1 unchanged
a take
s0 begin a
s0 write k0 v
s0 commit a
";

const FAULTED_WRITE_HISTORY: &[&str] = &[
    BEGUN,
    "fault s0 cells\n",
    "end s0 start=1 aborted\n",
    "step s0 erase k0 1\n",
    "refused s0 no-transaction\n",
];

/// A completion that fails frees its session, and a heal that fails is used up.
const FAULTED_SHADOWS: &str = "\
fault cells 2 unchanged
fault cells 4 applied
a take
s0 begin a
s0 write k0 v
s0 commit a
s1 begin a
s1 read k0
s1 heal
s1 heal
s1 read k0
s0 begin a
";

const FAULTED_SHADOWS_HISTORY: &[&str] = &[
    BEGUN,
    DRAWN,
    S0_PLACES_2,
    "fault s0 cells\n",
    S1_BEGINS_3,
    "step s1 fetch k0 cells=1\n",
    "step s1 get 1 committed=2\n",
    "read s1 start=3 k0 from=1 v\n",
    "fault s1 cells\n",
    "refused s1 idle\n",
    "step s1 fetch k0 cells=1\n",
    "read s1 start=3 k0 from=1 v\n",
    "ask-begin s0 a\n",
    "accept s0 a term=1 reading=0\n",
    "draw s0 a term=1 start=4\n",
    "begin s0 start=4\n",
];

static REPLAYS: [Replay; 9] = [
    Replay {
        name: "faulted_put, without effect",
        script: &["fault table 1 unchanged\n", FAULTED_PUT],
        history: UNPLACED_HISTORY,
    },
    Replay {
        name: "faulted_put, which took effect",
        script: &["fault table 1 applied\n", FAULTED_PUT],
        history: UNHEARD_HISTORY,
    },
    Replay {
        name: "faulted resolve",
        script: &[FAULTED_RESOLVE],
        history: FAULTED_RESOLVE_HISTORY,
    },
    Replay {
        name: "crash",
        script: &[CRASH],
        history: CRASH_HISTORY,
    },
    Replay {
        name: "vanished_session",
        script: &[HALF_COMPLETED, SWEPT],
        history: SWEPT_HISTORY,
    },
    Replay {
        name: "vanished with a commit in flight",
        script: &[GONE_IN_FLIGHT],
        history: GONE_IN_FLIGHT_HISTORY,
    },
    Replay {
        name: "faulted_take_and_write, the take",
        script: &[FAULTED_TAKE],
        history: &[FAULTED_TAKE_HISTORY],
    },
    Replay {
        name: "faulted_take_and_write, the write",
        script: &[FAULTED_WRITE],
        history: FAULTED_WRITE_HISTORY,
    },
    Replay {
        name: "faulted shadows",
        script: &[FAULTED_SHADOWS],
        history: FAULTED_SHADOWS_HISTORY,
    },
];

/// Behind a function, a proof that goes over the rows does not look into their texts.
pub fn replays() -> &'static [Replay] {
    &REPLAYS
}
