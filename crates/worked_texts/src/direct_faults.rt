// Sessions that place the records of their own commits, at takeovers, faults and crashes, and some that vanish.
use crate::answers::{
    B_TAKES_OVER, BEGUN, DRAWN, S0_COMPLETES_2, S0_IS_DEAD, S0_IS_HANDED_2, S0_MEETS_THE_MARK,
    S0_PLACES_2, S1_BEGINS_3, S1_BEGINS_AT_B, S1_FETCHES, S1_MARKS,
};
use crate::leases::{BOUNDARIES, BOUNDARIES_HISTORY};
use crate::outcomes::{CRASH, CRASH_HISTORY, FAULTED_PUT, GONE_IN_FLIGHT};
use crate::replay::Replay;
use crate::takeovers::{
    ANSWERED_LATE_HISTORY, EXPIRED_HISTORY, LATE_BEGIN, LATE_BEGIN_HISTORY, LATE_DRAW, LATE_PUT,
    OLD_EPOCH_HISTORY, PUT_BEFORE_READ, STRAY_MARK, TAKEN_OVER,
};

/// The setup line.
const DIRECT: &str = "commits direct\n";

const LATE_PUT_HISTORY: &[&str] = &[
    BEGUN,
    DRAWN,
    B_TAKES_OVER,
    S1_BEGINS_AT_B,
    S1_MARKS,
    S0_MEETS_THE_MARK,
];

/// The oracle has nothing to put.
const NO_PUT_HISTORY: &[&str] = &[
    BEGUN,
    DRAWN,
    B_TAKES_OVER,
    "refused a no-request session=s0\n",
    S1_BEGINS_AT_B,
    S1_MARKS,
    S0_MEETS_THE_MARK,
];

/// The session places its record before the reader comes.
const PLACED_BEFORE_READ: &str = "\
a answer s0
s0 step
s1 begin b
s1 read k0
s0 finish
";

const PLACED_BEFORE_READ_HISTORY: &[&str] = &[
    BEGUN,
    DRAWN,
    B_TAKES_OVER,
    S0_IS_HANDED_2,
    S0_PLACES_2,
    S1_BEGINS_AT_B,
    "step s1 fetch k0 cells=1\n",
    "step s1 get 1 committed=2\n",
    "read s1 start=101 k0 from=1 v\n",
    S0_COMPLETES_2,
];

const LATE_DRAW_HISTORY: &[&str] = &[
    BEGUN,
    "write s0 start=1 k0 v\n",
    "ask-commit s0 a start=1\n",
    "accept s0 a term=1 reading=0\n",
    B_TAKES_OVER,
    "draw s0 a term=1 start=1 commit=2\n",
    S0_IS_HANDED_2,
    S0_PLACES_2,
    S0_COMPLETES_2,
    S1_BEGINS_AT_B,
    "step s1 fetch k0 cells=1\n",
    "read s1 start=101 k0 from=1 v\n",
];

const STRAY_MARK_HISTORY: &[&str] = &[
    BEGUN,
    DRAWN,
    B_TAKES_OVER,
    S1_BEGINS_AT_B,
    S1_FETCHES,
    S0_IS_HANDED_2,
    S0_PLACES_2,
    S0_COMPLETES_2,
    "mark s1 start=1\n",
    "step s1 look k0 1 commit=2\n",
    "read s1 start=101 k0 from=1 v\n",
];

/// The record is placed between the reader's look at the table and its mark, which finds it.
const FOUND_RECORD: &str = "\
s1 begin b
s1 fetch k0
s1 step
a answer s0
s0 step
s1 step
s1 heal
s0 finish
";

const FOUND_RECORD_HISTORY: &[&str] = &[
    BEGUN,
    DRAWN,
    B_TAKES_OVER,
    S1_BEGINS_AT_B,
    S1_FETCHES,
    S0_IS_HANDED_2,
    S0_PLACES_2,
    "step s1 mark 1 committed=2\n",
    "read s1 start=101 k0 from=1 v\n",
    "step s1 shadow k0 1 2\n",
    S0_COMPLETES_2,
];

/// `s1 commit b`, which draws 102.
const S1_COMMITS_AT_B: &str = "\
ask-commit s1 b start=101
accept s1 b term=2 reading=12
draw s1 b term=2 start=101 commit=102
step s1 handed 101 102
placed start=101 commit=102
committed s1 start=101 commit=102
step s1 shadow k0 101 102
step s1 remove 101
";

/// A placing that fails leaves the outcome open, and its session finds out: it did nothing.
const UNPLACED_HISTORY: &[&str] = &[
    BEGUN,
    DRAWN,
    S0_IS_HANDED_2,
    "fault s0 table\n",
    "refused s0 open start=1\n",
    S0_IS_DEAD,
];

/// It took effect.
const UNHEARD_HISTORY: &[&str] = &[
    BEGUN,
    DRAWN,
    S0_IS_HANDED_2,
    "placed start=1 commit=2\n",
    "fault s0 table\n",
    "refused s0 open start=1\n",
    "step s0 look k0 1 none\n",
    "step s0 get 1 committed=2\n",
    "committed s0 start=1 commit=2\n",
    S0_COMPLETES_2,
];

/// The oracle crashes behind the hand-over, and the session goes on.
const CRASH_BEHIND: &str = "\
a take
s0 begin a
s0 write k0 v
s0 submit a
a answer s0
a crash
s0 finish
";

const CRASH_BEHIND_HISTORY: &[&str] = &[
    BEGUN,
    DRAWN,
    S0_IS_HANDED_2,
    "crash a term=1\n",
    S0_PLACES_2,
    S0_COMPLETES_2,
];

/// A session that vanishes with a commit to place never places it. A reader marks it, and a sweep erases its cell.
const GONE_BEHIND: &str = "\
a take
s0 begin a
s0 write k0 v
s0 submit a
a answer s0
s0 vanish
s0 step
s1 begin a
s1 read k0
janitor sweep a 1
";

const GONE_BEHIND_HISTORY: &[&str] = &[
    BEGUN,
    DRAWN,
    S0_IS_HANDED_2,
    "vanish s0\n",
    "refused s0 gone\n",
    S1_BEGINS_3,
    "step s1 fetch k0 cells=1\n",
    "step s1 get 1 absent\n",
    "mark s1 start=1\n",
    "step s1 look k0 1 none\n",
    "read s1 start=3 k0 none\n",
    "step janitor get 1 invalid\n",
    "step janitor keys 1 count=1\n",
    "step janitor erase k0 1\n",
];

/// A commit that is handed to a session that has vanished. A sweep marks what is of earlier terms alone.
const GONE_IN_FLIGHT_HISTORY: &[&str] = &[
    BEGUN,
    DRAWN,
    "vanish s0\n",
    S0_IS_HANDED_2,
    "step janitor get 1 absent\n",
    "refused janitor undecided start=1 epoch=0\n",
];

static REPLAYS: [Replay; 15] = [
    Replay {
        name: "direct, late_put",
        script: &[DIRECT, TAKEN_OVER, LATE_PUT],
        history: LATE_PUT_HISTORY,
    },
    Replay {
        name: "direct, put_before_read",
        script: &[DIRECT, TAKEN_OVER, PUT_BEFORE_READ],
        history: NO_PUT_HISTORY,
    },
    Replay {
        name: "direct, placed before the read",
        script: &[DIRECT, TAKEN_OVER, PLACED_BEFORE_READ],
        history: PLACED_BEFORE_READ_HISTORY,
    },
    Replay {
        name: "direct, late_draw",
        script: &[DIRECT, LATE_DRAW],
        history: LATE_DRAW_HISTORY,
    },
    Replay {
        name: "direct, stray_mark",
        script: &[DIRECT, TAKEN_OVER, STRAY_MARK],
        history: STRAY_MARK_HISTORY,
    },
    Replay {
        name: "direct, found record",
        script: &[DIRECT, TAKEN_OVER, FOUND_RECORD],
        history: FOUND_RECORD_HISTORY,
    },
    Replay {
        name: "direct, boundaries",
        script: &[DIRECT, BOUNDARIES],
        history: &[BOUNDARIES_HISTORY],
    },
    Replay {
        name: "direct, late_begin, its commit at the old oracle",
        script: &[DIRECT, LATE_BEGIN, "s0 commit a\n"],
        history: &[
            LATE_BEGIN_HISTORY,
            S1_COMMITS_AT_B,
            ANSWERED_LATE_HISTORY,
            EXPIRED_HISTORY,
        ],
    },
    Replay {
        name: "direct, late_begin, its commit at the new one",
        script: &[DIRECT, LATE_BEGIN, "s0 commit b\n"],
        history: &[
            LATE_BEGIN_HISTORY,
            S1_COMMITS_AT_B,
            ANSWERED_LATE_HISTORY,
            OLD_EPOCH_HISTORY,
        ],
    },
    Replay {
        name: "direct, a placing that failed without effect",
        script: &[DIRECT, "fault table 1 unchanged\n", FAULTED_PUT],
        history: UNPLACED_HISTORY,
    },
    Replay {
        name: "direct, a placing that failed and took effect",
        script: &[DIRECT, "fault table 1 applied\n", FAULTED_PUT],
        history: UNHEARD_HISTORY,
    },
    Replay {
        name: "direct, crash",
        script: &[DIRECT, CRASH],
        history: CRASH_HISTORY,
    },
    Replay {
        name: "direct, a crash behind the hand-over",
        script: &[DIRECT, CRASH_BEHIND],
        history: CRASH_BEHIND_HISTORY,
    },
    Replay {
        name: "direct, vanished with a commit to place",
        script: &[DIRECT, GONE_BEHIND],
        history: GONE_BEHIND_HISTORY,
    },
    Replay {
        name: "direct, vanished with a commit in flight",
        script: &[DIRECT, GONE_IN_FLIGHT],
        history: GONE_IN_FLIGHT_HISTORY,
    },
];

/// Behind a function, a proof that goes over the rows does not look into their texts.
pub fn replays() -> &'static [Replay] {
    &REPLAYS
}
