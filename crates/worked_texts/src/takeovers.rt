// Two oracles: commits and begins of the old one that come late, and readers that settle what it left.
use crate::answers::{
    B_TAKES_OVER, BEGUN, DRAWN, S0_COMPLETES_2, S0_IS_INVALID, S0_PLACES_2, S1_BEGINS_AT_B,
    S1_COMMITS_AT_B, S1_FETCHES, S1_MARKS,
};
use crate::replay::Replay;

/// The first oracle has drawn a commit and not placed it when the second one takes over.
pub const TAKEN_OVER: &str = "\
a take
s0 begin a
s0 write k0 v
s0 submit a
clock tick 12
b take
";

/// A reader of the second oracle marks the transaction before its commit is placed.
pub const LATE_PUT: &str = "\
s1 begin b
s1 read k0
s0 collect
";

const LATE_PUT_HISTORY: &[&str] = &[
    BEGUN,
    DRAWN,
    B_TAKES_OVER,
    S1_BEGINS_AT_B,
    S1_MARKS,
    S0_IS_INVALID,
];

/// The commit is placed before the reader comes.
pub const PUT_BEFORE_READ: &str = "\
a put s0
s1 begin b
s1 read k0
s0 collect
";

const PUT_BEFORE_READ_HISTORY: &[&str] = &[
    BEGUN,
    DRAWN,
    B_TAKES_OVER,
    "placed start=1 commit=2\n",
    S1_BEGINS_AT_B,
    "step s1 fetch k0 cells=1\n",
    "step s1 get 1 committed=2\n",
    "read s1 start=101 k0 from=1 v\n",
    "committed s0 start=1 commit=2\n",
    S0_COMPLETES_2,
];

/// The commit is placed, completed and removed between the reader's look at the table and its mark.
pub const STRAY_MARK: &str = "\
s1 begin b
s1 fetch k0
s1 step
s0 collect
s1 step
s1 step
";

const STRAY_MARK_HISTORY: &[&str] = &[
    BEGUN,
    DRAWN,
    B_TAKES_OVER,
    S1_BEGINS_AT_B,
    S1_FETCHES,
    S0_PLACES_2,
    S0_COMPLETES_2,
    "mark s1 start=1\n",
    "step s1 look k0 1 commit=2\n",
    "read s1 start=101 k0 from=1 v\n",
];

/// The commit is placed between the reader's look at the table and its mark, which finds it.
const FOUND_RECORD: &str = "\
s1 begin b
s1 fetch k0
s1 step
a put s0
s1 step
s1 heal
s0 collect
";

const FOUND_RECORD_HISTORY: &[&str] = &[
    BEGUN,
    DRAWN,
    B_TAKES_OVER,
    S1_BEGINS_AT_B,
    S1_FETCHES,
    "placed start=1 commit=2\n",
    "step s1 mark 1 committed=2\n",
    "read s1 start=101 k0 from=1 v\n",
    "step s1 shadow k0 1 2\n",
    "committed s0 start=1 commit=2\n",
    S0_COMPLETES_2,
];

/// Two readers come upon one cell, and the second finds the mark of the first.
const FOUND_MARK: &str = "\
s1 begin b
s2 begin b
s1 fetch k0
s1 step
s2 read k0
s1 step
s1 step
";

const FOUND_MARK_HISTORY: &[&str] = &[
    BEGUN,
    DRAWN,
    B_TAKES_OVER,
    S1_BEGINS_AT_B,
    "ask-begin s2 b\n",
    "accept s2 b term=2 reading=12\n",
    "draw s2 b term=2 start=102\n",
    "begin s2 start=102\n",
    S1_FETCHES,
    "step s2 fetch k0 cells=1\n",
    "step s2 get 1 absent\n",
    "mark s2 start=1\n",
    "step s2 look k0 1 none\n",
    "read s2 start=102 k0 none\n",
    "step s1 mark 1 invalid\n",
    "step s1 look k0 1 none\n",
    "read s1 start=101 k0 none\n",
];

/// A commit that was accepted in time is drawn after the takeover.
pub const LATE_DRAW: &str = "\
a take
s0 begin a
s0 write k0 v
s0 ask-commit a
a accept s0
clock tick 12
b take
a decide s0
s0 collect
s1 begin b
s1 read k0
";

const LATE_DRAW_HISTORY: &[&str] = &[
    BEGUN,
    "write s0 start=1 k0 v\n",
    "ask-commit s0 a start=1\n",
    "accept s0 a term=1 reading=0\n",
    B_TAKES_OVER,
    "draw s0 a term=1 start=1 commit=2\n",
    S0_PLACES_2,
    S0_COMPLETES_2,
    S1_BEGINS_AT_B,
    "step s1 fetch k0 cells=1\n",
    "read s1 start=101 k0 from=1 v\n",
];

/// A begin that was accepted in time is answered after a takeover and a commit at the second oracle.
pub const LATE_BEGIN: &str = "\
a take
s0 ask-begin a
a accept s0
clock tick 12
b take
s1 begin b
s1 write k0 w
s1 commit b
a decide s0
a answer s0
s0 read k0
s0 write k1 z
";

pub const LATE_BEGIN_HISTORY: &str = "\
take a reading=0 term=1 epoch=0 until=10 ceiling=100
ask-begin s0 a
accept s0 a term=1 reading=0
tick 12
take b reading=12 term=2 epoch=100 until=22 ceiling=200
ask-begin s1 b
accept s1 b term=2 reading=12
draw s1 b term=2 start=101
begin s1 start=101
write s1 start=101 k0 w
";

/// Behind the commit at the second oracle.
pub const ANSWERED_LATE_HISTORY: &str = "\
draw s0 a term=1 start=1
begin s0 start=1
step s0 fetch k0 cells=0
read s0 start=1 k0 none
write s0 start=1 k1 z
";

/// Its commit at the old oracle.
pub const EXPIRED_HISTORY: &str = "\
ask-commit s0 a start=1
refused s0 expired reading=12 until=10
step s0 erase k1 1
";

/// Its commit at the new one.
pub const OLD_EPOCH_HISTORY: &str = "\
ask-commit s0 b start=1
refused s0 old-epoch start=1 epoch=100
step s0 erase k1 1
";

static REPLAYS: [Replay; 8] = [
    Replay {
        name: "late_put",
        script: &[TAKEN_OVER, LATE_PUT],
        history: LATE_PUT_HISTORY,
    },
    Replay {
        name: "put_before_read",
        script: &[TAKEN_OVER, PUT_BEFORE_READ],
        history: PUT_BEFORE_READ_HISTORY,
    },
    Replay {
        name: "stray_mark",
        script: &[TAKEN_OVER, STRAY_MARK],
        history: STRAY_MARK_HISTORY,
    },
    Replay {
        name: "found record",
        script: &[TAKEN_OVER, FOUND_RECORD],
        history: FOUND_RECORD_HISTORY,
    },
    Replay {
        name: "found mark",
        script: &[TAKEN_OVER, FOUND_MARK],
        history: FOUND_MARK_HISTORY,
    },
    Replay {
        name: "late_draw",
        script: &[LATE_DRAW],
        history: LATE_DRAW_HISTORY,
    },
    Replay {
        name: "late_begin, its commit at the old oracle",
        script: &[LATE_BEGIN, "s0 commit a\n"],
        history: &[
            LATE_BEGIN_HISTORY,
            S1_COMMITS_AT_B,
            ANSWERED_LATE_HISTORY,
            EXPIRED_HISTORY,
        ],
    },
    Replay {
        name: "late_begin, its commit at the new one",
        script: &[LATE_BEGIN, "s0 commit b\n"],
        history: &[
            LATE_BEGIN_HISTORY,
            S1_COMMITS_AT_B,
            ANSWERED_LATE_HISTORY,
            OLD_EPOCH_HISTORY,
        ],
    },
];

/// Behind a function, a proof that goes over the rows does not look into their texts.
pub fn replays() -> &'static [Replay] {
    &REPLAYS
}
