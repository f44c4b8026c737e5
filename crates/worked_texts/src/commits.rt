// Transactions at one oracle: commits, reads, and begins that wait for commits.
use crate::answers::{
    B_TAKES_OVER, BEGUN, DRAWN, S0_COMPLETES_2, S0_DRAWS_2, S0_PLACES_2, S1_BEGINS_2, S1_BEGINS_3,
    S2_BEGINS_4, S2_BEGINS_AT_B,
};
use crate::replay::Replay;

pub const PLAIN_PATH: &str = "\
a take
s0 begin a
s0 write k0 v
s0 commit a
s1 begin a
s1 read k0
s1 commit a
";

pub const PLAIN_HISTORY: &str = "\
take a reading=0 term=1 epoch=0 until=10 ceiling=100
ask-begin s0 a
accept s0 a term=1 reading=0
draw s0 a term=1 start=1
begin s0 start=1
write s0 start=1 k0 v
ask-commit s0 a start=1
accept s0 a term=1 reading=0
draw s0 a term=1 start=1 commit=2
placed start=1 commit=2
committed s0 start=1 commit=2
step s0 shadow k0 1 2
step s0 remove 1
ask-begin s1 a
accept s1 a term=1 reading=0
draw s1 a term=1 start=3
begin s1 start=3
step s1 fetch k0 cells=1
read s1 start=3 k0 from=1 v
end s1 start=3 read-only
";

/// A reader between two transfers, a conflict, and a commit at the next oracle.
const ORDINARY_USE: &str = "\
a take
s0 begin a
s0 write k1 100
s0 write k2 50
s0 commit a
s1 begin a
s1 read k1
s1 read k2
s1 write k1 90
s1 write k2 60
s2 begin a
s2 read k1
s2 write k1 95
s1 commit a
s2 commit a
clock tick 12
b take
s2 begin b
s2 read k1
s2 write k1 85
s2 commit b
";

const ORDINARY_HISTORY: &[&str] = &[
    BEGUN,
    "write s0 start=1 k1 100\n",
    "write s0 start=1 k2 50\n",
    S0_DRAWS_2,
    S0_PLACES_2,
    "step s0 shadow k1 1 2\n",
    "step s0 shadow k2 1 2\n",
    "step s0 remove 1\n",
    S1_BEGINS_3,
    "step s1 fetch k1 cells=1\n",
    "read s1 start=3 k1 from=1 100\n",
    "step s1 fetch k2 cells=1\n",
    "read s1 start=3 k2 from=1 50\n",
    "write s1 start=3 k1 90\n",
    "write s1 start=3 k2 60\n",
    S2_BEGINS_4,
    "step s2 fetch k1 cells=2\n",
    "step s2 get 3 absent\n",
    "step s2 look k1 3 none\n",
    "read s2 start=4 k1 from=1 100\n",
    "write s2 start=4 k1 95\n",
    "ask-commit s1 a start=3\n",
    "accept s1 a term=1 reading=0\n",
    "draw s1 a term=1 start=3 commit=5\n",
    "placed start=3 commit=5\n",
    "committed s1 start=3 commit=5\n",
    "step s1 shadow k1 3 5\n",
    "step s1 shadow k2 3 5\n",
    "step s1 remove 3\n",
    "ask-commit s2 a start=4\n",
    "accept s2 a term=1 reading=0\n",
    "refused s2 conflict key=k1 by=5\n",
    "step s2 erase k1 4\n",
    B_TAKES_OVER,
    S2_BEGINS_AT_B,
    "step s2 fetch k1 cells=2\n",
    "read s2 start=101 k1 from=3 90\n",
    "write s2 start=101 k1 85\n",
    "ask-commit s2 b start=101\n",
    "accept s2 b term=2 reading=12\n",
    "draw s2 b term=2 start=101 commit=102\n",
    "placed start=101 commit=102\n",
    "committed s2 start=101 commit=102\n",
    "step s2 shadow k1 101 102\n",
    "step s2 remove 101\n",
];

/// A transaction that wrote nothing ends, and its session is free again.
const READ_ONLY: &str = "\
a take
s0 begin a
s0 commit a
s0 write k0 v
";

const READ_ONLY_HISTORY: &[&str] = &[
    BEGUN,
    "end s0 start=1 read-only\n",
    "refused s0 no-transaction\n",
];

/// A begin waits for a commit that was drawn before it and is not placed.
pub const NOT_YET: &str = "\
a take
s0 begin a
s0 write k0 v
s0 submit a
s1 begin a
s0 collect
s1 collect
";

const NOT_YET_HISTORY: &[&str] = &[
    BEGUN,
    DRAWN,
    "ask-begin s1 a\n",
    "accept s1 a term=1 reading=0\n",
    "draw s1 a term=1 start=3\n",
    "refused s1 not-yet commit=2\n",
    S0_PLACES_2,
    S0_COMPLETES_2,
    "begin s1 start=3\n",
];

/// A begin is told once that it has to wait, and answered every time.
const TOLD_ONCE: &str = "\
a take
s0 begin a
s0 write k0 v
s0 submit a
s1 begin a
s1 collect
a answer s1
a put s0
a answer s1
";

const TOLD_ONCE_HISTORY: &[&str] = &[
    BEGUN,
    DRAWN,
    "ask-begin s1 a\n",
    "accept s1 a term=1 reading=0\n",
    "draw s1 a term=1 start=3\n",
    "refused s1 not-yet commit=2\n",
    "placed start=1 commit=2\n",
    "begin s1 start=3\n",
];

/// A cell is erased while a read of it is under way.
const GONE_CELL: &str = "\
a take
s0 begin a
s0 write k0 v
s1 begin a
s1 fetch k0
s0 abort
s1 step
s1 step
";

const GONE_CELL_HISTORY: &[&str] = &[
    BEGUN,
    "write s0 start=1 k0 v\n",
    S1_BEGINS_2,
    "step s1 fetch k0 cells=1\n",
    "end s0 start=1 aborted\n",
    "step s0 erase k0 1\n",
    "step s1 get 1 absent\n",
    "step s1 look k0 1 gone\n",
    "read s1 start=2 k0 none\n",
];

static REPLAYS: [Replay; 10] = [
    Replay {
        name: "plain_path",
        script: &[PLAIN_PATH],
        history: &[PLAIN_HISTORY],
    },
    Replay {
        name: "plain_path, its last line feed missing",
        script: &[
            "a take\ns0 begin a\ns0 write k0 v\ns0 commit a\ns1 begin a\ns1 read k0\ns1 commit a",
        ],
        history: &[PLAIN_HISTORY],
    },
    Replay {
        name: "plain_path, with carriage returns",
        script: &[
            "a take\r\ns0 begin a\r\ns0 write k0 v\r\ns0 commit a\r\ns1 begin a\r\ns1 read k0\r\ns1 commit a\r\n",
        ],
        history: &[PLAIN_HISTORY],
    },
    Replay {
        name: "nothing",
        script: &[],
        history: &[],
    },
    Replay {
        name: "nothing that says anything",
        script: &["\n# a comment\n \t\n"],
        history: &[],
    },
    Replay {
        name: "ordinary_use",
        script: &[ORDINARY_USE],
        history: ORDINARY_HISTORY,
    },
    Replay {
        name: "read only",
        script: &[READ_ONLY],
        history: READ_ONLY_HISTORY,
    },
    Replay {
        name: "not_yet",
        script: &[NOT_YET],
        history: NOT_YET_HISTORY,
    },
    Replay {
        name: "told once",
        script: &[TOLD_ONCE],
        history: TOLD_ONCE_HISTORY,
    },
    Replay {
        name: "gone cell",
        script: &[GONE_CELL],
        history: GONE_CELL_HISTORY,
    },
];

/// Behind a function, a proof that goes over the rows does not look into their texts.
pub fn replays() -> &'static [Replay] {
    &REPLAYS
}
