// A script that meets each store in each way, so that a fault can be planned for each of its calls: eleven on the cells, six
// on the table, two on the master record. What it writes is here without a fault and under three of them.
use crate::answers::{
    B_TAKES_OVER, BEGUN, S0_DRAWS_2, S0_IS_INVALID, S0_PLACES_2, S1_BEGINS_AT_B, S1_COMMITS_AT_B,
    S1_FETCHES, S1_MARKS,
};
use crate::replay::Replay;

pub const HOSTILE: &str = "\
a take
s0 begin a
s0 write k0 v
s0 write k1 w
s0 submit a
clock tick 12
b take
s1 begin b
s1 read k0
s1 write k0 x
s1 commit b
s0 collect
s2 begin b
s2 read k0
s2 read k1
janitor sweep b 1
";

const WRITES_HISTORY: &str = "\
write s0 start=1 k0 v
write s0 start=1 k1 w
";

/// `s2 begin b` and the fetch of its first read.
const THIRD_BEGIN_HISTORY: &str = "\
ask-begin s2 b
accept s2 b term=2 reading=12
draw s2 b term=2 start=103
begin s2 start=103
step s2 fetch k0 cells=1
";

/// What is read of the two keys, and what is left to sweep.
const READS_HISTORY: &str = "\
read s2 start=103 k0 from=101 x
step s2 fetch k1 cells=0
read s2 start=103 k1 none
step janitor get 1 invalid
step janitor keys 1 count=0
";

const NO_FAULT_HISTORY: &[&str] = &[
    BEGUN,
    WRITES_HISTORY,
    S0_DRAWS_2,
    B_TAKES_OVER,
    S1_BEGINS_AT_B,
    S1_MARKS,
    "write s1 start=101 k0 x\n",
    S1_COMMITS_AT_B,
    S0_IS_INVALID,
    "step s0 erase k1 1\n",
    THIRD_BEGIN_HISTORY,
    READS_HISTORY,
];

/// The reader's mark was placed, and the read has no answer.
const MARK_FAULTS_HISTORY: &[&str] = &[
    BEGUN,
    WRITES_HISTORY,
    S0_DRAWS_2,
    B_TAKES_OVER,
    S1_BEGINS_AT_B,
    S1_FETCHES,
    "mark s1 start=1\n",
    "fault s1 table\n",
    "write s1 start=101 k0 x\n",
    S1_COMMITS_AT_B,
    S0_IS_INVALID,
    "step s0 erase k1 1\n",
    THIRD_BEGIN_HISTORY,
    READS_HISTORY,
];

/// The second commit was placed, and its session does not know.
const PUT_FAULTS_HISTORY: &[&str] = &[
    BEGUN,
    WRITES_HISTORY,
    S0_DRAWS_2,
    B_TAKES_OVER,
    S1_BEGINS_AT_B,
    S1_MARKS,
    "write s1 start=101 k0 x\n",
    "ask-commit s1 b start=101\n",
    "accept s1 b term=2 reading=12\n",
    "draw s1 b term=2 start=101 commit=102\n",
    "placed start=101 commit=102\n",
    "fault b table\n",
    "refused s1 open start=101\n",
    S0_IS_INVALID,
    "step s0 erase k1 1\n",
    THIRD_BEGIN_HISTORY,
    "step s2 get 101 committed=102\n",
    READS_HISTORY,
];

/// The takeover fails, and all that asks the second node is refused.
const TAKE_FAULTS_HISTORY: &[&str] = &[
    BEGUN,
    WRITES_HISTORY,
    S0_DRAWS_2,
    "tick 12\n",
    "fault b master\n",
    "refused s1 no-oracle node=b\n",
    "refused s1 no-transaction\n",
    "refused s1 no-transaction\n",
    "refused s1 no-transaction\n",
    S0_PLACES_2,
    "step s0 shadow k0 1 2\n",
    "step s0 shadow k1 1 2\n",
    "step s0 remove 1\n",
    "refused s2 no-oracle node=b\n",
    "refused s2 no-transaction\n",
    "refused s2 no-transaction\n",
    "refused janitor no-oracle node=b\n",
];

static REPLAYS: [Replay; 4] = [
    Replay {
        name: "hostile",
        script: &[HOSTILE],
        history: NO_FAULT_HISTORY,
    },
    Replay {
        name: "hostile, a fault of the mark",
        script: &["fault table 2 applied\n", HOSTILE],
        history: MARK_FAULTS_HISTORY,
    },
    Replay {
        name: "hostile, a fault of the put",
        script: &["fault table 3 applied\n", HOSTILE],
        history: PUT_FAULTS_HISTORY,
    },
    Replay {
        name: "hostile, a fault of the takeover",
        script: &["fault master 2 unchanged\n", HOSTILE],
        history: TAKE_FAULTS_HISTORY,
    },
];

/// Behind a function, a proof that goes over the rows does not look into their texts.
pub fn replays() -> &'static [Replay] {
    &REPLAYS
}
