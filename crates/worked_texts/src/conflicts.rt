// Transactions that write by turns: which commits conflict, and the bounded memory of conflicts.
use crate::answers::{BEGUN, S0_COMMITS_3, S1_BEGINS_2, S1_BEGINS_4, S1_PLACES_5};
use crate::replay::Replay;

/// Two transactions write one key, and the one that is refused tries again.
const CONFLICT: &str = "\
a take
s0 begin a
s1 begin a
s0 write k0 p
s1 write k0 q
s0 commit a
s1 commit a
s1 begin a
s1 write k0 q
s1 commit a
";

const CONFLICT_HISTORY: &[&str] = &[
    BEGUN,
    S1_BEGINS_2,
    "write s0 start=1 k0 p\n",
    "write s1 start=2 k0 q\n",
    S0_COMMITS_3,
    "ask-commit s1 a start=2\n",
    "accept s1 a term=1 reading=0\n",
    "refused s1 conflict key=k0 by=3\n",
    "step s1 erase k0 2\n",
    S1_BEGINS_4,
    "write s1 start=4 k0 q\n",
    S1_PLACES_5,
    "step s1 shadow k0 4 5\n",
    "step s1 remove 4\n",
];

/// Each of two transactions reads a key that the other writes. They wrote no key in common, and both commit.
pub const WRITE_SKEW: &str = "\
a take
s0 begin a
s1 begin a
s0 read k0
s0 write k1 p
s1 read k1
s1 write k0 q
s0 commit a
s1 commit a
";

/// Behind the begins, until the second commit was accepted.
pub const SKEW_HISTORY: &str = "\
step s0 fetch k0 cells=0
read s0 start=1 k0 none
write s0 start=1 k1 p
step s1 fetch k1 cells=1
step s1 get 1 absent
step s1 look k1 1 none
read s1 start=2 k1 none
write s1 start=2 k0 q
ask-commit s0 a start=1
accept s0 a term=1 reading=0
draw s0 a term=1 start=1 commit=3
placed start=1 commit=3
committed s0 start=1 commit=3
step s0 shadow k1 1 3
step s0 remove 1
ask-commit s1 a start=2
accept s1 a term=1 reading=0
";

const SECOND_COMMITS: &str = "\
draw s1 a term=1 start=2 commit=4
placed start=2 commit=4
committed s1 start=2 commit=4
step s1 shadow k0 2 4
step s1 remove 2
";

/// Three commits go by while a transaction stays open. A bucket that keeps two keys has forgotten the first of them.
const FORGETFUL: &str = "\
buckets 4 2
a take
s0 begin a
s1 begin a
s1 write k0 v
s1 commit a
s1 begin a
s1 write k4 v
s1 commit a
s1 begin a
s1 write k8 v
s1 commit a
";

/// Behind the first two begins.
const FORGETFUL_HISTORY: &str = "\
write s1 start=2 k0 v
ask-commit s1 a start=2
accept s1 a term=1 reading=0
draw s1 a term=1 start=2 commit=3
placed start=2 commit=3
committed s1 start=2 commit=3
step s1 shadow k0 2 3
step s1 remove 2
ask-begin s1 a
accept s1 a term=1 reading=0
draw s1 a term=1 start=4
begin s1 start=4
write s1 start=4 k4 v
ask-commit s1 a start=4
accept s1 a term=1 reading=0
draw s1 a term=1 start=4 commit=5
placed start=4 commit=5
committed s1 start=4 commit=5
step s1 shadow k4 4 5
step s1 remove 4
ask-begin s1 a
accept s1 a term=1 reading=0
draw s1 a term=1 start=6
begin s1 start=6
write s1 start=6 k8 v
ask-commit s1 a start=6
accept s1 a term=1 reading=0
draw s1 a term=1 start=6 commit=7
placed start=6 commit=7
committed s1 start=6 commit=7
step s1 shadow k8 6 7
step s1 remove 6
";

/// On the key that was forgotten.
const FORGOTTEN: &str = "\
s0 write k0 z
s0 commit a
";

const FORGOTTEN_HISTORY: &str = "\
write s0 start=1 k0 z
ask-commit s0 a start=1
accept s0 a term=1 reading=0
refused s0 hidden key=k0 water=3
step s0 erase k0 1
";

/// On a key of the same bucket that nobody wrote.
const UNWRITTEN: &str = "\
s0 write k12 z
s0 commit a
";

const UNWRITTEN_HISTORY: &str = "\
write s0 start=1 k12 z
ask-commit s0 a start=1
accept s0 a term=1 reading=0
refused s0 hidden key=k12 water=3
step s0 erase k12 1
";

/// On a key that is kept.
const KEPT: &str = "\
s0 write k4 z
s0 commit a
";

const KEPT_HISTORY: &str = "\
write s0 start=1 k4 z
ask-commit s0 a start=1
accept s0 a term=1 reading=0
refused s0 conflict key=k4 by=5
step s0 erase k4 1
";

static REPLAYS: [Replay; 5] = [
    Replay {
        name: "conflict",
        script: &[CONFLICT],
        history: CONFLICT_HISTORY,
    },
    Replay {
        name: "write skew",
        script: &[WRITE_SKEW],
        history: &[BEGUN, S1_BEGINS_2, SKEW_HISTORY, SECOND_COMMITS],
    },
    Replay {
        name: "hidden, on the key that was forgotten",
        script: &[FORGETFUL, FORGOTTEN],
        history: &[BEGUN, S1_BEGINS_2, FORGETFUL_HISTORY, FORGOTTEN_HISTORY],
    },
    Replay {
        name: "hidden, on a key that nobody wrote",
        script: &[FORGETFUL, UNWRITTEN],
        history: &[BEGUN, S1_BEGINS_2, FORGETFUL_HISTORY, UNWRITTEN_HISTORY],
    },
    Replay {
        name: "hidden, on a key that is kept",
        script: &[FORGETFUL, KEPT],
        history: &[BEGUN, S1_BEGINS_2, FORGETFUL_HISTORY, KEPT_HISTORY],
    },
];

/// Behind a function, a proof that goes over the rows does not look into their texts.
pub fn replays() -> &'static [Replay] {
    &REPLAYS
}
