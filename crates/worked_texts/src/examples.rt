// The scripts of `examples/` without their comments, and what each prints.
use crate::answers::{
    B_TAKES_OVER, BEGUN, DRAWN, JANITOR_COMPLETES, S0_COMPLETES_2, S0_DRAWS_2, S0_FINDS_ITS_COMMIT,
    S0_IS_INVALID, S1_BEGINS_2, S1_BEGINS_3, S1_BEGINS_4, S1_BEGINS_AT_B, S1_MARKS, S1_PLACES_5,
    S2_BEGINS_4, S2_BEGINS_5, S2_BEGINS_AT_B,
};
use crate::outcomes::{HALF_COMPLETED, HALF_COMPLETED_HISTORY};
use crate::replay::Replay;

/// `takeover.omid`
const TAKEOVER: &str = "\
a take
s0 begin a
s0 write k0 v
a hold persist
s0 submit a
clock tick 12
b take
s1 begin b
s1 read k0
a free persist
s0 collect
s0 begin b
s0 write k0 v
s0 commit b
s1 read k0
s1 commit b
";

const TAKEOVER_HISTORY: &[&str] = &[
    BEGUN,
    "write s0 start=1 k0 v\n",
    "note a hold persist\n",
    S0_DRAWS_2,
    B_TAKES_OVER,
    S1_BEGINS_AT_B,
    S1_MARKS,
    "note a free persist\n",
    S0_IS_INVALID,
    "ask-begin s0 b\n",
    "accept s0 b term=2 reading=12\n",
    "draw s0 b term=2 start=102\n",
    "begin s0 start=102\n",
    "write s0 start=102 k0 v\n",
    "ask-commit s0 b start=102\n",
    "accept s0 b term=2 reading=12\n",
    "draw s0 b term=2 start=102 commit=103\n",
    "placed start=102 commit=103\n",
    "committed s0 start=102 commit=103\n",
    "step s0 shadow k0 102 103\n",
    "step s0 remove 102\n",
    "step s1 fetch k0 cells=0\n",
    "read s1 start=101 k0 none\n",
    "end s1 start=101 read-only\n",
];

/// `crash.omid`
const OPEN_OUTCOMES: &str = "\
a take
s0 begin a
s1 begin a
s0 write k0 v
s1 write k1 w
s0 submit a
s1 submit a
a put s0
a crash
s0 finish
s1 finish
clock tick 12
b take
s2 begin b
s2 read k0
s2 read k1
s2 commit b
";

const OPEN_OUTCOMES_HISTORY: &[&str] = &[
    BEGUN,
    S1_BEGINS_2,
    "write s0 start=1 k0 v\n",
    "write s1 start=2 k1 w\n",
    "ask-commit s0 a start=1\n",
    "accept s0 a term=1 reading=0\n",
    "draw s0 a term=1 start=1 commit=3\n",
    "ask-commit s1 a start=2\n",
    "accept s1 a term=1 reading=0\n",
    "draw s1 a term=1 start=2 commit=4\n",
    "placed start=1 commit=3\n",
    "crash a term=1\n",
    "refused s0 open start=1\n",
    "refused s1 open start=2\n",
    "step s0 look k0 1 none\n",
    "step s0 get 1 committed=3\n",
    "committed s0 start=1 commit=3\n",
    "step s0 shadow k0 1 3\n",
    "step s0 remove 1\n",
    "step s1 look k1 2 none\n",
    "step s1 get 2 absent\n",
    "mark s1 start=2\n",
    "step s1 look k1 2 none\n",
    "end s1 start=2 dead\n",
    "step s1 erase k1 2\n",
    B_TAKES_OVER,
    S2_BEGINS_AT_B,
    "step s2 fetch k0 cells=1\n",
    "read s2 start=101 k0 from=1 v\n",
    "step s2 fetch k1 cells=0\n",
    "read s2 start=101 k1 none\n",
    "end s2 start=101 read-only\n",
];

/// `faulted_put.omid`
const FAULTED_PUTS: &str = "\
fault table 1 applied
fault table 4 unchanged
a take
s0 begin a
s0 write k0 v
s0 commit a
s0 finish
s1 begin a
s1 write k0 w
s1 commit a
s1 finish
s2 begin a
s2 read k0
";

const FAULTED_PUTS_HISTORY: &[&str] = &[
    BEGUN,
    DRAWN,
    S0_FINDS_ITS_COMMIT,
    S0_COMPLETES_2,
    S1_BEGINS_3,
    "write s1 start=3 k0 w\n",
    "ask-commit s1 a start=3\n",
    "accept s1 a term=1 reading=0\n",
    "draw s1 a term=1 start=3 commit=4\n",
    "fault a table\n",
    "refused s1 open start=3\n",
    "step s1 look k0 3 none\n",
    "step s1 get 3 absent\n",
    "mark s1 start=3\n",
    "step s1 look k0 3 none\n",
    "end s1 start=3 dead\n",
    "step s1 erase k0 3\n",
    S2_BEGINS_5,
    "step s2 fetch k0 cells=1\n",
    "read s2 start=5 k0 from=1 v\n",
];

/// `vanished.omid`
const SWEPT: &str = "\
s1 heal
janitor sweep a 1
s1 read k1
s2 begin a
s2 write k2 x
s2 vanish
janitor sweep a 4
clock tick 12
b take
janitor sweep b 4
";

const SWEPT_HISTORY: &[&str] = &[
    BEGUN,
    HALF_COMPLETED_HISTORY,
    "step s1 shadow k1 1 2\n",
    JANITOR_COMPLETES,
    "step s1 fetch k1 cells=1\n",
    "read s1 start=3 k1 from=1 w\n",
    S2_BEGINS_4,
    "write s2 start=4 k2 x\n",
    "vanish s2\n",
    "step janitor get 4 absent\n",
    "refused janitor undecided start=4 epoch=0\n",
    B_TAKES_OVER,
    "step janitor get 4 absent\n",
    "mark janitor start=4\n",
    "step janitor keys 4 count=1\n",
    "step janitor erase k2 4\n",
];

/// `hidden.omid`
const HIDDEN: &str = "\
buckets 1 1
a take
s0 begin a
s1 begin a
s1 write k1 v
s1 commit a
s1 begin a
s1 write k2 v
s1 commit a
s0 write k7 z
s0 commit a
s0 begin a
s0 write k7 z
s0 commit a
";

const HIDDEN_HISTORY: &[&str] = &[
    BEGUN,
    S1_BEGINS_2,
    "write s1 start=2 k1 v\n",
    "ask-commit s1 a start=2\n",
    "accept s1 a term=1 reading=0\n",
    "draw s1 a term=1 start=2 commit=3\n",
    "placed start=2 commit=3\n",
    "committed s1 start=2 commit=3\n",
    "step s1 shadow k1 2 3\n",
    "step s1 remove 2\n",
    S1_BEGINS_4,
    "write s1 start=4 k2 v\n",
    S1_PLACES_5,
    "step s1 shadow k2 4 5\n",
    "step s1 remove 4\n",
    "write s0 start=1 k7 z\n",
    "ask-commit s0 a start=1\n",
    "accept s0 a term=1 reading=0\n",
    "refused s0 hidden key=k7 water=3\n",
    "step s0 erase k7 1\n",
    "ask-begin s0 a\n",
    "accept s0 a term=1 reading=0\n",
    "draw s0 a term=1 start=6\n",
    "begin s0 start=6\n",
    "write s0 start=6 k7 z\n",
    "ask-commit s0 a start=6\n",
    "accept s0 a term=1 reading=0\n",
    "draw s0 a term=1 start=6 commit=7\n",
    "placed start=6 commit=7\n",
    "committed s0 start=6 commit=7\n",
    "step s0 shadow k7 6 7\n",
    "step s0 remove 6\n",
];

/// `write_skew.omid`; `write_skew_strict.omid` begins with a setup line.
const DOCTORS: &str = "\
a take
s0 begin a
s0 write k0 on
s0 write k1 on
s0 commit a
s1 begin a
s2 begin a
s1 read k1
s2 read k0
s1 write k0 off
s2 write k1 off
s1 commit a
s2 commit a
s3 begin a
s3 read k0
s3 read k1
s3 commit a
";

/// Behind the begin, until the second doctor's commit was accepted.
const DOCTORS_HISTORY: &str = "\
write s0 start=1 k0 on
write s0 start=1 k1 on
ask-commit s0 a start=1
accept s0 a term=1 reading=0
draw s0 a term=1 start=1 commit=2
placed start=1 commit=2
committed s0 start=1 commit=2
step s0 shadow k0 1 2
step s0 shadow k1 1 2
step s0 remove 1
ask-begin s1 a
accept s1 a term=1 reading=0
draw s1 a term=1 start=3
begin s1 start=3
ask-begin s2 a
accept s2 a term=1 reading=0
draw s2 a term=1 start=4
begin s2 start=4
step s1 fetch k1 cells=1
read s1 start=3 k1 from=1 on
step s2 fetch k0 cells=1
read s2 start=4 k0 from=1 on
write s1 start=3 k0 off
write s2 start=4 k1 off
ask-commit s1 a start=3
accept s1 a term=1 reading=0
draw s1 a term=1 start=3 commit=5
placed start=3 commit=5
committed s1 start=3 commit=5
step s1 shadow k0 3 5
step s1 remove 3
ask-commit s2 a start=4
accept s2 a term=1 reading=0
";

/// The second commits too, and nobody is on call.
const BOTH_GO: &str = "\
draw s2 a term=1 start=4 commit=6
placed start=4 commit=6
committed s2 start=4 commit=6
step s2 shadow k1 4 6
step s2 remove 4
ask-begin s3 a
accept s3 a term=1 reading=0
draw s3 a term=1 start=7
begin s3 start=7
step s3 fetch k0 cells=2
read s3 start=7 k0 from=3 off
step s3 fetch k1 cells=2
read s3 start=7 k1 from=4 off
end s3 start=7 read-only
";

/// The second is refused, and stays on call.
const ONE_STAYS: &str = "\
refused s2 conflict key=k0 by=5
step s2 erase k1 4
ask-begin s3 a
accept s3 a term=1 reading=0
draw s3 a term=1 start=6
begin s3 start=6
step s3 fetch k0 cells=2
read s3 start=6 k0 from=3 off
step s3 fetch k1 cells=1
read s3 start=6 k1 from=1 on
end s3 start=6 read-only
";

static REPLAYS: [Replay; 7] = [
    Replay {
        name: "examples, takeover",
        script: &[TAKEOVER],
        history: TAKEOVER_HISTORY,
    },
    Replay {
        name: "examples, crash",
        script: &[OPEN_OUTCOMES],
        history: OPEN_OUTCOMES_HISTORY,
    },
    Replay {
        name: "examples, faulted put",
        script: &[FAULTED_PUTS],
        history: FAULTED_PUTS_HISTORY,
    },
    Replay {
        name: "examples, vanished",
        script: &[HALF_COMPLETED, SWEPT],
        history: SWEPT_HISTORY,
    },
    Replay {
        name: "examples, hidden",
        script: &[HIDDEN],
        history: HIDDEN_HISTORY,
    },
    Replay {
        name: "examples, write skew",
        script: &[DOCTORS],
        history: &[BEGUN, DOCTORS_HISTORY, BOTH_GO],
    },
    Replay {
        name: "examples, write skew with strict reads",
        script: &["reads strict\n", DOCTORS],
        history: &[BEGUN, DOCTORS_HISTORY, ONE_STAYS],
    },
];

/// Behind a function, a proof that goes over the rows does not look into their texts.
pub fn replays() -> &'static [Replay] {
    &REPLAYS
}
