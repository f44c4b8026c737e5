// Sessions that place the records of their own commits.
use crate::answers::{
    BEGUN, DRAWN, S0_COMPLETES_2, S0_IS_HANDED_2, S0_MEETS_THE_MARK, S0_PLACES_2, S1_BEGINS_3,
};
use crate::commits::{NOT_YET, PLAIN_PATH};
use crate::replay::Replay;

/// The setup line.
const DIRECT: &str = "commits direct\n";

const PLAIN_HISTORY: &str = "\
take a reading=0 term=1 epoch=0 until=10 ceiling=100
ask-begin s0 a
accept s0 a term=1 reading=0
draw s0 a term=1 start=1
begin s0 start=1
write s0 start=1 k0 v
ask-commit s0 a start=1
accept s0 a term=1 reading=0
draw s0 a term=1 start=1 commit=2
step s0 handed 1 2
placed start=1 commit=2
committed s0 start=1 commit=2
step s0 shadow k0 1 2
step s0 remove 1
ask-begin s1 a
accept s1 a term=1 reading=0
draw s1 a term=1 start=3
begin s1 start=3
step s1 fetch k0 cells=1
read s1 start=3 k0 from=1 v
end s1 start=3 read-only
";

/// A begin waits for no commit, and a reader of the same oracle marks the one that is not placed.
const MARKED: &str = "\
a take
s0 begin a
s0 write k0 v
s0 submit a
s1 begin a
s1 read k0
s0 collect
";

const MARKED_HISTORY: &[&str] = &[
    BEGUN,
    DRAWN,
    S1_BEGINS_3,
    "step s1 fetch k0 cells=1\n",
    "step s1 get 1 absent\n",
    "mark s1 start=1\n",
    "step s1 look k0 1 none\n",
    "read s1 start=3 k0 none\n",
    S0_MEETS_THE_MARK,
];

/// Where nobody read, the commit is placed behind the begin of a higher start.
const BEGUN_AT_ONCE_HISTORY: &[&str] = &[
    BEGUN,
    DRAWN,
    S1_BEGINS_3,
    S0_IS_HANDED_2,
    S0_PLACES_2,
    S0_COMPLETES_2,
    "refused s1 idle\n",
];

/// Step by step. The oracle has nothing to place, and a session that has is busy.
const BY_STEPS: &str = "\
a take
s0 begin a
s0 write k0 v
s0 ask-commit a
a accept s0
a decide s0
a put s0
s0 step
a answer s0
a answer s0
s0 ask-begin a
s0 write k0 w
s0 fetch k0
s0 ask-commit a
s0 abort
s0 heal
s0 collect
s0 step
s0 step
s0 step
s0 step
";

const BY_STEPS_HISTORY: &[&str] = &[
    BEGUN,
    DRAWN,
    "refused a no-request session=s0\n",
    "refused s0 idle\n",
    S0_IS_HANDED_2,
    "refused a no-request session=s0\n",
    "refused s0 busy\n",
    "refused s0 busy\n",
    "refused s0 busy\n",
    "refused s0 busy\n",
    "refused s0 busy\n",
    "refused s0 idle\n",
    S0_PLACES_2,
    S0_COMPLETES_2,
    "refused s0 idle\n",
];

static REPLAYS: [Replay; 4] = [
    Replay {
        name: "direct, plain_path",
        script: &[DIRECT, PLAIN_PATH],
        history: &[PLAIN_HISTORY],
    },
    Replay {
        name: "direct, marked by a reader of its oracle",
        script: &[DIRECT, MARKED],
        history: MARKED_HISTORY,
    },
    Replay {
        name: "direct, a begin waits for no commit",
        script: &[DIRECT, NOT_YET],
        history: BEGUN_AT_ONCE_HISTORY,
    },
    Replay {
        name: "direct, by steps",
        script: &[DIRECT, BY_STEPS],
        history: BY_STEPS_HISTORY,
    },
];

/// Behind a function, a proof that goes over the rows does not look into their texts.
pub fn replays() -> &'static [Replay] {
    &REPLAYS
}
