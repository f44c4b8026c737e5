// Lines that name the master: each asks the node whose take stands last in the history, or the first node.
use crate::answers::{B_TAKES_OVER, BEGUN, S1_BEGINS_AT_B};
use crate::replay::Replay;

/// The second begin comes behind a takeover.
const LAST_TAKE: &str = "\
a take
s0 begin master
clock tick 12
b take
s1 begin master
";

/// The commit goes to another oracle than the begin, which does not know the transaction's epoch.
const MOVED: &str = "\
a take
s0 begin master
s0 write k1 v
clock tick 12
b take
s0 commit master
";

const MOVED_HISTORY: &[&str] = &[
    BEGUN,
    "write s0 start=1 k1 v\n",
    B_TAKES_OVER,
    "ask-commit s0 b start=1\n",
    "refused s0 old-epoch start=1 epoch=100\n",
    "step s0 erase k1 1\n",
];

/// A node's take fails, and the record has it all the same: the history tells the take, and the node has no oracle.
const APPLIED: &str = "\
fault master 2 applied
a take
clock tick 12
b take
s0 begin master
";

const APPLIED_HISTORY: &str = "\
take a reading=0 term=1 epoch=0 until=10 ceiling=100
tick 12
take b reading=12 term=2 epoch=100 until=22 ceiling=200
fault b master
refused s0 no-oracle node=b
";

/// A take that left the record as it was, and a crash, change nothing of where lines go.
const STILL_THE_FIRST: &str = "\
fault master 2 unchanged
a take
clock tick 12
b take
a crash
s0 begin master
";

const STILL_THE_FIRST_HISTORY: &str = "\
take a reading=0 term=1 epoch=0 until=10 ceiling=100
tick 12
fault b master
crash a term=1
refused s0 no-oracle node=a
";

/// A submit is sent there too.
const SUBMITTED: &str = "\
a take
s0 begin master
s0 write k0 v
s0 submit master
s0 collect
";

const SUBMITTED_HISTORY: &[&str] = &[
    BEGUN,
    "write s0 start=1 k0 v\n",
    "ask-commit s0 a start=1\n",
    "accept s0 a term=1 reading=0\n",
    "draw s0 a term=1 start=1 commit=2\n",
    "placed start=1 commit=2\n",
    "committed s0 start=1 commit=2\n",
    "step s0 shadow k0 1 2\n",
    "step s0 remove 1\n",
];

static REPLAYS: [Replay; 6] = [
    Replay {
        name: "a line that names the master asks the last that took the record",
        script: &[LAST_TAKE],
        history: &[BEGUN, B_TAKES_OVER, S1_BEGINS_AT_B],
    },
    Replay {
        name: "nobody has taken the record",
        script: &["s0 begin master\n"],
        history: &["refused s0 no-oracle node=a\n"],
    },
    Replay {
        name: "the master is another by the commit",
        script: &[MOVED],
        history: MOVED_HISTORY,
    },
    Replay {
        name: "a take that was applied counts",
        script: &[APPLIED],
        history: &[APPLIED_HISTORY],
    },
    Replay {
        name: "a take that failed does not, and a crash leaves the master",
        script: &[STILL_THE_FIRST],
        history: &[STILL_THE_FIRST_HISTORY],
    },
    Replay {
        name: "a submit to the master",
        script: &[SUBMITTED],
        history: SUBMITTED_HISTORY,
    },
];

/// Behind a function, a proof that goes over the rows does not look into their texts.
pub fn replays() -> &'static [Replay] {
    &REPLAYS
}
