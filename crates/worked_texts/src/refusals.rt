// Calls that come before what they need, and what they are told.
use crate::answers::{BEGUN, DRAWN, S0_BEGINS, S0_COMPLETES_2, S1_BEGINS_2};
use crate::replay::Replay;

/// One slot, which one session has.
const ORDER: &str = "\
slots 1
a take
s0 ask-begin a
s1 ask-begin a
s0 ask-begin a
s1 begin b
a put s0
s1 step
s1 vanish
s1 begin a
";

const ORDER_HISTORY: &str = "\
take a reading=0 term=1 epoch=0 until=10 ceiling=100
ask-begin s0 a
refused s1 full in-flight=1
refused s0 busy
refused s1 no-oracle node=b
refused a no-request session=s0
refused s1 idle
vanish s1
refused s1 gone
";

/// No oracle, no transaction, and one of both too many.
const NOTHING_OPEN: &str = "\
s0 read k0
s0 write k0 v
s0 commit a
s0 abort
s0 begin a
a take
a take
s0 begin a
s0 begin a
";

const NOTHING_OPEN_HISTORY: &[&str] = &[
    "refused s0 no-transaction\n",
    "refused s0 no-transaction\n",
    "refused s0 no-transaction\n",
    "refused s0 no-transaction\n",
    "refused s0 no-oracle node=a\n",
    "take a reading=0 term=1 epoch=0 until=10 ceiling=100\n",
    "refused a holding term=1\n",
    S0_BEGINS,
    "refused s0 busy\n",
];

/// A session that collects, finishes, heals and steps where it has nothing of the kind, and one that is gone.
const NOTHING_UNDER_WAY: &str = "\
a take
s0 collect
s0 finish
s0 ask-begin a
s0 finish
s0 step
s0 collect
s0 collect
s0 heal
s0 write k0 v
s0 abort
s0 vanish
s0 collect
s0 finish
s0 heal
s0 vanish
";

const NOTHING_UNDER_WAY_HISTORY: &str = "\
take a reading=0 term=1 epoch=0 until=10 ceiling=100
refused s0 idle
refused s0 idle
ask-begin s0 a
refused s0 idle
refused s0 idle
accept s0 a term=1 reading=0
draw s0 a term=1 start=1
begin s0 start=1
refused s0 idle
refused s0 idle
write s0 start=1 k0 v
end s0 start=1 aborted
step s0 erase k0 1
vanish s0
refused s0 gone
refused s0 gone
refused s0 gone
refused s0 gone
";

/// The oracle crashes before it has answered a begin.
const LOST_BEGIN: &str = "\
a take
s0 ask-begin a
a crash
a crash
s0 begin a
a accept s0
a renew
";

const LOST_BEGIN_HISTORY: &str = "\
take a reading=0 term=1 epoch=0 until=10 ceiling=100
ask-begin s0 a
crash a term=1
refused s0 crashed node=a term=1
refused a no-oracle node=a
refused s0 no-oracle node=a
refused a no-oracle node=a
refused a no-oracle node=a
";

/// A sweep by an oracle whose term a transaction may be of; one sweep at a time, and a node that has no oracle.
const SWEEPS: &str = "\
janitor step
janitor open a 5
a take
janitor open a 5
janitor sweep a 5
janitor step
janitor finish
janitor sweep a 6
";

const SWEEPS_HISTORY: &str = "\
refused janitor idle
refused janitor no-oracle node=a
take a reading=0 term=1 epoch=0 until=10 ceiling=100
refused janitor busy
step janitor get 5 absent
refused janitor undecided start=5 epoch=0
refused janitor idle
step janitor get 6 absent
refused janitor undecided start=6 epoch=0
";

/// A read that goes on by steps keeps its session busy.
const READ_BY_STEPS: &str = "\
a take
s0 begin a
s0 write k0 v
s1 begin a
s1 fetch k0
s1 read k0
s1 commit a
s1 collect
s1 step
s1 finish
s1 finish
";

const READ_BY_STEPS_HISTORY: &[&str] = &[
    BEGUN,
    "write s0 start=1 k0 v\n",
    S1_BEGINS_2,
    "step s1 fetch k0 cells=1\n",
    "refused s1 busy\n",
    "refused s1 busy\n",
    "step s1 get 1 absent\n",
    "step s1 look k0 1 none\n",
    "read s1 start=2 k0 none\n",
    "refused s1 idle\n",
];

/// A commit is placed once, and its completion keeps its session busy.
const COMMIT_BY_STEPS: &str = "\
a take
s0 begin a
s0 write k0 v
s0 submit a
s0 finish
a put s0
a put s0
a answer s0
s0 write k1 w
s0 collect
s0 finish
";

const COMMIT_BY_STEPS_HISTORY: &[&str] = &[
    BEGUN,
    DRAWN,
    "refused s0 idle\n",
    "placed start=1 commit=2\n",
    "refused a no-request session=s0\n",
    "committed s0 start=1 commit=2\n",
    "refused s0 busy\n",
    S0_COMPLETES_2,
];

/// Names and stages are noted, and nothing waits for them.
const NOTES: &str = "\
clock post dawn
a hold request
b hold persist
a hold reply
s0 post p-1
janitor await dawn
s15 await p-1
a free reply
b free persist
a free request
";

const NOTES_HISTORY: &str = "\
note clock post dawn
note a hold request
note b hold persist
note a hold reply
note s0 post p-1
note janitor await dawn
note s15 await p-1
note a free reply
note b free persist
note a free request
";

static REPLAYS: [Replay; 8] = [
    Replay {
        name: "refusals_of_order",
        script: &[ORDER],
        history: &[ORDER_HISTORY],
    },
    Replay {
        name: "nothing open",
        script: &[NOTHING_OPEN],
        history: NOTHING_OPEN_HISTORY,
    },
    Replay {
        name: "nothing under way",
        script: &[NOTHING_UNDER_WAY],
        history: &[NOTHING_UNDER_WAY_HISTORY],
    },
    Replay {
        name: "lost begin",
        script: &[LOST_BEGIN],
        history: &[LOST_BEGIN_HISTORY],
    },
    Replay {
        name: "sweeps",
        script: &[SWEEPS],
        history: &[SWEEPS_HISTORY],
    },
    Replay {
        name: "read by steps",
        script: &[READ_BY_STEPS],
        history: READ_BY_STEPS_HISTORY,
    },
    Replay {
        name: "commit by steps",
        script: &[COMMIT_BY_STEPS],
        history: COMMIT_BY_STEPS_HISTORY,
    },
    Replay {
        name: "notes",
        script: &[NOTES],
        history: &[NOTES_HISTORY],
    },
];

/// Behind a function, a proof that goes over the rows does not look into their texts.
pub fn replays() -> &'static [Replay] {
    &REPLAYS
}
