// Sessions that remember what their reads decided, beside the same scripts without a memory.
use crate::answers::{
    B_TAKES_OVER, BEGUN, DRAWN, S0_DRAWS_2, S0_IS_INVALID, S0_PLACES_2, S1_BEGINS_3,
    S1_BEGINS_AT_B, S1_MARKS,
};
use crate::replay::Replay;

/// The setup lines.
const REMEMBERS: &str = "cache 2\n";

const FORGETS: &str = "cache 0\n";

/// A session vanishes before its cells have their shadows, and another one reads both.
const TWO_KEYS: &str = "\
a take
s0 begin a
s0 write k0 v
s0 write k1 w
s0 submit a
a put s0
a answer s0
s0 vanish
s1 begin a
s1 read k1
s1 read k0
";

const ONE_IS_ASKED: &[&str] = &[
    BEGUN,
    "write s0 start=1 k0 v\n",
    "write s0 start=1 k1 w\n",
    S0_DRAWS_2,
    S0_PLACES_2,
    "vanish s0\n",
    S1_BEGINS_3,
    "step s1 fetch k1 cells=1\n",
    "step s1 get 1 committed=2\n",
    "read s1 start=3 k1 from=1 w\n",
    "step s1 fetch k0 cells=1\n",
    "read s1 start=3 k0 from=1 v\n",
];

const BOTH_ARE_ASKED: &[&str] = &[
    BEGUN,
    "write s0 start=1 k0 v\n",
    "write s0 start=1 k1 w\n",
    S0_DRAWS_2,
    S0_PLACES_2,
    "vanish s0\n",
    S1_BEGINS_3,
    "step s1 fetch k1 cells=1\n",
    "step s1 get 1 committed=2\n",
    "read s1 start=3 k1 from=1 w\n",
    "step s1 fetch k0 cells=1\n",
    "step s1 get 1 committed=2\n",
    "read s1 start=3 k0 from=1 v\n",
];

/// A reader of the second oracle marks what the first one had not placed, and reads it again.
const READ_TWICE: &str = "\
a take
s0 begin a
s0 write k0 v
s0 submit a
clock tick 12
b take
s1 begin b
s1 read k0
s1 read k0
s0 collect
";

const MARK_IS_KNOWN: &[&str] = &[
    BEGUN,
    DRAWN,
    B_TAKES_OVER,
    S1_BEGINS_AT_B,
    S1_MARKS,
    "step s1 fetch k0 cells=1\n",
    "read s1 start=101 k0 none\n",
    S0_IS_INVALID,
];

const MARK_IS_FOUND: &[&str] = &[
    BEGUN,
    DRAWN,
    B_TAKES_OVER,
    S1_BEGINS_AT_B,
    S1_MARKS,
    "step s1 fetch k0 cells=1\n",
    "step s1 get 1 invalid\n",
    "step s1 look k0 1 none\n",
    "read s1 start=101 k0 none\n",
    S0_IS_INVALID,
];

static REPLAYS: [Replay; 4] = [
    Replay {
        name: "two_keys, remembered",
        script: &[REMEMBERS, TWO_KEYS],
        history: ONE_IS_ASKED,
    },
    Replay {
        name: "two_keys, without a memory",
        script: &[FORGETS, TWO_KEYS],
        history: BOTH_ARE_ASKED,
    },
    Replay {
        name: "read_twice, remembered",
        script: &[REMEMBERS, READ_TWICE],
        history: MARK_IS_KNOWN,
    },
    Replay {
        name: "read_twice, without a memory",
        script: &[FORGETS, READ_TWICE],
        history: MARK_IS_FOUND,
    },
];

/// Behind a function, a proof that goes over the rows does not look into their texts.
pub fn replays() -> &'static [Replay] {
    &REPLAYS
}
