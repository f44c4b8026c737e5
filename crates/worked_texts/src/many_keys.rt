// A transaction that reads what it wrote, writes 64 keys and then one more, and commits.
use crate::answers::{BEGUN, S0_DRAWS_2, S0_PLACES_2};
use crate::replay::Replay;

const OWN_WRITES: &str = "\
a take
s0 begin a
s0 write k0 p
s0 read k0
s0 write k0 q
s0 read k0
s0 write k1 v
s0 write k2 v
s0 write k3 v
s0 write k4 v
s0 write k5 v
s0 write k6 v
s0 write k7 v
s0 write k8 v
s0 write k9 v
s0 write k10 v
s0 write k11 v
s0 write k12 v
s0 write k13 v
s0 write k14 v
s0 write k15 v
s0 write k16 v
s0 write k17 v
s0 write k18 v
s0 write k19 v
s0 write k20 v
s0 write k21 v
s0 write k22 v
s0 write k23 v
s0 write k24 v
s0 write k25 v
s0 write k26 v
s0 write k27 v
s0 write k28 v
s0 write k29 v
s0 write k30 v
s0 write k31 v
s0 write k32 v
s0 write k33 v
s0 write k34 v
s0 write k35 v
s0 write k36 v
s0 write k37 v
s0 write k38 v
s0 write k39 v
s0 write k40 v
s0 write k41 v
s0 write k42 v
s0 write k43 v
s0 write k44 v
s0 write k45 v
s0 write k46 v
s0 write k47 v
s0 write k48 v
s0 write k49 v
s0 write k50 v
s0 write k51 v
s0 write k52 v
s0 write k53 v
s0 write k54 v
s0 write k55 v
s0 write k56 v
s0 write k57 v
s0 write k58 v
s0 write k59 v
s0 write k60 v
s0 write k61 v
s0 write k62 v
s0 write k63 v
s0 write k64 v
s0 commit a
";

const WRITES_HISTORY: &str = "\
write s0 start=1 k0 p
step s0 fetch k0 cells=1
read s0 start=1 k0 from=1 p
write s0 start=1 k0 q
step s0 fetch k0 cells=1
read s0 start=1 k0 from=1 q
write s0 start=1 k1 v
write s0 start=1 k2 v
write s0 start=1 k3 v
write s0 start=1 k4 v
write s0 start=1 k5 v
write s0 start=1 k6 v
write s0 start=1 k7 v
write s0 start=1 k8 v
write s0 start=1 k9 v
write s0 start=1 k10 v
write s0 start=1 k11 v
write s0 start=1 k12 v
write s0 start=1 k13 v
write s0 start=1 k14 v
write s0 start=1 k15 v
write s0 start=1 k16 v
write s0 start=1 k17 v
write s0 start=1 k18 v
write s0 start=1 k19 v
write s0 start=1 k20 v
write s0 start=1 k21 v
write s0 start=1 k22 v
write s0 start=1 k23 v
write s0 start=1 k24 v
write s0 start=1 k25 v
write s0 start=1 k26 v
write s0 start=1 k27 v
write s0 start=1 k28 v
write s0 start=1 k29 v
write s0 start=1 k30 v
write s0 start=1 k31 v
write s0 start=1 k32 v
write s0 start=1 k33 v
write s0 start=1 k34 v
write s0 start=1 k35 v
write s0 start=1 k36 v
write s0 start=1 k37 v
write s0 start=1 k38 v
write s0 start=1 k39 v
write s0 start=1 k40 v
write s0 start=1 k41 v
write s0 start=1 k42 v
write s0 start=1 k43 v
write s0 start=1 k44 v
write s0 start=1 k45 v
write s0 start=1 k46 v
write s0 start=1 k47 v
write s0 start=1 k48 v
write s0 start=1 k49 v
write s0 start=1 k50 v
write s0 start=1 k51 v
write s0 start=1 k52 v
write s0 start=1 k53 v
write s0 start=1 k54 v
write s0 start=1 k55 v
write s0 start=1 k56 v
write s0 start=1 k57 v
write s0 start=1 k58 v
write s0 start=1 k59 v
write s0 start=1 k60 v
write s0 start=1 k61 v
write s0 start=1 k62 v
write s0 start=1 k63 v
refused s0 too-many-keys
";

/// Once for each key.
const COMPLETION_HISTORY: &str = "\
step s0 shadow k0 1 2
step s0 shadow k1 1 2
step s0 shadow k2 1 2
step s0 shadow k3 1 2
step s0 shadow k4 1 2
step s0 shadow k5 1 2
step s0 shadow k6 1 2
step s0 shadow k7 1 2
step s0 shadow k8 1 2
step s0 shadow k9 1 2
step s0 shadow k10 1 2
step s0 shadow k11 1 2
step s0 shadow k12 1 2
step s0 shadow k13 1 2
step s0 shadow k14 1 2
step s0 shadow k15 1 2
step s0 shadow k16 1 2
step s0 shadow k17 1 2
step s0 shadow k18 1 2
step s0 shadow k19 1 2
step s0 shadow k20 1 2
step s0 shadow k21 1 2
step s0 shadow k22 1 2
step s0 shadow k23 1 2
step s0 shadow k24 1 2
step s0 shadow k25 1 2
step s0 shadow k26 1 2
step s0 shadow k27 1 2
step s0 shadow k28 1 2
step s0 shadow k29 1 2
step s0 shadow k30 1 2
step s0 shadow k31 1 2
step s0 shadow k32 1 2
step s0 shadow k33 1 2
step s0 shadow k34 1 2
step s0 shadow k35 1 2
step s0 shadow k36 1 2
step s0 shadow k37 1 2
step s0 shadow k38 1 2
step s0 shadow k39 1 2
step s0 shadow k40 1 2
step s0 shadow k41 1 2
step s0 shadow k42 1 2
step s0 shadow k43 1 2
step s0 shadow k44 1 2
step s0 shadow k45 1 2
step s0 shadow k46 1 2
step s0 shadow k47 1 2
step s0 shadow k48 1 2
step s0 shadow k49 1 2
step s0 shadow k50 1 2
step s0 shadow k51 1 2
step s0 shadow k52 1 2
step s0 shadow k53 1 2
step s0 shadow k54 1 2
step s0 shadow k55 1 2
step s0 shadow k56 1 2
step s0 shadow k57 1 2
step s0 shadow k58 1 2
step s0 shadow k59 1 2
step s0 shadow k60 1 2
step s0 shadow k61 1 2
step s0 shadow k62 1 2
step s0 shadow k63 1 2
step s0 remove 1
";

const OWN_WRITES_HISTORY: &[&str] = &[
    BEGUN,
    WRITES_HISTORY,
    S0_DRAWS_2,
    S0_PLACES_2,
    COMPLETION_HISTORY,
];

static REPLAYS: [Replay; 1] = [Replay {
    name: "own_writes",
    script: &[OWN_WRITES],
    history: OWN_WRITES_HISTORY,
}];

/// Behind a function, a proof that goes over the rows does not look into their texts.
pub fn replays() -> &'static [Replay] {
    &REPLAYS
}
