// Transactions that read what others write: which commits are refused where reads are strict.
use crate::answers::{BEGUN, S0_DRAWS_2, S0_PLACES_2, S1_BEGINS_2};
use crate::conflicts::{SKEW_HISTORY, WRITE_SKEW};
use crate::replay::Replay;

/// The setup line.
const STRICT: &str = "reads strict\n";

/// Behind the ask of the second commit of a write skew.
const SECOND_IS_REFUSED: &str = "\
refused s1 conflict key=k1 by=3
step s1 erase k0 2
";

/// Of a key that was read and one that was written, the latter is named.
const WRITTEN_FIRST: &str = "\
a take
s0 begin a
s1 begin a
s0 read k0
s1 write k0 p
s1 write k1 p
s1 commit a
s0 write k1 q
s0 commit a
";

const WRITTEN_FIRST_HISTORY: &[&str] = &[
    BEGUN,
    S1_BEGINS_2,
    "step s0 fetch k0 cells=0\n",
    "read s0 start=1 k0 none\n",
    "write s1 start=2 k0 p\n",
    "write s1 start=2 k1 p\n",
    "ask-commit s1 a start=2\n",
    "accept s1 a term=1 reading=0\n",
    "draw s1 a term=1 start=2 commit=3\n",
    "placed start=2 commit=3\n",
    "committed s1 start=2 commit=3\n",
    "step s1 shadow k0 2 3\n",
    "step s1 shadow k1 2 3\n",
    "step s1 remove 2\n",
    "write s0 start=1 k1 q\n",
    "ask-commit s0 a start=1\n",
    "accept s0 a term=1 reading=0\n",
    "refused s0 conflict key=k1 by=3\n",
    "step s0 erase k1 1\n",
];

/// A session vanishes with its commit in flight, and what it read is written before the commit is decided.
const VANISHED_READER: &str = "\
a take
s0 begin a
s1 begin a
s0 read k0
s0 write k1 p
s0 ask-commit a
s0 vanish
s1 write k0 q
s1 commit a
a accept s0
a decide s0
";

const VANISHED_READER_HISTORY: &[&str] = &[
    BEGUN,
    S1_BEGINS_2,
    "step s0 fetch k0 cells=0\n",
    "read s0 start=1 k0 none\n",
    "write s0 start=1 k1 p\n",
    "ask-commit s0 a start=1\n",
    "vanish s0\n",
    "write s1 start=2 k0 q\n",
    "ask-commit s1 a start=2\n",
    "accept s1 a term=1 reading=0\n",
    "draw s1 a term=1 start=2 commit=3\n",
    "placed start=2 commit=3\n",
    "committed s1 start=2 commit=3\n",
    "step s1 shadow k0 2 3\n",
    "step s1 remove 2\n",
    "accept s0 a term=1 reading=0\n",
    "refused s0 conflict key=k0 by=3\n",
];

/// A transaction reads 64 keys. A further one is refused, unless it is the transaction's own.
const MANY_READS: &str = "\
a take
s0 begin a
s0 read k0
s0 read k1
s0 read k2
s0 read k3
s0 read k4
s0 read k5
s0 read k6
s0 read k7
s0 read k8
s0 read k9
s0 read k10
s0 read k11
s0 read k12
s0 read k13
s0 read k14
s0 read k15
s0 read k16
s0 read k17
s0 read k18
s0 read k19
s0 read k20
s0 read k21
s0 read k22
s0 read k23
s0 read k24
s0 read k25
s0 read k26
s0 read k27
s0 read k28
s0 read k29
s0 read k30
s0 read k31
s0 read k32
s0 read k33
s0 read k34
s0 read k35
s0 read k36
s0 read k37
s0 read k38
s0 read k39
s0 read k40
s0 read k41
s0 read k42
s0 read k43
s0 read k44
s0 read k45
s0 read k46
s0 read k47
s0 read k48
s0 read k49
s0 read k50
s0 read k51
s0 read k52
s0 read k53
s0 read k54
s0 read k55
s0 read k56
s0 read k57
s0 read k58
s0 read k59
s0 read k60
s0 read k61
s0 read k62
s0 read k63
s0 read k64
s0 read k0
s0 write k64 v
s0 read k64
s0 commit a
";

const MANY_READS_HISTORY: &str = "\
step s0 fetch k0 cells=0
read s0 start=1 k0 none
step s0 fetch k1 cells=0
read s0 start=1 k1 none
step s0 fetch k2 cells=0
read s0 start=1 k2 none
step s0 fetch k3 cells=0
read s0 start=1 k3 none
step s0 fetch k4 cells=0
read s0 start=1 k4 none
step s0 fetch k5 cells=0
read s0 start=1 k5 none
step s0 fetch k6 cells=0
read s0 start=1 k6 none
step s0 fetch k7 cells=0
read s0 start=1 k7 none
step s0 fetch k8 cells=0
read s0 start=1 k8 none
step s0 fetch k9 cells=0
read s0 start=1 k9 none
step s0 fetch k10 cells=0
read s0 start=1 k10 none
step s0 fetch k11 cells=0
read s0 start=1 k11 none
step s0 fetch k12 cells=0
read s0 start=1 k12 none
step s0 fetch k13 cells=0
read s0 start=1 k13 none
step s0 fetch k14 cells=0
read s0 start=1 k14 none
step s0 fetch k15 cells=0
read s0 start=1 k15 none
step s0 fetch k16 cells=0
read s0 start=1 k16 none
step s0 fetch k17 cells=0
read s0 start=1 k17 none
step s0 fetch k18 cells=0
read s0 start=1 k18 none
step s0 fetch k19 cells=0
read s0 start=1 k19 none
step s0 fetch k20 cells=0
read s0 start=1 k20 none
step s0 fetch k21 cells=0
read s0 start=1 k21 none
step s0 fetch k22 cells=0
read s0 start=1 k22 none
step s0 fetch k23 cells=0
read s0 start=1 k23 none
step s0 fetch k24 cells=0
read s0 start=1 k24 none
step s0 fetch k25 cells=0
read s0 start=1 k25 none
step s0 fetch k26 cells=0
read s0 start=1 k26 none
step s0 fetch k27 cells=0
read s0 start=1 k27 none
step s0 fetch k28 cells=0
read s0 start=1 k28 none
step s0 fetch k29 cells=0
read s0 start=1 k29 none
step s0 fetch k30 cells=0
read s0 start=1 k30 none
step s0 fetch k31 cells=0
read s0 start=1 k31 none
step s0 fetch k32 cells=0
read s0 start=1 k32 none
step s0 fetch k33 cells=0
read s0 start=1 k33 none
step s0 fetch k34 cells=0
read s0 start=1 k34 none
step s0 fetch k35 cells=0
read s0 start=1 k35 none
step s0 fetch k36 cells=0
read s0 start=1 k36 none
step s0 fetch k37 cells=0
read s0 start=1 k37 none
step s0 fetch k38 cells=0
read s0 start=1 k38 none
step s0 fetch k39 cells=0
read s0 start=1 k39 none
step s0 fetch k40 cells=0
read s0 start=1 k40 none
step s0 fetch k41 cells=0
read s0 start=1 k41 none
step s0 fetch k42 cells=0
read s0 start=1 k42 none
step s0 fetch k43 cells=0
read s0 start=1 k43 none
step s0 fetch k44 cells=0
read s0 start=1 k44 none
step s0 fetch k45 cells=0
read s0 start=1 k45 none
step s0 fetch k46 cells=0
read s0 start=1 k46 none
step s0 fetch k47 cells=0
read s0 start=1 k47 none
step s0 fetch k48 cells=0
read s0 start=1 k48 none
step s0 fetch k49 cells=0
read s0 start=1 k49 none
step s0 fetch k50 cells=0
read s0 start=1 k50 none
step s0 fetch k51 cells=0
read s0 start=1 k51 none
step s0 fetch k52 cells=0
read s0 start=1 k52 none
step s0 fetch k53 cells=0
read s0 start=1 k53 none
step s0 fetch k54 cells=0
read s0 start=1 k54 none
step s0 fetch k55 cells=0
read s0 start=1 k55 none
step s0 fetch k56 cells=0
read s0 start=1 k56 none
step s0 fetch k57 cells=0
read s0 start=1 k57 none
step s0 fetch k58 cells=0
read s0 start=1 k58 none
step s0 fetch k59 cells=0
read s0 start=1 k59 none
step s0 fetch k60 cells=0
read s0 start=1 k60 none
step s0 fetch k61 cells=0
read s0 start=1 k61 none
step s0 fetch k62 cells=0
read s0 start=1 k62 none
step s0 fetch k63 cells=0
read s0 start=1 k63 none
refused s0 too-many-keys
step s0 fetch k0 cells=0
read s0 start=1 k0 none
write s0 start=1 k64 v
step s0 fetch k64 cells=1
read s0 start=1 k64 from=1 v
";

static REPLAYS: [Replay; 4] = [
    Replay {
        name: "strict, write skew",
        script: &[STRICT, WRITE_SKEW],
        history: &[BEGUN, S1_BEGINS_2, SKEW_HISTORY, SECOND_IS_REFUSED],
    },
    Replay {
        name: "strict, a written key is named before one that was read",
        script: &[STRICT, WRITTEN_FIRST],
        history: WRITTEN_FIRST_HISTORY,
    },
    Replay {
        name: "strict, a vanished reader",
        script: &[STRICT, VANISHED_READER],
        history: VANISHED_READER_HISTORY,
    },
    Replay {
        name: "strict, many reads",
        script: &[STRICT, MANY_READS],
        history: &[
            BEGUN,
            MANY_READS_HISTORY,
            S0_DRAWS_2,
            S0_PLACES_2,
            "step s0 shadow k64 1 2\n",
            "step s0 remove 1\n",
        ],
    },
];

/// Behind a function, a proof that goes over the rows does not look into their texts.
pub fn replays() -> &'static [Replay] {
    &REPLAYS
}
