// What an oracle holds: its lease and its range of stamps, and how both go on or end.
use crate::answers::{
    DRAWN, S0_BEGINS, S0_COMPLETES_2, S0_PLACES_2, S1_BEGINS_WITH_AN_EXTENSION, S2_BEGINS_4,
};
use crate::replay::Replay;

/// The last reading at which a lease serves, the first at which it has expired, and the first at which it can be taken over.
pub const BOUNDARIES: &str = "\
a take
clock tick 9
s0 begin a
clock tick 1
s1 begin a
clock tick 1
b take
clock tick 1
b take
a take
";

pub const BOUNDARIES_HISTORY: &str = "\
take a reading=0 term=1 epoch=0 until=10 ceiling=100
tick 9
ask-begin s0 a
accept s0 a term=1 reading=9
draw s0 a term=1 start=1
begin s0 start=1
tick 10
ask-begin s1 a
refused s1 expired reading=10 until=10
tick 11
refused b early reading=11 until=10
tick 12
take b reading=12 term=2 epoch=100 until=22 ceiling=200
refused a holding term=1
";

/// A lease that is renewed, and a node whose clock is ahead. After the takeover the old oracle renews no more.
const RENEWALS: &str = "\
lead b 1
a take
clock tick 5
a renew
clock tick 9
s0 begin a
clock tick 1
b take
clock tick 1
b take
a renew
";

const RENEWALS_HISTORY: &str = "\
take a reading=0 term=1 epoch=0 until=10 ceiling=100
tick 5
renew a reading=5 term=1 until=15
tick 14
ask-begin s0 a
accept s0 a term=1 reading=14
draw s0 a term=1 start=1
begin s0 start=1
tick 15
refused b early reading=16 until=15
tick 16
take b reading=17 term=2 epoch=100 until=27 ceiling=200
refused a replaced found=2
";

/// A renewal fails and takes effect: the record goes on, and the oracle counts on its old lease.
const FAULTED_RENEWAL: &str = "\
fault master 2 applied
a take
clock tick 5
a renew
clock tick 5
s0 begin a
clock tick 2
b take
clock tick 5
b take
";

const FAULTED_RENEWAL_HISTORY: &str = "\
take a reading=0 term=1 epoch=0 until=10 ceiling=100
tick 5
renew a reading=5 term=1 until=15
fault a master
tick 10
ask-begin s0 a
refused s0 expired reading=10 until=10
tick 12
refused b early reading=12 until=15
tick 17
take b reading=17 term=2 epoch=100 until=27 ceiling=200
";

/// Ranges of two stamps: one is extended, and the next is not, since another oracle holds the record.
const RANGES: &str = "\
range 2
a take
s0 begin a
s0 write k0 v
s0 commit a
s1 begin a
s2 begin a
s1 write k1 q
s1 ask-commit a
a accept s1
clock tick 12
b take
a decide s1
a extend
a decide s1
s1 finish
";

const RANGES_HISTORY: &[&str] = &[
    "take a reading=0 term=1 epoch=0 until=10 ceiling=2\n",
    S0_BEGINS,
    DRAWN,
    S0_PLACES_2,
    S0_COMPLETES_2,
    S1_BEGINS_WITH_AN_EXTENSION,
    S2_BEGINS_4,
    "write s1 start=3 k1 q\n",
    "ask-commit s1 a start=3\n",
    "accept s1 a term=1 reading=0\n",
    "tick 12\n",
    "take b reading=12 term=2 epoch=4 until=22 ceiling=6\n",
    "refused s1 no-stamp last=4\n",
    "refused a replaced found=2\n",
    "refused s1 replaced found=2\n",
    "step s1 erase k1 3\n",
];

/// The first range has all the stamps.
const END_OF_STAMPS: &str = "\
range 4611686018427387904
a take
a extend
clock tick 12
b take
";

const END_OF_STAMPS_HISTORY: &str = "\
take a reading=0 term=1 epoch=0 until=10 ceiling=4611686018427387904
refused a spent ceiling=4611686018427387904
tick 12
refused b spent ceiling=4611686018427387904
";

/// An extension fails and takes effect: the stamps of that range are never drawn from, until the next one.
const FAULTED_EXTENSION: &str = "\
range 1
fault master 2 applied
a take
s0 begin a
s1 begin a
s1 collect
";

const FAULTED_EXTENSION_HISTORY: &[&str] = &[
    "take a reading=0 term=1 epoch=0 until=10 ceiling=1\n",
    S0_BEGINS,
    "ask-begin s1 a\n",
    "accept s1 a term=1 reading=0\n",
    "refused s1 no-stamp last=1\n",
    "extend a term=1 ceiling=2\n",
    "fault a master\n",
    "extend a term=1 ceiling=3\n",
    "draw s1 a term=1 start=2\n",
    "begin s1 start=2\n",
];

static REPLAYS: [Replay; 6] = [
    Replay {
        name: "boundaries",
        script: &[BOUNDARIES],
        history: &[BOUNDARIES_HISTORY],
    },
    Replay {
        name: "renewals",
        script: &[RENEWALS],
        history: &[RENEWALS_HISTORY],
    },
    Replay {
        name: "faulted renewal",
        script: &[FAULTED_RENEWAL],
        history: &[FAULTED_RENEWAL_HISTORY],
    },
    Replay {
        name: "ranges",
        script: &[RANGES],
        history: RANGES_HISTORY,
    },
    Replay {
        name: "end_of_stamps",
        script: &[END_OF_STAMPS],
        history: &[END_OF_STAMPS_HISTORY],
    },
    Replay {
        name: "faulted extension",
        script: &[FAULTED_EXTENSION],
        history: FAULTED_EXTENSION_HISTORY,
    },
];

/// Behind a function, a proof that goes over the rows does not look into their texts.
pub fn replays() -> &'static [Replay] {
    &REPLAYS
}
