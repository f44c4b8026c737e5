// What a replay writes that compacts its stores, byte for byte.
use crate::calls::{answers, joined};
use std::test::Fail;
use worked_texts::takeovers::TAKEN_OVER;

/// Three commits of one key, at 2, 4 and 6, and a write that is not committed, of the transaction 7.
const THREE_COMMITS: &str = "\
a take
s0 begin a
s0 write k0 p
s0 commit a
s0 begin a
s0 write k0 q
s0 commit a
s0 begin a
s0 write k0 r
s0 commit a
s1 begin a
s1 write k1 z
";

/// `old_balances.omid`
const OLD_BALANCES: &str = "\
a take
s0 begin a
s0 write k1 100
s0 write k2 500
s0 commit a
s0 begin a
s0 write k1 70
s0 commit a
s1 begin a
s0 begin a
s0 write k1 50
s0 commit a
s1 read k1
";

/// A commit that was drawn, at 2, and is not placed.
const DRAWN_ALONE: &str = "\
a take
s0 begin a
s0 write k0 v
s0 submit a
";

/// Its commit is placed, and not answered: its row is bare.
const PUT: &str = "a put s0\n";

/// The first of two rows has its shadow, the other is bare.
const HALF_SHADOWED: &str = "\
a take
s0 begin a
s0 write k10 p
s0 write k2 q
s0 submit a
a put s0
a answer s0
s0 step
";

/// A reader at the second oracle, with the start 101, marked the transaction 1 before its commit was placed.
const READ_AT_B: &str = "s1 begin b\ns1 read k0\n";

/// A commit at 2, and a write of the transaction 3 over it, which is undecided.
const UNDECIDED: &str = "\
a take
s0 begin a
s0 write k0 v
s0 commit a
s1 begin a
s1 write k0 y
";

/// A write that was taken away again.
const ABORTED: &str = "\
a take
s0 begin a
s0 write k0 v
s0 abort
";

/// A script in pieces, a water, and what is written for them.
static COMPACTIONS: [(&[&str], &str, &str); 22] = [
    // Of the rows below the water only the latest stays, those above it stay, and so does the row without a commit above it.
    (
        &[THREE_COMMITS],
        "5",
        "k0 from=3 q\nrows before=4 after=3 water=5\n",
    ),
    (
        &[THREE_COMMITS],
        "8",
        "k0 from=5 r\nrows before=4 after=1 water=8\n",
    ),
    (&[THREE_COMMITS], "1", "rows before=4 after=4 water=1\n"),
    // A commit at the water is not below it: at 4 the row of 2 is read, and at 7 that of 6, and the write of 7 stays.
    (
        &[THREE_COMMITS],
        "4",
        "k0 from=1 p\nrows before=4 after=4 water=4\n",
    ),
    (
        &[THREE_COMMITS],
        "7",
        "k0 from=5 r\nrows before=4 after=2 water=7\n",
    ),
    // The report began at 5. The old row of k2 has no later one, and stays whatever the water.
    (
        &[OLD_BALANCES],
        "5",
        "k1 from=3 70\nk2 from=1 500\nrows before=4 after=3 water=5\n",
    ),
    (
        &[OLD_BALANCES],
        "8",
        "k1 from=6 50\nk2 from=1 500\nrows before=4 after=2 water=8\n",
    ),
    // A row without a commit stays from its version down.
    (&[DRAWN_ALONE], "1", "rows before=1 after=1 water=1\n"),
    (&[DRAWN_ALONE], "2", "rows before=1 after=0 water=2\n"),
    (&[DRAWN_ALONE], "3", "rows before=1 after=0 water=3\n"),
    // A bare row has the commit that the table tells.
    (&[DRAWN_ALONE, PUT], "2", "rows before=1 after=1 water=2\n"),
    (
        &[DRAWN_ALONE, PUT],
        "3",
        "k0 from=1 v\nrows before=1 after=1 water=3\n",
    ),
    // Keys ascend by number.
    (
        &[HALF_SHADOWED],
        "3",
        "k2 from=1 q\nk10 from=1 p\nrows before=2 after=2 water=3\n",
    ),
    (&[HALF_SHADOWED], "2", "rows before=2 after=2 water=2\n"),
    // A mark is no commit.
    (
        &[TAKEN_OVER, READ_AT_B],
        "1",
        "rows before=1 after=1 water=1\n",
    ),
    (
        &[TAKEN_OVER, READ_AT_B],
        "101",
        "rows before=1 after=0 water=101\n",
    ),
    // The undecided write is seen by nobody, and stays at its version.
    (
        &[UNDECIDED],
        "3",
        "k0 from=1 v\nrows before=2 after=2 water=3\n",
    ),
    (
        &[UNDECIDED],
        "4",
        "k0 from=1 v\nrows before=2 after=1 water=4\n",
    ),
    (&[UNDECIDED], "2", "rows before=2 after=2 water=2\n"),
    // No rows.
    (&[ABORTED], "1", "rows before=0 after=0 water=1\n"),
    (&[], "1", "rows before=0 after=0 water=1\n"),
    (
        &[],
        "4611686018427387904",
        "rows before=0 after=0 water=4611686018427387904\n",
    ),
];

/// Behind a function, a proof that goes over the rows does not look into their texts.
fn compactions() -> &'static [(&'static [&'static str], &'static str, &'static str)] {
    &COMPACTIONS
}

#[test]
fn stores_are_compacted(rt: HostRuntime) -> Result<(), Fail> {
    for (script, water, text) in compactions() {
        let words = ["replay", "compact", *water];
        let script = joined(rt.alloc(), script)?;
        assert!(rt;
            answers(&rt, rt.alloc(), &words, &script, text.as_bytes(), 0)?,
            "{text}"
        );
    }
    Ok(())
}
