// What lines of scripts are answered with, where several histories have the same. A number in a name is the stamp that is drawn.

/// `a take` and `s0 begin a`.
pub const BEGUN: &str = "\
take a reading=0 term=1 epoch=0 until=10 ceiling=100
ask-begin s0 a
accept s0 a term=1 reading=0
draw s0 a term=1 start=1
begin s0 start=1
";

/// Then `s0 write k0 v` and `s0 submit a`.
pub const DRAWN: &str = "\
write s0 start=1 k0 v
ask-commit s0 a start=1
accept s0 a term=1 reading=0
draw s0 a term=1 start=1 commit=2
";

/// `clock tick 12` and `b take`.
pub const B_TAKES_OVER: &str = "\
tick 12
take b reading=12 term=2 epoch=100 until=22 ceiling=200
";

/// `s0 begin a`, the first begin of all.
pub const S0_BEGINS: &str = "\
ask-begin s0 a
accept s0 a term=1 reading=0
draw s0 a term=1 start=1
begin s0 start=1
";

/// `s1 begin a`, which draws 2.
pub const S1_BEGINS_2: &str = "\
ask-begin s1 a
accept s1 a term=1 reading=0
draw s1 a term=1 start=2
begin s1 start=2
";

/// `s1 begin a`, which draws 3.
pub const S1_BEGINS_3: &str = "\
ask-begin s1 a
accept s1 a term=1 reading=0
draw s1 a term=1 start=3
begin s1 start=3
";

/// `s1 begin a`, which draws 4.
pub const S1_BEGINS_4: &str = "\
ask-begin s1 a
accept s1 a term=1 reading=0
draw s1 a term=1 start=4
begin s1 start=4
";

/// `s2 begin a`, which draws 4.
pub const S2_BEGINS_4: &str = "\
ask-begin s2 a
accept s2 a term=1 reading=0
draw s2 a term=1 start=4
begin s2 start=4
";

/// `s2 begin a`, which draws 5.
pub const S2_BEGINS_5: &str = "\
ask-begin s2 a
accept s2 a term=1 reading=0
draw s2 a term=1 start=5
begin s2 start=5
";

/// `s1 begin b`, the first begin behind a takeover.
pub const S1_BEGINS_AT_B: &str = "\
ask-begin s1 b
accept s1 b term=2 reading=12
draw s1 b term=2 start=101
begin s1 start=101
";

/// The same of `s2`.
pub const S2_BEGINS_AT_B: &str = "\
ask-begin s2 b
accept s2 b term=2 reading=12
draw s2 b term=2 start=101
begin s2 start=101
";

/// `s1 begin a`, where a range of two stamps is used up.
pub const S1_BEGINS_WITH_AN_EXTENSION: &str = "\
ask-begin s1 a
accept s1 a term=1 reading=0
refused s1 no-stamp last=2
extend a term=1 ceiling=4
draw s1 a term=1 start=3
begin s1 start=3
";

/// `s0 submit a`, which draws 2.
pub const S0_DRAWS_2: &str = "\
ask-commit s0 a start=1
accept s0 a term=1 reading=0
draw s0 a term=1 start=1 commit=2
";

/// Then `a put s0` and `a answer s0`.
pub const S0_PLACES_2: &str = "\
placed start=1 commit=2
committed s0 start=1 commit=2
";

/// Then `s0 finish`.
pub const S0_COMPLETES_2: &str = "\
step s0 shadow k0 1 2
step s0 remove 1
";

/// `s0 commit a`, which draws 3.
pub const S0_COMMITS_3: &str = "\
ask-commit s0 a start=1
accept s0 a term=1 reading=0
draw s0 a term=1 start=1 commit=3
placed start=1 commit=3
committed s0 start=1 commit=3
step s0 shadow k0 1 3
step s0 remove 1
";

/// `s1 submit a`, which draws 5, `a put s1` and `a answer s1`.
pub const S1_PLACES_5: &str = "\
ask-commit s1 a start=4
accept s1 a term=1 reading=0
draw s1 a term=1 start=4 commit=5
placed start=4 commit=5
committed s1 start=4 commit=5
";

/// `s1 commit b`, which draws 102.
pub const S1_COMMITS_AT_B: &str = "\
ask-commit s1 b start=101
accept s1 b term=2 reading=12
draw s1 b term=2 start=101 commit=102
placed start=101 commit=102
committed s1 start=101 commit=102
step s1 shadow k0 101 102
step s1 remove 101
";

/// `s1 fetch k0` and `s1 step`, where the commit is not placed.
pub const S1_FETCHES: &str = "\
step s1 fetch k0 cells=1
step s1 get 1 absent
";

/// `s1 read k0`, where the commit is not placed: the reader marks its transaction.
pub const S1_MARKS: &str = "\
step s1 fetch k0 cells=1
step s1 get 1 absent
mark s1 start=1
step s1 look k0 1 none
read s1 start=101 k0 none
";

/// `s0 collect`, where its transaction was marked.
pub const S0_IS_INVALID: &str = "\
step a put 1 invalid
refused s0 invalid start=1
step s0 erase k0 1
";

/// `s0 finish`, where the commit was not placed and nobody marked it.
pub const S0_IS_DEAD: &str = "\
step s0 look k0 1 none
step s0 get 1 absent
mark s0 start=1
step s0 look k0 1 none
end s0 start=1 dead
step s0 erase k0 1
";

/// `s0 collect` and the first of `s0 finish`, where the put took effect and failed.
pub const S0_FINDS_ITS_COMMIT: &str = "\
placed start=1 commit=2
fault a table
refused s0 open start=1
step s0 look k0 1 none
step s0 get 1 committed=2
committed s0 start=1 commit=2
";

/// `janitor sweep a 1`, where its transaction wrote k0 and k1.
pub const JANITOR_COMPLETES: &str = "\
step janitor get 1 committed=2
step janitor keys 1 count=2
step janitor shadow k0 1 2
step janitor shadow k1 1 2
step janitor remove 1
";

/// Where commits are direct, `a answer s0`.
pub const S0_IS_HANDED_2: &str = "step s0 handed 1 2\n";

/// Where commits are direct, `s0 collect` of a transaction that was marked.
pub const S0_MEETS_THE_MARK: &str = "\
step s0 handed 1 2
step s0 put 1 invalid
refused s0 invalid start=1
step s0 erase k0 1
";
