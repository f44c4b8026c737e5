/// A script that is carried out, and the history that must be written for it, each in pieces.
pub struct Replay {
    pub name: &'static str,
    pub script: &'static [&'static str],
    pub history: &'static [&'static str],
}

/// A commit, and a reader that waits for it.
pub const READ_BEHIND: &str = "\
a take
a post p1
s0 await p1
s0 begin a
s0 write k0 v
s0 commit a
s0 post p2
s1 await p2
s1 begin a
s1 read k0
";
