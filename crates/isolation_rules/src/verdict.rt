/// The rules of isolation, in the order in which they are tried.
#[derive(Clone, Copy, Debug, PartialEq, Eq)]
pub enum Rule {
    /// Starts and commits are all different, and each start is below its commit.
    Stamped,
    /// Of two commits that wrote one key, one is below the other's start.
    Apart,
    /// A read answers with the transaction's own write, or with the newest version below its start.
    Read,
    /// A start is above every commit that was placed before it was asked for.
    Fresh,
}

/// What a history is found to be.
#[derive(Clone, Copy, Debug, PartialEq, Eq)]
pub enum Verdict {
    /// No rule is broken.
    Isolated,
    /// The first rule that is broken, and the numbers of two items that break it, counted from 1.
    Broken {
        rule: Rule,
        first: usize,
        second: usize,
    },
}
