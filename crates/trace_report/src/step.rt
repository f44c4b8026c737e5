/// Why one transaction comes before another.
#[derive(Clone, Copy, Debug, PartialEq, Eq)]
pub enum Way {
    /// It wrote the version before the other's (ww).
    Next,
    /// The other read what it wrote (wr).
    Read,
    /// It did not see what the other wrote (rw).
    Missed,
    /// Its session had it before the other.
    Session,
    /// It was surely done before the other began.
    Time,
}

/// A step of a cycle: the transaction at one place comes before that at another. At a step of a session or of time the key
/// says nothing.
#[derive(Clone, Copy, Debug, PartialEq, Eq)]
pub struct Step {
    /// The place of the transaction that comes before.
    pub from: usize,
    /// The place of the one that comes behind.
    pub to: usize,
    /// Why it comes before.
    pub way: Way,
    /// The key's number.
    pub key: u64,
}
