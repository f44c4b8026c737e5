/// For which way of carrying out a script is read.
#[derive(Clone, Copy, Debug, PartialEq, Eq)]
pub enum Mode {
    /// In file order, on one thread.
    Replay,
    /// On threads.
    Run,
    /// On threads, over stores that are split into parts.
    Split,
}
