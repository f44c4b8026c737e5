/// What is written of a history.
#[derive(Clone, Copy, Debug, PartialEq, Eq)]
pub enum Form {
    /// All its items, one line each.
    History,
    /// All its items as JSON, one line each.
    Json,
    /// How many of its items tell what, in one line.
    Summary,
}
