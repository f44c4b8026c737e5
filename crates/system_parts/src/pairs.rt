use stamp_base::Mark;

/// What a put into the commit table met.
#[derive(Clone, Copy, Debug, PartialEq, Eq)]
pub enum Put {
    /// The transaction had no entry. It has the mark now.
    Placed,
    /// The entry that was there, which stays.
    Found(Mark),
}
