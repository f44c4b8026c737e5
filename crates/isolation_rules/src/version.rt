use history_book::Found;
use stamp_base::Stamp;

/// A version of a key, and the place of the write that made it.
#[derive(Clone, Copy)]
pub struct Version {
    /// The place of the write, counted from 0.
    pub place: usize,
    /// The transaction that wrote it, and the value.
    pub found: Found,
}

/// A version with its transaction's commit.
#[derive(Clone, Copy)]
pub struct Best {
    /// The commit of the transaction that wrote it.
    pub commit: Stamp,
    /// The version.
    pub version: Version,
}
