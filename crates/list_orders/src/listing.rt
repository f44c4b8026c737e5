// A list that was read.
ghost use Rattle.std.specs.Prelude.{◌≡◌};
ghost use Rattle.list_orders.specs.Listings.{listed_between};

/// A list that a transaction read.
#[derive(Clone, Copy, Debug, PartialEq, Eq)]
pub struct Listing {
    /// The read's place among the operations.
    pub place: usize,
    /// The reader's place among the transactions.
    pub txn: usize,
    /// The key's number.
    pub key: u64,
    /// Its values are those that were listed from this place
    pub first: u64,
    /// to before this one.
    pub end: u64,
}

/// The values that stand from a place to before another among those that were listed. None where they are not there.
pub fn listed_between(listed: &[u64], first: u64, end: u64) -> &[u64]
    ensures { result.now ≡ listed_between listed.now first end }
{
    if first <= end && end <= listed.len() as u64 {
        &listed[first as usize..end as usize]
    } else {
        &[]
    }
}
