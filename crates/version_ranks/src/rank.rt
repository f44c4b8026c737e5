// Ranks of versions.
ghost use Rattle.std.specs.Prelude.{◌≡◌, ◌++◌, drop, take, Some, length};
ghost use Rattle.version_ranks.specs.Ranks.{rank_behind, runs_of};

/// A transaction's version of a key, by its number in the order that is told: a lower one comes before.
#[derive(Clone, Copy, Debug, PartialEq, Eq)]
pub struct Rank {
    /// The key's number.
    pub key: u64,
    /// The version's number in the order.
    pub version: u64,
    /// The place of the transaction that wrote it.
    pub txn: usize,
}

/// Gives one version to those of a key that one transaction wrote, one behind another.
pub fn join_runs(ranks: &mut [Rank])
    ensures { ranks.new ≡ runs_of ranks.old }
{
    let mut before = None;
    for place in 0..ranks.len() {
        let rank = rank_behind(before, ranks[place]);
        ranks[place] = rank;
        before = Some(rank);
    }
}

fn rank_behind(before: Option<Rank>, rank: Rank) -> Rank
    ensures { result ≡ rank_behind before rank }
{
    match before {
        None => rank,
        Some(last) => {
            if last.key == rank.key && last.txn == rank.txn {
                Rank {
                    key: rank.key,
                    version: last.version,
                    txn: rank.txn,
                }
            } else {
                rank
            }
        }
    }
}
