// Whether numbers keep the order of versions that is told.
ghost use Rattle.std.specs.Prelude.{◌≡◌, ◌+◌, IfSome, length, slice_index, true};
ghost use Rattle.trace_rules.specs.Stamping.{Keeps};
ghost use Rattle.trace_edges.specs.Edges.{starts_of};
ghost use Rattle.asked_orders.specs.Keeps.{stamping_of};
ghost use Rattle.version_ranks.specs.Ranks.{by_rank};
ghost use Rattle.rank_orders.specs.Rise.{IsRaised, IsTopped, RanksRise, TakesRank};

use trace_rules::{Level, Transaction};
use version_ranks::Rank;

/// How far the ranks have come that were looked at.
#[derive(Clone, Copy, Debug, PartialEq, Eq)]
pub struct Height {
    /// The key's number.
    pub key: u64,
    /// The version's rank.
    pub version: u64,
    /// Above the numbers of commits of the key's lower versions.
    pub under: usize,
    /// Above the numbers of commits of all its versions so far.
    pub upto: usize,
}

/// Whether the numbers keep the order of versions that is told. Ranks are to stand by key and version.
pub fn keep_ranks(
    level: Level,
    transactions: &[Transaction],
    ranks: &[Rank],
    starts: usize,
    numbers: &[usize],
) -> bool
    requires { starts ≡ starts_of level (length transactions.now) }
    ensures { result ≡ true → Keeps (by_rank ranks.now) (stamping_of level (length transactions.now) numbers.now) }
{
    ranks_rise(ranks, transactions.len(), starts, numbers)
}

fn ranks_rise(ranks: &[Rank], count: usize, starts: usize, numbers: &[usize]) -> bool
    ensures { result ≡ true → RanksRise count starts numbers.now ranks.now }
{
    match height_of(ranks, count, starts, numbers) {
        None => false,
        Some(_) => true,
    }
}

fn height_of(ranks: &[Rank], count: usize, starts: usize, numbers: &[usize]) -> Option<Height>
    ensures { IfSome result (λ height. RanksRise count starts numbers.now ranks.now) }
{
    let mut height = Height {
        key: 0,
        version: 0,
        under: 0,
        upto: 0,
    };
    for place in 0..ranks.len() {
        height = height_behind(height, ranks[place], count, starts, numbers)?;
    }
    Some(height)
}

/// The height behind this rank, where its writer starts above the commits of lower versions.
fn height_behind(
    height: Height,
    rank: Rank,
    count: usize,
    starts: usize,
    numbers: &[usize],
) -> Option<Height>
    ensures { IfSome result (TakesRank count starts numbers.now height rank) }
{
    let raised = raised_to(height, rank)?;
    if rank.txn >= count || number_at(numbers, rank.txn) < raised.under {
        return None;
    }
    topped(raised, number_behind(numbers, starts, rank.txn))
}

/// The height at this rank's key and version, where it does not stand below.
fn raised_to(height: Height, rank: Rank) -> Option<Height>
    ensures { IfSome result (IsRaised height rank) }
{
    if height.key < rank.key {
        Some(Height {
            key: rank.key,
            version: rank.version,
            under: 0,
            upto: 0,
        })
    } else if height.key == rank.key && height.version < rank.version {
        Some(Height {
            key: rank.key,
            version: rank.version,
            under: height.upto,
            upto: height.upto,
        })
    } else if height.key == rank.key && height.version == rank.version {
        Some(height)
    } else {
        None
    }
}

/// The height with this commit's number below its limit.
fn topped(height: Height, number: usize) -> Option<Height>
    ensures { IfSome result (IsTopped height number) }
{
    let above = number.checked_add(1)?;
    if above < height.upto {
        Some(height)
    } else {
        Some(Height {
            key: height.key,
            version: height.version,
            under: height.under,
            upto: above,
        })
    }
}

/// The number of the node that stands so far behind this one.
fn number_behind(numbers: &[usize], starts: usize, txn: usize) -> usize
    ensures { result ≡ slice_index numbers.now (starts + txn) }
{
    match starts.checked_add(txn) {
        None => 0,
        Some(place) => number_at(numbers, place),
    }
}

fn number_at(numbers: &[usize], place: usize) -> usize
    ensures { result ≡ slice_index numbers.now place }
{
    match numbers.get(place) {
        None => 0,
        Some(number) => *number,
    }
}
