// The rule on reads over a whole history, by an index of its versions.
ghost use Rattle.std.specs.Prelude.{◌<◌, ℕ, length, take, IfOk, IfSome, MatchOption};
ghost use Rattle.history_book.specs.Isolation as isolation;
ghost use Rattle.isolation_rules.specs.Judged.{IsLeastPair, IsSecond, Passes};
ghost use Rattle.si_judge.specs.Indexed.{HasLastWrites, HasListed, HasVersions};

use crate::listed::Listed;
use crate::versions::VersionIndex;
use crate::writes::LastWrites;
use history_book::Item;
use isolation_rules::{Pair, Rule, Version, Views, second_by_views};
use stamp_base::{KeyNo, NoMemory, Stamp, TxnId};
use std::alloc::Global;

/// The first read with a wrong answer, and the place of the right one. With n items it takes a time in
/// proportion to n log n, and memory in proportion to the writes and listings.
pub(crate) fn first_wrong_read(alloc: Global, items: &[Item]) -> Result<Option<Pair>, NoMemory>
    requires { isolation.Stamped items.now }
    ensures pair { IfOk result (λ found. MatchOption found
        ((i : ℕ) → i < length items.now → Passes Rule.Read items.now i)
        (λ pair. IsLeastPair Rule.Read items.now pair.first pair.second)) }
    ensures within { IfOk result (λ found. IfSome found
        (λ pair. pair.first < length items.now × pair.second < length items.now)) }
{
    let versions = VersionIndex::new(alloc, items)?;
    let mut writes = LastWrites::new(alloc);
    let mut listed = Listed::new(alloc);
    for first in 0..items.len() {
        if let Some(second) = second_by_index(items, first, &versions, &writes, &listed) {
            return Ok(Some(Pair { first, second }));
        }
        writes.pass(first, &items[first])?;
        listed.pass(&items[first])?;
    }
    Ok(None)
}

/// The place of the right answer where the item is a read with a wrong one.
fn second_by_index(
    items: &[Item],
    first: usize,
    versions: &VersionIndex,
    writes: &LastWrites,
    listed: &Listed,
) -> Option<usize>
    requires stamped { isolation.Stamped items.now }
    requires within { first < length items.now }
    requires versions { HasVersions items.now items.now versions.now.versions }
    requires writes { HasLastWrites (take first items.now) writes.now.versions }
    requires listed { HasListed (take first items.now) listed.now.txns }
    ensures second { IsSecond Rule.Read items.now first result }
    ensures within { IfSome result (λ place. place < length items.now) }
{
    let views = Indexed {
        versions,
        writes,
        listed,
    };
    second_by_views(items, first, &views)
}

/// The versions of the whole history, and what was written and listed before a read.
#[derive(Clone, Copy)]
struct Indexed<'a> {
    versions: &'a VersionIndex,
    writes: &'a LastWrites,
    listed: &'a Listed,
}

impl Views for Indexed<'_> {
    ghost tells = { λ indexed h i. HasVersions h h indexed.versions.now.versions
        × HasLastWrites (take i h) indexed.writes.now.versions × HasListed (take i h) indexed.listed.now.txns };

    fn own(&self, start: Stamp, key: KeyNo) -> Option<Version> {
        self.writes.last(start, key)
    }

    fn listed(&self, txn: TxnId) -> bool {
        self.listed.has(txn)
    }

    fn seen(&self, start: Stamp, key: KeyNo) -> Option<Version> {
        self.versions.visible(start, key)
    }
}
