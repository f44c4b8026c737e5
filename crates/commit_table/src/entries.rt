// How entries are placed and removed, in room that the table has, and how a place is used up.
ghost use Rattle.std.specs.Prelude.{◌≡◌, ◌+◌, ◌<◌, ◌≤◌, IsTrue};
ghost use Rattle.std.specs.FinSet as set;
ghost use Rattle.indexmap.specs.IndexMap.{spare};
ghost use Rattle.indexmap.specs.IndexSet.{index_set_len};
ghost use Rattle.commit_table.specs.Entries.{pairs_from, places_from};
ghost use Rattle.commit_table.specs.Calls.{put_pair, without_committed, fated};

use indexmap::{IndexMap, IndexSet};
use port_io::Fate;
use stamp_base::{Mark, TxnId};

/// Adds the pair where the fate applies and the transaction has none. It takes no memory.
pub(crate) fn place_under(pairs: &mut IndexMap<u64, Mark>, fate: Fate, txn: TxnId, mark: Mark)
    requires { 0 < spare pairs.old }
    ensures pairs { pairs_from pairs.new.entries ≡ fated fate (pairs_from pairs.old.entries)
        (put_pair (pairs_from pairs.old.entries) txn mark) }
    ensures room { spare pairs.old ≤ spare pairs.new + 1 }
{
    if fate.applies() {
        place(pairs, txn, mark);
    }
}

/// Takes a Committed entry away where the fate applies.
pub(crate) fn remove_under(pairs: &mut IndexMap<u64, Mark>, fate: Fate, txn: TxnId)
    ensures pairs { pairs_from pairs.new.entries ≡ fated fate (pairs_from pairs.old.entries)
        (without_committed (pairs_from pairs.old.entries) txn) }
    ensures room { spare pairs.old ≤ spare pairs.new }
{
    if fate.applies() {
        remove_where_committed(pairs, txn);
    }
}

/// Takes the transaction's place away.
pub(crate) fn use_place(places: &mut IndexSet<u64>, txn: TxnId)
    requires { IsTrue (set.contains (places_from places.old.keys) txn) }
    ensures places { places_from places.new.keys ≡ set.remove (places_from places.old.keys) txn }
    ensures len { index_set_len places.new + 1 ≡ index_set_len places.old }
{
    places.swap_remove(&txn.value());
}

/// Adds the pair where the transaction has none.
fn place(pairs: &mut IndexMap<u64, Mark>, txn: TxnId, mark: Mark)
    requires { 0 < spare pairs.old }
    ensures pairs { pairs_from pairs.new.entries ≡ put_pair (pairs_from pairs.old.entries) txn mark }
    ensures room { spare pairs.old ≤ spare pairs.new + 1 }
{
    let number = txn.value();
    if pairs.contains_key(&number) {
        return;
    }
    match pairs.insert(number, mark) {
        Ok(_) => {}
        Err(_) => unreachable!(),
    }
}

/// Takes a Committed entry away. The last entry moves into its place.
fn remove_where_committed(pairs: &mut IndexMap<u64, Mark>, txn: TxnId)
    ensures pairs { pairs_from pairs.new.entries ≡ without_committed (pairs_from pairs.old.entries) txn }
    ensures room { spare pairs.old ≤ spare pairs.new }
{
    let number = txn.value();
    match pairs.get(&number).copied() {
        Some(Mark::Committed(_)) => {
            pairs.swap_remove(&number);
        }
        Some(Mark::Invalid) => {}
        None => {}
    }
}
