// The transactions that wrote a key which one transaction wrote.
ghost use Rattle.std.specs.Prelude.{◌≡◌, ◌==◌, ◌<◌, ◌||◌, [], ◌∷◌, ◌++◌, ℕ, List, false, vec_len, length, slice_index_or, Decides, IfOk, OnOk, MatchOption};
ghost use Rattle.history_book.specs.declared.item.Item.{Item};
ghost use Rattle.isolation_rules.specs.ApartPairs.{ShareKey, writes, writes_shared};
ghost use Rattle.si_judge.specs.Sharers.{HasKeys, HasSharers};

use crate::turns::place_of;
use history_book::Item;
use stamp_base::{KeyNo, NoMemory, Stamp};
use std::alloc::Global;
use std::collections::HashSet;

/// The transactions, by their starts.
#[derive(Drop)]
pub struct Sharers {
    starts: HashSet<u64>,
}

impl Sharers {
    /// Those that wrote a key which the transaction with this start wrote, and that one itself where it wrote at all. NoMemory
    /// where memory is refused.
    pub fn of(alloc: Global, items: &[Item], start: Stamp) -> Result<Sharers, NoMemory>
        ensures { IfOk result (λ sharers. HasSharers items.now start items.now sharers.starts) }
    {
        let keys = keys_of(alloc, items, start)?;
        let mut starts = HashSet::new(alloc);
        for item in items {
            enter(&mut starts, &keys, item)?;
        }
        Ok(Sharers { starts })
    }

    /// Whether the transaction is one of them.
    pub fn has(&self, other: Stamp) -> bool
        ensures { (h : List Item) (start : ℕ) → HasSharers h start h self.now.starts → Decides result (ShareKey h start other) }
    {
        self.starts.contains(&other.value())
    }
}

/// For each key whether the transaction wrote it.
fn keys_of(alloc: Global, items: &[Item], start: Stamp) -> Result<Vec<bool>, NoMemory>
    ensures keys { IfOk result (λ keys. HasKeys items.now start keys.items) }
{
    let mut keys = vec![in alloc; false; KeyNo::COUNT]?;
    for item in items {
        mark_key(&mut keys, start, item);
    }
    Ok(keys)
}

fn mark_key(keys: &mut [bool], start: Stamp, item: &Item)
    requires { length keys.old ≡ 4096 }
    ensures each { length keys.new ≡ 4096 }
    ensures marked { (k : ℕ) → k < 4096 → slice_index_or keys.new k false ≡ (slice_index_or keys.old k false || writes start k item.now) }
{
    match item {
        Item::Write {
            start: writer,
            key,
            ..
        } => if *writer == start {
            keys[place_of(*key)] = true;
        },
        _ => {}
    }
}

/// Enters the writer of an item that writes one of the keys.
fn enter(starts: &mut HashSet<u64>, keys: &[bool], item: &Item) -> Result<(), NoMemory>
    requires { length keys.now ≡ 4096 }
    ensures { OnOk result ((h part : List Item) (start : ℕ) → HasKeys h start keys.now →
        HasSharers h start part starts.old → HasSharers h start (part ++ item.now ∷ []) starts.new) }
{
    if let Some(writer) = writer_of(keys, item) {
        starts.insert(writer.value())?;
    }
    Ok(())
}

/// The writer, where the item writes one of the keys.
fn writer_of(keys: &[bool], item: &Item) -> Option<Stamp>
    requires { length keys.now ≡ 4096 }
    ensures { (h : List Item) (start : ℕ) → HasKeys h start keys.now →
        MatchOption result ((u : ℕ) → writes_shared h u start item.now ≡ false) (λ writer. (u : ℕ) → writes_shared h u start item.now ≡ (u == writer)) }
{
    match item {
        Item::Write { start, key, .. } if keys[place_of(*key)] => Some(*start),
        _ => None,
    }
}
