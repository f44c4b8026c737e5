// The numbers of keys.
ghost use Rattle.std.specs.Prelude.{◌≡◌, ◌<◌, ℕ, suc, true, IfSome, Some, length, slice_get};
ghost use Rattle.stamped_history.specs.Told.{Ascends, number_of};

use std::alloc::{AllocError, Global};
use trace_rules::Operation;

/// The keys of the operations, each once, in their order. AllocError where memory is refused.
pub fn keys_of(alloc: Global, operations: &[Operation]) -> Result<Vec<u64>, AllocError> {
    let mut all = Vec::with_capacity(alloc, operations.len())?;
    for operation in operations {
        all.push(key_of(*operation))?;
    }
    all.sort_unstable();
    let mut keys = Vec::new(alloc);
    for place in 0..all.len() {
        if place == 0 || all[place - 1] != all[place] {
            keys.push(all[place])?;
        }
    }
    Ok(keys)
}

fn key_of(operation: Operation) -> u64 {
    match operation {
        Operation::Read { key, .. } | Operation::Write { key, .. } => key,
    }
}

/// Whether no key stands behind an equal or a greater one.
pub fn ascend(keys: &[u64]) -> bool
    ensures { result ≡ true → Ascends keys.now (length keys.now) }
{
    for next in 1..keys.len() {
        if !ascends_at(keys, next) {
            return false;
        }
    }
    true
}

fn ascends_at(keys: &[u64], next: usize) -> bool
    requires { next < length keys.now }
    ensures { result ≡ true → (i a b : ℕ) → suc i ≡ next → slice_get keys.now i ≡ Some a → slice_get keys.now next ≡ Some b → a < b }
{
    next == 0 || keys[next - 1] < keys[next]
}

/// The key's number, where it is one of these.
pub fn number_of(keys: &[u64], key: u64) -> Option<usize>
    requires { Ascends keys.now (length keys.now) }
    ensures { IfSome result (λ number. number ≡ number_of keys.now key) }
{
    let place = place_of(keys, key);
    if is_at(keys, place, key) {
        Some(place)
    } else {
        None
    }
}

/// The key's place, where it is one of these.
fn place_of(keys: &[u64], key: u64) -> usize {
    match keys.binary_search(&key) {
        Ok(place) => place,
        Err(place) => place,
    }
}

fn is_at(keys: &[u64], place: usize, key: u64) -> bool
    ensures { result ≡ true → slice_get keys.now place ≡ Some key }
{
    match keys.get(place) {
        None => false,
        Some(other) => *other == key,
    }
}
