ghost use Rattle.std.specs.Prelude.{◌≡◌, ◌≤◌, ◌++◌, ◌∷◌, [], length, Contains, OnOk, OnErr};

use stamp_base::{KeyList, KeyNo, TooManyKeys};
use std::marker::Model;

/// The keys that a transaction read and had not written: at most 64, each once, in the order of their first read.
#[derive(Clone, Copy, Debug, PartialEq, Eq)]
pub struct ReadSet {
    keys: KeyList,
}

impl Model for ReadSet {
    ghost use Rattle.std.specs.Prelude.{ℕ, List};

    ghost Value = { List ℕ };

    ghost view = { λ reads. reads.keys };

    ghost inverse = { λ keys. record { keys = keys } };
}

impl ReadSet {
    /// No key.
    pub fn empty() -> ReadSet
        ensures { result ≡ [] }
    {
        ReadSet {
            keys: KeyList::empty(),
        }
    }

    /// The keys, in order.
    pub fn keys(&self) -> &KeyList
        ensures { result.now ≡ self.now }
    {
        &self.keys
    }

    /// Adds a key at the end. A key that is there keeps its place. TooManyKeys exactly where 64 other keys are held, and then
    /// nothing changes.
    pub fn read(&mut self, key: KeyNo) -> Result<(), TooManyKeys>
        ensures there { Contains self.old key → OnOk result (self.new ≡ self.old) }
        ensures added { (Contains self.old key → ⊥) → OnOk result (self.new ≡ self.old ++ key ∷ []) }
        // A refusal leaves the set as it was, and comes exactly where 64 other keys are held.
        ensures refused { OnErr result ((self.new ≡ self.old) × (length self.old ≡ 64) × (Contains self.old key → ⊥)) }
        ensures full { length self.old ≡ 64 → OnOk result (Contains self.old key) }
        ensures room { OnOk result (length self.new ≤ 64) }
    {
        self.keys.push(key)
    }
}
