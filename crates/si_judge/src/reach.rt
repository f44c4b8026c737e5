// How far the writes of a key were looked at.
ghost use Rattle.std.specs.Prelude.{◌≡◌, ◌≤◌};
ghost use Rattle.si_judge.specs.OverlapIndex.{Written, HasReached};
ghost use Rattle.si_judge.specs.declared.marks.Marks.{Marks};

use stamp_base::{KeyNo, Stamp};

/// The key's writes that started above `from` and up to `upto` are marked.
#[derive(Clone, Copy)]
pub struct Reach {
    /// The key.
    pub key: KeyNo,
    /// Above this start.
    pub from: Stamp,
    /// Up to this start.
    pub upto: Stamp,
}

impl Reach {
    /// A reach from a start on, in which no writes are yet.
    pub fn from(key: KeyNo, start: Stamp) -> Reach
        ensures { (result.key ≡ key) × (result.from ≡ start) × (result.upto ≡ start) }
    {
        Reach {
            key,
            from: start,
            upto: start,
        }
    }

    /// A reach in which the start stands: this one, or else one that begins there. Writes are looked at in the order of their
    /// starts, so a key's next start stands behind those before it.
    pub fn at(self, key: KeyNo, start: Stamp) -> Reach
        ensures there { (result.key ≡ key) × (result.from ≤ start) × (start ≤ result.upto) }
        ensures reached { (written : Written) (marks : Marks) → HasReached written self marks → HasReached written result marks }
    {
        if self.key == key && self.from <= start && start <= self.upto {
            self
        } else {
            Reach::from(key, start)
        }
    }
}
