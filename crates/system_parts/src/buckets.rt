// The bounded memory of conflicts: its plain data, and its laws, which range over every list of recorded pairs.
ghost use Rattle.std.specs.Prelude.{◌≡◌, ◌≤◌, ◌⊎◌, ◌++◌, ℕ, List, length, Contains, Some};
ghost use Rattle.std.specs.Option.{IsSomeAnd};
ghost use Rattle.system_parts.specs.declared.buckets.Recorded.{Recorded};
ghost use Rattle.system_parts.specs.Buckets as memory;

use stamp_base::{KeyNo, Stamp};

/// A key and a commit that wrote it.
#[derive(Clone, Copy, Debug, PartialEq, Eq)]
pub struct Recorded {
    /// The key.
    pub key: KeyNo,
    /// The commit.
    pub commit: Stamp,
}

/// What the buckets say of a start and a list of keys.
#[derive(Clone, Copy, Debug, PartialEq, Eq)]
pub enum Verdict {
    /// No key has a commit above the start.
    Free,
    /// The key has a commit above the start.
    Conflict { key: KeyNo, by: Stamp },
    /// The key is not kept, and commits above the start were forgotten in its bucket.
    Hidden { key: KeyNo, water: u64 },
}

/// The last commit of a key was recorded for it, and where commits never fall it is at least each that was.
pub fn last_commits_are_the_greatest()
    ensures recorded { (pairs : List Recorded) (key commit : ℕ) → memory.last_commit pairs key ≡ Some commit → Contains pairs (memory.pair_of commit key) }
    ensures greatest { (pairs : List Recorded) (key commit : ℕ) → memory.CommitsRise pairs → Contains pairs (memory.pair_of commit key) →
        IsSomeAnd (memory.last_commit pairs key) (λ last. commit ≤ last) }
{}

/// Where commits never fall, a bucket remembers what was recorded last for a key, or its water has come up to that
/// commit.
pub fn last_commits_are_remembered()
    ensures { (count width : ℕ) (pairs : List Recorded) (key commit : ℕ) →
        1 ≤ count → 1 ≤ width → memory.CommitsRise pairs → memory.last_commit pairs key ≡ Some commit →
        memory.IsRemembered (memory.bucket_of (memory.contents count width pairs) key) key commit }
{}

/// A kept commit is the last one that was recorded for its key.
pub fn kept_commits_are_the_last()
    ensures { (count width : ℕ) (pairs : List Recorded) (key commit : ℕ) → 1 ≤ count → 1 ≤ width →
        memory.kept_commit (memory.bucket_of (memory.contents count width pairs) key).kept key ≡ Some commit →
        memory.last_commit pairs key ≡ Some commit }
{}

/// The water of a bucket is 0, or a commit that was recorded for one of its keys.
pub fn waters_were_recorded()
    ensures { (count width : ℕ) (pairs : List Recorded) (key : ℕ) → 1 ≤ count → 1 ≤ width →
        let bucket = memory.bucket_of (memory.contents count width pairs) key in
        (bucket.water ≡ 0) ⊎ memory.IsRecordedAt count (memory.place_of count key) pairs bucket.water }
{}

/// There are as many buckets as were opened, and each keeps its keys in order, each once, and no more than its width.
pub fn buckets_stay_in_order()
    ensures many { (count width : ℕ) (pairs : List Recorded) → length (memory.contents count width pairs) ≡ count }
    ensures in_order { (count width : ℕ) (pairs : List Recorded) (key : ℕ) → 1 ≤ count → 1 ≤ width →
        memory.IsInOrder width (memory.bucket_of (memory.contents count width pairs) key) }
{}

/// Further pairs are recorded over what the earlier ones left.
pub fn recordings_go_on()
    ensures { (count width : ℕ) (earlier later : List Recorded) →
        memory.contents count width (earlier ++ later) ≡ memory.record_pairs (memory.contents count width earlier) later }
{}

/// Where commits never fall: Free says that no key's last commit is above the start, Conflict names a key's last commit,
/// which is above the start, and Hidden names a key that is not kept, and a commit above the start that was recorded in its
/// bucket.
pub fn verdicts_are_shown()
    ensures { (count width : ℕ) (pairs : List Recorded) (start : ℕ) (keys : List ℕ) →
        1 ≤ count → 1 ≤ width → memory.CommitsRise pairs →
        memory.IsShown count width pairs start keys (memory.verdict (memory.contents count width pairs) start keys) }
{}
