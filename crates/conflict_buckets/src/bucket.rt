// A bucket lies in a run of the memory that all buckets share: its pairs stand at the front of the run.
ghost use Rattle.std.specs.Prelude.{◌≡◌, ◌<◌, ◌≤◌, ℕ, None, length, take};
ghost use Rattle.system_parts.specs.Buckets as memory;
ghost use Rattle.conflict_buckets.specs.Runs.{bucket_in};

use crate::pairs;
use stamp_base::{KeyNo, Stamp};
use system_parts::{Recorded, Verdict};

/// What a bucket has beside its run.
#[derive(Clone, Copy)]
pub struct Head {
    /// How many pairs are kept.
    pub len: usize,
    /// The greatest commit that the bucket has forgotten, 0 where it has forgotten none.
    pub water: u64,
}

impl Head {
    /// The head of an empty bucket.
    pub const EMPTY: Head = Head { len: 0, water: 0 };

    /// What a start is told of a key of this bucket, which keeps these pairs.
    pub fn key_verdict(&self, kept: &[Recorded], start: Stamp, key: KeyNo) -> Verdict
        ensures { result ≡ memory.judged start key self.now.water (memory.kept_commit kept.now key) }
    {
        match pairs::kept_commit(kept, key) {
            Some(by) => if start < by {
                Verdict::Conflict { key, by }
            } else {
                Verdict::Free
            },
            None => if start.value() < self.water {
                Verdict::Hidden {
                    key,
                    water: self.water,
                }
            } else {
                Verdict::Free
            },
        }
    }

    /// Keeps a pair of a key of this bucket, which may keep `width` pairs. The run has room for a new key.
    pub fn keep(&self, run: &mut [Recorded], width: usize, pair: Recorded) -> Head
        requires wide { 1 ≤ width }
        requires len { self.now.len ≤ length run.old }
        requires room { memory.kept_commit (take self.now.len run.old) pair.key ≡ None → self.now.len < width → self.now.len < length run.old }
        ensures recorded { bucket_in width result run.new ≡ memory.recorded (bucket_in width self.now run.old) pair }
        ensures run { length run.new ≡ length run.old }
        ensures len { result.len ≤ length run.new }
    {
        let len = self.len;
        if pairs::kept_commit(&run[..len], pair.key).is_some() {
            pairs::replace(&mut run[..len], pair);
            *self
        } else if len < width {
            pairs::add(run, len, pair);
            Head {
                len: len + 1,
                water: self.water,
            }
        } else {
            let water = pairs::forget_oldest(&mut run[..len]).value();
            pairs::add(run, len - 1, pair);
            Head { len, water }
        }
    }
}
