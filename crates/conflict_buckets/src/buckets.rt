ghost use Rattle.std.specs.Prelude.{◌≡◌, [], IfOk};
ghost use Rattle.stamp_base.specs.Ranges.{IsWithin};
ghost use Rattle.system_parts.specs.Buckets as memory;

use crate::bucket::Head;
use crate::runs;
use stamp_base::{KeyList, KeyNo, NoMemory, Stamp};
use std::alloc::Global;
use std::marker::Model;
use system_parts::{Recorded, Verdict};

/// The latest commits of keys, in buckets of bounded width. A key's bucket is its number modulo the number of
/// buckets, and each look-up walks over that one bucket alone.
#[derive(Drop)]
pub struct Buckets {
    width: usize,
    /// How many pairs a bucket may come to: as many as its width, or as there are keys for it.
    room: usize,
    heads: Vec<Head>,
    /// The runs of all buckets, each of `room` pairs.
    runs: Vec<Recorded>,
}

impl Model for Buckets {
    ghost use Rattle.std.specs.Prelude.{List};
    ghost use Rattle.system_parts.specs.Buckets.{Bucket as Held};
    ghost use Rattle.conflict_buckets.specs.Runs.{buckets_in};
    ghost use Rattle.conflict_buckets.specs.Sound.{AreSound};

    ghost Value = { List Held };

    ghost view = { λ b. buckets_in b.width b.room b.heads.items b.runs.items };

    ghost invariant = { λ b. AreSound b.width b.room b.heads.items b.runs.items };
}

impl Buckets {
    /// Empty buckets. All their memory is taken here, in two pieces. NoMemory where memory is refused.
    pub fn open(alloc: Global, buckets: u64, width: u64) -> Result<Buckets, NoMemory>
        requires count { IsWithin 1 4096 buckets }
        requires width { IsWithin 1 64 width }
        ensures { IfOk result (λ opened. opened ≡ memory.contents buckets width []) }
    {
        let count = buckets as usize;
        let width = width as usize;
        let room = runs::room_of(count, width);
        let heads = vec![in alloc; Head::EMPTY; count]?;
        let unused = Recorded {
            key: KeyNo::FIRST,
            commit: Stamp::FIRST,
        };
        let runs = vec![in alloc; unused; count * room]?;
        Ok(Buckets {
            width,
            room,
            heads,
            runs,
        })
    }

    /// The first key, in order, that has a kept commit above the start or is hidden from it.
    #[tactic(auto, unfolding(system_parts::specs::Buckets::verdict))]
    pub fn check(&self, start: Stamp, keys: &KeyList) -> Verdict
        ensures { result ≡ memory.verdict self.now start keys.now }
    {
        for key in keys.as_slice() {
            let verdict = self.key_verdict(start, *key);
            if verdict != Verdict::Free {
                return verdict;
            }
        }
        Verdict::Free
    }

    /// Records the keys, in order, with a commit. Where commits never fall from one call to the next, the last
    /// commit of each key is kept with it or is at most its bucket's water.
    #[tactic(auto, unfolding(system_parts::specs::Buckets::record_pairs))]
    pub fn keep(&mut self, keys: &KeyList, commit: Stamp)
        ensures { self.new ≡ memory.record_pairs self.old (memory.pairs_of keys.now commit) }
    {
        for key in keys.as_slice() {
            self.keep_pair(Recorded { key: *key, commit });
        }
    }

    fn key_verdict(&self, start: Stamp, key: KeyNo) -> Verdict
        ensures { result ≡ memory.key_verdict (memory.bucket_of self.now key) start key }
    {
        runs::key_verdict(&self.heads, &self.runs, self.room, start, key)
    }

    fn keep_pair(&mut self, pair: Recorded)
        ensures { self.new ≡ memory.record_pair self.old pair }
    {
        runs::keep(&mut self.heads, &mut self.runs, self.width, self.room, pair);
    }
}
