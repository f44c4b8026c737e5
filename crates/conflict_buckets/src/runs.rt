// The buckets of all places, each of which lies in a run of one piece of memory.
ghost use Rattle.std.specs.Prelude.{◌≡◌, ◌*◌, ◌<◌, ◌≤◌, ℕ, length, slice_index_or};
ghost use Rattle.system_parts.specs.Buckets as memory;
ghost use Rattle.conflict_buckets.specs.declared.bucket.Head.{Head as HeadOf};
ghost use Rattle.conflict_buckets.specs.Runs as share;
ghost use Rattle.conflict_buckets.specs.Runs.{buckets_in};
ghost use Rattle.conflict_buckets.specs.Sound.{AreSound};

use crate::bucket::Head;
use stamp_base::{KeyNo, Stamp};
use system_parts::{Recorded, Verdict};

/// How many pairs a bucket may come to, where there are so many buckets of a width.
pub fn room_of(count: usize, width: usize) -> usize
    requires { 1 ≤ count }
    ensures { result ≡ share.room_of count width }
{
    width.min((KeyNo::COUNT - 1) / count + 1)
}

/// What a start is told of a key.
pub fn key_verdict(
    heads: &[Head],
    runs: &[Recorded],
    room: usize,
    start: Stamp,
    key: KeyNo,
) -> Verdict
    requires some { 1 ≤ length heads.now }
    requires size { length runs.now ≡ length heads.now * room }
    requires fit { (place : ℕ) (d : HeadOf) → place < length heads.now → (slice_index_or heads.now place d).len ≤ room }
    ensures { (width : ℕ) → result ≡ memory.key_verdict (memory.bucket_of (buckets_in width room heads.now runs.now) key) start key }
{
    let place = place_of(heads.len(), key);
    let head = heads[place];
    let first = place * room;
    head.key_verdict(&runs[first..first + head.len], start, key)
}

/// Records a pair in the bucket of its key.
pub fn keep(heads: &mut [Head], runs: &mut [Recorded], width: usize, room: usize, pair: Recorded)
    requires { AreSound width room heads.old runs.old }
    ensures recorded { buckets_in width room heads.new runs.new ≡ memory.record_pair (buckets_in width room heads.old runs.old) pair }
    ensures sound { AreSound width room heads.new runs.new }
    ensures heads { length heads.new ≡ length heads.old }
    ensures runs { length runs.new ≡ length runs.old }
{
    let place = place_of(heads.len(), pair.key);
    let first = place * room;
    heads[place] = heads[place].keep(&mut runs[first..first + room], width, pair);
}

/// The place of a key's bucket.
fn place_of(count: usize, key: KeyNo) -> usize
    requires { 1 ≤ count }
    ensures value { result ≡ memory.place_of count key }
    ensures within { result < count }
    ensures key { key < 4096 }
{
    key.value() as usize % count
}
