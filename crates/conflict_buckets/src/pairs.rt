// The work on a bucket's pairs. Each walk goes over one bucket at most.
ghost use Rattle.std.specs.Prelude.{◌≡◌, ◌+◌, ◌-◌, ◌<◌, ◌≤◌, length, take, insert};
ghost use Rattle.system_parts.specs.declared.buckets.Recorded.{Recorded};
ghost use Rattle.system_parts.specs.Buckets as memory;
ghost use Rattle.conflict_buckets.specs.Oldest.{ForgetsOldest, IsOldest};

use stamp_base::{KeyNo, Stamp};
use system_parts::Recorded;

/// The commit that is kept for a key.
#[tactic(auto, unfolding(system_parts::specs::Buckets::kept_commit))]
pub fn kept_commit(kept: &[Recorded], key: KeyNo) -> Option<Stamp>
    ensures { result ≡ memory.kept_commit kept.now key }
{
    for pair in kept {
        if pair.key == key {
            return Some(pair.commit);
        }
    }
    None
}

/// Gives a key that is there a new commit.
#[tactic(auto, unfolding(system_parts::specs::Buckets::replaced))]
pub fn replace(kept: &mut [Recorded], pair: Recorded)
    ensures { kept.new ≡ memory.replaced kept.old pair }
{
    for i in 0..kept.len() {
        if kept[i].key == pair.key {
            kept[i] = pair;
            return;
        }
    }
}

/// Adds a pair to the first `len`, before those of greater keys. The run has room for it.
pub fn add(run: &mut [Recorded], len: usize, pair: Recorded)
    requires { len < length run.old }
    ensures added { take (len + 1) run.new ≡ memory.added (take len run.old) pair }
    ensures run { length run.new ≡ length run.old }
{
    let place = place_among(&run[..len], pair.key);
    run.copy_within(place..len, place + 1);
    run[place] = pair;
}

/// The number of pairs before the first of a greater key.
#[tactic(auto, unfolding(system_parts::specs::Buckets::added))]
fn place_among(kept: &[Recorded], key: KeyNo) -> usize
    ensures within { result ≤ length kept.now }
    ensures place { (pair : Recorded) → pair.key ≡ key → insert kept.now result pair ≡ memory.added kept.now pair }
{
    for (i, pair) in kept.iter().enumerate() {
        if key < pair.key {
            return i;
        }
    }
    kept.len()
}

/// The oldest of some pairs.
#[tactic(auto, unfolding(system_parts::specs::Buckets::oldest))]
fn oldest(first: Recorded, others: &[Recorded]) -> Recorded
    ensures { result ≡ memory.oldest first others.now }
{
    let mut out = first;
    for pair in others {
        out = older(out, *pair);
    }
    out
}

fn oldest_of(kept: &[Recorded]) -> Recorded
    requires { 0 < length kept.now }
    ensures { IsOldest kept.now result }
{
    oldest(kept[0], &kept[1..])
}

fn older(a: Recorded, b: Recorded) -> Recorded
    ensures { result ≡ memory.older a b }
{
    if b.commit < a.commit || (b.commit == a.commit && b.key < a.key) {
        b
    } else {
        a
    }
}

/// Moves the pairs behind the one of a key over it.
#[tactic(auto, unfolding(system_parts::specs::Buckets::without))]
fn remove(kept: &mut [Recorded], key: KeyNo)
    ensures removed { take (length (memory.without kept.old key)) kept.new ≡ memory.without kept.old key }
    ensures len { length kept.new ≡ length kept.old }
{
    for i in 0..kept.len() {
        if kept[i].key == key {
            kept.copy_within(i + 1.., i);
            return;
        }
    }
}

/// Takes the oldest pair out of some, and tells its commit. The others stand at the front then.
pub fn forget_oldest(kept: &mut [Recorded]) -> Stamp
    requires { 0 < length kept.old }
    ensures oldest { ForgetsOldest kept.old (take (length kept.old - 1) kept.new) result }
    ensures len { length kept.new ≡ length kept.old }
{
    let out = oldest_of(kept);
    remove(kept, out.key);
    out.commit
}
