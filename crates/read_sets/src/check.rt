ghost use Rattle.std.specs.Prelude.{◌≡◌};
ghost use Rattle.system_parts.specs.Buckets as memory;

use crate::read_set::ReadSet;
use conflict_buckets::{Buckets, Verdict};
use stamp_base::{KeyList, Stamp};

/// The verdict of the buckets on the keys that a commit writes and, where these are free, on those that it read.
pub fn check_both(buckets: &Buckets, start: Stamp, writes: &KeyList, reads: &ReadSet) -> Verdict
    ensures { result ≡ memory.verdict_both buckets.now start writes.now reads.now }
{
    match buckets.check(start, writes) {
        Verdict::Free => buckets.check(start, reads.keys()),
        refusal => refusal,
    }
}
