// The keys of a version, from an index of versions and keys.
ghost use Rattle.std.specs.Prelude.{◌≡◌, map, false, IfOk};
ghost use Rattle.std.specs.Ordering.{is_gt};
ghost use Rattle.std.specs.BTreeSet.{keys_between};
ghost use Rattle.cell_store.specs.Index.{entry_of, entry_cmp, key_of};

use stamp_base::{KeyNo, Stamp};
use std::alloc::{AllocError, Global};
use std::cmp::Reverse;
use std::collections::BTreeSet;
use std::ops::Bound;

/// The keys from the first place to the last, in order. The index has the greatest version first. AllocError where memory is
/// refused.
pub fn keys_from_to(
    alloc: Global,
    index: &BTreeSet<(Reverse<Stamp>, KeyNo)>,
    first: (Reverse<Stamp>, KeyNo),
    last: (Reverse<Stamp>, KeyNo),
) -> Result<Vec<KeyNo>, AllocError>
    requires { is_gt (entry_cmp first last) ≡ false }
    ensures { IfOk result (λ keys. keys.items ≡ map key_of (keys_between entry_cmp (Bound.Included first) (Bound.Included last) index.now)) }
{
    let mut keys = Vec::new(alloc);
    for turned in index.range(first..=last) {
        keys.push(turned.1)?;
    }
    Ok(keys)
}

/// The first and the last place that a key of the version can have.
pub fn places_of(version: Stamp) -> ((Reverse<Stamp>, KeyNo), (Reverse<Stamp>, KeyNo))
    ensures places { result ≡ (entry_of version 0, entry_of version 4095) }
    ensures forward { is_gt (entry_cmp result.0 result.1) ≡ false }
{
    (
        (Reverse(version), KeyNo::FIRST),
        (Reverse(version), KeyNo::LAST),
    )
}
