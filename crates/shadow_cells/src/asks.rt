ghost use Rattle.std.specs.Prelude.{◌≡◌, drop, IfSome};
ghost use Rattle.system_parts.specs.Completion.{finish_asks, undo_asks, first_ask};
ghost use Rattle.system_parts.specs.Sweep.{IsKeys};

use stamp_base::{KeyNo, Stamp, TxnId};
use system_parts::Ask;

/// The step after `done` steps of finishing a transaction that wrote these keys; None where no step is left.
#[tactic(auto, using(crate::proofs::Steps::finish_at))]
pub fn finish_ask(txn: TxnId, commit: Stamp, keys: &[KeyNo], done: usize) -> Option<Ask>
    ensures next { result ≡ first_ask (drop done (finish_asks txn commit keys.now)) }
    ensures no_listing { IfSome result (λ ask. IsKeys ask → ⊥) }
{
    if done < keys.len() {
        Some(Ask::Shadow(keys[done], txn, commit))
    } else if done == keys.len() {
        Some(Ask::Remove(txn))
    } else {
        None
    }
}

/// The step after `done` steps of undoing a transaction that wrote these keys; None where no step is left.
#[tactic(auto, using(crate::proofs::Steps::undo_at))]
pub fn undo_ask(txn: TxnId, keys: &[KeyNo], done: usize) -> Option<Ask>
    ensures next { result ≡ first_ask (drop done (undo_asks txn keys.now)) }
    ensures no_listing { IfSome result (λ ask. IsKeys ask → ⊥) }
{
    if done < keys.len() {
        Some(Ask::Erase(keys[done], txn))
    } else {
        None
    }
}
