// The key that two transactions wrote.
ghost use Rattle.std.specs.Prelude.{◌≡◌, ◌<◌, ◌≤◌, IfSome, is_some, length};
ghost use Rattle.breach_reasons.specs.Breaches.{is_shared, shared_place};

use crate::kind::write_place;
use history_book::Item;
use stamp_base::TxnId;

/// The place of the last write of one transaction at a key that the other writes.
#[tactic(auto, unfolding(refusal_reasons::specs::Sought::last_in))]
pub fn shared_write(items: &[Item], one: TxnId, other: TxnId) -> Option<usize>
    ensures place { result ≡ shared_place items.now one other }
    ensures within { IfSome result (λ place. place < length items.now) }
{
    let mut rest = items.len();
    while rest > 0 {
        if is_shared(items, one, other, &items[rest - 1]) {
            return Some(rest - 1);
        }
        rest -= 1;
    }
    None
}

fn is_shared(items: &[Item], one: TxnId, other: TxnId, item: &Item) -> bool
    ensures { result ≡ is_shared items.now one other item.now }
{
    match *item {
        Item::Write { start, key, .. } => start == one && write_place(items, other, key).is_some(),
        _ => false,
    }
}
