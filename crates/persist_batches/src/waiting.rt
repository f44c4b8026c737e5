// The work on the batches that wait.
ghost use Rattle.std.specs.Prelude.{◌≡◌, ◌+◌, ◌<◌, ◌≤◌, ◌∷◌, length, vec_len, vec_capacity, insert};
ghost use Rattle.persist_batches.specs.declared.numbered.Numbered.{Numbered as NumberedBatch};
ghost use Rattle.persist_batches.specs.Waiting.{holds, placed};

use crate::numbered::Numbered;

/// Whether the batch of a number is there.
pub fn holds(waiting: &[Numbered], number: u64) -> bool
    ensures { result ≡ holds waiting.now number }
{
    waiting.iter().any(|other| other.number == number)
}

/// Adds a batch before those of greater numbers. There is room for it.
pub fn place(waiting: &mut Vec<Numbered>, batch: Numbered)
    requires { vec_len waiting.old < vec_capacity waiting.old }
    ensures placed { waiting.new.items ≡ placed waiting.old.items batch }
    ensures len { vec_len waiting.new ≡ vec_len waiting.old + 1 }
    ensures capacity { vec_capacity waiting.old ≤ vec_capacity waiting.new }
{
    let place = place_among(waiting, batch.number);
    match waiting.insert(place, batch) {
        Ok(()) => {}
        Err(_) => unreachable!(),
    }
}

/// The number of batches before the first of a greater number.
#[tactic(auto, unfolding(crate::specs::Waiting::placed))]
fn place_among(waiting: &[Numbered], number: u64) -> usize
    ensures within { result ≤ length waiting.now }
    ensures place { (batch : NumberedBatch) → batch.number ≡ number → insert waiting.now result batch ≡ placed waiting.now batch }
{
    for (i, other) in waiting.iter().enumerate() {
        if number < other.number {
            return i;
        }
    }
    waiting.len()
}

/// Takes the first batch out.
pub fn take_first(waiting: &mut Vec<Numbered>) -> Numbered
    requires { 0 < vec_len waiting.old }
    ensures first { waiting.old.items ≡ result ∷ waiting.new.items }
    ensures len { vec_len waiting.new + 1 ≡ vec_len waiting.old }
    ensures capacity { vec_capacity waiting.new ≡ vec_capacity waiting.old }
{
    waiting.remove(0)
}
