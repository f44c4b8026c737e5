// A session for each transaction.
ghost use Rattle.std.specs.Prelude.{◌<◌};

use std::alloc::{AllocError, Global};

/// How many sessions a history has.
const SESSIONS: usize = 16;

/// For each transaction a session that no other has between its start and its commit, as long as there is one. What a history means
/// does not rest on it: each start is asked for just before its begin. AllocError where memory is refused.
pub fn seats_of(alloc: Global, count: usize, nodes: &[usize]) -> Result<Vec<usize>, AllocError> {
    let mut seats = vec![in alloc; 0; count]?;
    let mut taken = [false; SESSIONS];
    for node in nodes {
        if *node < count {
            let seat = free_seat(&taken, *node);
            taken[seat] = true;
            seats[*node] = seat;
        } else {
            leave(&mut taken, &seats, *node - count);
        }
    }
    Ok(seats)
}

/// A seat that is not taken, or where all are, any one.
fn free_seat(taken: &[bool; SESSIONS], node: usize) -> usize
    ensures { result < SESSIONS }
{
    for seat in 0..SESSIONS {
        if !taken[seat] {
            return seat;
        }
    }
    node % SESSIONS
}

/// Frees the transaction's seat.
fn leave(taken: &mut [bool; SESSIONS], seats: &[usize], txn: usize) {
    if let Some(seat) = seats.get(txn)
        && *seat < SESSIONS
    {
        taken[*seat] = false;
    }
}
