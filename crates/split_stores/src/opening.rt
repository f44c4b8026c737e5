// The parts of the system as they are at first.
ghost use Rattle.std.specs.Prelude.{◌≡◌, ◌≤◌, [], All, IfOk, vec_len};
ghost use Rattle.split_stores.specs.Logs.{IsNew};

use crate::seat::ActorSeat;
use split_parts::{NodePart, SessionPart};
use stamp_base::{NoMemory, NodeNo, SessionNo};
use std::alloc::Global;
use std::sync::Mutex;
use tick_word::{TickHandle, TickWord};

/// One seat with one part for each actor.
pub(crate) fn cut(
    alloc: Global,
    word: &TickWord,
    rest: TickHandle,
    actors: usize,
) -> Result<Vec<ActorSeat>, NoMemory>
    requires word { rest.word ≡ word.now.id }
    requires parts { (1 ≤ actors) × (rest.parts ≡ actors) × (rest.drawn ≡ []) }
    ensures new { IfOk result (λ seats. All (IsNew word.now.id) seats.items) }
    ensures all { IfOk result (λ seats. vec_len seats ≡ actors) }
{
    let mut rest = rest;
    let mut seats = Vec::new(alloc);
    for _number in 1..actors {
        seats.push(ActorSeat::new(alloc, word.split(&mut rest)))?;
    }
    seats.push(ActorSeat::new(alloc, rest))?;
    Ok(seats)
}

/// All sessions, which are free, and remember so many decisions.
pub(crate) fn free_sessions(alloc: Global, cache: u64) -> Result<Vec<Mutex<SessionPart>>, NoMemory>
    ensures { IfOk result (λ sessions. vec_len sessions ≡ 16) }
{
    let mut sessions = Vec::new(alloc);
    for number in 0..SessionNo::COUNT {
        let Some(session) = SessionNo::new(number as u64) else {
            unreachable!();
        };
        sessions.push(Mutex::new(SessionPart::new(alloc, session, cache)?))?;
    }
    Ok(sessions)
}

/// All nodes, without an instance.
pub(crate) fn vacant_nodes(alloc: Global) -> Result<Vec<Mutex<NodePart>>, NoMemory>
    ensures { IfOk result (λ nodes. vec_len nodes ≡ 8) }
{
    let mut nodes = Vec::new(alloc);
    for number in 0..NodeNo::COUNT {
        let Some(node) = NodeNo::new(number as u64) else {
            unreachable!();
        };
        nodes.push(Mutex::new(NodePart::new(alloc, node)))?;
    }
    Ok(nodes)
}
