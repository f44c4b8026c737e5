ghost use Rattle.std.specs.Prelude.{◌≡◌, ◌+◌, ◌≤◌, All, IfOk, map};
ghost use Rattle.thread_steps.specs.Done.{all_done, caught_up, first_cursor};

use history_book::Actor;
use stamp_base::NoMemory;
use std::alloc::Global;

/// So many lines of the actor are done.
#[derive(Clone, Copy, Debug, PartialEq, Eq)]
pub struct Cursor {
    /// The actor.
    pub actor: Actor,
    /// How many of its lines are done.
    pub done: u64,
}

/// One cursor for each actor, before its first line.
pub(crate) fn first_cursors(alloc: Global, actors: &[Actor]) -> Result<Vec<Cursor>, NoMemory>
    ensures { IfOk result (λ cursors. cursors.items ≡ map first_cursor actors.now) }
{
    let mut cursors = Vec::with_capacity(alloc, actors.len())?;
    for actor in actors {
        cursors.push(Cursor {
            actor: *actor,
            done: 0,
        })?;
    }
    Ok(cursors)
}

/// The actor's cursor comes up to the place, and tells by how much.
#[tactic(auto, unfolding(crate::specs::Done::caught_up))]
pub(crate) fn move_up(cursors: &mut Vec<Cursor>, actor: &Actor, place: u64) -> u64
    requires { All (λ cursor. cursor.actor ≡ actor.now → cursor.done ≤ place) cursors.old.items }
    ensures cursors { cursors.new.items ≡ caught_up actor.now place cursors.old.items }
    ensures more { all_done cursors.new.items ≡ all_done cursors.old.items + result }
{
    for number in 0..cursors.len() {
        if cursors[number].actor == *actor {
            let more = place - cursors[number].done;
            cursors[number].done = place;
            return more;
        }
    }
    0
}
