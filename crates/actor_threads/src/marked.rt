// The lines of all actors, each with a mark of its actor.
ghost use Rattle.std.specs.Prelude.{◌≡◌, ◌+◌, ◌<◌, ◌∷◌, IfOk, Some, drop, length, slice_get};
ghost use Rattle.script_data.specs.declared.line.Line.{Line as ScriptLine};
ghost use Rattle.thread_steps.specs.Done.{is_same};
ghost use Rattle.actor_threads.specs.Lines.{own};
ghost use Rattle.actor_threads.specs.Marks.{mark_of};

use history_book::Actor;
use script_data::Line;
use stamp_base::NoMemory;
use std::alloc::Global;
use std::marker::Model;

/// The lines, and a byte for each: so many threads look through so many lines for their own that it tells whether they read a byte
/// of each or come by a piece of memory for each. Contracts see the lines.
#[derive(Drop)]
pub struct MarkedLines<'a> {
    lines: &'a [Line],
    marks: Vec<u8>,
}

impl<'a> Model for MarkedLines<'a> {
    ghost use Rattle.std.specs.Prelude.{◌≡◌, List, map};
    ghost use Rattle.script_data.specs.declared.line.Line.{Line as ScriptLine};
    ghost use Rattle.actor_threads.specs.Marks.{mark_of};

    ghost Value = { List ScriptLine };

    ghost view = { λ m. m.lines.now };

    ghost invariant = { λ m. m.marks.items ≡ map (λ line. mark_of line.actor) m.lines.now };
}

impl<'a> MarkedLines<'a> {
    /// Marks these lines. NoMemory where memory is refused.
    pub fn of(alloc: Global, lines: &'a [Line]) -> Result<MarkedLines<'a>, NoMemory>
        ensures { IfOk result (λ made. made ≡ lines.now) }
    {
        let mut marks = Vec::with_capacity(alloc, lines.len())?;
        for line in lines {
            marks.push(mark_of(line.actor))?;
        }
        Ok(MarkedLines { lines, marks })
    }

    /// The lines alone.
    pub fn as_slice(&self) -> &[Line]
        ensures { result.now ≡ self.now }
    {
        self.lines
    }

    /// The place of the actor's first line from there on. Behind all lines where it has none.
    pub fn first_of(&self, actor: Actor, from: usize) -> usize
        ensures rest { own actor (drop result self.now) ≡ own actor (drop from self.now) }
        ensures there { (line : ScriptLine) → slice_get self.now result ≡ Some line → own actor (drop result self.now) ≡ line ∷ own actor (drop (result + 1) self.now) }
    {
        let mark = mark_of(actor);
        for place in from..self.lines.len() {
            if self.is_of(place, &actor, mark) {
                return place;
            }
        }
        self.lines.len()
    }

    // Whether the line at the place is the actor's, which has this mark.
    fn is_of(&self, place: usize, actor: &Actor, mark: u8) -> bool
        requires there { place < length self.now }
        requires mark { mark ≡ mark_of actor.now }
        ensures { (line : ScriptLine) → slice_get self.now place ≡ Some line → result ≡ is_same line.actor actor.now }
    {
        self.marks[place] == mark && self.lines[place].actor == *actor
    }
}

fn mark_of(actor: Actor) -> u8
    ensures { result ≡ mark_of actor }
{
    match actor {
        Actor::Clock => 0,
        Actor::Janitor => 1,
        Actor::Node(node) => 2 + node.index() as u8,
        Actor::Session(session) => 10 + session.index() as u8,
    }
}
