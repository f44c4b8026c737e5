// The stages that are held.
ghost use Rattle.std.specs.Prelude.{◌≡◌};
ghost use Rattle.turn_rules.specs.Carried.{held_after, holds_at};

use history_book::{Actor, Note};
use machine::Event;
use stamp_base::NodeNo;
use turn_rules::Holds;

/// What is held at the node.
pub fn holds_at(held: &[Holds], node: NodeNo) -> Holds
    ensures { result ≡ holds_at held.now node }
{
    match held.get(node.index()) {
        Some(holds) => *holds,
        None => Holds::none(),
    }
}

/// A node's note holds its stage or frees it.
pub fn note_stage(held: &mut Vec<Holds>, event: &Event)
    ensures { held.new.items ≡ held_after held.old.items event.now }
{
    if let Event::Note {
        actor: Actor::Node(node),
        note,
    } = event
    {
        let number = node.index();
        if number < held.len() {
            match note {
                Note::Hold(stage) => held[number].set(*stage, true),
                Note::Free(stage) => held[number].set(*stage, false),
                Note::Post(_) | Note::Await(_) => {}
            }
        }
    }
}
