// Whether lines that await a name stand behind the line that posts it.
ghost use Rattle.std.specs.Prelude.{◌≡◌, true, IfOk, OnOk};
ghost use Rattle.split_driver.specs.Waits.{IsThere, Waited, names_behind};

use history_book::{Item, Note};
use machine::Event;
use session_script::PostedNames;
use stamp_base::NoMemory;
use std::alloc::Global;

/// Whether each name that is awaited was posted before. It takes memory for the names.
#[tactic(auto, unfolding(crate::specs::Waits::WaitedFrom))]
pub(crate) fn all_waited(alloc: Global, items: &[Item]) -> Result<bool, NoMemory>
    ensures { IfOk result (λ waited. waited ≡ true → Waited items.now) }
{
    let mut names = PostedNames::new(alloc);
    for item in items {
        if !is_there(&names, item) {
            return Ok(false);
        }
        add_name(&mut names, item)?;
    }
    Ok(true)
}

fn is_there(names: &PostedNames, item: &Item) -> bool
    ensures { result ≡ true → IsThere names.now.names item.now }
{
    match item {
        Item::Note {
            note: Note::Await(name),
            ..
        } => names.contains(name),
        _ => true,
    }
}

/// With the name that the item posts, if it posts one.
fn add_name(names: &mut PostedNames, item: &Item) -> Result<(), NoMemory>
    ensures { OnOk result (names.new.names ≡ names_behind names.old.names item.now) }
{
    match *item {
        Item::Note {
            actor,
            note: Note::Post(name),
        } => {
            let note = Note::Post(name);
            let posted = names.make_room(&Event::Note { actor, note })?;
            names.add(posted);
            Ok(())
        }
        _ => Ok(()),
    }
}
