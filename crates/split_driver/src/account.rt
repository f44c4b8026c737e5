// How an actor stands with its lines, kept along with its log.
ghost use Rattle.std.specs.Prelude.{◌≡◌, ◌==◌, [], OnOk, if◌then◌else◌};
ghost use Rattle.std.specs.List.{list_any};
ghost use Rattle.log_refinement.specs.Owed as owing;

use crate::owing::{after_due, after_repeat, leaves_cells, owed_after, owed_first, same_actor};
use history_book::{Actor, Item, StoreStep};
use log_refinement::Owed;
use script_data::Verb;
use split_stores::{Entry, Event};
use stamp_base::{KeyNo, NoMemory};
use std::alloc::Global;
use std::marker::Model;

/// What the present line owes, the keys that the session's transaction wrote, and those of a refused commit whose cells are not
/// erased yet. It goes on with each entry of the log, so that the log is never looked through again.
#[derive(Drop)]
pub(crate) struct Account {
    owed: Owed,
    written: Vec<KeyNo>,
    unerased: Vec<KeyNo>,
}

impl Model for Account {
    ghost use Rattle.log_refinement.specs.Owed.{Standing};

    ghost Value = { Standing };

    ghost view = { λ a. record { owed = a.owed; written = a.written.items; unerased = a.unerased.items } };
}

impl Account {
    /// Nothing is owed.
    pub(crate) fn new(alloc: Global) -> Account
        ensures { result ≡ owing.first_standing }
    {
        Account {
            owed: Owed::Nothing,
            written: Vec::new(alloc),
            unerased: Vec::new(alloc),
        }
    }

    /// What the line owes.
    pub(crate) fn owed(&self) -> Owed
        ensures { result ≡ self.now.owed }
    {
        self.owed
    }

    /// Whether nothing is owed, and no cell is left of a commit that was refused.
    pub(crate) fn is_paid(&self) -> bool
        ensures { result ≡ owing.is_paid self.now }
    {
        match self.owed {
            Owed::Nothing | Owed::Denied => true,
            Owed::Erasure => self.unerased.is_empty(),
            _ => false,
        }
    }

    /// Goes on with an entry that does not open a line.
    pub(crate) fn go_on(&mut self, actor: &Actor, entry: &Entry) -> Result<(), NoMemory>
        ensures { OnOk result (self.new ≡ owing.gone_on actor.now self.old entry.now) }
    {
        let items = entry.kept.as_slice();
        self.add_all(actor, is_step(&entry.event), items)?;
        let owed = after_due(actor, &entry.event, items, self.owed);
        self.owed = after_repeat(actor, &entry.event, items, owed);
        Ok(())
    }

    /// Goes on with the entry that opens a line.
    pub(crate) fn open(&mut self, actor: &Actor, verb: &Verb, entry: &Entry) -> Result<(), NoMemory>
        ensures { OnOk result (self.new ≡ owing.opened actor.now verb.now self.old entry.now.kept.items) }
    {
        match entry.kept.as_slice() {
            [first, rest @ ..] => {
                self.add_owing(actor, false, first, owed_first(verb, first))?;
                self.add_all(actor, false, rest)
            }
            [] => {
                self.owed = Owed::Nothing;
                Ok(())
            }
        }
    }

    #[tactic(auto, unfolding(log_refinement::specs::Owed::with_items))]
    fn add_all(&mut self, actor: &Actor, steps: bool, items: &[Item]) -> Result<(), NoMemory>
        ensures { OnOk result (self.new ≡ owing.with_items actor.now steps self.old items.now) }
    {
        for item in items {
            if let Err(stop) = self.add(actor, steps, item) {
                return Err(stop);
            }
        }
        Ok(())
    }

    fn add(&mut self, actor: &Actor, steps: bool, item: &Item) -> Result<(), NoMemory>
        ensures { OnOk result (self.new ≡ owing.with_item actor.now steps self.old item.now) }
    {
        let owed = owed_after(actor, steps, self.owed, item);
        self.add_owing(actor, steps, item, owed)
    }

    /// One item more, after which this is owed.
    fn add_owing(
        &mut self,
        actor: &Actor,
        steps: bool,
        item: &Item,
        owed: Owed,
    ) -> Result<(), NoMemory>
        ensures { OnOk result (self.new ≡ owing.standing_with actor.now steps self.old item.now owed) }
    {
        note_erased(
            actor,
            steps,
            self.written.as_slice(),
            &mut self.unerased,
            item,
        )?;
        note_written(actor, &mut self.written, item)?;
        self.owed = owed;
        Ok(())
    }
}

fn is_step(event: &Event) -> bool
    ensures { result ≡ owing.is_step event.now }
{
    matches!(event, Event::Step { .. })
}

/// The keys that the transaction wrote, after the item.
fn note_written(actor: &Actor, keys: &mut Vec<KeyNo>, item: &Item) -> Result<(), NoMemory>
    ensures { OnOk result (keys.new.items ≡ owing.written_after actor.now keys.old.items item.now) }
{
    match *item {
        Item::AskBegin { session, .. } => {
            clear_if(same_actor(&Actor::Session(session), actor), keys);
            Ok(())
        }
        Item::Write { session, key, .. } if same_actor(&Actor::Session(session), actor) => {
            add_key(keys, key)
        }
        _ => Ok(()),
    }
}

fn clear_if(begins: bool, keys: &mut Vec<KeyNo>)
    ensures { keys.new.items ≡ (if begins then [] else keys.old.items) }
{
    if begins {
        keys.clear();
    }
}

fn add_key(keys: &mut Vec<KeyNo>, key: KeyNo) -> Result<(), NoMemory>
    ensures { OnOk result (keys.new.items ≡ owing.with_key keys.old.items key) }
{
    if !has_key(keys.as_slice(), key) {
        keys.push(key)?;
    }
    Ok(())
}

fn has_key(keys: &[KeyNo], key: KeyNo) -> bool
    ensures { result ≡ list_any (λ k. k == key) keys.now }
{
    keys.iter().any(|k| *k == key)
}

/// The keys whose cells are not erased yet, after the item.
fn note_erased(
    actor: &Actor,
    steps: bool,
    written: &[KeyNo],
    keys: &mut Vec<KeyNo>,
    item: &Item,
) -> Result<(), NoMemory>
    ensures { OnOk result (keys.new.items ≡ owing.unerased_after actor.now steps written.now keys.old.items item.now) }
{
    match *item {
        Item::Refused { actor: who, cause } if same_actor(&who, actor) && leaves_cells(&cause) => {
            keys.clear();
            keys.extend_from_slice(written)?;
            Ok(())
        }
        Item::Step {
            actor: who,
            what: StoreStep::Erase { key, .. },
        } if steps && same_actor(&who, actor) => {
            remove_key(keys, key);
            Ok(())
        }
        _ => Ok(()),
    }
}

fn remove_key(keys: &mut Vec<KeyNo>, key: KeyNo)
    ensures { keys.new.items ≡ owing.without_key keys.old.items key }
{
    keys.retain(|k| *k != key);
}
