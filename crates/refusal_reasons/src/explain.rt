// The explanations of refusals, in words.
ghost use Rattle.std.specs.Prelude.{◌≡◌, ◌+◌, ◌<◌, ◌++◌, Some, IfOk, IfSome, OnOk, codes, length, slice_get, take};
ghost use Rattle.refusal_reasons.specs.Words.{explanation, explanations, named_text, own_text, place_text, reason_text, shown_text, side_at, side_text, witness_text};

use crate::shown::{Places, shown_by};
use history_book::{Cause, Item};
use history_text::{LineBuf, print_body};
use history_view::Text;
use stamp_base::NoMemory;
use std::alloc::Global;

/// The explanations of all refusals among the items. NoMemory where memory is refused.
pub fn explain_refusals(alloc: Global, items: &[Item]) -> Result<Text, NoMemory>
    ensures { IfOk result (λ text. text ≡ explanations items.now 0 items.now) }
{
    let mut text = Text::new(alloc);
    print_all(&mut text, items)?;
    Ok(text)
}

#[tactic(auto, unfolding(crate::specs::Words::explanations))]
fn print_all(text: &mut Text, items: &[Item]) -> Result<(), NoMemory>
    ensures { OnOk result (text.new ≡ text.old ++ explanations items.now 0 items.now) }
{
    for place in 0..items.len() {
        print_at(text, items, place)?;
    }
    Ok(())
}

/// Adds the lines on the item at a place.
fn print_at(text: &mut Text, items: &[Item], place: usize) -> Result<(), NoMemory>
    requires { place < length items.now }
    ensures { OnOk result (IfSome (slice_get items.now place) (λ item. text.new ≡ text.old ++ explanation (take place items.now) item)) }
{
    print_explanation(text, &items[..place], &items[place])?;
    Ok(())
}

/// Adds the lines on an item behind those before it: none where it is no refusal.
#[tactic(auto, unfolding(crate::specs::Words::explanation))]
fn print_explanation(text: &mut Text, before: &[Item], item: &Item) -> Result<(), NoMemory>
    ensures { OnOk result (text.new ≡ text.old ++ explanation before.now item.now) }
{
    match item {
        Item::Refused { actor, cause } => {
            let places = shown_by(before, actor, cause);
            print_named(text, before.len() as u64 + 1, item)?;
            print_reason(text, before, cause, &places)?;
            print_shown(text, before, &places)
        }
        _ => Ok(()),
    }
}

/// Adds why the refusal came, and what its own side of a key did.
fn print_reason(
    text: &mut Text,
    before: &[Item],
    cause: &Cause,
    places: &Option<Places>,
) -> Result<(), NoMemory>
    ensures { OnOk result (text.new ≡ text.old ++ codes "    " ++ reason_text cause.now ++ own_text before.now cause.now places.now ++ codes "\n") }
{
    text.push(b"    ")?;
    text.push(reason(cause))?;
    text.push(own_side(before, cause, places))?;
    text.push(b"\n")
}

/// What the own side of a key did, where the cause has one that was found.
fn own_side(before: &[Item], cause: &Cause, places: &Option<Places>) -> &'static [u8]
    ensures { result.now ≡ own_text before.now cause.now places.now }
{
    match (cause, places) {
        (Cause::Conflict { .. }, Some(places)) => side_at(before, places.first),
        (Cause::Hidden { .. }, Some(places)) => side_at(before, places.first),
        _ => b"",
    }
}

fn side_at(before: &[Item], place: Option<usize>) -> &'static [u8]
    ensures { result.now ≡ side_at before.now place }
{
    match place {
        Some(place) => match before.get(place) {
            Some(item) => side_of(item),
            None => b"",
        },
        None => b"",
    }
}

fn side_of(item: &Item) -> &'static [u8]
    ensures { result.now ≡ side_text (Some item.now) }
{
    match item {
        Item::Write { .. } => b"; this one wrote it",
        Item::Step { .. } => b"; this one read it",
        _ => b"",
    }
}

/// Adds the items that show a refusal, or that none does.
fn print_shown(text: &mut Text, before: &[Item], places: &Option<Places>) -> Result<(), NoMemory>
    ensures { OnOk result (text.new ≡ text.old ++ shown_text before.now places.now) }
{
    match places {
        Some(places) => {
            print_place(text, before, places.first)?;
            print_place(text, before, places.second)?;
            print_place(text, before, places.third)
        }
        None => text.push(b"    nothing that stands before shows it\n"),
    }
}

fn print_place(text: &mut Text, before: &[Item], place: Option<usize>) -> Result<(), NoMemory>
    ensures { OnOk result (text.new ≡ text.old ++ place_text before.now place) }
{
    match place {
        Some(place) => match before.get(place) {
            Some(item) => print_witness(text, place as u64 + 1, item),
            None => Ok(()),
        },
        None => Ok(()),
    }
}

fn print_witness(text: &mut Text, number: u64, item: &Item) -> Result<(), NoMemory>
    ensures { OnOk result (text.new ≡ text.old ++ witness_text number (Some item.now)) }
{
    text.push(b"    shown by ")?;
    print_named(text, number, item)?;
    Ok(())
}

/// Adds an item by its number and its words. NoMemory where memory is refused.
#[tactic(auto, unfolding(crate::specs::Words::named_text))]
pub fn print_named(text: &mut Text, number: u64, item: &Item) -> Result<(), NoMemory>
    ensures { OnOk result (text.new ≡ text.old ++ named_text number item.now) }
{
    let mut line = LineBuf::new();
    print_body(item, &mut line);
    text.push_number(number)?;
    text.push_between(b": ", line.as_slice(), b"\n")
}

/// Why such a refusal comes.
#[tactic(auto, unfolding(crate::specs::Words::reason_text))]
fn reason(cause: &Cause) -> &'static [u8]
    ensures { result.now ≡ reason_text cause.now }
{
    match *cause {
        Cause::Conflict { .. } => {
            b"a transaction that ran at the same time wrote the key, and its commit was drawn first"
        }
        Cause::Hidden { .. } => {
            b"the node has forgotten what was committed at the key, and a commit that it forgot is above the start; by the buckets of the setup, which no history tells"
        }
        Cause::OldEpoch { .. } => {
            b"the transaction began in an earlier term, whose commits its node does not know"
        }
        Cause::Expired { .. } => { b"the lease of its node was over by that node's clock" }
        Cause::Replaced { .. } => { b"a later term holds the master record" }
        Cause::Spent { .. } => {
            b"a further range of stamps would go past the last one; by the range of the setup, which no history tells"
        }
        Cause::NoStamp { .. } => { b"the stamps of the term are drawn up to the end of its range" }
        Cause::Invalid { .. } => {
            b"a reader or a sweep had marked the transaction before its commit was placed"
        }
        Cause::Open { .. } => {
            b"the session cannot know whether the commit was placed: the call that places it failed, or the node crashed"
        }
        Cause::Crashed { .. } => { b"the node crashed before it gave a start" }
        Cause::NotYet { .. } => {
            b"a commit below the start is drawn and not yet placed, and the transaction has to see it"
        }
        Cause::NoRequest { .. } => { b"the session has no such request there" }
        Cause::NoOracle { .. } => {
            b"the node has no instance: it has taken no term, or none since it crashed, or its last take failed"
        }
        Cause::Full { .. } => {
            b"the node holds as many requests as it has slots; by the slots of the setup, which no history tells"
        }
        Cause::Early { .. } => {
            b"by a clock that is behind, the lease may still stand; by the skew of the setup, which no history tells"
        }
        Cause::Holding { .. } => { b"the node has an instance already" }
        Cause::NoTransaction => { b"the session has no transaction open" }
        Cause::Busy => { b"it has something else under way" }
        Cause::TooManyKeys => {
            b"the write would have been to a 65th key, or with strict reads the read of one"
        }
        Cause::Gone => { b"the session has vanished" }
        Cause::Idle => { b"it has nothing of that kind under way" }
        Cause::Undecided { .. } => { b"the transaction may still commit, so the sweep left it" }
    }
}
