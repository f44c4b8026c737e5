// What was found broken, in words.
ghost use Rattle.std.specs.Prelude.{◌≡◌, ◌≤◌, ◌++◌, Some, OnOk, codes, decimal, length, slice_get};
ghost use Rattle.breach_reasons.specs.Kinds.{commit_place, write_place};
ghost use Rattle.breach_reasons.specs.Breaches.{above_text, answered_text, apart_text, apart_with, ask_text, both_text, breach_text, commit_text, crossed_by, crossed_text, crossing_text, found_text, fresh_text, fresh_words, given_text, indent, item_text, not_stood_text, other_text, read_text, right_read_text, right_text, rule_text, shared_text, stamped_text, stamped_words, stood_text, version_text, writer_text, writes_text, wrong_text};

use crate::finding::{Finding, print_line};
use crate::kind::{ReadKind, commit_place, read_kind, words_of, write_place};
use crate::shared::shared_write;
use history_book::{Found, Item};
use history_view::Text;
use refusal_reasons::{Clue, print_named, seek};
use si_judge::Rule;
use stamp_base::{KeyNo, NoMemory, TxnId, Value};

/// Adds what was found: in a line, and below it what shows it and what would have been right. NoMemory where memory is refused.
pub fn print_finding(
    text: &mut Text,
    items: &[Item],
    strict: bool,
    found: &Finding,
) -> Result<(), NoMemory>
    ensures { OnOk result (text.new ≡ text.old ++ breach_text strict items.now found.now) }
{
    print_line(text, items, strict, found)?;
    text.push(b"\n")?;
    print_found(text, items, found)
}

fn print_found(text: &mut Text, items: &[Item], found: &Finding) -> Result<(), NoMemory>
    ensures { OnOk result (text.new ≡ text.old ++ found_text items.now found.now) }
{
    match found {
        Finding::Sound => Ok(()),
        Finding::Broken {
            rule,
            first,
            second,
        } => print_rule(
            text,
            items,
            *rule,
            first.saturating_sub(1),
            second.saturating_sub(1),
        ),
        Finding::Crossed { read, placed } => print_crossed(
            text,
            items,
            read.saturating_sub(1),
            placed.saturating_sub(1),
        ),
    }
}

/// What shows that the items at the two places break the rule.
fn print_rule(
    text: &mut Text,
    items: &[Item],
    rule: Rule,
    first: usize,
    second: usize,
) -> Result<(), NoMemory>
    ensures { OnOk result (text.new ≡ text.old ++ rule_text items.now rule first second) }
{
    match rule {
        Rule::Stamped => print_stamped(text, items, first, second),
        Rule::Apart => print_apart(text, items, first, second),
        Rule::Read => print_read(text, items, first, second),
        Rule::Fresh => print_fresh(text, items, first, second),
    }
}

// ---- items

/// The item at the place, behind these words, where there is one.
fn print_place(
    text: &mut Text,
    words: &[u8],
    items: &[Item],
    place: Option<usize>,
) -> Result<(), NoMemory>
    ensures { OnOk result (text.new ≡ text.old ++ item_text words.now items.now place) }
{
    match place {
        Some(place) => print_at(text, words, items, place),
        None => Ok(()),
    }
}

fn print_at(text: &mut Text, words: &[u8], items: &[Item], place: usize) -> Result<(), NoMemory>
    ensures { OnOk result (text.new ≡ text.old ++ item_text words.now items.now (Some place)) }
{
    match items.get(place) {
        Some(item) => {
            text.push(words)?;
            print_named(text, place as u64 + 1, item)
        }
        None => Ok(()),
    }
}

fn print_key(text: &mut Text, words: &[u8], key: KeyNo) -> Result<(), NoMemory>
    ensures { OnOk result (text.new ≡ text.old ++ words.now ++ decimal key) }
{
    text.push_field(words, key.value())
}

// ---- apart

fn print_apart(text: &mut Text, items: &[Item], first: usize, second: usize) -> Result<(), NoMemory>
    ensures { OnOk result (text.new ≡ text.old ++ rule_text items.now Rule.Apart first second) }
{
    print_both(text, items, first, second)?;
    print_at(text, b"    ", items, first)?;
    print_at(text, b"    ", items, second)?;
    text.push(b"    right: one of the two commits refused\n")
}

/// The key that two placed commits wrote, and both writes.
fn print_both(text: &mut Text, items: &[Item], one: usize, other: usize) -> Result<(), NoMemory>
    ensures { OnOk result (text.new ≡ text.old ++ apart_text items.now (slice_get items.now one) (slice_get items.now other)) }
{
    match items.get(one) {
        Some(Item::Placed { start, .. }) => print_with(text, items, *start, other),
        _ => Ok(()),
    }
}

fn print_with(text: &mut Text, items: &[Item], one: TxnId, other: usize) -> Result<(), NoMemory>
    ensures { OnOk result (text.new ≡ text.old ++ apart_with items.now one (slice_get items.now other)) }
{
    match items.get(other) {
        Some(Item::Placed { start, .. }) => {
            print_shared(text, items, *start, shared_write(items, one, *start))
        }
        _ => Ok(()),
    }
}

fn print_shared(
    text: &mut Text,
    items: &[Item],
    other: TxnId,
    place: Option<usize>,
) -> Result<(), NoMemory>
    ensures { OnOk result (text.new ≡ text.old ++ both_text items.now other place) }
{
    match place {
        Some(place) => match items.get(place) {
            Some(item) => print_shared_at(text, items, other, place, item),
            None => Ok(()),
        },
        None => Ok(()),
    }
}

fn print_shared_at(
    text: &mut Text,
    items: &[Item],
    other: TxnId,
    place: usize,
    item: &Item,
) -> Result<(), NoMemory>
    ensures { OnOk result (text.new ≡ text.old ++ shared_text items.now other place (Some item.now)) }
{
    match item {
        Item::Write { key, .. } => print_writes(text, items, other, place, *key),
        _ => Ok(()),
    }
}

fn print_writes(
    text: &mut Text,
    items: &[Item],
    other: TxnId,
    place: usize,
    key: KeyNo,
) -> Result<(), NoMemory>
    ensures { OnOk result (text.new ≡ text.old ++ writes_text items.now other place key) }
{
    print_key(text, b"    both wrote k", key)?;
    text.push(b", and neither committed before the other began\n")?;
    print_at(text, b"    ", items, place)?;
    print_write(text, items, other, key)?;
    Ok(())
}

/// The last write of the transaction at the key.
fn print_write(text: &mut Text, items: &[Item], start: TxnId, key: KeyNo) -> Result<(), NoMemory>
    ensures { OnOk result (text.new ≡ text.old ++ item_text indent items.now (write_place items.now start key)) }
{
    print_place(text, b"    ", items, write_place(items, start, key))
}

// ---- reads

fn print_read(text: &mut Text, items: &[Item], first: usize, second: usize) -> Result<(), NoMemory>
    ensures { OnOk result (text.new ≡ text.old ++ read_text items.now first second (slice_get items.now first)) }
{
    match items.get(first) {
        Some(item) => print_read_of(text, items, first, second, item),
        None => Ok(()),
    }
}

fn print_read_of(
    text: &mut Text,
    items: &[Item],
    first: usize,
    second: usize,
    item: &Item,
) -> Result<(), NoMemory>
    requires { first ≤ length items.now }
    ensures { OnOk result (text.new ≡ text.old ++ read_text items.now first second (Some item.now)) }
{
    match item {
        Item::Read {
            start,
            key,
            answer,
            ..
        } => print_answered(text, items, first, second, *start, *key, answer),
        _ => Ok(()),
    }
}

fn print_answered(
    text: &mut Text,
    items: &[Item],
    first: usize,
    second: usize,
    start: TxnId,
    key: KeyNo,
    answer: &Option<Found>,
) -> Result<(), NoMemory>
    requires { first ≤ length items.now }
    ensures { OnOk result (text.new ≡ text.old ++ answered_text items.now first second start key answer.now) }
{
    print_kind(text, read_kind(items, first, start, key, answer))?;
    print_at(text, b"    ", items, first)?;
    print_given(text, items, key, answer)?;
    print_right(text, items, first, second, key)
}

fn print_kind(text: &mut Text, kind: ReadKind) -> Result<(), NoMemory>
    ensures { OnOk result (text.new ≡ text.old ++ wrong_text kind) }
{
    text.push_between(b"    ", words_of(kind), b"\n")
}

/// The write that the answer came from.
fn print_given(
    text: &mut Text,
    items: &[Item],
    key: KeyNo,
    answer: &Option<Found>,
) -> Result<(), NoMemory>
    ensures { OnOk result (text.new ≡ text.old ++ given_text items.now key answer.now) }
{
    match answer {
        Some(found) => {
            let write = write_place(items, found.from, key);
            print_place(text, b"    written by ", items, write)
        }
        None => Ok(()),
    }
}

/// The right answer, and the write that gives it.
fn print_right(
    text: &mut Text,
    items: &[Item],
    first: usize,
    second: usize,
    key: KeyNo,
) -> Result<(), NoMemory>
    ensures { OnOk result (text.new ≡ text.old ++ right_text items.now first second key) }
{
    print_answer(text, items, key, second)?;
    print_writer(text, items, first, second)?;
    Ok(())
}

fn print_writer(
    text: &mut Text,
    items: &[Item],
    first: usize,
    second: usize,
) -> Result<(), NoMemory>
    ensures { OnOk result (text.new ≡ text.old ++ writer_text items.now first second) }
{
    if first == second {
        return Ok(());
    }
    print_at(text, b"    written by ", items, second)
}

fn print_answer(text: &mut Text, items: &[Item], key: KeyNo, place: usize) -> Result<(), NoMemory>
    ensures { OnOk result (text.new ≡ text.old ++ right_read_text key (slice_get items.now place)) }
{
    print_key(text, b"    right: k", key)?;
    print_version_at(text, items, place)?;
    Ok(())
}

fn print_version_at(text: &mut Text, items: &[Item], place: usize) -> Result<(), NoMemory>
    ensures { OnOk result (text.new ≡ text.old ++ version_text (slice_get items.now place)) }
{
    match items.get(place) {
        Some(item) => print_version(text, item),
        None => text.push(b" none\n"),
    }
}

fn print_version(text: &mut Text, item: &Item) -> Result<(), NoMemory>
    ensures { OnOk result (text.new ≡ text.old ++ version_text (Some item.now)) }
{
    match item {
        Item::Write { start, value, .. } => print_written(text, *start, value),
        _ => text.push(b" none\n"),
    }
}

fn print_written(text: &mut Text, start: TxnId, value: &Value) -> Result<(), NoMemory>
    ensures { OnOk result (text.new ≡ text.old ++ codes " from=" ++ decimal start ++ codes " " ++ value.now ++ codes "\n") }
{
    text.push_field(b" from=", start.value())?;
    text.push_between(b" ", value.as_slice(), b"\n")
}

// ---- starts and stamps

fn print_fresh(text: &mut Text, items: &[Item], first: usize, second: usize) -> Result<(), NoMemory>
    ensures { OnOk result (text.new ≡ text.old ++ fresh_text items.now first second) }
{
    text.push(fresh_words())?;
    print_at(text, b"    ", items, first)?;
    print_ask(text, items, second)?;
    print_at(text, b"    ", items, second)?;
    print_above(text, items, first)
}

#[tactic(auto, unfolding(crate::specs::Breaches::fresh_words))]
fn fresh_words() -> &'static [u8]
    ensures { result.now ≡ fresh_words }
{
    b"    the commit was placed before the begin was asked for, and the start is not above it\n"
}

/// The ask of the begin at the place.
fn print_ask(text: &mut Text, items: &[Item], place: usize) -> Result<(), NoMemory>
    ensures { OnOk result (text.new ≡ text.old ++ ask_text items.now place (slice_get items.now place)) }
{
    match items.get(place) {
        Some(item) => print_ask_of(text, items, place, item),
        None => Ok(()),
    }
}

fn print_ask_of(text: &mut Text, items: &[Item], place: usize, item: &Item) -> Result<(), NoMemory>
    requires { place ≤ length items.now }
    ensures { OnOk result (text.new ≡ text.old ++ ask_text items.now place (Some item.now)) }
{
    match *item {
        Item::Begin { session, .. } => {
            let ask = seek(&items[..place], 0, &Clue::AskedStart { session });
            print_place(text, b"    ", items, ask)
        }
        _ => Ok(()),
    }
}

fn print_above(text: &mut Text, items: &[Item], place: usize) -> Result<(), NoMemory>
    ensures { OnOk result (text.new ≡ text.old ++ above_text (slice_get items.now place)) }
{
    match items.get(place) {
        Some(item) => print_above_of(text, item),
        None => Ok(()),
    }
}

fn print_above_of(text: &mut Text, item: &Item) -> Result<(), NoMemory>
    ensures { OnOk result (text.new ≡ text.old ++ above_text (Some item.now)) }
{
    match item {
        Item::Placed { commit, .. } => print_commit(text, commit.value()),
        _ => Ok(()),
    }
}

fn print_commit(text: &mut Text, commit: u64) -> Result<(), NoMemory>
    ensures { OnOk result (text.new ≡ text.old ++ commit_text commit) }
{
    text.push_field(b"    right: a start above ", commit)?;
    text.push(b"\n")
}

fn print_stamped(
    text: &mut Text,
    items: &[Item],
    first: usize,
    second: usize,
) -> Result<(), NoMemory>
    ensures { OnOk result (text.new ≡ text.old ++ stamped_text items.now first second) }
{
    text.push(stamped_words())?;
    print_at(text, b"    ", items, first)?;
    print_other(text, items, first, second)
}

#[tactic(auto, unfolding(crate::specs::Breaches::stamped_words))]
fn stamped_words() -> &'static [u8]
    ensures { result.now ≡ stamped_words }
{
    b"    each start and each commit is a stamp of its own, and each commit is above its start\n"
}

fn print_other(text: &mut Text, items: &[Item], first: usize, second: usize) -> Result<(), NoMemory>
    ensures { OnOk result (text.new ≡ text.old ++ other_text items.now first second) }
{
    if first == second {
        return text.push(b"    right: a commit above its start\n");
    }
    print_at(text, b"    ", items, second)?;
    text.push(b"    right: another stamp in one of the two\n")
}

// ---- serial order

fn print_crossed(
    text: &mut Text,
    items: &[Item],
    read: usize,
    placed: usize,
) -> Result<(), NoMemory>
    ensures { OnOk result (text.new ≡ text.old ++ crossed_text items.now read placed (slice_get items.now read)) }
{
    match items.get(read) {
        Some(item) => print_crossed_read(text, items, read, placed, item),
        None => Ok(()),
    }
}

fn print_crossed_read(
    text: &mut Text,
    items: &[Item],
    read: usize,
    placed: usize,
    item: &Item,
) -> Result<(), NoMemory>
    ensures { OnOk result (text.new ≡ text.old ++ crossed_text items.now read placed (Some item.now)) }
{
    match item {
        Item::Read { start, key, .. } => print_not_stood(text, items, read, placed, *start, *key),
        _ => Ok(()),
    }
}

fn print_not_stood(
    text: &mut Text,
    items: &[Item],
    read: usize,
    placed: usize,
    start: TxnId,
    key: KeyNo,
) -> Result<(), NoMemory>
    ensures { OnOk result (text.new ≡ text.old ++ not_stood_text items.now read placed start key) }
{
    print_stood(text, key)?;
    print_at(text, b"    ", items, read)?;
    print_crossing(text, items, placed, start, key)?;
    Ok(())
}

fn print_stood(text: &mut Text, key: KeyNo) -> Result<(), NoMemory>
    ensures { OnOk result (text.new ≡ text.old ++ stood_text key) }
{
    print_key(text, b"    what was read of k", key)?;
    text.push(b" no longer stood when the reader committed\n")?;
    Ok(())
}

/// The other's write and commit, and the reader's own commit.
fn print_crossing(
    text: &mut Text,
    items: &[Item],
    placed: usize,
    start: TxnId,
    key: KeyNo,
) -> Result<(), NoMemory>
    ensures { OnOk result (text.new ≡ text.old ++ crossing_text items.now placed start key) }
{
    print_crosser(text, items, key, placed)?;
    print_at(text, b"    ", items, placed)?;
    print_committed(text, items, start)?;
    text.push(b"    right: the reader's commit refused\n")?;
    Ok(())
}

fn print_committed(text: &mut Text, items: &[Item], start: TxnId) -> Result<(), NoMemory>
    ensures { OnOk result (text.new ≡ text.old ++ item_text indent items.now (commit_place items.now start)) }
{
    print_place(text, b"    ", items, commit_place(items, start))
}

fn print_crosser(text: &mut Text, items: &[Item], key: KeyNo, placed: usize) -> Result<(), NoMemory>
    ensures { OnOk result (text.new ≡ text.old ++ crossed_by items.now key (slice_get items.now placed)) }
{
    match items.get(placed) {
        Some(Item::Placed { start, .. }) => {
            print_place(text, b"    ", items, write_place(items, *start, key))
        }
        _ => Ok(()),
    }
}
