// What a sign looks like, and what a legend tells.
ghost use Rattle.std.specs.Prelude.{◌≡◌, ◌∷◌, ◌++◌, ◌==◌, [], IfOk, OnOk, drop};
ghost use Rattle.std.specs.List.{flat_map, list_any};
ghost use Rattle.history_view.specs.Glyphs.{class_text, glyph_number, glyph_of, has_kind, if_occurs, keys_for, kind_number, kind_text, letter, meaning, occurs_in};
ghost use Rattle.history_signs.specs.declared.sign.Sign.{Sign};

use history_book::Item;
use history_signs::{Bar, BarKind, EarlierBar, Sign};
use stamp_base::NoMemory;
use std::alloc::Global;

/// The look of a sign: a small dot, or a circle with a letter.
#[derive(Clone, Copy)]
pub enum Glyph {
    /// A small dot.
    Dot,
    /// A request to a node.
    Ask,
    /// A stamp that was drawn.
    Draw,
    /// A start that was told.
    Begin,
    /// A write.
    Write,
    /// A read.
    Read,
    /// A commit that stands in the commit table.
    Placed,
    /// A commit that was told.
    Committed,
    /// An end without a commit.
    End,
    /// A refusal.
    Refused,
    /// An invalid mark.
    Mark,
    /// A take of the master record.
    Take,
    /// A renewed lease.
    Renew,
    /// A further range of stamps.
    Extend,
    /// A failed call on a store.
    Fault,
    /// A crash of an oracle.
    Crash,
    /// A session that is gone.
    Vanish,
}

/// What a legend tells of.
#[derive(Clone, Copy)]
pub enum Key {
    /// The look of a bar.
    Bar(BarKind),
    /// The look of a sign.
    Sign(Glyph),
}

/// What occurs in a picture, in the order of its legend. NoMemory where memory is refused.
pub fn keys_of(alloc: Global, earlier: &[EarlierBar], signs: &[Sign]) -> Result<Vec<Key>, NoMemory>
    ensures { IfOk result (λ keys. keys.items ≡ keys_for earlier.now signs.now) }
{
    keys_among(
        alloc,
        &[
            Key::Bar(BarKind::Committed),
            Key::Bar(BarKind::Refused),
            Key::Bar(BarKind::Aborted),
            Key::Bar(BarKind::Dead),
            Key::Bar(BarKind::Open),
            Key::Bar(BarKind::Lease),
            Key::Sign(Glyph::Ask),
            Key::Sign(Glyph::Begin),
            Key::Sign(Glyph::Read),
            Key::Sign(Glyph::Write),
            Key::Sign(Glyph::Draw),
            Key::Sign(Glyph::Placed),
            Key::Sign(Glyph::Committed),
            Key::Sign(Glyph::End),
            Key::Sign(Glyph::Refused),
            Key::Sign(Glyph::Mark),
            Key::Sign(Glyph::Take),
            Key::Sign(Glyph::Renew),
            Key::Sign(Glyph::Extend),
            Key::Sign(Glyph::Fault),
            Key::Sign(Glyph::Crash),
            Key::Sign(Glyph::Vanish),
            Key::Sign(Glyph::Dot),
        ],
        earlier,
        signs,
    )
}

fn keys_among(
    alloc: Global,
    all: &[Key],
    earlier: &[EarlierBar],
    signs: &[Sign],
) -> Result<Vec<Key>, NoMemory>
    ensures { IfOk result (λ keys. keys.items ≡ flat_map (λ it. if_occurs earlier.now signs.now it) all.now) }
{
    let mut keys = Vec::new(alloc);
    for key in all {
        add_key(&mut keys, earlier, signs, *key)?;
    }
    Ok(keys)
}

fn add_key(
    keys: &mut Vec<Key>,
    earlier: &[EarlierBar],
    signs: &[Sign],
    key: Key,
) -> Result<(), NoMemory>
    ensures { OnOk result (keys.new.items ≡ keys.old.items ++ if_occurs earlier.now signs.now key) }
{
    if occurs_in(earlier, signs, key) {
        keys.extend_from_slice(&[key])?;
    }
    Ok(())
}

fn occurs_in(earlier: &[EarlierBar], signs: &[Sign], key: Key) -> bool
    ensures { result ≡ occurs_in earlier.now signs.now key }
{
    match key {
        Key::Bar(kind) => bar_occurs(signs, kind) || goes_on(earlier, kind),
        Key::Sign(glyph) => glyph_occurs(signs, glyph),
    }
}

fn bar_occurs(signs: &[Sign], kind: BarKind) -> bool
    ensures { result ≡ list_any (λ sign. has_kind kind sign.bar) signs.now }
{
    for sign in signs {
        if has_kind(kind, sign.bar) {
            return true;
        }
    }
    false
}

fn has_kind(kind: BarKind, bar: Option<Bar>) -> bool
    ensures { result ≡ has_kind kind bar }
{
    match bar {
        Some(bar) => kind_number(bar.kind) == kind_number(kind),
        None => false,
    }
}

fn goes_on(earlier: &[EarlierBar], kind: BarKind) -> bool
    ensures { result ≡ list_any (λ bar. kind_number bar.bar.kind == kind_number kind) earlier.now }
{
    for bar in earlier {
        if kind_number(bar.bar.kind) == kind_number(kind) {
            return true;
        }
    }
    false
}

fn glyph_occurs(signs: &[Sign], glyph: Glyph) -> bool
    ensures { result ≡ list_any (λ sign. glyph_number (glyph_of sign.item) == glyph_number glyph) signs.now }
{
    for sign in signs {
        if glyph_number(glyph_of(&sign.item)) == glyph_number(glyph) {
            return true;
        }
    }
    false
}

/// The look of an item's sign.
pub fn glyph_of(item: &Item) -> Glyph
    ensures { result ≡ glyph_of item.now }
{
    match item {
        Item::AskBegin { .. } | Item::AskCommit { .. } => Glyph::Ask,
        Item::Draw { .. } => Glyph::Draw,
        Item::Begin { .. } => Glyph::Begin,
        Item::Write { .. } => Glyph::Write,
        Item::Read { .. } => Glyph::Read,
        Item::Placed { .. } => Glyph::Placed,
        Item::Committed { .. } => Glyph::Committed,
        Item::End { .. } => Glyph::End,
        Item::Refused { .. } => Glyph::Refused,
        Item::Mark { .. } => Glyph::Mark,
        Item::Take { .. } => Glyph::Take,
        Item::Renew { .. } => Glyph::Renew,
        Item::Extend { .. } => Glyph::Extend,
        Item::Fault { .. } => Glyph::Fault,
        Item::Crash { .. } => Glyph::Crash,
        Item::Vanish { .. } => Glyph::Vanish,
        Item::Tick { .. } | Item::Note { .. } | Item::Accept { .. } | Item::Step { .. } =>
            Glyph::Dot,
    }
}

/// The letter of a sign. A dot has none.
pub fn letter(glyph: Glyph) -> &'static [u8]
    ensures { result.now ≡ letter glyph }
{
    match glyph {
        Glyph::Dot => b"",
        Glyph::Ask => b"?",
        Glyph::Draw => b"#",
        Glyph::Begin => b"B",
        Glyph::Write => b"W",
        Glyph::Read => b"R",
        Glyph::Placed => b"P",
        Glyph::Committed => b"C",
        Glyph::End => b"E",
        Glyph::Refused => b"!",
        Glyph::Mark => b"M",
        Glyph::Take => b"T",
        Glyph::Renew => b"N",
        Glyph::Extend => b"+",
        Glyph::Fault => b"F",
        Glyph::Crash => b"X",
        Glyph::Vanish => b"V",
    }
}

/// The class by which a sign has its colour.
pub fn class_of(glyph: Glyph) -> &'static [u8]
    ensures { result.now ≡ class_text glyph }
{
    match glyph {
        Glyph::Dot => b"step",
        Glyph::Ask => b"step",
        Glyph::Draw => b"grant",
        Glyph::Begin => b"own",
        Glyph::Write => b"own",
        Glyph::Read => b"own",
        Glyph::Placed => b"done",
        Glyph::Committed => b"done",
        Glyph::End => b"step",
        Glyph::Refused => b"bad",
        Glyph::Mark => b"mark",
        Glyph::Take => b"grant",
        Glyph::Renew => b"grant",
        Glyph::Extend => b"grant",
        Glyph::Fault => b"bad",
        Glyph::Crash => b"bad",
        Glyph::Vanish => b"bad",
    }
}

/// What the legend says of a sign.
pub fn meaning(glyph: Glyph) -> &'static [u8]
    ensures { result.now ≡ meaning glyph }
{
    match glyph {
        Glyph::Dot => b"step, note, tick",
        Glyph::Ask => b"ask",
        Glyph::Draw => b"stamp drawn",
        Glyph::Begin => b"begin",
        Glyph::Write => b"write",
        Glyph::Read => b"read",
        Glyph::Placed => b"commit placed",
        Glyph::Committed => b"commit told",
        Glyph::End => b"other end",
        Glyph::Refused => b"refusal",
        Glyph::Mark => b"mark",
        Glyph::Take => b"take",
        Glyph::Renew => b"renew",
        Glyph::Extend => b"extend",
        Glyph::Fault => b"fault",
        Glyph::Crash => b"crash",
        Glyph::Vanish => b"vanish",
    }
}

/// The class by which a bar has its look, and what the legend says of it.
pub fn kind_word(kind: BarKind) -> &'static [u8]
    ensures { result.now ≡ kind_text kind }
{
    match kind {
        BarKind::Committed => b"committed",
        BarKind::Refused => b"refused",
        BarKind::Aborted => b"aborted",
        BarKind::Dead => b"dead",
        BarKind::Open => b"open",
        BarKind::Lease => b"lease",
    }
}

fn glyph_number(glyph: Glyph) -> u8
    ensures { result ≡ glyph_number glyph }
{
    match glyph {
        Glyph::Dot => 0,
        Glyph::Ask => 1,
        Glyph::Draw => 2,
        Glyph::Begin => 3,
        Glyph::Write => 4,
        Glyph::Read => 5,
        Glyph::Placed => 6,
        Glyph::Committed => 7,
        Glyph::End => 8,
        Glyph::Refused => 9,
        Glyph::Mark => 10,
        Glyph::Take => 11,
        Glyph::Renew => 12,
        Glyph::Extend => 13,
        Glyph::Fault => 14,
        Glyph::Crash => 15,
        Glyph::Vanish => 16,
    }
}

fn kind_number(kind: BarKind) -> u8
    ensures { result ≡ kind_number kind }
{
    match kind {
        BarKind::Committed => 0,
        BarKind::Refused => 1,
        BarKind::Aborted => 2,
        BarKind::Dead => 3,
        BarKind::Open => 4,
        BarKind::Lease => 5,
    }
}
