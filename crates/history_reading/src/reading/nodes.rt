// The items of the clock and of the nodes, as reading finds them.
ghost use Rattle.std.specs.Prelude.{◌≡◌};
ghost use Rattle.history_reading.specs.ReadNodes.{node_kind_at, tick_at, take_at, renew_at, extend_at, crash_at};

use super::words::{field, is_word, letter, node_of, number, term_of};
use history_book::Item;

/// The items of the clock and of the nodes.
#[tactic(auto, unfolding(crate::specs::ReadNodes::node_kind_at))]
pub fn node_kind(word: &[u8], bytes: &[u8]) -> Option<Item>
    ensures { result ≡ node_kind_at word.now bytes.now }
{
    if is_word(word, b"tick") {
        return tick(bytes);
    }
    if is_word(word, b"take") {
        return take(bytes);
    }
    if is_word(word, b"renew") {
        return renew(bytes);
    }
    if is_word(word, b"extend") {
        return extend(bytes);
    }
    if is_word(word, b"crash") {
        return crash(bytes);
    }
    None
}

#[tactic(auto, unfolding(crate::specs::ReadNodes::tick_at))]
fn tick(bytes: &[u8]) -> Option<Item>
    ensures { result ≡ tick_at bytes.now }
{
    let (to, _) = number(bytes);
    Some(Item::Tick { to })
}

#[tactic(auto, unfolding(crate::specs::ReadNodes::take_at))]
fn take(bytes: &[u8]) -> Option<Item>
    ensures { result ≡ take_at bytes.now }
{
    let (node, rest) = letter(bytes)?;
    let (reading, rest) = field(b" reading=", rest)?;
    let (term, rest) = field(b" term=", rest)?;
    let (epoch, rest) = field(b" epoch=", rest)?;
    let (until, rest) = field(b" until=", rest)?;
    let (ceiling, _) = field(b" ceiling=", rest)?;
    let node = node_of(node)?;
    let term = term_of(term)?;
    Some(Item::Take {
        node,
        reading,
        term,
        epoch,
        until,
        ceiling,
    })
}

#[tactic(auto, unfolding(crate::specs::ReadNodes::renew_at))]
fn renew(bytes: &[u8]) -> Option<Item>
    ensures { result ≡ renew_at bytes.now }
{
    let (node, rest) = letter(bytes)?;
    let (reading, rest) = field(b" reading=", rest)?;
    let (term, rest) = field(b" term=", rest)?;
    let (until, _) = field(b" until=", rest)?;
    let node = node_of(node)?;
    let term = term_of(term)?;
    Some(Item::Renew {
        node,
        reading,
        term,
        until,
    })
}

#[tactic(auto, unfolding(crate::specs::ReadNodes::extend_at))]
fn extend(bytes: &[u8]) -> Option<Item>
    ensures { result ≡ extend_at bytes.now }
{
    let (node, rest) = letter(bytes)?;
    let (term, rest) = field(b" term=", rest)?;
    let (ceiling, _) = field(b" ceiling=", rest)?;
    let node = node_of(node)?;
    let term = term_of(term)?;
    Some(Item::Extend {
        node,
        term,
        ceiling,
    })
}

#[tactic(auto, unfolding(crate::specs::ReadNodes::crash_at))]
fn crash(bytes: &[u8]) -> Option<Item>
    ensures { result ≡ crash_at bytes.now }
{
    let (node, rest) = letter(bytes)?;
    let (term, _) = field(b" term=", rest)?;
    let node = node_of(node)?;
    let term = term_of(term)?;
    Some(Item::Crash { node, term })
}
