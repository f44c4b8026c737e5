ghost use Rattle.std.specs.Prelude.{◌≡◌, ◌↔◌, IfSome, IsTrue, Some};
ghost use Rattle.history_book.specs.declared.item.Item.{Item};
ghost use Rattle.history_text.specs.Text.{body_of};
ghost use Rattle.history_text.specs.Fits.{FitsItem};
ghost use Rattle.history_reading.specs.Reading.{item_at};

mod actors;
mod causes;
mod nodes;
mod requests;
mod sessions;
mod steps;
mod templates;
mod words;

use actors::actor_kind;
pub use actors::{stage, store};
pub use causes::cause;
use history_book::Item;
use history_text::{LineBuf, print_body};
use nodes::node_kind;
use requests::request_kind;
pub use sessions::ending;
use sessions::session_kind;
pub use steps::step;
use templates::template;
use words::split_word;
pub use words::{
    actor, after, field, is_word, key_of, letter, name, node_of, number, session_of, stamp_of,
    term_of, two_fields, value,
};

/// The item whose line, without its line feed, the bytes are. It takes no memory.
pub fn read_item(line: &[u8]) -> Option<Item>
    ensures found { IfSome result (λ item. line.now ≡ body_of item) }
    ensures fits { IfSome result FitsItem }
    ensures only { (item : Item) → FitsItem item → line.now ≡ body_of item → result ≡ Some item }
{
    match by_template(line) {
        Some(item) => Some(item),
        None => otherwise(line),
    }
}

/// The item whose line the bytes are, where a template has it.
fn by_template(line: &[u8]) -> Option<Item>
    ensures found { IfSome result (λ item. line.now ≡ body_of item) }
    ensures fits { IfSome result FitsItem }
{
    template(line)
}

/// The same of a line that no template has. It stands apart, so that the others do not pay for its locals.
#[inline(never)]
fn otherwise(line: &[u8]) -> Option<Item>
    ensures found { IfSome result (λ item. line.now ≡ body_of item) }
    ensures fits { IfSome result FitsItem }
    ensures only { (item : Item) → FitsItem item → line.now ≡ body_of item → result ≡ Some item }
{
    let item = candidate(line)?;
    let same = is_body_of(line, &item);
    if same { Some(item) } else { None }
}

/// Whether the bytes are the item's line without its line feed.
fn is_body_of(bytes: &[u8], item: &Item) -> bool
    ensures same { IsTrue result ↔ (bytes.now ≡ body_of item.now) }
    ensures fits { FitsItem item.now }
{
    let mut line = LineBuf::new();
    print_body(item, &mut line);
    bytes == line.as_slice()
}

/// An item that the bytes may be: what it prints decides.
fn candidate(bytes: &[u8]) -> Option<Item>
    ensures { result ≡ item_at bytes.now }
{
    let (word, rest) = split_word(bytes);
    if let Some(item) = node_kind(word, rest) {
        return Some(item);
    }
    if let Some(item) = request_kind(word, rest) {
        return Some(item);
    }
    if let Some(item) = session_kind(word, rest) {
        return Some(item);
    }
    actor_kind(word, rest)
}
