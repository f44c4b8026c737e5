// The lines that most of a history is, each read by the template of its kind. A line that is read here is its item's as it is printed,
// so it is not printed again. One of another kind, or that is written otherwise, is left to the other readers. The reader
// of each kind stands apart, so that no line pays for the locals of another kind's.
ghost use Rattle.std.specs.Prelude.{◌≡◌};
ghost use Rattle.history_reading.specs.Templates.{template_at};

mod exact;
mod requests;
mod sessions;
mod steps;

use history_book::Item;
use requests::{draw, placed, request};
use sessions::{begin, committed, read, write};
use steps::step;

/// The item whose line the bytes are, by the template of its kind.
#[tactic(auto, unfolding(crate::specs::Templates::template_at))]
pub fn template(line: &[u8]) -> Option<Item>
    ensures { result ≡ template_at line.now }
{
    match line {
        [b'a', rest @ ..] => request(rest),
        [b'b', rest @ ..] => begin(rest),
        [b'c', rest @ ..] => committed(rest),
        [b'd', rest @ ..] => draw(rest),
        [b'p', rest @ ..] => placed(rest),
        [b'r', rest @ ..] => read(rest),
        [b's', rest @ ..] => step(rest),
        [b'w', rest @ ..] => write(rest),
        _ => None,
    }
}
