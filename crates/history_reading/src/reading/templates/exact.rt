// The parts that templates share: numbers exactly as they are printed, and what stands about them.
ghost use Rattle.std.specs.Prelude.{◌≡◌};
ghost use Rattle.std.specs.Option.{option_map};
ghost use Rattle.history_reading.specs.Templates.{digits_from, exact_number_at, exact_field_at, alone, exact_end_at, exact_asked_at, exact_started_at, exact_cell_at};

use crate::reading::words::{after, letter};

/// Further digits of a number, as far as one more leaves it within 64 bits.
#[tactic(auto, unfolding(crate::specs::Templates::digits_from))]
fn digits(number: u64, bytes: &[u8]) -> (u64, &[u8])
    ensures { (result.0, result.1.now) ≡ digits_from number bytes.now }
{
    let mut number = number;
    let mut rest = bytes;
    while let [b @ b'0'..=b'9', more @ ..] = rest {
        if number > 1_844_674_407_370_955_160 {
            return (number, rest);
        }
        number = 10 * number + (*b - b'0') as u64;
        rest = more;
    }
    (number, rest)
}

/// A number in front as it is printed, and the bytes after it: a zero stands alone.
#[inline(always)]
#[tactic(auto, unfolding(crate::specs::Templates::exact_number_at))]
fn exact_number(bytes: &[u8]) -> Option<(u64, &[u8])>
    ensures { option_map (λ found. (found.0, found.1.now)) result ≡ exact_number_at bytes.now }
{
    match bytes {
        [b @ b'1'..=b'9', rest @ ..] => Some(digits((*b - b'0') as u64, rest)),
        [b'0', rest @ ..] => Some((0, rest)),
        _ => None,
    }
}

/// The number behind a text, and the bytes after it.
#[inline(always)]
#[tactic(auto, unfolding(crate::specs::Templates::exact_field_at))]
pub fn exact_field<'a>(text: &[u8], bytes: &'a [u8]) -> Option<(u64, &'a [u8])>
    ensures { option_map (λ found. (found.0, found.1.now)) result ≡ exact_field_at text.now bytes.now }
{
    let rest = after(text, bytes)?;
    exact_number(rest)
}

/// The number, where nothing follows it.
#[inline(always)]
#[tactic(auto, unfolding(crate::specs::Templates::alone))]
pub fn alone(number: u64, rest: &[u8]) -> Option<u64>
    ensures { result ≡ alone (number, rest.now) }
{
    if rest.is_empty() { Some(number) } else { None }
}

/// The number behind a text, where it is all that follows.
#[inline(always)]
#[tactic(auto, unfolding(crate::specs::Templates::exact_end_at))]
pub fn exact_end(text: &[u8], bytes: &[u8]) -> Option<u64>
    ensures { result ≡ exact_end_at text.now bytes.now }
{
    let (number, rest) = exact_field(text, bytes)?;
    alone(number, rest)
}

/// The session of a request behind a text, its node, and the bytes after them.
#[inline(always)]
#[tactic(auto, unfolding(crate::specs::Templates::exact_asked_at))]
pub fn exact_asked<'a>(text: &[u8], bytes: &'a [u8]) -> Option<(u64, u64, &'a [u8])>
    ensures { option_map (λ asked. (asked.0, asked.1, asked.2.now)) result ≡ exact_asked_at text.now bytes.now }
{
    let (session, rest) = exact_field(text, bytes)?;
    let rest = after(b" ", rest)?;
    let (node, rest) = letter(rest)?;
    Some((session, node, rest))
}

/// The session behind a text and the start of its transaction, and the bytes after them.
#[inline(always)]
#[tactic(auto, unfolding(crate::specs::Templates::exact_started_at))]
pub fn exact_started<'a>(text: &[u8], bytes: &'a [u8]) -> Option<(u64, u64, &'a [u8])>
    ensures { option_map (λ begun. (begun.0, begun.1, begun.2.now)) result ≡ exact_started_at text.now bytes.now }
{
    let (session, rest) = exact_field(text, bytes)?;
    let (start, rest) = exact_field(b" start=", rest)?;
    Some((session, start, rest))
}

/// The key of a cell behind a text and its version, and the bytes after them.
#[inline(always)]
#[tactic(auto, unfolding(crate::specs::Templates::exact_cell_at))]
pub fn exact_cell<'a>(text: &[u8], bytes: &'a [u8]) -> Option<(u64, u64, &'a [u8])>
    ensures { option_map (λ cell. (cell.0, cell.1, cell.2.now)) result ≡ exact_cell_at text.now bytes.now }
{
    let (key, rest) = exact_field(text, bytes)?;
    let (txn, rest) = exact_field(b" ", rest)?;
    Some((key, txn, rest))
}
