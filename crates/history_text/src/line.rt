ghost use Rattle.std.specs.Prelude.{◌≡◌, ◌+◌, ◌<◌, ◌≤◌, ◌++◌, [], length, decimal};

use itoa::write_digits;
use std::marker::Model;

/// A line of text of at most 256 bytes. It takes no memory.
#[derive(Drop)]
pub struct LineBuf {
    bytes: [u8; 256],
    len: usize,
}

impl Model for LineBuf {
    ghost use Rattle.std.specs.Prelude.{ℕ, ◌≤◌, List, take};

    ghost Value = { List ℕ };

    ghost view = { λ l. take l.len l.bytes };

    ghost invariant = { λ l. l.len ≤ 256 };
}

impl LineBuf {
    /// No text.
    pub fn new() -> LineBuf
        ensures { result ≡ [] }
    {
        LineBuf {
            bytes: [0; 256],
            len: 0,
        }
    }

    /// The text.
    pub fn as_slice(&self) -> &[u8]
        ensures value { result.now ≡ self.now }
        ensures room { length self.now ≤ 256 }
    {
        &self.bytes[..self.len]
    }

    /// Leaves no text.
    pub fn clear(&mut self)
        ensures { self.new ≡ [] }
    {
        self.len = 0;
    }

    /// Leaves this text alone.
    pub fn set_text(&mut self, text: &[u8])
        requires { length text.now ≤ 256 }
        ensures { self.new ≡ text.now }
    {
        self.clear();
        self.push_text(text);
    }

    /// Adds a text at the end.
    pub fn push_text(&mut self, text: &[u8])
        requires { length self.old + length text.now ≤ 256 }
        ensures text { self.new ≡ self.old ++ text.now }
        ensures len { length self.new ≡ length self.old + length text.now }
    {
        let end = self.len + text.len();
        self.bytes[self.len..end].copy_from_slice(text);
        self.len = end;
    }

    /// Adds a number, of 20 digits at most.
    pub fn push_number(&mut self, number: u64)
        requires { length self.old + 20 ≤ 256 }
        ensures text { self.new ≡ self.old ++ decimal number }
        ensures len { length self.new ≤ length self.old + 20 }
    {
        let end = self.len + digit_count(number);
        write_digits(number, &mut self.bytes, end);
        self.len = end;
    }

    /// Adds a name and the number that it has.
    pub fn push_field(&mut self, name: &[u8], number: u64)
        requires { length self.old + length name.now + 20 ≤ 256 }
        ensures text { self.new ≡ self.old ++ name.now ++ decimal number }
        ensures len { length self.new ≤ length self.old + length name.now + 20 }
    {
        self.push_text(name);
        self.push_number(number);
    }
}

/// How many digits a number has.
fn digit_count(number: u64) -> usize
    ensures digits { result ≡ length (decimal number) }
    ensures most { result ≤ 20 }
{
    let mut count = 0;
    let mut rest = number;
    while rest >= 10_000 {
        rest /= 10_000;
        count += 4;
    }
    count + last_digits(rest)
}

/// As `digit_count`, for a number of at most four digits.
fn last_digits(number: u64) -> usize
    requires { number < 10000 }
    ensures { result ≡ length (decimal number) }
{
    match number {
        0..=9 => 1,
        10..=99 => 2,
        100..=999 => 3,
        _ => 4,
    }
}
