// A text that grows.
ghost use Rattle.std.specs.Prelude.{◌≡◌, ◌++◌, [], OnOk, decimal};
ghost use Rattle.history_text.specs.Text.{body_of};
ghost use Rattle.history_view.specs.Words.{escaped, escaped_byte};

use history_book::Item;
use history_text::{LineBuf, print_body};
use stamp_base::NoMemory;
use std::alloc::Global;
use std::marker::Model;

/// A text that grows. Where memory is refused, what it has is of no use.
#[derive(Drop)]
pub struct Text {
    bytes: Vec<u8>,
}

impl Model for Text {
    ghost use Rattle.std.specs.Prelude.{ℕ, List};

    ghost Value = { List ℕ };

    ghost view = { λ t. t.bytes.items };
}

impl Text {
    /// No text.
    pub fn new(alloc: Global) -> Text
        ensures { result ≡ [] }
    {
        Text {
            bytes: Vec::new(alloc),
        }
    }

    /// The text.
    pub fn as_slice(&self) -> &[u8]
        ensures { result.now ≡ self.now }
    {
        self.bytes.as_slice()
    }

    /// Adds words at the end. NoMemory where memory is refused.
    pub fn push(&mut self, words: &[u8]) -> Result<(), NoMemory>
        ensures { OnOk result (self.new ≡ self.old ++ words.now) }
    {
        self.bytes.extend_from_slice(words)?;
        Ok(())
    }

    /// Adds a number at the end. NoMemory where memory is refused.
    pub fn push_number(&mut self, number: u64) -> Result<(), NoMemory>
        ensures { OnOk result (self.new ≡ self.old ++ decimal number) }
    {
        let mut digits = LineBuf::new();
        digits.push_number(number);
        self.push(digits.as_slice())
    }

    /// Adds words and the number behind them. NoMemory where memory is refused.
    pub fn push_field(&mut self, words: &[u8], number: u64) -> Result<(), NoMemory>
        ensures { OnOk result (self.new ≡ self.old ++ words.now ++ decimal number) }
    {
        self.push(words)?;
        self.push_number(number)
    }

    /// Adds two numbers, each behind its words. NoMemory where memory is refused.
    pub fn push_two(
        &mut self,
        words: &[u8],
        number: u64,
        next_words: &[u8],
        next: u64,
    ) -> Result<(), NoMemory>
        ensures { OnOk result (self.new ≡ self.old ++ words.now ++ decimal number ++ next_words.now ++ decimal next) }
    {
        self.push_field(words, number)?;
        self.push_field(next_words, next)
    }

    /// Adds words between others. NoMemory where memory is refused.
    pub fn push_between(
        &mut self,
        before: &[u8],
        words: &[u8],
        after: &[u8],
    ) -> Result<(), NoMemory>
        ensures { OnOk result (self.new ≡ self.old ++ before.now ++ words.now ++ after.now) }
    {
        self.push(before)?;
        self.push(words)?;
        self.push(after)
    }

    /// Adds the words of an item, as they stand in XML. NoMemory where memory is refused.
    pub fn push_item(&mut self, item: &Item) -> Result<(), NoMemory>
        ensures { OnOk result (self.new ≡ self.old ++ escaped (body_of item.now)) }
    {
        let mut line = LineBuf::new();
        print_body(item, &mut line);
        self.push_escaped(line.as_slice())
    }

    /// Adds words, as they stand in XML. NoMemory where memory is refused.
    pub fn push_escaped(&mut self, words: &[u8]) -> Result<(), NoMemory>
        ensures { OnOk result (self.new ≡ self.old ++ escaped words.now) }
    {
        for byte in words {
            self.push_byte(*byte)?;
        }
        Ok(())
    }

    fn push_byte(&mut self, byte: u8) -> Result<(), NoMemory>
        ensures { OnOk result (self.new ≡ self.old ++ escaped_byte byte) }
    {
        match byte {
            b'&' => self.push(b"&amp;"),
            b'<' => self.push(b"&lt;"),
            _ => self.push(&[byte]),
        }
    }
}
