// The words behind the program's name.
ghost use Rattle.std.specs.Prelude.{◌≡◌, ◌≢◌, ◌↔◌, ℕ, decimal, map, string_bytes, IsTrue, MatchOption};
ghost use Rattle.stamp_base.specs.Ranges.{IsNumber, IsStamp, IsWithin};
ghost use Rattle.omid_top.specs.Texts.{IsKnown, Names};

use history_text::LineBuf;
use replay_driver::STORM_LIMIT;
use stamp_base::Stamp;

/// What the program is asked to do.
#[derive(Clone, Copy, Debug, PartialEq, Eq)]
pub enum Command {
    /// Carry out a script in file order, and write its history.
    Replay,
    /// Carry out a script in file order, and write the summary of its history.
    ReplaySummary,
    /// Carry out a script in file order, and write its history as JSON.
    ReplayJson,
    /// Carry out a script in file order, compact its stores to this water, and write what a reader at the water finds there.
    ReplayCompact(u64),
    /// Carry out a script on threads, and write its history.
    Run,
    /// Carry out a script on threads over split stores, and write its history.
    RunSplit,
    /// Judge whether a history is snapshot isolated.
    Audit,
    /// Judge whether a history is snapshot isolated, and serial besides.
    AuditStrict,
    /// Carry out the storm of so many transactions, and write the summary of its history.
    Storm(u64),
}

/// The command that the words name, where they name one.
pub fn command_of(words: &[String]) -> Option<Command>
    ensures { MatchOption result (IsKnown (map string_bytes words.now) → ⊥) (λ command. Names command (map string_bytes words.now)) }
{
    match words {
        [word] if is_word(word.as_str(), "replay") => Some(Command::Replay),
        [word] if is_word(word.as_str(), "run") => Some(Command::Run),
        [word] if is_word(word.as_str(), "audit") => Some(Command::Audit),
        [word, form] if is_word(word.as_str(), "run") && is_word(form.as_str(), "split") => {
            Some(Command::RunSplit)
        }
        [word, form] if is_word(word.as_str(), "audit") && is_word(form.as_str(), "strict") => {
            Some(Command::AuditStrict)
        }
        [word, form] if is_word(word.as_str(), "replay") && is_word(form.as_str(), "summary") => {
            Some(Command::ReplaySummary)
        }
        [word, form] if is_word(word.as_str(), "replay") && is_word(form.as_str(), "json") => {
            Some(Command::ReplayJson)
        }
        [word, form, number]
            if is_word(word.as_str(), "replay") && is_word(form.as_str(), "compact") => {
            let water = water_of(number.as_str())?;
            Some(Command::ReplayCompact(water))
        }
        [word, number] if is_word(word.as_str(), "storm") => {
            let transactions = transactions_of(number.as_str())?;
            Some(Command::Storm(transactions))
        }
        _ => None,
    }
}

/// The number of a storm's transactions that the word is: from 1 to the most, in decimal, with no zero before it.
fn transactions_of(word: &str) -> Option<u64>
    ensures { MatchOption result ((n : ℕ) → IsWithin 1 20000 n → word.now ≢ decimal n) (λ n. IsWithin 1 20000 n × (word.now ≡ decimal n)) }
{
    let number = number_of(word)?;
    if is_storm_size(number) {
        Some(number)
    } else {
        None
    }
}

fn is_storm_size(number: u64) -> bool
    ensures { IsTrue result ↔ IsWithin 1 20000 number }
{
    1 <= number && number <= STORM_LIMIT
}

/// The number of a stamp that the word is, in decimal, with no zero before it.
fn water_of(word: &str) -> Option<u64>
    ensures { MatchOption result ((n : ℕ) → IsStamp n → word.now ≢ decimal n) (λ n. IsStamp n × (word.now ≡ decimal n)) }
{
    let number = number_of(word)?;
    if is_stamp(number) { Some(number) } else { None }
}

fn is_stamp(number: u64) -> bool
    ensures { IsTrue result ↔ IsStamp number }
{
    1 <= number && number <= Stamp::GREATEST
}

/// The stamp of this number.
pub fn stamp_of(number: u64) -> Stamp
    requires { IsStamp number }
    ensures { result ≡ number }
{
    Stamp::new(number).unwrap()
}

/// The number that the word is in decimal, with no zero before it.
fn number_of(word: &str) -> Option<u64>
    ensures { MatchOption result ((n : ℕ) → IsNumber n → word.now ≢ decimal n) (λ n. IsNumber n × (word.now ≡ decimal n)) }
{
    match word.parse::<u64>() {
        Ok(number) => {
            if is_decimal(word, number) {
                Some(number)
            } else {
                None
            }
        }
        Err(_) => None,
    }
}

/// Whether the word is the number in decimal, as it is printed.
fn is_decimal(word: &str, number: u64) -> bool
    ensures { IsTrue result ↔ (word.now ≡ decimal number) }
{
    let mut line = LineBuf::new();
    line.push_number(number);
    line.as_slice() == word.as_bytes()
}

fn is_word(word: &str, text: &str) -> bool
    ensures { IsTrue result ↔ (word.now ≡ text.now) }
{
    word == text
}
