// The words behind the program's name.
ghost use Rattle.std.specs.Prelude.{◌≡◌, ◌≢◌, ◌↔◌, ◌≤◌, ◌^◌, ℕ, codes, decimal, map, string_bytes, IsTrue, IfSome, MatchOption, IfOk, [], ◌∷◌, ◌<◌};
ghost use Rattle.std.specs.Str.{IsUtf8};
ghost use Rattle.omid_view.specs.Views.{IsInRange, IsKnown, IsPictureFor, IsSound, Names};

use history_text::LineBuf;
use stamp_base::NoMemory;
use std::alloc::Global;
use std::env::{Env, FillError};

/// What the program is asked to do.
#[derive(Clone, Copy)]
pub enum Command {
    /// A picture of the items of these numbers, of the first 2,000 of them; where it is brief, with minor ones left out.
    Picture { from: u64, to: u64, brief: bool },
    /// A picture of what is broken; where it is strict, of what is not serial too.
    Breach { strict: bool },
    /// What is broken, and all refusals in words.
    Explain { strict: bool },
    /// A page to explore the history, with what is told of it.
    Page { strict: bool },
}

/// The longest word that is told from others. No word of a command is longer.
const LONGEST: usize = 64;

/// The words behind the program's name. One that is no text, or longer than any of a command, stands as an empty word. NoMemory
/// where memory is refused.
pub fn words_behind<E: Env>(env: &E, alloc: Global) -> Result<Vec<String>, NoMemory> {
    let mut words = Vec::new(alloc);
    let mut word = [0; LONGEST];
    for place in 1..usize::MAX {
        match env.arg(place, &mut word) {
            Ok(len) => words.push(text_of(alloc, &word[..len])?)?,
            Err(FillError::TooLong) => words.push(String::new(alloc))?,
            Err(FillError::NotPresent) => break,
        }
    }
    Ok(words)
}

/// The text that the bytes are, empty where they are none.
fn text_of(alloc: Global, bytes: &[u8]) -> Result<String, NoMemory>
    ensures text { IfOk result (λ text. IsUtf8 bytes.now → string_bytes text ≡ bytes.now) }
    ensures none { IfOk result (λ text. (IsUtf8 bytes.now → ⊥) → string_bytes text ≡ []) }
{
    match str::from_utf8(bytes) {
        Ok(text) => Ok(text.to_string(alloc)?),
        Err(_) => Ok(String::new(alloc)),
    }
}

/// The command that the words name, where they name one.
pub fn command_of(words: &[String]) -> Option<Command>
    ensures known { MatchOption result (IsKnown (map string_bytes words.now) → ⊥) (λ command. Names command (map string_bytes words.now)) }
    ensures sound { IfSome result IsSound }
{
    match words {
        [word] => one_word(word.as_str()),
        [word, next] => two_words(word.as_str(), next.as_str()),
        [word, from, to] if is_word(word.as_str(), "picture") => {
            picture_of(false, from.as_str(), to.as_str())
        }
        [word, brief, from, to]
            if is_word(word.as_str(), "picture") && is_word(brief.as_str(), "brief") => {
            brief_of(from.as_str(), to.as_str())
        }
        _ => None,
    }
}

fn one_word(word: &str) -> Option<Command>
    ensures known { MatchOption result (IsKnown (word.now ∷ []) → ⊥) (λ command. Names command (word.now ∷ [])) }
    ensures sound { IfSome result IsSound }
{
    if is_word(word, "picture") {
        Some(whole(false))
    } else if is_word(word, "breach") {
        Some(Command::Breach { strict: false })
    } else if is_word(word, "explain") {
        Some(Command::Explain { strict: false })
    } else if is_word(word, "page") {
        Some(Command::Page { strict: false })
    } else {
        None
    }
}

fn two_words(word: &str, next: &str) -> Option<Command>
    ensures known { MatchOption result (IsKnown (word.now ∷ next.now ∷ []) → ⊥) (λ command. Names command (word.now ∷ next.now ∷ [])) }
    ensures sound { IfSome result IsSound }
{
    if is_word(word, "picture") && is_word(next, "brief") {
        Some(whole(true))
    } else if is_word(word, "breach") && is_word(next, "strict") {
        Some(Command::Breach { strict: true })
    } else if is_word(word, "explain") && is_word(next, "strict") {
        Some(Command::Explain { strict: true })
    } else if is_word(word, "page") && is_word(next, "strict") {
        Some(Command::Page { strict: true })
    } else {
        None
    }
}

/// The picture of the first 2,000 items.
fn whole(brief: bool) -> Command
    ensures { result ≡ Command.Picture 1 2000 brief }
{
    Command::Picture {
        from: 1,
        to: 2_000,
        brief,
    }
}

/// The brief picture of the items of these numbers.
fn brief_of(from: &str, to: &str) -> Option<Command>
    ensures known { MatchOption result (IsKnown (codes "picture" ∷ codes "brief" ∷ from.now ∷ to.now ∷ []) → ⊥) (λ command. Names command (codes "picture" ∷ codes "brief" ∷ from.now ∷ to.now ∷ [])) }
    ensures sound { IfSome result IsSound }
{
    picture_of(true, from, to)
}

/// The picture of the items of these numbers, where there may be some: no history has more than 16,777,216.
fn picture_of(brief: bool, from: &str, to: &str) -> Option<Command>
    ensures { MatchOption result ((m n : ℕ) → IsInRange m n → from.now ≡ decimal m → to.now ≢ decimal n) (λ command. IsPictureFor brief command from.now to.now) }
{
    let first = number_of(from)?;
    let last = number_of(to)?;
    if is_in_range(first, last) {
        Some(Command::Picture {
            from: first,
            to: last,
            brief,
        })
    } else {
        None
    }
}

fn is_in_range(from: u64, to: u64) -> bool
    ensures { IsTrue result ↔ IsInRange from to }
{
    1 <= from && to <= 16_777_216 && from <= to
}

/// The number that the word is, in decimal, as it is printed.
fn number_of(word: &str) -> Option<u64>
    ensures { MatchOption result ((n : ℕ) → n < 2 ^ 64 → word.now ≢ decimal n) (λ n. (n < 2 ^ 64) × (word.now ≡ decimal n)) }
{
    match word.parse::<u64>() {
        Ok(number) => {
            if is_decimal(word, number) {
                Some(number)
            } else {
                None
            }
        }
        Err(_) => None,
    }
}

/// Whether the word is the number in decimal, as it is printed.
fn is_decimal(word: &str, number: u64) -> bool
    ensures { IsTrue result ↔ (word.now ≡ decimal number) }
{
    let mut line = LineBuf::new();
    line.push_number(number);
    line.as_slice() == word.as_bytes()
}

fn is_word(word: &str, text: &str) -> bool
    ensures { IsTrue result ↔ (word.now ≡ text.now) }
{
    word == text
}
