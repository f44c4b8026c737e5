// The words behind the program's name.
ghost use Rattle.std.specs.Prelude.{◌≡◌, [], map, string_bytes, IfOk};
ghost use Rattle.std.specs.Str.{IsUtf8, bytes_eq};
ghost use Rattle.omid_check_top.specs.Words.{checks, command_of, level_of, one_word, shows, three_words, two_words, wanted_of};

use stamp_base::NoMemory;
use std::alloc::Global;
use std::env::{Env, FillError};
use trace_rules::{Level, Wanted};

/// What is asked of a trace.
#[derive(Clone, Copy, Debug, PartialEq, Eq)]
pub enum Question {
    /// Whether it is so at the level, in an order that is asked for besides.
    Isolated { level: Level, wanted: Wanted },
    /// Whether each read is of a committed transaction's last write, and none goes round.
    Committed,
    /// All of these, each in a line.
    Levels,
    /// The history with stamps that make it so at the level, in an order that is asked for besides.
    Stamps { level: Level, wanted: Wanted },
}

/// What the program is asked to do.
#[derive(Clone, Copy, Debug, PartialEq, Eq)]
pub enum Command {
    /// Judge a trace.
    Check { question: Question },
    /// Tell how the program is used.
    Help,
}

/// The longest word that is told from others. No word of a command is longer.
const LONGEST: usize = 64;

/// The words behind the program's name. One that is no text, or longer than any of a command, stands as an empty word. NoMemory
/// where memory is refused.
pub fn words_behind<E: Env>(env: &E, alloc: Global) -> Result<Vec<String>, NoMemory> {
    let mut words = Vec::new(alloc);
    let mut word = [0; LONGEST];
    for place in 1..usize::MAX {
        match env.arg(place, &mut word) {
            Ok(len) => words.push(text_of(alloc, &word[..len])?)?,
            Err(FillError::TooLong) => words.push(String::new(alloc))?,
            Err(FillError::NotPresent) => break,
        }
    }
    Ok(words)
}

/// The text that the bytes are, empty where they are none.
fn text_of(alloc: Global, bytes: &[u8]) -> Result<String, NoMemory>
    ensures text { IfOk result (λ text. IsUtf8 bytes.now → string_bytes text ≡ bytes.now) }
    ensures none { IfOk result (λ text. (IsUtf8 bytes.now → ⊥) → string_bytes text ≡ []) }
{
    match str::from_utf8(bytes) {
        Ok(text) => Ok(text.to_string(alloc)?),
        Err(_) => Ok(String::new(alloc)),
    }
}

/// The command that the words name, where they name one.
pub fn command_of(words: &[String]) -> Option<Command>
    ensures { result ≡ command_of (map string_bytes words.now) }
{
    match words {
        [word] => one_word(word.as_str()),
        [word, other] => two_words(word.as_str(), other.as_str()),
        [word, other, last] => three_words(word.as_str(), other.as_str(), last.as_str()),
        _ => None,
    }
}

fn two_words(word: &str, other: &str) -> Option<Command>
    ensures { result ≡ two_words word.now other.now }
{
    if is_word(word, "stamps") {
        shows(level_of(other), Some(Wanted::Nothing))
    } else {
        checks(level_of(word), wanted_of(other))
    }
}

fn three_words(word: &str, other: &str, last: &str) -> Option<Command>
    ensures { result ≡ three_words word.now other.now last.now }
{
    if is_word(word, "stamps") {
        shows(level_of(other), wanted_of(last))
    } else {
        None
    }
}

fn one_word(word: &str) -> Option<Command>
    ensures { result ≡ one_word word.now }
{
    if is_word(word, "help") || is_word(word, "--help") {
        return Some(Command::Help);
    }
    if is_word(word, "committed") {
        return Some(Command::Check {
            question: Question::Committed,
        });
    }
    if is_word(word, "levels") {
        return Some(Command::Check {
            question: Question::Levels,
        });
    }
    checks(level_of(word), Some(Wanted::Nothing))
}

fn checks(level: Option<Level>, wanted: Option<Wanted>) -> Option<Command>
    ensures { result ≡ checks level wanted }
{
    match level {
        None => None,
        Some(level) => match wanted {
            None => None,
            Some(wanted) => Some(Command::Check {
                question: Question::Isolated { level, wanted },
            }),
        },
    }
}

fn shows(level: Option<Level>, wanted: Option<Wanted>) -> Option<Command>
    ensures { result ≡ shows level wanted }
{
    match level {
        None => None,
        Some(level) => match wanted {
            None => None,
            Some(wanted) => Some(Command::Check {
                question: Question::Stamps { level, wanted },
            }),
        },
    }
}

fn level_of(word: &str) -> Option<Level>
    ensures { result ≡ level_of word.now }
{
    if is_word(word, "snapshot") {
        return Some(Level::Snapshot);
    }
    if is_word(word, "serializable") {
        return Some(Level::Serializable);
    }
    None
}

fn wanted_of(word: &str) -> Option<Wanted>
    ensures { result ≡ wanted_of word.now }
{
    if is_word(word, "session") {
        return Some(Wanted::Sessions);
    }
    if is_word(word, "real-time") {
        return Some(Wanted::RealTime);
    }
    None
}

fn is_word(word: &str, text: &str) -> bool
    ensures { result ≡ bytes_eq word.now text.now }
{
    word == text
}
