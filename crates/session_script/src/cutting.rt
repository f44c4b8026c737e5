// Cutting a line into words, which are pieces of the script's own bytes.
ghost use Rattle.std.specs.Prelude.{◌≡◌, ◌+◌, ◌<◌, ◌≤◌, length, if◌then◌else◌, is_some, IfSome};
ghost use Rattle.std.specs.List.{list_all, position_or_len};
ghost use Rattle.session_script.specs.Words.{is_blank, is_plain, ends_word, is_silent, is_word, words_of, after_blanks, TakesWord, seen, line_words};

use crate::words::Words;

/// Whether a line is empty or a comment.
pub fn is_silent(line: &[u8]) -> bool
    ensures { result ≡ is_silent line.now }
{
    match skip_blanks(line) {
        [] => true,
        [b, ..] => *b == b'#',
    }
}

/// The words of a line, or None where the line has a byte that no line other than a comment may have.
pub fn cut_line(line: &[u8]) -> Option<Words<'_>>
    ensures plain { is_some result ≡ list_all is_plain line.now }
    ensures words { IfSome result (λ words. seen words ≡ line_words (words_of line.now)) }
{
    let (first, rest) = next_word(line);
    let (second, rest) = next_word(rest);
    let (third, rest) = next_word(rest);
    let (fourth, rest) = next_word(rest);
    let further = count_words(rest)?;
    let front = count_word(first) + count_word(second) + count_word(third) + count_word(fourth);
    Some(Words {
        first,
        second,
        third,
        fourth,
        count: front + further,
    })
}

/// Counts a word that may be empty.
fn count_word(word: &[u8]) -> usize
    ensures { result ≡ (if is_word word.now then 1 else 0) }
{
    usize::from(!word.is_empty())
}

/// How many words a text has, or None as above.
fn count_words(text: &[u8]) -> Option<usize>
    ensures plain { is_some result ≡ list_all is_plain text.now }
    ensures count { IfSome result (λ count. count ≡ length (words_of text.now)) }
    ensures few { IfSome result (λ count. count ≤ length text.now) }
{
    let mut count = 0;
    let mut rest = text;
    loop {
        let (word, more) = next_word(rest);
        if word.is_empty() {
            return if more.is_empty() { Some(count) } else { None };
        }
        count += 1;
        rest = more;
    }
}

/// The first word of a text, empty where it has none, and the text after that word. A byte that no plain line has
/// ends a word too, and begins the text after it.
fn next_word(text: &[u8]) -> (&[u8], &[u8])
    ensures { TakesWord text.now result.0.now result.1.now }
{
    let text = skip_blanks(text);
    let end = word_end(text);
    (&text[..end], &text[end..])
}

#[tactic(auto, unfolding(crate::specs::Words::after_blanks))]
fn skip_blanks(text: &[u8]) -> &[u8]
    ensures { result.now ≡ after_blanks text.now }
{
    let mut rest = text;
    while let [b, more @ ..] = rest {
        if !is_blank(*b) {
            break;
        }
        rest = more;
    }
    rest
}

/// Where the first byte stands that ends a word, or the text ends.
#[tactic(auto, using(std::proofs::lemmas::List::Sums::position_or_len_is))]
fn word_end(text: &[u8]) -> usize
    ensures place { result ≡ position_or_len ends_word text.now }
    ensures within { result ≤ length text.now }
{
    for (i, b) in text.iter().enumerate() {
        if ends_word(*b) {
            return i;
        }
    }
    text.len()
}

fn is_blank(b: u8) -> bool
    ensures { result ≡ is_blank b }
{
    b == b' ' || b == b'\t'
}

fn ends_word(b: u8) -> bool
    ensures { result ≡ ends_word b }
{
    b <= b' ' || b'~' < b
}
