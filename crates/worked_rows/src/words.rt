// What becomes of the words that the system hands in.
use crate::bad_scripts::USAGE;
use crate::calls::written_for;
use omid_top::words_behind;
use std::env::{Env, FillError};
use std::test::Fail;

/// A system that hands in these words, the program's name first.
#[derive(Clone, Copy)]
struct HandsIn {
    words: &'static [&'static [u8]],
}

impl Env for HandsIn {
    fn arg(&self, i: usize, buf: &mut [u8]) -> Result<usize, FillError> {
        match self.words.get(i) {
            None => Err(FillError::NotPresent),
            Some(word) => {
                if word.len() > buf.len() {
                    return Err(FillError::TooLong);
                }
                buf[..word.len()].copy_from_slice(word);
                Ok(word.len())
            }
        }
    }

    fn var(&self, _name: &str, _buf: &mut [u8]) -> Result<usize, FillError> {
        Err(FillError::NotPresent)
    }

    fn var_at(&self, _i: usize, _buf: &mut [u8]) -> Result<usize, FillError> {
        Err(FillError::NotPresent)
    }
}

/// Words that are no command: no text, too long for any, or one word more than a command has.
static NO_COMMANDS: [&[&[u8]]; 5] = [
    &[b"omid", b"\xff"],
    &[b"omid", b"replay\xff"],
    &[b"omid", b"replay", b"\xff"],
    &[b"omid", &[b'a'; 65]],
    &[b"omid"],
];

/// A replay, by a program whose name is no text.
const NAMED: &[&[u8]] = &[b"\xff", b"replay"];

/// Behind a function, a proof that goes over the rows does not look into their bytes.
fn no_commands() -> &'static [&'static [&'static [u8]]] {
    &NO_COMMANDS
}

#[test]
fn a_word_that_is_no_text_is_no_command(rt: HostRuntime) -> Result<(), Fail> {
    for words in no_commands() {
        let words = words_behind(&HandsIn { words: *words }, rt.alloc())?;
        let (written, status) = written_for(&rt, rt.alloc(), &words, b"")?;
        assert!(rt; status == 2 && written.as_slice() == USAGE.as_bytes());
    }
    Ok(())
}

#[test]
fn the_name_of_the_program_is_no_word(rt: HostRuntime) -> Result<(), Fail> {
    let words = words_behind(&HandsIn { words: NAMED }, rt.alloc())?;
    let (written, status) = written_for(&rt, rt.alloc(), &words, b"")?;
    assert!(rt; status == 0 && written.is_empty());
    Ok(())
}
