// Reading a script, line by line.
ghost use Rattle.std.specs.Prelude.{◌≡◌, ◌+◌, ◌<◌, ◌≤◌, length, IfOk, vec_len};
ghost use Rattle.std.specs.Str.Lines.{lines};
ghost use Rattle.stamp_base.specs.Setups.{numbers_of};
ghost use Rattle.script_data.specs.Sound.{actor_needs, LineIsSound};
ghost use Rattle.session_script.specs.Names.{name_objection};
ghost use Rattle.session_script.specs.Reading.{so_far, ReadsLine};
ghost use Rattle.session_script.specs.Results.{unless};
ghost use Rattle.session_script.specs.Script.{script_of, script_from, after_line, after_words, setup_line, actor_line, after_setting, after_telling, nothing_read, data_of, IsSound, ReadsScript};
ghost use Rattle.session_script.specs.Settings.{objection, IsInBounds};
ghost use Rattle.session_script.specs.Words.{seen};

use crate::arguments::actor_of;
use crate::cause::ScriptCause;
use crate::cutting::{cut_line, is_silent};
use crate::fault::ScriptFault;
use crate::form::SetupForm;
use crate::line::verb_at;
use crate::lines::split_line;
use crate::mode::Mode;
use crate::read_so_far::ReadSoFar;
use crate::script::Script;
use crate::setting::{Setting, setting_of};
use crate::tables::setup_form;
use crate::words::Words;
use history_book::Actor;
use script_data::Line;
use stamp_base::{BYTE_LIMIT, LINE_LIMIT};
use std::alloc::Global;

/// The script that the bytes are. At, with the first bad line's number, from 1, and its first cause, or with line 0 and TooLong
/// where the bytes are more than 16,777,216; NoMemory where memory is refused.
pub fn read_script(alloc: Global, bytes: &[u8], mode: Mode) -> Result<Script, ScriptFault>
    ensures script { ReadsScript result (script_of bytes.now mode) }
    ensures sound { IfOk result (λ script. IsSound (data_of script)) }
    ensures few { IfOk result (λ script. vec_len script.lines ≤ LINE_LIMIT) }
{
    if bytes.len() > BYTE_LIMIT {
        return Err(ScriptFault::At {
            line: 0,
            cause: ScriptCause::TooLong,
        });
    }
    read_lines(alloc, bytes, mode)
}

#[tactic(auto, unfolding(crate::specs::Script::script_from))]
fn read_lines(alloc: Global, bytes: &[u8], mode: Mode) -> Result<Script, ScriptFault>
    requires { length bytes.now ≤ BYTE_LIMIT }
    ensures script { ReadsScript result (script_from mode nothing_read 1 (lines bytes.now)) }
    ensures few { IfOk result (λ script. vec_len script.lines ≤ LINE_LIMIT) }
{
    let mut reading = ReadSoFar::start(alloc)?;
    let mut rest = bytes;
    let mut number = 0;
    while !rest.is_empty() {
        let (line, further) = split_line(rest);
        number += 1;
        read_line(&mut reading, mode, number, line)?;
        rest = further;
    }
    Ok(reading.script)
}

/// Reads one more line.
#[tactic(auto, unfolding(crate::specs::Script::after_line))]
fn read_line(
    reading: &mut ReadSoFar,
    mode: Mode,
    number: u64,
    line: &[u8],
) -> Result<(), ScriptFault>
    ensures { ReadsLine result number (after_line mode (so_far reading.old) number line.now) (so_far reading.new) }
{
    if is_silent(line) {
        return Ok(());
    }
    if reading.counted >= LINE_LIMIT {
        return bad_line(number, ScriptCause::TooManyLines);
    }
    match cut_line(line) {
        Some(words) => read_words(reading, mode, number, &words),
        None => bad_line(number, ScriptCause::BadByte),
    }
}

/// Reads the words of a line.
#[tactic(auto, unfolding(crate::specs::Script::after_words))]
fn read_words(
    reading: &mut ReadSoFar,
    mode: Mode,
    number: u64,
    words: &Words,
) -> Result<(), ScriptFault>
    requires { reading.old.counted < LINE_LIMIT }
    ensures { ReadsLine result number (after_words mode (so_far reading.old) number (seen words.now)) (so_far reading.new) }
{
    if let Some(form) = setup_form(words.first) {
        return read_setting(reading, number, form, words);
    }
    match actor_of(&reading.script.setup, words.first) {
        Some(actor) => read_actor_line(reading, mode, number, actor, words),
        None => bad_line(number, ScriptCause::UnknownActor),
    }
}

/// Reads a setup line.
#[tactic(auto, unfolding(crate::specs::Script::setup_line))]
fn read_setting(
    reading: &mut ReadSoFar,
    number: u64,
    form: SetupForm,
    words: &Words,
) -> Result<(), ScriptFault>
    requires { reading.old.counted < LINE_LIMIT }
    ensures { ReadsLine result number (setup_line (so_far reading.old) form (seen words.now)) (so_far reading.new) }
{
    match setting_of(&reading.script.setup, form, words) {
        Ok(setting) => add_setting(reading, number, setting),
        Err(cause) => bad_line(number, cause),
    }
}

fn add_setting(reading: &mut ReadSoFar, number: u64, setting: Setting) -> Result<(), ScriptFault>
    requires room { reading.old.counted < LINE_LIMIT }
    requires bounds { IsInBounds (numbers_of reading.old.script.setup) setting }
    ensures { ReadsLine result number
        (unless (objection reading.old.settings.items (data_of reading.old.script) setting) (after_setting (so_far reading.old) setting))
        (so_far reading.new) }
{
    match reading.objection(&setting) {
        Some(cause) => bad_line(number, cause),
        None => Ok(reading.set(setting)?),
    }
}

/// Reads an actor's line.
#[tactic(auto, unfolding(crate::specs::Script::actor_line))]
fn read_actor_line(
    reading: &mut ReadSoFar,
    mode: Mode,
    number: u64,
    actor: Actor,
    words: &Words,
) -> Result<(), ScriptFault>
    requires room { reading.old.counted < LINE_LIMIT }
    requires there { actor_needs actor ≤ reading.old.script.setup.nodes }
    ensures { ReadsLine result number (actor_line mode (so_far reading.old) number actor (seen words.now)) (so_far reading.new) }
{
    match verb_at(mode, &reading.script.setup, &actor, words) {
        Ok(verb) => add_line(
            reading,
            &Line {
                number,
                actor,
                verb,
            },
        ),
        Err(cause) => bad_line(number, cause),
    }
}

fn add_line(reading: &mut ReadSoFar, line: &Line) -> Result<(), ScriptFault>
    requires room { reading.old.counted < LINE_LIMIT }
    requires sound { LineIsSound reading.old.script.setup.nodes line.now }
    ensures { ReadsLine result line.now.number
        (unless (name_objection reading.old.posted line.now.verb) (after_telling (so_far reading.old) line.now))
        (so_far reading.new) }
{
    match reading.name_objection(&line.verb) {
        Some(cause) => bad_line(line.number, cause),
        None => Ok(reading.tell(line)?),
    }
}

fn bad_line(line: u64, cause: ScriptCause) -> Result<(), ScriptFault>
    ensures { result ≡ Err (ScriptFault.At line cause) }
{
    Err(ScriptFault::At { line, cause })
}
