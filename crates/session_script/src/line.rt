// A line of an actor: the tests before its arguments, and then its arguments from left to right.
ghost use Rattle.std.specs.Prelude.{◌≡◌, IfOk};
ghost use Rattle.script_data.specs.Sound.{VerbIsSound};
ghost use Rattle.session_script.specs.Verbs.{form_of, form_at, verb_of, verb_at, is_left_to_replay};
ghost use Rattle.session_script.specs.Words.{seen};

use crate::cause::ScriptCause;
use crate::checked::{
    key_at, name_at, node_at, number_at, session_at, stage_at, start_at, target_at, value_at,
};
use crate::form::VerbForm;
use crate::mode::Mode;
use crate::tables::verb_form;
use crate::words::Words;
use history_book::Actor;
use script_data::Verb;
use stamp_base::Setup;

/// What a line of the actor asks for. The first cause against it: WrongNumberOfWords, UnknownVerb, ReplayOnly, or that of its first
/// bad argument.
#[tactic(auto, unfolding(crate::specs::Verbs::verb_at))]
pub fn verb_at(mode: Mode, setup: &Setup, actor: &Actor, words: &Words) -> Result<Verb, ScriptCause>
    ensures verb { result ≡ verb_at mode setup.now.nodes actor.now (seen words.now) }
    ensures sound { IfOk result (VerbIsSound setup.now.nodes) }
{
    let form = form_of(mode, actor, words)?;
    verb_of(setup, form, words)
}

/// The form of an actor's line. An actor's word alone names no verb.
#[tactic(auto, unfolding(crate::specs::Verbs::form_of))]
fn form_of(mode: Mode, actor: &Actor, words: &Words) -> Result<VerbForm, ScriptCause>
    ensures { result ≡ form_of mode actor.now (seen words.now) }
{
    if words.count < 2 {
        return Err(ScriptCause::WrongNumberOfWords);
    }
    match verb_form(actor, words.second) {
        Some(form) => tested_form(mode, words, form),
        None => Err(ScriptCause::UnknownVerb),
    }
}

/// The form, unless a test before the arguments fails.
fn tested_form(mode: Mode, words: &Words, form: VerbForm) -> Result<VerbForm, ScriptCause>
    ensures { result ≡ form_at mode (seen words.now) (Some form) }
{
    if words.count != form.words() {
        Err(ScriptCause::WrongNumberOfWords)
    } else if is_left_to_replay(mode, form) {
        Err(ScriptCause::ReplayOnly)
    } else {
        Ok(form)
    }
}

/// Whether the mode leaves a line of the form to a replay.
fn is_left_to_replay(mode: Mode, form: VerbForm) -> bool
    ensures { result ≡ is_left_to_replay mode form }
{
    match mode {
        Mode::Run => form.is_replay_only(),
        Mode::Replay | Mode::Split => false,
    }
}

/// What a line of the form asks for.
fn verb_of(setup: &Setup, form: VerbForm, words: &Words) -> Result<Verb, ScriptCause>
    ensures verb { result ≡ verb_of setup.now.nodes form (seen words.now) }
    ensures sound { IfOk result (VerbIsSound setup.now.nodes) }
{
    let (third, fourth) = (words.third, words.fourth);
    match form {
        VerbForm::Tick => Ok(Verb::Tick {
            by: number_at(1, 1_000_000, third)?,
        }),
        VerbForm::Take => Ok(Verb::Take),
        VerbForm::Renew => Ok(Verb::Renew),
        VerbForm::Crash => Ok(Verb::Crash),
        VerbForm::Extend => Ok(Verb::Extend),
        VerbForm::Hold => Ok(Verb::Hold {
            stage: stage_at(third)?,
        }),
        VerbForm::Free => Ok(Verb::Free {
            stage: stage_at(third)?,
        }),
        VerbForm::Accept => Ok(Verb::Accept {
            session: session_at(third)?,
        }),
        VerbForm::Decide => Ok(Verb::Decide {
            session: session_at(third)?,
        }),
        VerbForm::Put => Ok(Verb::Put {
            session: session_at(third)?,
        }),
        VerbForm::Answer => Ok(Verb::Answer {
            session: session_at(third)?,
        }),
        VerbForm::Begin => Ok(Verb::Begin {
            target: target_at(setup, third)?,
        }),
        VerbForm::Commit => Ok(Verb::Commit {
            target: target_at(setup, third)?,
        }),
        VerbForm::Submit => Ok(Verb::Submit {
            target: target_at(setup, third)?,
        }),
        VerbForm::AskBegin => Ok(Verb::AskBegin {
            node: node_at(setup, third)?,
        }),
        VerbForm::AskCommit => Ok(Verb::AskCommit {
            node: node_at(setup, third)?,
        }),
        VerbForm::Write => Ok(Verb::Write {
            key: key_at(third)?,
            value: value_at(fourth)?,
        }),
        VerbForm::Read => Ok(Verb::Read {
            key: key_at(third)?,
        }),
        VerbForm::Fetch => Ok(Verb::Fetch {
            key: key_at(third)?,
        }),
        VerbForm::Collect => Ok(Verb::Collect),
        VerbForm::Abort => Ok(Verb::Abort),
        VerbForm::Heal => Ok(Verb::Heal),
        VerbForm::Vanish => Ok(Verb::Vanish),
        VerbForm::Step | VerbForm::SweepStep => Ok(Verb::Step),
        VerbForm::Finish | VerbForm::SweepFinish => Ok(Verb::Finish),
        VerbForm::Sweep => Ok(Verb::Sweep {
            node: node_at(setup, third)?,
            txn: start_at(fourth)?,
        }),
        VerbForm::OpenSweep => Ok(Verb::OpenSweep {
            node: node_at(setup, third)?,
            txn: start_at(fourth)?,
        }),
        VerbForm::Post => Ok(Verb::Post {
            name: name_at(third)?,
        }),
        VerbForm::Await => Ok(Verb::Await {
            name: name_at(third)?,
        }),
    }
}
