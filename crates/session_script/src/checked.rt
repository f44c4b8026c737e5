// The arguments of a line, each with the cause where it is wrong.
ghost use Rattle.std.specs.Prelude.{◌≡◌, ◌<◌, ◌≤◌, IfOk};
ghost use Rattle.stamp_base.specs.Ranges.{IsWithin};
ghost use Rattle.stamp_base.specs.SetupNumbers.{MayBe};
ghost use Rattle.script_data.specs.Sound.{target_needs};
ghost use Rattle.session_script.specs.Checked.{number_at, number_within, setup_number_at, flag_at, start_at, node_at, target_at, session_at, key_at, value_at, stage_at, store_at, kind_at, name_at};

use crate::arguments::{key_of, name_of, node_of, number_of, session_of, target_of, value_of};
use crate::cause::ScriptCause;
use crate::tables::{kind_of, stage_of, store_of, turns_on};
use port_io::Fate;
use script_data::Target;
use stamp_base::{
    KeyNo, Name, NodeNo, SessionNo, Setup, SetupFlag, SetupNumber, Stage, Stamp, Store, TxnId,
    Value,
};

/// A number from the least to the most. BadNumber where the word is no number, OutOfRange where it is below or above.
#[tactic(auto, unfolding(crate::specs::Checked::number_at))]
pub fn number_at(least: u64, most: u64, word: &[u8]) -> Result<u64, ScriptCause>
    ensures number { result ≡ number_at least most word.now }
    ensures within { IfOk result (IsWithin least most) }
{
    match number_of(word) {
        Some(number) => within(least, most, number),
        None => Err(ScriptCause::BadNumber),
    }
}

/// A number of a setup, within its bounds. BadNumber where the word is no number, OutOfRange where it is below or above.
pub fn setup_number_at(number: SetupNumber, word: &[u8]) -> Result<u64, ScriptCause>
    ensures number { result ≡ setup_number_at number word.now }
    ensures within { IfOk result (MayBe number) }
{
    let bounds = number.bounds();
    number_at(bounds.least, bounds.most, word)
}

/// A flag of a setup, by the word that turns it on. UnknownKind where it is another word.
#[tactic(auto, unfolding(crate::specs::Checked::flag_at))]
pub fn flag_at(flag: SetupFlag, word: &[u8]) -> Result<SetupFlag, ScriptCause>
    ensures { result ≡ flag_at flag word.now }
{
    if turns_on(flag, word) {
        Ok(flag)
    } else {
        Err(ScriptCause::UnknownKind)
    }
}

fn within(least: u64, most: u64, number: u64) -> Result<u64, ScriptCause>
    ensures number { result ≡ number_within least most (Some number) }
    ensures within { IfOk result (IsWithin least most) }
{
    if least <= number && number <= most {
        Ok(number)
    } else {
        Err(ScriptCause::OutOfRange)
    }
}

/// The start of a transaction, by which it is named. BadNumber where the word is no number, OutOfRange where it is no stamp.
#[tactic(auto, unfolding(crate::specs::Checked::start_at))]
pub fn start_at(word: &[u8]) -> Result<TxnId, ScriptCause>
    ensures { result ≡ start_at word.now }
{
    let number = number_at(1, Stamp::GREATEST, word)?;
    Stamp::new(number).ok_or(ScriptCause::OutOfRange)
}

/// A node of the setup. UnknownNode where the word is none.
#[tactic(auto, unfolding(crate::specs::Checked::node_at))]
pub fn node_at(setup: &Setup, word: &[u8]) -> Result<NodeNo, ScriptCause>
    ensures node { result ≡ node_at setup.now.nodes word.now }
    ensures there { IfOk result (λ node. node < setup.now.nodes) }
{
    node_of(setup, word).ok_or(ScriptCause::UnknownNode)
}

/// Where a line is sent. UnknownNode where the word names none of the setup.
#[tactic(auto, unfolding(crate::specs::Checked::target_at))]
pub fn target_at(setup: &Setup, word: &[u8]) -> Result<Target, ScriptCause>
    ensures target { result ≡ target_at setup.now.nodes word.now }
    ensures there { IfOk result (λ target. target_needs target ≤ setup.now.nodes) }
{
    target_of(setup, word).ok_or(ScriptCause::UnknownNode)
}

/// A session by its name. BadSession where the word is none.
#[tactic(auto, unfolding(crate::specs::Checked::session_at))]
pub fn session_at(word: &[u8]) -> Result<SessionNo, ScriptCause>
    ensures { result ≡ session_at word.now }
{
    session_of(word).ok_or(ScriptCause::BadSession)
}

/// A key by its name. BadKey where the word is none.
#[tactic(auto, unfolding(crate::specs::Checked::key_at))]
pub fn key_at(word: &[u8]) -> Result<KeyNo, ScriptCause>
    ensures { result ≡ key_at word.now }
{
    key_of(word).ok_or(ScriptCause::BadKey)
}

/// A value. BadValue where the word is none.
#[tactic(auto, unfolding(crate::specs::Checked::value_at))]
pub fn value_at(word: &[u8]) -> Result<Value, ScriptCause>
    ensures { result ≡ value_at word.now }
{
    value_of(word).ok_or(ScriptCause::BadValue)
}

/// A stage by its word. UnknownStage where there is no such stage.
#[tactic(auto, unfolding(crate::specs::Checked::stage_at))]
pub fn stage_at(word: &[u8]) -> Result<Stage, ScriptCause>
    ensures { result ≡ stage_at word.now }
{
    stage_of(word).ok_or(ScriptCause::UnknownStage)
}

/// A store by its word. UnknownStore where there is no such store.
#[tactic(auto, unfolding(crate::specs::Checked::store_at))]
pub fn store_at(word: &[u8]) -> Result<Store, ScriptCause>
    ensures { result ≡ store_at word.now }
{
    store_of(word).ok_or(ScriptCause::UnknownStore)
}

/// How a store call fails. UnknownKind where the word is none.
#[tactic(auto, unfolding(crate::specs::Checked::kind_at))]
pub fn kind_at(word: &[u8]) -> Result<Fate, ScriptCause>
    ensures { result ≡ kind_at word.now }
{
    kind_of(word).ok_or(ScriptCause::UnknownKind)
}

/// A name that is posted and awaited. BadName where the word is none.
#[tactic(auto, unfolding(crate::specs::Checked::name_at))]
pub fn name_at(word: &[u8]) -> Result<Name, ScriptCause>
    ensures { result ≡ name_at word.now }
{
    name_of(word).ok_or(ScriptCause::BadName)
}
