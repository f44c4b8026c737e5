// What setup lines set.
ghost use Rattle.std.specs.Prelude.{◌≡◌, IfOk};
ghost use Rattle.std.specs.List.{list_any};
ghost use Rattle.stamp_base.specs.Setups.{numbers_of};
ghost use Rattle.session_script.specs.Settings.{arguments_of, setting_of, IsInBounds, with_number, same_number, same_flag, sets_same, is_lead, bounds_leads, is_fault};
ghost use Rattle.session_script.specs.Words.{seen};

use crate::cause::ScriptCause;
use crate::checked::{flag_at, kind_at, node_at, number_at, setup_number_at, store_at};
use crate::form::SetupForm;
use crate::words::Words;
use port_io::Fate;
use stamp_base::{NodeNo, Setup, SetupFlag, SetupNumber, Store};

/// What a setup line sets.
#[derive(Clone, Copy, Debug, PartialEq, Eq)]
pub enum Setting {
    /// A number of the setup.
    Number {
        number: SetupNumber,
        value: u64,
    },
    /// Something is turned on.
    Flag(SetupFlag),
    /// How many buckets there are, and how many keys each keeps.
    Buckets {
        buckets: u64,
        width: u64,
    },
    /// By how many ticks the node's clock is ahead of the base clock.
    Lead {
        node: NodeNo,
        lead: u64,
    },
    /// The fate of the store's call of this number, from 1.
    Fault {
        store: Store,
        number: u64,
        fate: Fate,
    },
}

impl Setting {
    /// Whether the two set the same. A lead is set for each node, and a fault for each call on a store.
    pub fn sets_same(&self, other: &Setting) -> bool
        ensures { result ≡ sets_same self.now other.now }
    {
        match (self, other) {
            (Setting::Number { number, .. }, Setting::Number { number: other, .. }) => {
                is_same_number(*number, *other)
            }
            (Setting::Flag(flag), Setting::Flag(other)) => is_same_flag(*flag, *other),
            (Setting::Buckets { .. }, Setting::Buckets { .. }) => true,
            (Setting::Lead { node, .. }, Setting::Lead { node: other, .. }) => node == other,
            (
                Setting::Fault { store, number, .. },
                Setting::Fault {
                    store: other,
                    number: another,
                    ..
                },
            ) => { store == other && number == another }
            _ => false,
        }
    }

    /// Whether it sets a node's lead.
    pub fn is_lead(&self) -> bool
        ensures { result ≡ is_lead self.now }
    {
        matches!(self, Setting::Lead { .. })
    }

    /// Whether it bounds the leads: which nodes have one, and how great it may be.
    pub fn bounds_leads(&self) -> bool
        ensures { result ≡ bounds_leads self.now }
    {
        matches!(
            self,
            Setting::Number {
                number: SetupNumber::Nodes | SetupNumber::Skew,
                ..
            }
        )
    }

    /// Whether it plans a fault.
    pub fn is_fault(&self) -> bool
        ensures { result ≡ is_fault self.now }
    {
        matches!(self, Setting::Fault { .. })
    }

    /// Sets what it sets of the setup. Leads and faults are no part of it.
    pub fn apply_to(&self, setup: &mut Setup)
        requires { IsInBounds (numbers_of setup.old) self.now }
        ensures { numbers_of setup.new ≡ with_number (numbers_of setup.old) self.now }
    {
        match self {
            Setting::Number { number, value } => setup.set_number(*number, *value),
            Setting::Flag(flag) => setup.turn_on(*flag),
            Setting::Buckets { buckets, width } => {
                setup.set_number(SetupNumber::Buckets, *buckets);
                setup.set_number(SetupNumber::Width, *width);
            }
            Setting::Lead { .. } | Setting::Fault { .. } => {}
        }
    }
}

fn is_same_number(number: SetupNumber, other: SetupNumber) -> bool
    ensures { result ≡ same_number number other }
{
    number == other
}

fn is_same_flag(flag: SetupFlag, other: SetupFlag) -> bool
    ensures { result ≡ same_flag flag other }
{
    flag == other
}

/// Whether any of the settings is a lead.
pub fn any_lead(settings: &[Setting]) -> bool
    ensures { result ≡ list_any is_lead settings.now }
{
    settings.iter().any(|setting| setting.is_lead())
}

/// Whether any of the settings sets what this one does.
pub fn any_same(settings: &[Setting], setting: &Setting) -> bool
    ensures { result ≡ list_any (sets_same setting.now) settings.now }
{
    settings.iter().any(|other| setting.sets_same(other))
}

/// What a setup line says. The first cause against it: WrongNumberOfWords, ReplayOnly, or that of its first bad argument.
#[tactic(auto, unfolding(crate::specs::Settings::setting_of))]
pub fn setting_of(setup: &Setup, form: SetupForm, words: &Words) -> Result<Setting, ScriptCause>
    ensures setting { result ≡ setting_of (numbers_of setup.now) form (seen words.now) }
    ensures bounds { IfOk result (IsInBounds (numbers_of setup.now)) }
{
    if words.count != form.words() {
        Err(ScriptCause::WrongNumberOfWords)
    } else {
        arguments_of(setup, form, words)
    }
}

/// The arguments of a setup line, from left to right.
fn arguments_of(setup: &Setup, form: SetupForm, words: &Words) -> Result<Setting, ScriptCause>
    ensures setting { result ≡ arguments_of (numbers_of setup.now) form (seen words.now) }
    ensures bounds { IfOk result (IsInBounds (numbers_of setup.now)) }
{
    match form {
        SetupForm::Number(number) => Ok(Setting::Number {
            number,
            value: setup_number_at(number, words.second)?,
        }),
        SetupForm::Flag(flag) => Ok(Setting::Flag(flag_at(flag, words.second)?)),
        SetupForm::Buckets => Ok(Setting::Buckets {
            buckets: setup_number_at(SetupNumber::Buckets, words.second)?,
            width: setup_number_at(SetupNumber::Width, words.third)?,
        }),
        SetupForm::Lead => Ok(Setting::Lead {
            node: node_at(setup, words.second)?,
            lead: number_at(0, setup.skew, words.third)?,
        }),
        SetupForm::Fault => Ok(Setting::Fault {
            store: store_at(words.second)?,
            number: number_at(1, 1_000_000, words.third)?,
            fate: kind_at(words.fourth)?,
        }),
    }
}
