// What was read of a script so far.
ghost use Rattle.std.specs.Prelude.{◌≡◌, ◌+◌, ◌<◌, ◌≤◌, false, None, IfOk, OnOk, length};
ghost use Rattle.std.specs.List.{list_any};
ghost use Rattle.stamp_base.specs.declared.limits.TheConstants.{LINE_LIMIT};
ghost use Rattle.script_data.specs.Data.{AreWithinSkew};
ghost use Rattle.session_script.specs.Settings.{is_lead, AreSet};

use crate::cause::ScriptCause;
use crate::posted::PostedNames;
use crate::script::Script;
use crate::setting::{Setting, any_lead, any_same};
use script_data::{FAULT_LIMIT, Line, Verb};
use stamp_base::{LINE_LIMIT, Setup};
use std::alloc::{AllocError, Global};
use std::slice;

/// What the lines read so far set and give.
#[derive(Drop)]
pub struct ReadSoFar {
    alloc: Global,
    /// How many lines were neither empty nor comments.
    pub counted: usize,
    /// What the setup lines set, in their order.
    pub settings: Vec<Setting>,
    /// The names that were posted.
    pub posted: PostedNames,
    /// The script so far.
    pub script: Script,
    ghost few: { length script.lines.items ≤ counted },
    ghost limited: { counted ≤ LINE_LIMIT },
    ghost no_leads: { list_any is_lead settings.items ≡ false → AreWithinSkew 0 script.leads.items },
    ghost set_faults: { AreSet settings.items script.faults.items },
}

impl ReadSoFar {
    ghost use Rattle.stamp_base.specs.Setups.{numbers_of};
    ghost use Rattle.script_data.specs.Sound.{LineIsSound};
    ghost use Rattle.session_script.specs.Reading.{so_far};
    ghost use Rattle.session_script.specs.Script.{nothing_read, after_setting, after_telling, data_of};
    ghost use Rattle.session_script.specs.Names.{name_objection};
    ghost use Rattle.session_script.specs.Settings.{objection, comes_late, IsInBounds};

    /// What holds before the first line. AllocError where memory is refused.
    pub fn start(alloc: Global) -> Result<ReadSoFar, AllocError>
        ensures { IfOk result (λ reading. so_far reading ≡ nothing_read) }
    {
        let leads = vec![in alloc; 0, 0]?;
        Ok(ReadSoFar {
            alloc,
            counted: 0,
            settings: Vec::new(alloc),
            posted: PostedNames::new(alloc),
            script: Script {
                setup: Setup::default(),
                leads,
                faults: Vec::new(alloc),
                lines: Vec::new(alloc),
            },
        })
    }

    /// Why the setting cannot stand behind what was read.
    #[tactic(auto, unfolding(crate::specs::Settings::objection))]
    pub fn objection(&self, setting: &Setting) -> Option<ScriptCause>
        ensures { result ≡ objection self.now.settings.items (data_of self.now.script) setting.now }
    {
        if self.comes_late(setting) {
            Some(ScriptCause::SetupOrder)
        } else if any_same(&self.settings, setting) {
            Some(ScriptCause::SetupTwice)
        } else if setting.is_fault() && self.script.faults.len() >= FAULT_LIMIT {
            Some(ScriptCause::TooManyFaults)
        } else {
            None
        }
    }

    #[tactic(auto, unfolding(crate::specs::Settings::comes_late))]
    fn comes_late(&self, setting: &Setting) -> bool
        ensures { result ≡ comes_late self.now.settings.items (data_of self.now.script) setting.now }
    {
        !self.script.lines.is_empty() || (setting.bounds_leads() && any_lead(&self.settings))
    }

    /// Adds a setup line that counts. AllocError where memory is refused.
    pub fn set(&mut self, setting: Setting) -> Result<(), AllocError>
        requires room { self.old.counted < LINE_LIMIT }
        requires bounds { IsInBounds (numbers_of self.old.script.setup) setting }
        requires fits { objection self.old.settings.items (data_of self.old.script) setting ≡ None }
        ensures { OnOk result (so_far self.new ≡ after_setting (so_far self.old) setting) }
    {
        self.settings.extend_from_slice(&[setting])?;
        self.script.set(self.alloc, &setting)?;
        self.counted += 1;
        Ok(())
    }

    /// Why a line with the verb cannot stand behind what was read: its name was posted, or was not.
    pub fn name_objection(&self, verb: &Verb) -> Option<ScriptCause>
        ensures { result ≡ name_objection self.now.posted verb.now }
    {
        match verb {
            Verb::Post { name } => {
                if self.posted.contains(name) {
                    Some(ScriptCause::PostedTwice)
                } else {
                    None
                }
            }
            Verb::Await { name } => {
                if self.posted.contains(name) {
                    None
                } else {
                    Some(ScriptCause::NameNotPosted)
                }
            }
            _ => None,
        }
    }

    /// Adds an actor's line, which counts. AllocError where memory is refused.
    pub fn tell(&mut self, line: &Line) -> Result<(), AllocError>
        requires room { self.old.counted < LINE_LIMIT }
        requires sound { LineIsSound self.old.script.setup.nodes line.now }
        requires fits { name_objection self.old.posted line.now.verb ≡ None }
        ensures { OnOk result (so_far self.new ≡ after_telling (so_far self.old) line.now) }
    {
        self.posted.note(self.alloc, &line.verb)?;
        self.script.lines.extend_from_slice(slice::from_ref(line))?;
        self.counted += 1;
        Ok(())
    }
}
