// The lines of a script that is being made.
ghost use Rattle.std.specs.Prelude.{◌≡◌, ◌+◌, ◌≤◌, ◌<◌, [], ◌∷◌, All, OnOk, length};
ghost use Rattle.script_data.specs.Sound.{actor_needs, LineIsSound, VerbIsSound};
ghost use Rattle.replay_driver.specs.Drafts.{Adds};

use history_book::Actor;
use session_script::{Line, Verb};
use stamp_base::{LINE_LIMIT, NoMemory};
use std::alloc::Global;

/// Lines for a script of two nodes, numbered from 1.
#[derive(Drop)]
pub struct Draft {
    /// The lines so far.
    pub lines: Vec<Line>,
    ghost sound: { All (LineIsSound 2) lines.items },
}

impl Draft {
    ghost use Rattle.stamp_base.specs.declared.limits.TheConstants.{LINE_LIMIT};

    /// No line.
    pub fn new(alloc: Global) -> Draft
        ensures { result.lines.items ≡ [] }
    {
        Draft {
            lines: Vec::new(alloc),
        }
    }

    /// Adds a line: the actor is to do this. NoMemory where memory is refused.
    #[tactic(auto, unfolding(crate::specs::Storm::lines_from))]
    pub fn add(&mut self, actor: Actor, verb: Verb) -> Result<(), NoMemory>
        requires room { length self.old.lines.items < LINE_LIMIT }
        requires actor { actor_needs actor ≤ 2 }
        requires verb { VerbIsSound 2 verb }
        ensures lines { OnOk result (Adds self.old.lines.items self.new.lines.items ((actor, verb) ∷ [])) }
        ensures len { OnOk result (length self.new.lines.items ≡ length self.old.lines.items + 1) }
    {
        let number = self.lines.len() as u64 + 1;
        self.lines.extend_from_slice(&[Line {
            number,
            actor,
            verb,
        }])?;
        Ok(())
    }
}
