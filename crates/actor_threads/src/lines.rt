ghost use Rattle.std.specs.Prelude.{◌≡◌, ◌+◌, ◌∷◌, true, false, Some, MatchOption, drop, option_map, slice_get};
ghost use Rattle.script_data.specs.declared.line.Line.{Line as ScriptLine};
ghost use Rattle.actor_threads.specs.Lines.{own, own_left};
ghost use Rattle.actor_threads.specs.Waking.{awaits_any};

use crate::marked::MarkedLines;
use history_book::Actor;
use script_data::{Line, Verb};

/// The lines of an actor that are not done, among those of others.
#[derive(Drop)]
pub struct LinesLeft<'a> {
    /// The actor.
    pub actor: Actor,
    lines: &'a MarkedLines<'a>,
    // They stand from this place on.
    from: usize,
}

impl<'a> LinesLeft<'a> {
    /// The actor's lines behind the first so many of them.
    pub fn after(actor: Actor, lines: &'a MarkedLines<'a>, done: u64) -> LinesLeft<'a>
        ensures actor { result.actor ≡ actor }
        ensures lines { result.lines.now ≡ lines.now }
        ensures rest { own_left result ≡ drop done (own actor lines.now) }
    {
        let mut left = LinesLeft {
            actor,
            lines,
            from: 0,
        };
        left.skip_others();
        for _line in 0..done {
            let _done = left.next();
        }
        left
    }

    /// The next of them.
    pub fn present(&self) -> Option<Line>
        ensures { result ≡ slice_get (own_left self.now) 0 }
    {
        let place = self.lines.first_of(self.actor, self.from);
        Some(*self.lines.as_slice().get(place)?)
    }

    /// The place of the next of them among all lines, where that awaits a name.
    pub fn awaited(&self) -> Option<usize>
        ensures { MatchOption result (awaits_any (slice_get (own_left self.now) 0) ≡ false) (λ place. (slice_get self.now.lines.now place ≡ slice_get (own_left self.now) 0) × (awaits_any (slice_get (own_left self.now) 0) ≡ true)) }
    {
        let place = self.lines.first_of(self.actor, self.from);
        match self.lines.as_slice().get(place)?.verb {
            Verb::Await { .. } => Some(place),
            _ => None,
        }
    }

    /// What the next of them asks for. It is done from now on.
    pub fn next(&mut self) -> Option<Verb>
        ensures actor { self.new.actor ≡ self.old.actor }
        ensures lines { self.new.lines.now ≡ self.old.lines.now }
        ensures next { result ≡ option_map (λ line. line.verb) (slice_get (own_left self.old) 0) }
        ensures rest { own_left self.new ≡ drop 1 (own_left self.old) }
    {
        let place = self.lines.first_of(self.actor, self.from);
        let verb = self.lines.as_slice().get(place)?.verb;
        self.from = place + 1;
        self.skip_others();
        Some(verb)
    }

    // Those of others before the next are not looked at again.
    fn skip_others(&mut self)
        ensures actor { self.new.actor ≡ self.old.actor }
        ensures lines { self.new.lines.now ≡ self.old.lines.now }
        ensures rest { own_left self.new ≡ own_left self.old }
    {
        self.from = self.lines.first_of(self.actor, self.from);
    }
}
