// Cursors behind which no line is left.
ghost use Rattle.std.specs.Prelude.{◌≡◌, ◌↔◌, IsTrue, slice_get, None};
ghost use Rattle.session_script.specs.Script.{data_of};
ghost use Rattle.turn_rules.specs.Seats.{lines_of};
ghost use Rattle.thread_scripts.specs.Actors.{AreAtTheirEnds};

use session_script::Script;
use thread_steps::Cursor;

/// Whether no actor has a line behind its cursor.
pub fn are_at_their_ends(script: &Script, cursors: &[Cursor]) -> bool
    ensures { IsTrue result ↔ AreAtTheirEnds (data_of script.now) cursors.now }
{
    cursors.iter().all(|cursor| has_ended(script, cursor))
}

fn has_ended(script: &Script, cursor: &Cursor) -> bool
    ensures { IsTrue result ↔ (slice_get (lines_of (data_of script.now) cursor.now.actor) cursor.now.done ≡ None) }
{
    let own = script
        .lines
        .iter()
        .filter(|line| line.actor == cursor.actor);
    own.count() as u64 <= cursor.done
}
