// What is asked for by the lines of a script that is carried out by turns is granted, whatever turns came before.
ghost use Rattle.grant_laws.specs.Turns.{WritesAreCarried, TakesAreCarried, ServedTurnsAreGranted, PlacingsAreCarried, ExtensionsAreCarried, RequestsStay, ReadsAreCarried};

use system_parts::recalled_reads_end;
use turn_rules::turns_keep_facts;

/// An own turn that makes a write appends it, under the premises of a write line.
pub fn writes_are_carried()
    ensures { WritesAreCarried }
{}

/// An own turn that takes the record appends the take, under the premises of a take line.
pub fn takes_are_carried()
    ensures { TakesAreCarried }
{
    turns_keep_facts();
}

/// Each turn that serves a request grants it, under its premises when the turn is made: the acceptance where the lease stands
/// and a commit began above the epoch; the draw where the conflict memory is free of the keys and a stamp is left; the placing
/// where nobody has marked the transaction and the commit table's next call works; and the answers, which append the commit
/// that was placed, and the begin below which each drawn commit is settled, and hand the commit that its session is to place to
/// a session that waits for it. So a request that was served through to its answer under these premises ends with what it
/// asked for, or with a commit to place.
pub fn served_turns_are_granted()
    ensures { ServedTurnsAreGranted }
{
    turns_keep_facts();
}

/// An own turn that places a commit which was handed to its session appends the placing and the commit, where nobody has marked
/// the transaction and the commit table's next call works.
pub fn placings_are_carried()
    ensures { PlacingsAreCarried }
{}

/// A turn that extends the range of the record's own instance appends the extension, where the record has stamps for it and its
/// next call works.
pub fn extensions_are_carried()
    ensures { ExtensionsAreCarried }
{
    turns_keep_facts();
}

/// Between the turns that serve it a request stays as far as it has come: every turn leaves it so that does not serve that request,
/// ask for its session at its node, or crash its node.
pub fn requests_stay()
    ensures { RequestsStay }
{}

/// An own turn that makes a step of a read appends the answer or leaves fewer steps, where its call works; and so does the fetch
/// that begins it, which leaves at most three for each cell. So a read whose calls work ends with its answer.
pub fn reads_are_carried()
    ensures { ReadsAreCarried }
{
    recalled_reads_end();
}
