// The same five on threads: a line that was served through to its answer ends with what it asked for, whatever turns of others
// came before, between and after.
ghost use Rattle.grant_laws.specs.Lines.{RunsGrantWrites, RunsGrantTakes, RunsGrantBegins, RunsGrantCommits, CommitLinesPlace, RunsGrantReads};
ghost use Rattle.grant_laws.specs.Laws.{ReadsOnThreadsAreShort};

use system_parts::recalled_reads_end;
use turn_rules::turns_are_planned_so_far;

/// A write line appends its write by its one turn, under the premises of a write line in file order.
pub fn runs_grant_writes()
    ensures { RunsGrantWrites }
{}

/// A take line appends its take by its one turn, under the premises of a take line in file order.
pub fn runs_grant_takes()
    ensures { RunsGrantTakes }
{}

/// A begin line whose request is asked, accepted, drawn and answered appends its begin, by the node that it names or, where it
/// names the master, the one at which its share is aimed: with the session free and a slot free at the ask, the lease standing at
/// the acceptance, a stamp left at the draw, and each commit drawn below it settled at the answer. An answer before that leaves it
/// waiting.
pub fn runs_grant_begins()
    ensures { RunsGrantBegins }
{}

/// A commit or submit line, to a node or to the master, whose request is asked, accepted and drawn appends its commit once it is
/// placed and answered, or, where sessions place their commits, handed over and placed: with the transaction open, written and not
/// reading and a slot free at the ask, the lease standing and the epoch below its start at the acceptance, the conflict memory free
/// of its keys and a stamp left at the draw, and the transaction unmarked and the table's next call working at the placing. A
/// session that is to place it must still wait when it is handed the commit, and its line must make the placing. What the
/// completion meets then takes nothing back.
pub fn runs_grant_commits()
    ensures { RunsGrantCommits }
{}

/// A commit line that has asked goes on with the placing of the commit that was handed to its session.
pub fn commit_lines_place()
    ensures { CommitLinesPlace }
{}

/// A read line appends its answer once its session has made as many own turns as three for each cell without a shadow down to the
/// first that decides by itself, where each call of the read works. These turns are at most 144 where the script plans at most 32
/// faults.
pub fn runs_grant_reads()
    ensures granted { RunsGrantReads }
    ensures short { ReadsOnThreadsAreShort }
{
    recalled_reads_end();
    turns_are_planned_so_far();
}
