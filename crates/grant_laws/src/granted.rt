// What is asked for by a line of a script that is carried out in file order is granted.
ghost use Rattle.grant_laws.specs.Laws.{WritesAreGranted, TakesAreGranted, BeginsAreGranted, DirectBeginsNeverWait, CommitsAreGranted, ReadsAreGranted, ReadsAreShort};

use command_semantics::{events_lower_what_is_left, scripts_are_planned};
use system_parts::recalled_reads_end;

/// A write line of an open transaction appends its write, in whatever state the lines before it have come to: all that is asked
/// for is that no read is under way, that the key is written already or there is room for it, and that the cells' next call
/// works.
pub fn writes_are_granted()
    ensures { WritesAreGranted }
{}

/// A take line of a node without an instance appends its take, where the record is free or its lease has ended by every clock,
/// there are stamps for one range more, and the record's next call works.
pub fn takes_are_granted()
    ensures { TakesAreGranted }
{
    events_lower_what_is_left();
}

/// A begin line of a free session appends its begin, by the next stamp of the instance of the node that it asks, which it names or
/// which took the record last where it names the master: where that instance is the one of the record's term with a slot free and
/// its lease standing, it has a stamp at hand or can get a further range, and it keeps no refusal of the record. Where the instance
/// has drawn a commit that is not settled the session is told to wait, by the least of these.
pub fn begins_are_granted()
    ensures { BeginsAreGranted }
{
    events_lower_what_is_left();
}

/// Where sessions place their commits no begin waits: no instance has a commit in its way, whatever came before, in file order and
/// on threads.
pub fn direct_begins_never_wait()
    ensures { DirectBeginsNeverWait }
{
    events_lower_what_is_left();
}

/// A commit line of an open transaction that has written appends its commit, by the next stamp of the instance of the node that it
/// asks, named or the master, whatever came before, faults and takeovers included: where no read is under way, the instance is the
/// one of the record's term with a slot free and its lease standing, the transaction began above its epoch, the conflict memory is
/// free of its keys, the instance has a stamp at hand or can get a further range and keeps no refusal, nobody has marked the
/// transaction, and the commit table's next call works. What the completion meets then takes nothing back.
pub fn commits_are_granted()
    ensures { CommitsAreGranted }
{
    events_lower_what_is_left();
}

/// A read line of an open transaction appends its answer, where no other read is under way and no store call of it fails: the
/// fetch, and at most three steps for each cell without a shadow down to the first that decides by itself. These steps are at most
/// 144 where the script plans at most 32 faults, as one that was read does.
pub fn reads_are_granted()
    ensures granted { ReadsAreGranted }
    ensures short { ReadsAreShort }
{
    events_lower_what_is_left();
    recalled_reads_end();
    scripts_are_planned();
}
