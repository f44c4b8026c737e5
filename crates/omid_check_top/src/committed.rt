// What is said of whether reads are of committed transactions.
ghost use Rattle.std.specs.Prelude.{◌≡◌, ◌++◌, IfOk, OnOk, length};
ghost use Rattle.omid_check_top.specs.Verdicts.{IsCommitted, IsCommittedShown, IsVerdict, committed_text, not_committed_text, wrong_committed_text};
ghost use Rattle.omid_check_top.specs.Subject.{subject_of};
ghost use Rattle.committed_reads.specs.Committed.{CommittedReads};
ghost use Rattle.trace_report.specs.declared.wrong.Wrong.TheVariants.{Dirty};
ghost use Rattle.trace_report.specs.Verdict.{wrong_read_text};
ghost use Rattle.trace_report.specs.Wrongs.{wrong_name};

use crate::judged::reader_of;
use crate::made::Made;
use crate::status;
use crate::steps::steps_of;
use committed_reads::{Verdict, judge_committed};
use list_orders::Listing;
use list_ranks::dirty_list;
use rising_numbers::Edge;
use stamp_base::NoMemory;
use std::alloc::Global;
use trace_index::Indexed;
use trace_reading::{Recording, push_number, push_words};
use trace_report::{Wrong, name_of, push_cycle, push_wrong_read, wrong_at};
use trace_rules::{Level, Wanted};

/// Whether each read is of a committed transaction's last write, and none goes round. NoMemory where memory is refused.
#[tactic(auto, using(crate::proofs::MadeLemmas::is_wrong_committed, crate::proofs::MadeLemmas::is_committed_shown))]
pub fn committed(alloc: Global, recording: &Recording, indexed: &Indexed) -> Result<Made, NoMemory>
    ensures found { IfOk result (λ made. IsCommitted (subject_of recording.now indexed.now.attempts.items indexed.now.trace indexed.now.times.items indexed.now.ranks.items indexed.now.lists.items) made.code made.text.items) }
    ensures codes { IfOk result (λ made. IsVerdict made.code) }
{
    match judge_committed(
        alloc,
        &indexed.trace.transactions,
        &indexed.trace.operations,
    )? {
        Verdict::Holds(_) => members(alloc, recording, indexed),
        Verdict::WrongRead(place) => wrong_read(alloc, recording, indexed, place),
        Verdict::Refused(cycle) => refused(alloc, recording, indexed, &cycle),
    }
}

/// Whether each member of a list is of a committed transaction, where each read is.
#[tactic(auto, using(crate::proofs::MadeLemmas::is_committed))]
fn members(alloc: Global, recording: &Recording, indexed: &Indexed) -> Result<Made, NoMemory>
    requires { CommittedReads indexed.now.trace }
    ensures found { IfOk result (λ made. IsCommitted (subject_of recording.now indexed.now.attempts.items indexed.now.trace indexed.now.times.items indexed.now.ranks.items indexed.now.lists.items) made.code made.text.items) }
    ensures codes { IfOk result (λ made. IsVerdict made.code) }
{
    match dirty_list(alloc, &indexed.trace, recording.listed(), &indexed.lists)? {
        None => holds(alloc, indexed.trace.transactions.len()),
        Some(list) => dirty(alloc, recording, indexed, list),
    }
}

/// That a member of this list is of no committed transaction.
fn dirty(
    alloc: Global,
    recording: &Recording,
    indexed: &Indexed,
    list: Listing,
) -> Result<Made, NoMemory>
    ensures code { IfOk result (λ made. made.code ≡ 7) }
    ensures told { IfOk result (λ made. made.text.items ≡ not_committed_text (wrong_name Dirty) ++ wrong_read_text recording.now.names indexed.now.attempts.items list.txn list.key) }
{
    let mut text = Vec::new(alloc);
    push_not_committed(&mut text, Wrong::Dirty.name())?;
    push_wrong_read(&mut text, recording, &indexed.attempts, list.txn, list.key)?;
    Ok(Made {
        text,
        code: status::REFUSED,
    })
}

fn holds(alloc: Global, transactions: usize) -> Result<Made, NoMemory>
    ensures code { IfOk result (λ made. made.code ≡ 0) }
    ensures told { IfOk result (λ made. made.text.items ≡ committed_text transactions) }
{
    let mut text = Vec::new(alloc);
    push_words(&mut text, "committed reads transactions=")?;
    push_number(&mut text, transactions as u64)?;
    push_words(&mut text, "\n")?;
    Ok(Made {
        text,
        code: status::DONE,
    })
}

fn push_not_committed(text: &mut Vec<u8>, name: &str) -> Result<(), NoMemory>
    ensures { OnOk result (text.new.items ≡ text.old.items ++ not_committed_text name.now) }
{
    push_words(text, "not committed reads: ")?;
    push_words(text, name)?;
    push_words(text, "\n")
}

/// That the read at this place is wrong.
fn wrong_read(
    alloc: Global,
    recording: &Recording,
    indexed: &Indexed,
    place: usize,
) -> Result<Made, NoMemory>
    ensures code { IfOk result (λ made. made.code ≡ 7) }
    ensures told { IfOk result (λ made. made.text.items ≡ wrong_committed_text (subject_of recording.now indexed.now.attempts.items indexed.now.trace indexed.now.times.items indexed.now.ranks.items indexed.now.lists.items) place) }
{
    let mut text = Vec::new(alloc);
    push_not_committed(&mut text, wrong_at(&indexed.trace, place).name())?;
    let (txn, key) = reader_of(indexed.trace.operations.get(place));
    push_wrong_read(&mut text, recording, &indexed.attempts, txn, key)?;
    Ok(Made {
        text,
        code: status::REFUSED,
    })
}

/// That reads go round.
#[tactic(auto, using(crate::proofs::MadeLemmas::shows_committed))]
fn refused(
    alloc: Global,
    recording: &Recording,
    indexed: &Indexed,
    cycle: &[Edge],
) -> Result<Made, NoMemory>
    ensures code { IfOk result (λ made. made.code ≡ 7) }
    ensures told { IfOk result (λ made. IsCommittedShown (subject_of recording.now indexed.now.attempts.items indexed.now.trace indexed.now.times.items indexed.now.ranks.items indexed.now.lists.items) made.text.items) }
{
    let steps = steps_of(
        alloc,
        Level::Serializable,
        Wanted::Nothing,
        &indexed.trace,
        cycle,
    )?;
    let mut text = Vec::new(alloc);
    push_not_committed(&mut text, name_of(&steps).name())?;
    push_cycle(&mut text, recording, &indexed.attempts, &steps)?;
    Ok(Made {
        text,
        code: status::REFUSED,
    })
}
