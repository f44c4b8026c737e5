// What is said of a trace whose writers are known.
ghost use Rattle.std.specs.Prelude.{◌≡◌, ◌++◌, IfOk, length, option_map};
ghost use Rattle.trace_index.specs.Numbers.{AreDone};
ghost use Rattle.trace_report.specs.Lists.{flaw_name, wrong_list_text};
ghost use Rattle.trace_report.specs.Verdict.{holds_text, refused_text};
ghost use Rattle.omid_check_top.specs.Verdicts.{IsFound, IsIsolated, IsShown, IsVerdict, open_text, reader_of, wrong_text};
ghost use Rattle.omid_check_top.specs.Subject.{subject_of};

use crate::committed::committed;
use crate::finding::{Finding, find, told_of};
use crate::levels::levels;
use crate::made::Made;
use crate::stamps::stamps;
use crate::status;
use crate::steps::steps_of;
use crate::words::Question;
use list_ranks::WrongList;
use rising_numbers::Edge;
use stamp_base::NoMemory;
use std::alloc::Global;
use trace_index::Indexed;
use trace_reading::{Recording, push_words};
use trace_report::{
    flaw_name, name_of, push_cycle, push_holds, push_refused, push_undecided, push_wrong_list,
    push_wrong_read, wrong_at,
};
use trace_rules::{Level, Operation, Wanted};

/// What is said of the trace. NoMemory where memory is refused.
pub fn judged(
    alloc: Global,
    question: Question,
    recording: &Recording,
    indexed: &Indexed,
) -> Result<Made, NoMemory>
    requires { AreDone indexed.now.trace.transactions indexed.now.ranks.items }
    ensures found { IfOk result (λ made. IsFound question (subject_of recording.now indexed.now.attempts.items indexed.now.trace indexed.now.times.items indexed.now.ranks.items indexed.now.lists.items) made.code made.text.items) }
    ensures codes { IfOk result (λ made. IsVerdict made.code) }
{
    match question {
        Question::Isolated { level, wanted } => isolated(alloc, level, wanted, recording, indexed),
        Question::Committed => committed(alloc, recording, indexed),
        Question::Levels => levels(alloc, recording, indexed),
        Question::Stamps { level, wanted } => stamps(alloc, level, wanted, recording, indexed),
    }
}

/// Whether the trace is so at the level, in the order that is asked for besides.
#[tactic(auto, using(crate::proofs::MadeLemmas::is_wrong, crate::proofs::MadeLemmas::is_shown, crate::proofs::MadeLemmas::is_open, crate::proofs::MadeLemmas::is_wrong_list))]
fn isolated(
    alloc: Global,
    level: Level,
    wanted: Wanted,
    recording: &Recording,
    indexed: &Indexed,
) -> Result<Made, NoMemory>
    ensures found { IfOk result (λ made. IsIsolated level wanted (subject_of recording.now indexed.now.attempts.items indexed.now.trace indexed.now.times.items indexed.now.ranks.items indexed.now.lists.items) made.code made.text.items) }
    ensures codes { IfOk result (λ made. IsVerdict made.code) }
{
    let told = told_of(alloc, recording, indexed)?;
    match find(alloc, level, wanted, recording, indexed, &told)? {
        Finding::Holds(_) => holds(alloc, level, wanted, indexed.trace.transactions.len()),
        Finding::WrongRead(place) => wrong_read(alloc, level, wanted, recording, indexed, place),
        Finding::WrongList(wrong) => wrong_list(alloc, level, wanted, recording, indexed, wrong),
        Finding::Refused(cycle) => refused(alloc, level, wanted, recording, indexed, &cycle),
        Finding::Undecided(key) => undecided(alloc, recording, key),
    }
}

/// That there are stamps for so many transactions.
fn holds(alloc: Global, level: Level, wanted: Wanted, transactions: usize) -> Result<Made, NoMemory>
    ensures code { IfOk result (λ made. made.code ≡ 0) }
    ensures told { IfOk result (λ made. made.text.items ≡ holds_text level wanted transactions) }
{
    let mut text = Vec::new(alloc);
    push_holds(&mut text, level, wanted, transactions)?;
    Ok(Made {
        text,
        code: status::DONE,
    })
}

/// That the read at this place is wrong. NoMemory where memory is refused.
pub fn wrong_read(
    alloc: Global,
    level: Level,
    wanted: Wanted,
    recording: &Recording,
    indexed: &Indexed,
    place: usize,
) -> Result<Made, NoMemory>
    ensures code { IfOk result (λ made. made.code ≡ 7) }
    ensures told { IfOk result (λ made. made.text.items ≡ wrong_text level wanted (subject_of recording.now indexed.now.attempts.items indexed.now.trace indexed.now.times.items indexed.now.ranks.items indexed.now.lists.items) place) }
{
    let mut text = Vec::new(alloc);
    push_refused(
        &mut text,
        level,
        wanted,
        wrong_at(&indexed.trace, place).name(),
    )?;
    let (txn, key) = reader_of(indexed.trace.operations.get(place));
    push_wrong_read(&mut text, recording, &indexed.attempts, txn, key)?;
    Ok(Made {
        text,
        code: status::REFUSED,
    })
}

/// That no stamps give this list. NoMemory where memory is refused.
pub fn wrong_list(
    alloc: Global,
    level: Level,
    wanted: Wanted,
    recording: &Recording,
    indexed: &Indexed,
    wrong: WrongList,
) -> Result<Made, NoMemory>
    ensures code { IfOk result (λ made. made.code ≡ 7) }
    ensures told { IfOk result (λ made. made.text.items ≡ refused_text level wanted (flaw_name wrong.flaw) ++ wrong_list_text recording.now.names indexed.now.attempts.items wrong) }
{
    let mut text = Vec::new(alloc);
    push_refused(&mut text, level, wanted, flaw_name(wrong.flaw))?;
    push_wrong_list(&mut text, recording, &indexed.attempts, wrong)?;
    Ok(Made {
        text,
        code: status::REFUSED,
    })
}

/// The transaction and the key of the operation. Two zeros where there is none.
pub fn reader_of(operation: Option<&Operation>) -> (usize, u64)
    ensures { (result.0, result.1) ≡ reader_of (option_map (λ o. o.now) operation.entry) }
{
    match operation {
        Some(Operation::Read { txn, key, .. } | Operation::Write { txn, key, .. }) => (*txn, *key),
        None => (0, 0),
    }
}

/// That a cycle of edges refuses the trace, with its steps. NoMemory where memory is refused.
#[tactic(auto, using(crate::proofs::MadeLemmas::shows))]
pub fn refused(
    alloc: Global,
    level: Level,
    wanted: Wanted,
    recording: &Recording,
    indexed: &Indexed,
    cycle: &[Edge],
) -> Result<Made, NoMemory>
    ensures code { IfOk result (λ made. made.code ≡ 7) }
    ensures told { IfOk result (λ made. IsShown level wanted (subject_of recording.now indexed.now.attempts.items indexed.now.trace indexed.now.times.items indexed.now.ranks.items indexed.now.lists.items) made.text.items) }
{
    let steps = steps_of(alloc, level, wanted, &indexed.trace, cycle)?;
    let mut text = Vec::new(alloc);
    push_refused(&mut text, level, wanted, name_of(&steps).name())?;
    push_cycle(&mut text, recording, &indexed.attempts, &steps)?;
    Ok(Made {
        text,
        code: status::REFUSED,
    })
}

/// That nothing decides, and of which key. NoMemory where memory is refused.
pub fn undecided(alloc: Global, recording: &Recording, key: Option<u64>) -> Result<Made, NoMemory>
    ensures code { IfOk result (λ made. made.code ≡ 8) }
    ensures told { IfOk result (λ made. made.text.items ≡ open_text recording.now.names key) }
{
    let mut text = Vec::new(alloc);
    match key {
        Some(key) => push_undecided(&mut text, recording, key)?,
        None => push_words(
            &mut text,
            "not decided: nothing forces the order of some writers of a key\n",
        )?,
    }
    Ok(Made {
        text,
        code: status::UNDECIDED,
    })
}
