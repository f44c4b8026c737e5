// What is said of all levels.
ghost use Rattle.std.specs.Prelude.{◌≡◌, ◌++◌, ◌∷◌, [], IfOk, List, OnOk};
ghost use Rattle.omid_check_top.specs.declared.levels.Grade.{Grade as GradeOf};
ghost use Rattle.omid_check_top.specs.declared.levels.Grade.TheVariants.{AtLevel, OfReads};
ghost use Rattle.omid_check_top.specs.Levels.{AreLevels, AreSaid, IsStatus, grade_words, level_word, line_of, status_words, wanted_word, with_orders};
ghost use Rattle.committed_reads.specs.Committed.{CommittedReads};
ghost use Rattle.list_ranks.specs.Told.{IsTold};
ghost use Rattle.omid_check_top.specs.Subject.{Subject, subject_of};
ghost use Rattle.omid_check_top.specs.Verdicts.{IsVerdict};

use crate::finding::{Finding, find, told_of};
use crate::made::Made;
use crate::status;
use committed_reads::judge_committed;
use list_ranks::{Told, dirty_list};
use stamp_base::NoMemory;
use std::alloc::Global;
use trace_index::Indexed;
use trace_reading::{Recording, push_words};
use trace_rules::{Level, Wanted};

/// What one line is of.
#[derive(Clone, Copy)]
pub enum Grade {
    /// A level, with the order that is asked for besides.
    AtLevel(Level, Wanted),
    /// Committed reads.
    OfReads,
}

/// A line for each level, first those that hold, the strongest first; the status is that of committed reads. NoMemory where memory
/// is refused.
#[tactic(auto, using(crate::proofs::LevelLemmas::reads_end))]
pub fn levels(alloc: Global, recording: &Recording, indexed: &Indexed) -> Result<Made, NoMemory>
    ensures found { IfOk result (λ made. AreLevels (subject_of recording.now indexed.now.attempts.items indexed.now.trace indexed.now.times.items indexed.now.ranks.items indexed.now.lists.items) made.code made.text.items) }
    ensures codes { IfOk result (λ made. IsVerdict made.code) }
{
    let told = told_of(alloc, recording, indexed)?;
    let mut holding = Vec::new(alloc);
    let mut others = Vec::new(alloc);
    add_orders(
        alloc,
        recording,
        indexed,
        &told,
        &mut holding,
        &mut others,
        Level::Serializable,
    )?;
    add_orders(
        alloc,
        recording,
        indexed,
        &told,
        &mut holding,
        &mut others,
        Level::Snapshot,
    )?;
    let code = reads_status(alloc, recording, indexed)?;
    add_line(&mut holding, &mut others, Grade::OfReads, code)?;
    holding.extend_from_slice(&others)?;
    Ok(Made {
        text: holding,
        code,
    })
}

/// Adds the lines of the level, with each order that may be asked for.
fn add_orders(
    alloc: Global,
    recording: &Recording,
    indexed: &Indexed,
    told: &Told,
    holding: &mut Vec<u8>,
    others: &mut Vec<u8>,
    level: Level,
) -> Result<(), NoMemory>
    requires { IsTold indexed.now.trace recording.now.listed indexed.now.lists.items indexed.now.ranks.items told.now }
    ensures { OnOk result ((grades : List GradeOf) → AreSaid (subject_of recording.now indexed.now.attempts.items indexed.now.trace indexed.now.times.items indexed.now.ranks.items indexed.now.lists.items) grades holding.old.items others.old.items →
        AreSaid (subject_of recording.now indexed.now.attempts.items indexed.now.trace indexed.now.times.items indexed.now.ranks.items indexed.now.lists.items) (grades ++ with_orders level) holding.new.items others.new.items) }
{
    add_level(
        alloc,
        recording,
        indexed,
        told,
        holding,
        others,
        level,
        Wanted::RealTime,
    )?;
    add_level(
        alloc,
        recording,
        indexed,
        told,
        holding,
        others,
        level,
        Wanted::Sessions,
    )?;
    add_level(
        alloc,
        recording,
        indexed,
        told,
        holding,
        others,
        level,
        Wanted::Nothing,
    )
}

fn add_level(
    alloc: Global,
    recording: &Recording,
    indexed: &Indexed,
    told: &Told,
    holding: &mut Vec<u8>,
    others: &mut Vec<u8>,
    level: Level,
    wanted: Wanted,
) -> Result<(), NoMemory>
    requires { IsTold indexed.now.trace recording.now.listed indexed.now.lists.items indexed.now.ranks.items told.now }
    ensures { OnOk result ((grades : List GradeOf) → AreSaid (subject_of recording.now indexed.now.attempts.items indexed.now.trace indexed.now.times.items indexed.now.ranks.items indexed.now.lists.items) grades holding.old.items others.old.items →
        AreSaid (subject_of recording.now indexed.now.attempts.items indexed.now.trace indexed.now.times.items indexed.now.ranks.items indexed.now.lists.items) (grades ++ AtLevel level wanted ∷ []) holding.new.items others.new.items) }
{
    let code = level_status(alloc, recording, indexed, told, level, wanted)?;
    add_line(holding, others, Grade::AtLevel(level, wanted), code)
}

#[tactic(auto, using(crate::proofs::LevelLemmas::level_fails, crate::proofs::LevelLemmas::level_list_fails, crate::proofs::LevelLemmas::level_is_open))]
fn level_status(
    alloc: Global,
    recording: &Recording,
    indexed: &Indexed,
    told: &Told,
    level: Level,
    wanted: Wanted,
) -> Result<u8, NoMemory>
    requires { IsTold indexed.now.trace recording.now.listed indexed.now.lists.items indexed.now.ranks.items told.now }
    ensures { IfOk result (λ code. IsStatus (AtLevel level wanted) (subject_of recording.now indexed.now.attempts.items indexed.now.trace indexed.now.times.items indexed.now.ranks.items indexed.now.lists.items) code) }
{
    match find(alloc, level, wanted, recording, indexed, told)? {
        Finding::Holds(_) => Ok(status::DONE),
        Finding::WrongRead(_) | Finding::WrongList(_) | Finding::Refused(_) => Ok(status::REFUSED),
        Finding::Undecided(_) => Ok(status::UNDECIDED),
    }
}

#[tactic(auto, using(crate::proofs::LevelLemmas::reads_fail))]
fn reads_status(alloc: Global, recording: &Recording, indexed: &Indexed) -> Result<u8, NoMemory>
    ensures { IfOk result (λ code. IsStatus OfReads (subject_of recording.now indexed.now.attempts.items indexed.now.trace indexed.now.times.items indexed.now.ranks.items indexed.now.lists.items) code) }
{
    match judge_committed(
        alloc,
        &indexed.trace.transactions,
        &indexed.trace.operations,
    )? {
        committed_reads::Verdict::Holds(_) => members_status(alloc, recording, indexed),
        committed_reads::Verdict::WrongRead(_) | committed_reads::Verdict::Refused(_) => {
            Ok(status::REFUSED)
        }
    }
}

/// The status of members of lists, where each read is of a committed transaction.
#[tactic(auto, using(crate::proofs::LevelLemmas::reads_hold, crate::proofs::LevelLemmas::members_fail))]
fn members_status(alloc: Global, recording: &Recording, indexed: &Indexed) -> Result<u8, NoMemory>
    requires { CommittedReads indexed.now.trace }
    ensures { IfOk result (λ code. IsStatus OfReads (subject_of recording.now indexed.now.attempts.items indexed.now.trace indexed.now.times.items indexed.now.ranks.items indexed.now.lists.items) code) }
{
    match dirty_list(alloc, &indexed.trace, recording.listed(), &indexed.lists)? {
        None => Ok(status::DONE),
        Some(_) => Ok(status::REFUSED),
    }
}

/// Adds the level's line, by its status.
fn add_line(
    holding: &mut Vec<u8>,
    others: &mut Vec<u8>,
    grade: Grade,
    code: u8,
) -> Result<(), NoMemory>
    ensures { OnOk result ((s : Subject) (grades : List GradeOf) → IsStatus grade s code → AreSaid s grades holding.old.items others.old.items →
        AreSaid s (grades ++ grade ∷ []) holding.new.items others.new.items) }
{
    if code == status::DONE {
        push_line(holding, grade, code)
    } else {
        push_line(others, grade, code)
    }
}

fn push_line(text: &mut Vec<u8>, grade: Grade, code: u8) -> Result<(), NoMemory>
    ensures { OnOk result (text.new.items ≡ text.old.items ++ line_of grade code) }
{
    push_grade(text, grade)?;
    push_words(text, status_words(code))
}

fn push_grade(text: &mut Vec<u8>, grade: Grade) -> Result<(), NoMemory>
    ensures { OnOk result (text.new.items ≡ text.old.items ++ grade_words grade) }
{
    match grade {
        Grade::AtLevel(level, wanted) => {
            push_words(text, level_word(level))?;
            push_words(text, wanted_word(wanted))
        }
        Grade::OfReads => push_words(text, "committed"),
    }
}

fn level_word(level: Level) -> &'static str
    ensures { result.now ≡ level_word level }
{
    match level {
        Level::Snapshot => "snapshot",
        Level::Serializable => "serializable",
    }
}

fn wanted_word(wanted: Wanted) -> &'static str
    ensures { result.now ≡ wanted_word wanted }
{
    match wanted {
        Wanted::Nothing => "",
        Wanted::Sessions => " session",
        Wanted::RealTime => " real-time",
    }
}

fn status_words(code: u8) -> &'static str
    ensures { result.now ≡ status_words code }
{
    if code == status::DONE {
        ": holds\n"
    } else if code == status::REFUSED {
        ": does not hold\n"
    } else {
        ": not decided\n"
    }
}
