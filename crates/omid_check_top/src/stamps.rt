// The history of a trace with stamps, in place of a verdict.
ghost use Rattle.std.specs.Prelude.{◌≡◌, IfOk};
ghost use Rattle.trace_index.specs.Numbers.{AreDone};
ghost use Rattle.omid_check_top.specs.Verdicts.{AreStamped, IsPrinted, IsVerdict, limit_text};
ghost use Rattle.omid_check_top.specs.Findings.{HasNumbers};
ghost use Rattle.omid_check_top.specs.Subject.{subject_of};

use crate::finding::{Finding, find, told_of};
use crate::judged::{refused, undecided, wrong_list, wrong_read};
use crate::made::Made;
use crate::status;
use stamp_base::NoMemory;
use stamped_history::{Limit, NoHistory, history_of, text_of};
use std::alloc::Global;
use trace_index::Indexed;
use trace_reading::{Recording, push_words};
use trace_rules::{Level, Wanted};

/// The history of the trace with stamps at the level, in the order that is asked for besides; or which limit of histories is not
/// met, or why there are none. NoMemory where memory is refused.
#[tactic(auto, using(crate::proofs::StampLemmas::not_stamped, crate::proofs::StampLemmas::wrong_not_stamped, crate::proofs::StampLemmas::open_not_stamped, crate::proofs::StampLemmas::list_not_stamped))]
pub fn stamps(
    alloc: Global,
    level: Level,
    wanted: Wanted,
    recording: &Recording,
    indexed: &Indexed,
) -> Result<Made, NoMemory>
    requires { AreDone indexed.now.trace.transactions indexed.now.ranks.items }
    ensures found { IfOk result (λ made. AreStamped level wanted (subject_of recording.now indexed.now.attempts.items indexed.now.trace indexed.now.times.items indexed.now.ranks.items indexed.now.lists.items) made.code made.text.items) }
    ensures codes { IfOk result (λ made. IsVerdict made.code) }
{
    let told = told_of(alloc, recording, indexed)?;
    match find(alloc, level, wanted, recording, indexed, &told)? {
        Finding::Holds(numbers) => shown(alloc, level, wanted, recording, indexed, &numbers),
        Finding::WrongRead(place) => wrong_read(alloc, level, wanted, recording, indexed, place),
        Finding::WrongList(wrong) => wrong_list(alloc, level, wanted, recording, indexed, wrong),
        Finding::Refused(cycle) => refused(alloc, level, wanted, recording, indexed, &cycle),
        Finding::Undecided(key) => undecided(alloc, recording, key),
    }
}

/// The history with the stamps that the numbers make, or which limit is not met.
fn shown(
    alloc: Global,
    level: Level,
    wanted: Wanted,
    recording: &Recording,
    indexed: &Indexed,
    numbers: &[usize],
) -> Result<Made, NoMemory>
    requires done { AreDone indexed.now.trace.transactions indexed.now.ranks.items }
    requires stamps { HasNumbers level wanted (subject_of recording.now indexed.now.attempts.items indexed.now.trace indexed.now.times.items indexed.now.ranks.items indexed.now.lists.items) numbers.now }
    ensures found { IfOk result (λ made. AreStamped level wanted (subject_of recording.now indexed.now.attempts.items indexed.now.trace indexed.now.times.items indexed.now.ranks.items indexed.now.lists.items) made.code made.text.items) }
    ensures codes { IfOk result (λ made. IsVerdict made.code) }
{
    match history_text(alloc, level, recording, indexed, numbers) {
        Ok(text) => Ok(Made {
            text,
            code: status::DONE,
        }),
        Err(NoHistory::Past(limit)) => unfit(alloc, limit),
        Err(NoHistory::NoMemory) => Err(NoMemory),
    }
}

/// The text of the history.
#[tactic(auto, using(crate::proofs::StampLemmas::is_printed))]
fn history_text(
    alloc: Global,
    level: Level,
    recording: &Recording,
    indexed: &Indexed,
    numbers: &[usize],
) -> Result<Vec<u8>, NoHistory>
    ensures { IfOk result (λ text. IsPrinted level indexed.now.trace numbers.now recording.now.names text.items) }
{
    let items = history_of(alloc, level, &indexed.trace, numbers, recording)?;
    text_of(alloc, &items)
}

/// That no history can tell the trace, and why.
fn unfit(alloc: Global, limit: Limit) -> Result<Made, NoMemory>
    ensures code { IfOk result (λ made. made.code ≡ 9) }
    ensures told { IfOk result (λ made. made.text.items ≡ limit_text limit) }
{
    let mut text = Vec::new(alloc);
    push_words(&mut text, limit_words(limit))?;
    Ok(Made {
        text,
        code: status::UNFIT,
    })
}

fn limit_words(limit: Limit) -> &'static str
    ensures { result.now ≡ limit_text limit }
{
    match limit {
        Limit::Sessions => "no history: more than 16 transactions are open at once\n",
        Limit::Keys => "no history: more than 4096 keys\n",
        Limit::Values => "no history: a value is not of 1 to 64 visible bytes\n",
        Limit::Stamps => "no history: a stamp is above 2^62\n",
        Limit::Bytes => "no history: more than 16 MiB of text\n",
    }
}
