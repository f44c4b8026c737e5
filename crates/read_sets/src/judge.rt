ghost use Rattle.std.specs.Prelude.{◌≡◌, IfOk, IsOk, Ok};
ghost use Rattle.history_book.specs.Serial.{Serial};
ghost use Rattle.read_sets.specs.Crossings.{IsJudged};

use crate::search::first_crossing;
use history_book::Item;
use stamp_base::NoMemory;
use std::alloc::Global;

/// What a history is found to be.
#[derive(Clone, Copy, Debug, PartialEq, Eq)]
pub enum SerialVerdict {
    /// No placed commit crosses a read.
    Serial,
    /// The numbers of a read and of a placed commit that crosses it, counted from 1: another transaction wrote the key, and
    /// its commit is above the reader's start and below the reader's commit.
    Crossed { read: usize, placed: usize },
}

/// Judges whether the items of a finished history are serial. Crossed names the first read that did not stand, and of the
/// commits that cross it the one that was placed first. The history need not be isolated, nor its stamps in order.
///
/// Reads are judged by sets of commits and writes, in about the time of a sort of the items where each transaction commits
/// once, and in memory for each write and commit. Where that memory is refused, each read is judged by a walk over all
/// items, so the answer is never NoMemory.
pub fn judge_serial(alloc: Global, items: &[Item]) -> Result<SerialVerdict, NoMemory>
    ensures always { IsOk result }
    ensures judged { IfOk result (λ verdict. IsJudged items.now verdict) }
    ensures serial { IfOk result (λ verdict. verdict ≡ SerialVerdict.Serial → Serial items.now) }
    ensures complete { Serial items.now → result ≡ Ok SerialVerdict.Serial }
{
    Ok(judged(alloc, items))
}

fn judged(alloc: Global, items: &[Item]) -> SerialVerdict
    ensures { IsJudged items.now result }
{
    match first_crossing(alloc, items) {
        None => SerialVerdict::Serial,
        Some(pair) => SerialVerdict::Crossed {
            read: pair.first + 1,
            placed: pair.second + 1,
        },
    }
}
