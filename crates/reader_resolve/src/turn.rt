ghost use Rattle.std.specs.Prelude.{◌≡◌, ◌<◌, ◌≤◌, drop, length};
ghost use Rattle.system_parts.specs.KeyRead.{is_passed, after_passed, read_over, found_cell, found_by};
ghost use Rattle.system_parts.specs.Recalled.{outcome_known};

use invalidator::Settle;
use stamp_base::{KeyNo, Stamp};
use system_parts::{Answer, Cell, Known, Outcome};

/// Who reads what: a transaction by its start, with the epoch of its begin. It may mark every version, or those alone that are
/// at most the epoch.
#[derive(Clone, Copy, Debug)]
pub struct Reader {
    /// The key that is read.
    pub key: KeyNo,
    /// The transaction, by its start.
    pub start: Stamp,
    /// The epoch of its begin.
    pub epoch: u64,
    /// Whether it may mark every version.
    pub every: bool,
}

/// What a read does next.
#[derive(Clone, Copy, Debug)]
pub enum Turn {
    /// Resolves the cell that comes after those that were passed over.
    Resolves { passed: usize, settle: Settle },
    /// Ends with this answer.
    Answers(Answer),
}

impl Reader {
    ghost use Rattle.reader_resolve.specs.Turns.{turn_of, IsPlaced, decided_of};

    /// The read of the cells from a place on.
    pub fn turn_from(&self, cells: &[Cell], from: usize) -> Turn
        requires { from ≤ length cells.now }
        ensures turn { turn_of self.now cells.now result ≡ read_over self.now.every self.now.key self.now.start self.now.epoch (drop from cells.now) }
        ensures placed { IsPlaced self.now cells.now result }
    {
        let passed = first_left(self.start, cells, from);
        if passed == cells.len() {
            return Turn::Answers(Answer {
                found: None,
                heal: None,
            });
        }
        let cell = &cells[passed];
        if cell.version == self.start || cell.shadow.is_some() {
            return Turn::Answers(found(cell));
        }
        let may_mark = self.every || cell.version.value() <= self.epoch;
        Turn::Resolves {
            passed,
            settle: Settle::open(self.key, cell.version, may_mark, false),
        }
    }

    /// The read where the cell at a place was decided: it answers by a commit below the start, and is passed over
    /// otherwise.
    #[tactic(auto, using(crate::proofs::TurnLemmas::passed_on))]
    pub fn turn_by(&self, cells: &[Cell], at: usize, outcome: Outcome) -> Turn
        requires { at < length cells.now }
        ensures turn { turn_of self.now cells.now result ≡ decided_of self.now (drop at cells.now) outcome }
        ensures placed { IsPlaced self.now cells.now result }
    {
        match outcome {
            Outcome::Committed { commit, by_table } => {
                if commit.value() < self.start.value() {
                    Turn::Answers(self.found_by(&cells[at], commit, by_table))
                } else {
                    self.turn_from(cells, at + 1)
                }
            }
            Outcome::Dead => self.turn_from(cells, at + 1),
        }
    }

    /// The answer by a cell with a commit below the start. Where the commit table told it, the shadow may be set.
    fn found_by(&self, cell: &Cell, commit: Stamp, by_table: bool) -> Answer
        ensures { result ≡ found_by self.now.key cell.now commit by_table }
    {
        let heal = if by_table {
            Some((self.key, cell.version, commit))
        } else {
            None
        };
        Answer {
            found: Some((cell.version, cell.value)),
            heal,
        }
    }
}

/// What is kept of a transaction, as an outcome that no table told.
pub fn outcome_of(known: Known) -> Outcome
    ensures { result ≡ outcome_known known }
{
    match known {
        Known::Committed(commit) => Outcome::Committed {
            commit,
            by_table: false,
        },
        Known::Dead => Outcome::Dead,
    }
}

/// The answer by an own cell, or by one with a shadow.
fn found(cell: &Cell) -> Answer
    ensures { result ≡ found_cell cell.now }
{
    Answer {
        found: Some((cell.version, cell.value)),
        heal: None,
    }
}

/// The place of the first cell from here on that is not passed over, or the number of cells.
#[tactic(auto, unfolding(system_parts::specs::KeyRead::after_passed))]
fn first_left(start: Stamp, cells: &[Cell], from: usize) -> usize
    requires { from ≤ length cells.now }
    ensures rest { drop result cells.now ≡ after_passed start (drop from cells.now) }
    ensures within { result ≤ length cells.now }
{
    for i in from..cells.len() {
        if !passes(start, &cells[i]) {
            return i;
        }
    }
    cells.len()
}

/// Whether a read passes over the cell without an ask: it is another's, and its shadow is not below the start.
fn passes(start: Stamp, cell: &Cell) -> bool
    ensures { result ≡ is_passed start cell.now }
{
    match cell.shadow {
        Some(commit) => cell.version != start && start.value() <= commit.value(),
        None => false,
    }
}
