ghost use Rattle.std.specs.Prelude.{◌≡◌, true, false, None, IfSome, IsSome};
ghost use Rattle.system_parts.specs.Asks.{FitsNext};
ghost use Rattle.system_parts.specs.Sweep.{IsKeys};
ghost use Rattle.system_parts.specs.Resolve.{Decides};
ghost use Rattle.system_parts.specs.KeyRead.{AreFetched, read_over, read_by, next_reached, next_ask, is_recall};
ghost use Rattle.system_parts.specs.Recalled.{next_recalled};
ghost use Rattle.reader_resolve.specs.Runs.{run_reached, run_recalled, run_told, next_told};

use crate::turn::{Reader, Turn, outcome_of};
use invalidator::Settle;
use stamp_base::{KeyNo, Stamp, TxnId};
use std::marker::Model;
use system_parts::{Ask, Cell, Known, Next, Outcome, Told};

/// A read of a key under way: no cell is left to it once it has its answer.
#[derive(Debug, Drop)]
pub struct ReadRun {
    reader: Reader,
    cells: Vec<Cell>,
    /// How many cells were passed over; all of them, once the read has its answer.
    passed: usize,
    /// The resolve of the first cell that was not passed over.
    settle: Settle,
    /// Whether the cell was just come to, and is recalled first.
    recalls: bool,
    learnt: Option<(TxnId, Known)>,
}

impl Model for ReadRun {
    ghost use Rattle.std.specs.Prelude.{◌≡◌, true, drop, ◌<◌, ◌≤◌};
    ghost use Rattle.std.specs.Vec.{vec_len};
    ghost use Rattle.reader_resolve.specs.Runs.{Run};

    ghost Value = { Run };

    ghost use Rattle.reader_resolve.specs.Turns.{reading_at, Resolves};

    ghost view = { λ r. record { reading = reading_at r.reader (drop r.passed r.cells.items) r.settle.point; recalls = r.recalls; learnt = r.learnt } };

    ghost invariant = { λ r. (r.passed ≤ vec_len r.cells) × Resolves r.reader (drop r.passed r.cells.items) r.settle
        × (r.recalls ≡ true → r.passed < vec_len r.cells) };
}

impl ReadRun {
    /// Reads the key over its cells, which stand as a fetch up to `start` gave them. `epoch` is that of the session's
    /// begin: up to it, a version may be marked, and where `every` is set each one.
    pub fn start(
        key: KeyNo,
        start: Stamp,
        epoch: u64,
        every: bool,
        cells: Vec<Cell>,
    ) -> (ReadRun, Next)
        requires { AreFetched start cells.items }
        ensures run { result.0 ≡ run_reached None (read_over every key start epoch cells.items) }
        ensures next { result.1 ≡ next_reached (read_over every key start epoch cells.items) }
        ensures recalls { result.0.recalls ≡ is_recall result.1 }
    {
        let reader = Reader {
            key,
            start,
            epoch,
            every,
        };
        match reader.turn_from(cells.as_slice(), 0) {
            Turn::Resolves { passed, settle } => {
                let txn = cells[passed].version;
                let run = ReadRun {
                    reader,
                    cells,
                    passed,
                    settle,
                    recalls: true,
                    learnt: None,
                };
                (run, Next::Recall(txn))
            }
            Turn::Answers(answer) => {
                let passed = cells.len();
                let run = ReadRun {
                    reader,
                    cells,
                    passed,
                    settle: Settle::open(key, start, false, false),
                    recalls: false,
                    learnt: None,
                };
                (run, Next::Done(answer))
            }
        }
    }

    /// The key that is read.
    pub fn key(&self) -> KeyNo
        ensures { IfSome self.now.reading (λ r. result ≡ r.key) }
    {
        self.reader.key
    }

    /// The start of the transaction that reads.
    pub fn reader(&self) -> Stamp
        ensures { IfSome self.now.reading (λ r. result ≡ r.start) }
    {
        self.reader.start
    }

    /// The step that is asked of the stores where nothing is recalled of the cell; None once the read has its answer. It
    /// never lists keys.
    #[tactic(auto, using(crate::proofs::RunLemmas::asked))]
    pub fn next(&self) -> Option<Ask>
        ensures next { result ≡ next_ask self.now.reading }
        ensures no_listing { IfSome result (λ ask. IsKeys ask → ⊥) }
    {
        if self.passed < self.cells.len() {
            Some(self.settle.next())
        } else {
            None
        }
    }

    /// What the last step decided for good, which its session may keep.
    pub fn learnt(&self) -> Option<(TxnId, Known)>
        ensures { result ≡ self.now.learnt }
    {
        self.learnt
    }

    /// Takes what is kept of the transaction that is recalled. It decides the cell, and offers no shadow; where nothing is
    /// kept, the cell is asked of.
    #[tactic(auto, using(crate::proofs::RunLemmas::under_way))]
    pub fn recalled(&mut self, known: Option<Known>) -> Next
        requires { self.old.recalls ≡ true }
        ensures run { IfSome self.old.reading (λ r. self.new ≡ run_recalled self.old.learnt r known) }
        ensures next { IfSome self.old.reading (λ r. result ≡ next_recalled r known) }
        ensures recalls { self.new.recalls ≡ is_recall result }
    {
        self.recalls = false;
        match known {
            None => Next::Ask(self.settle.next()),
            Some(known) => self.decided(outcome_of(known)),
        }
    }

    /// Takes the answer to the ask. A cell that was to be recalled is asked of all the same.
    pub fn step(&mut self, answer: Told) -> Next
        requires { FitsNext (next_ask self.old.reading) answer }
        ensures run { IfSome self.old.reading (λ r. self.new ≡ run_told r answer) }
        ensures next { IfSome self.old.reading (λ r. result ≡ next_told r answer) }
        ensures recalls { self.new.recalls ≡ is_recall result }
    {
        let mut settle = self.settle;
        match settle.told(answer) {
            None => {
                self.settle = settle;
                self.recalls = false;
                self.learnt = None;
                Next::Ask(settle.next())
            }
            Some(outcome) => {
                self.learnt = self.settle.learns(&outcome);
                self.decided(outcome)
            }
        }
    }

    /// The cell is decided: it answers, or the read comes to the next one.
    fn decided(&mut self, outcome: Outcome) -> Next
        requires { IsSome self.old.reading }
        ensures run { IfSome self.old.reading (λ r. self.new ≡ run_reached self.old.learnt (read_by r (Decides outcome))) }
        ensures next { IfSome self.old.reading (λ r. result ≡ next_reached (read_by r (Decides outcome))) }
        ensures recalls { self.new.recalls ≡ is_recall result }
    {
        let cells = self.cells.as_slice();
        match self.reader.turn_by(cells, self.passed, outcome) {
            Turn::Resolves { passed, settle } => {
                let txn = cells[passed].version;
                self.passed = passed;
                self.settle = settle;
                self.recalls = true;
                Next::Recall(txn)
            }
            Turn::Answers(found) => {
                self.passed = cells.len();
                self.recalls = false;
                Next::Done(found)
            }
        }
    }
}
