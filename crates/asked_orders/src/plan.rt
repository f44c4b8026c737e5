// By what the edges of an order are found that is asked for.
use crate::points::{until_commit, until_start};
use std::alloc::{AllocError, Global};
use trace_rules::{Level, Times, Transaction, Wanted};

/// A committed transaction of a process.
#[derive(Clone, Copy)]
pub struct Turn {
    /// The process's number.
    pub process: u64,
    /// The transaction's place.
    pub txn: usize,
}

/// By what the edges of an order are found that is asked for. All of it is a hint, which is tested where it is used.
#[derive(Drop)]
pub struct Plan {
    /// The committed transactions by process, and those of a process in their order.
    pub turns: Vec<Turn>,
    /// The place among them of each transaction, where it is committed.
    pub seats: Vec<usize>,
    /// The moments by which points surely came, as they rise: each has a node, which stand behind those of points.
    pub moments: Vec<u64>,
}

/// The plan of an order that is asked for. It takes a time in proportion to n log n. AllocError where memory is refused.
pub fn plan_of(
    alloc: Global,
    wanted: Wanted,
    level: Level,
    transactions: &[Transaction],
    times: &[Times],
) -> Result<Plan, AllocError> {
    let mut plan = Plan {
        turns: Vec::new(alloc),
        seats: Vec::new(alloc),
        moments: Vec::new(alloc),
    };
    match wanted {
        Wanted::Nothing => {}
        Wanted::Sessions => plan.add_turns(transactions)?,
        Wanted::RealTime => plan.add_moments(alloc, level, transactions, times)?,
    }
    Ok(plan)
}

impl Plan {
    fn add_turns(&mut self, transactions: &[Transaction]) -> Result<(), AllocError> {
        for txn in 0..transactions.len() {
            if transactions[txn].committed {
                self.turns.push(Turn {
                    process: transactions[txn].process,
                    txn,
                })?;
            }
        }
        self.turns
            .sort_unstable_by_key(|turn| (turn.process, turn.txn));
        for _txn in 0..transactions.len() {
            self.seats.push(0)?;
        }
        self.take_seats();
        Ok(())
    }

    fn take_seats(&mut self) {
        for seat in 0..self.turns.len() {
            let txn = self.turns[seat].txn;
            if txn < self.seats.len() {
                self.seats[txn] = seat;
            }
        }
    }

    /// Adds the moments by which points of committed transactions came, each once.
    fn add_moments(
        &mut self,
        alloc: Global,
        level: Level,
        transactions: &[Transaction],
        times: &[Times],
    ) -> Result<(), AllocError> {
        let mut all = Vec::new(alloc);
        for txn in 0..transactions.len() {
            if transactions[txn].committed {
                add_known(&mut all, until_start(level, times, txn))?;
                add_known(&mut all, until_commit(level, times, txn))?;
            }
        }
        all.sort_unstable_by_key(|moment| *moment);
        for place in 0..all.len() {
            if place == 0 || all[place - 1] < all[place] {
                self.moments.push(all[place])?;
            }
        }
        Ok(())
    }
}

fn add_known(moments: &mut Vec<u64>, moment: Option<u64>) -> Result<(), AllocError> {
    if let Some(moment) = moment {
        moments.push(moment)?;
    }
    Ok(())
}
