// The rows that stay of the stores, and what a reader finds in them.
ghost use Rattle.std.specs.Prelude.{◌≡◌, ◌↔◌, ◌<◌, length, IfErr, IfOk, IsErr};
ghost use Rattle.cell_compaction.specs.Archives.{answer_of};
ghost use Rattle.cell_compaction.specs.Rest.{compacted, found_of, read_from};

use crate::keeping::{kept, with_commits};
use crate::latest::{Latest, latest_of};
use cell_store::{Cells, Row};
use commit_table::Table;
use stamp_base::{KeyNo, NoMemory, Stamp, TxnId, Value};
use std::alloc::Global;
use std::marker::Model;

/// The reader's start is below the water: what it would see may be gone.
#[derive(Clone, Copy, Debug, PartialEq, Eq)]
pub struct TooOld {
    /// The reader's start.
    pub start: Stamp,
    /// The water, the oldest start that may still read.
    pub water: Stamp,
}

/// The rows that were kept, each with its commit as shadow, in ascending order of key and version.
#[derive(Drop)]
pub struct Archive {
    rows: Vec<Row>,
    water: Stamp,
    before: u64,
}

impl Model for Archive {
    ghost use Rattle.std.specs.Prelude.{map};
    ghost use Rattle.system_parts.specs.Rows.{AreOrdered};
    ghost use Rattle.cell_store.specs.AtRest.{row_of};
    ghost use Rattle.cell_compaction.specs.Archives.{SeenArchive};

    ghost Value = { SeenArchive };

    ghost view = { λ a. record { rows = map row_of a.rows.items; water = a.water; before = a.before } };

    ghost invariant = { λ a. AreOrdered (map row_of a.rows.items) };
}

impl Archive {
    /// Drops the versions that no reader at the water or above it can see. It costs a look at each row, one at the table for a bare
    /// one, and a search by halves for each key. NoMemory where memory is refused.
    pub fn compact(
        alloc: Global,
        cells: Cells,
        table: &Table,
        water: Stamp,
    ) -> Result<Archive, NoMemory>
        ensures rows { IfOk result (λ archive. archive.rows ≡ compacted cells.rows table.now.pairs water) }
        ensures water { IfOk result (λ archive. archive.water ≡ water) }
        ensures before { IfOk result (λ archive. archive.before ≡ length cells.rows) }
    {
        let rows = with_commits(alloc, &cells.into_rows()?, table)?;
        Ok(Archive {
            before: rows.len() as u64,
            rows: kept(alloc, &rows, water)?,
            water,
        })
    }

    /// What a reader with this start sees at the key: the version and its value. Refused exactly where the start is below
    /// the water.
    pub fn read_at(&self, start: Stamp, key: KeyNo) -> Result<Option<(TxnId, Value)>, TooOld>
        ensures value { IfOk result (λ found. found ≡ answer_of (read_from self.now.rows start key)) }
        ensures too_old { IsErr result ↔ (start < self.now.water) }
        ensures refusal { IfErr result (λ old. old ≡ record { start = start; water = self.now.water }) }
    {
        if start < self.water {
            return Err(TooOld {
                start,
                water: self.water,
            });
        }
        Ok(answer(latest_of(&self.rows, start, key)))
    }

    /// How many rows there were before.
    pub fn before(&self) -> u64
        ensures { result ≡ self.now.before }
    {
        self.before
    }

    /// How many rows were kept.
    pub fn after(&self) -> u64
        ensures { result ≡ length self.now.rows }
    {
        self.rows.len() as u64
    }
}

fn answer(latest: Option<Latest>) -> Option<(TxnId, Value)>
    ensures { result ≡ answer_of (found_of latest) }
{
    match latest {
        Some(latest) => Some((latest.version, latest.value)),
        None => None,
    }
}
