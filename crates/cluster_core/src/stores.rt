// A cluster taken apart: its stores at rest, and its history.
ghost use Rattle.std.specs.Prelude.{◌≡◌};
ghost use Rattle.cell_compaction.specs.Rest.{StandsAtRest};

use crate::{Cluster, ClusterState};
use cell_store::Cells;
use commit_table::Table;
use history_book::Book;

/// The cells, the commit table and the history of a cluster.
#[derive(Drop)]
pub struct Stores {
    /// The rows.
    pub cells: Cells,
    /// The commit table.
    pub table: Table,
    /// The history.
    pub book: Book,
}

impl Cluster {
    /// The stores as they stand, with the history, to which they have all rows and pairs that it asks for. It takes no memory.
    pub fn into_stores(self) -> Stores
        ensures rows { result.cells.rows ≡ self.state.rows }
        ensures pairs { result.table.pairs ≡ self.state.pairs }
        ensures history { result.book.items ≡ self.history }
        ensures at_rest { StandsAtRest self.history self.state.rows self.state.pairs }
    {
        let Cluster { engine } = self;
        let ClusterState {
            cells,
            table,
            book,
            ..
        } = engine;
        Stores { cells, table, book }
    }
}
