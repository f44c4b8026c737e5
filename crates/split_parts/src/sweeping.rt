// The events of the lent janitor, made of the lent parts themselves.
ghost use Rattle.std.specs.FinMap as map;
ghost use Rattle.std.specs.Prelude.{◌≡◌, IfSome, []};
ghost use Rattle.machine.specs.Calls.{KeepsShadowNext};
ghost use Rattle.machine.specs.Events.SweepOpen.{sweep_open_on};
ghost use Rattle.machine.specs.Events.SweepStep.{sweep_step_asks, sweep_step_on};
ghost use Rattle.port_io.specs.declared.weather.Fate.{Fate};
ghost use Rattle.system_parts.specs.Sweep.{sweep_ask};
ghost use Rattle.event_parts.specs.Made.{Makes, fate_ahead};
ghost use Rattle.cluster_core.specs.Required.{CanMake};
ghost use Rattle.split_parts.specs.Acts.{asked_of};
ghost use Rattle.split_parts.specs.Direct.{HasAll, lent_effect, MakesOfJanitor, MakesOfStores, on_both, on_table_too};
ghost use Rattle.split_parts.specs.Parts.{behind, cells_of, fate_of, filled, janitor_of, lent_pairs, lent_rows, node_of, seen, table_of};

use crate::Lent;
use crate::parts::{CellsPart, JanitorPart, NodePart, TablePart};
use cell_store::Cells;
use commit_table::Table;
use event_parts::Stopped;
use history_book::Book;
use invalidator::Sweep;
use machine::Event;
use port_io::OneFate;
use stamp_base::{NodeNo, TxnId};
use std::alloc::Global;

fn sweep_open_to(
    book: &mut Book,
    janitor: &mut Option<&mut JanitorPart>,
    post: &Option<&mut NodePart>,
    node: NodeNo,
    txn: TxnId,
) -> Result<(), Stopped>
    ensures { MakesOfJanitor (λ i sweep. sweep_open_on node txn i sweep) (behind node_of post.now) (behind janitor_of janitor.old) (behind janitor_of janitor.new) book.old.items book.new.items result }
{
    match (janitor, post) {
        (Some(place), Some(at)) => {
            let part = &mut **place;
            session_events::sweep_open(book, &mut part.sweep, &at.post, node, txn)
        }
        _ => Ok(()),
    }
}

/// A step of the sweep, by the stores that are lent; one that is not is empty.
fn sweep_step_to(
    alloc: Global,
    weather: &mut OneFate,
    book: &mut Book,
    janitor: &mut Option<&mut JanitorPart>,
    cells: &mut Option<&mut CellsPart>,
    table: &mut Option<&mut TablePart>,
) -> Result<(), Stopped>
    requires { IfSome (behind janitor_of janitor.old) (λ sweep. IfSome sweep (λ s. KeepsShadowNext (sweep_ask s) (lent_rows [] (behind cells_of cells.old)))) }
    ensures { MakesOfStores (λ sweep rows pairs. sweep_step_on (fate_ahead (sweep_step_asks sweep) (λ store n. weather.old.fate)) sweep rows pairs) (behind janitor_of janitor.old) (behind cells_of cells.old) (behind table_of table.old) (behind janitor_of janitor.new) (behind cells_of cells.new) (behind table_of table.new) book.old.items book.new.items result }
{
    match janitor {
        Some(place) => {
            let part = &mut **place;
            sweep_step_own(alloc, weather, book, &mut part.sweep, cells, table)
        }
        None => Ok(()),
    }
}

fn sweep_step_own(
    alloc: Global,
    weather: &mut OneFate,
    book: &mut Book,
    sweep: &mut Option<Sweep>,
    cells: &mut Option<&mut CellsPart>,
    table: &mut Option<&mut TablePart>,
) -> Result<(), Stopped>
    requires { IfSome sweep.old (λ s. KeepsShadowNext (sweep_ask s) (lent_rows [] (behind cells_of cells.old))) }
    ensures { Makes (on_both (behind cells_of cells.old) (behind table_of table.old) (sweep_step_on (fate_ahead (sweep_step_asks sweep.old) (λ store n. weather.old.fate)) sweep.old (lent_rows [] (behind cells_of cells.old)) (lent_pairs map.empty (behind table_of table.old))))
        (sweep.old, behind cells_of cells.old, behind table_of table.old) (sweep.new, behind cells_of cells.new, behind table_of table.new) book.old.items book.new.items result }
{
    match cells {
        Some(place) => {
            let rows = &mut **place;
            sweep_step_cells(alloc, weather, book, sweep, &mut rows.cells, table)
        }
        None => {
            let mut none = Cells::new(alloc);
            sweep_step_cells(alloc, weather, book, sweep, &mut none, table)
        }
    }
}

fn sweep_step_cells(
    alloc: Global,
    weather: &mut OneFate,
    book: &mut Book,
    sweep: &mut Option<Sweep>,
    cells: &mut Cells,
    table: &mut Option<&mut TablePart>,
) -> Result<(), Stopped>
    requires { IfSome sweep.old (λ s. KeepsShadowNext (sweep_ask s) cells.old.rows) }
    ensures { Makes (on_table_too (behind table_of table.old) (sweep_step_on (fate_ahead (sweep_step_asks sweep.old) (λ store n. weather.old.fate)) sweep.old cells.old.rows (lent_pairs map.empty (behind table_of table.old))))
        (sweep.old, cells.old.rows, behind table_of table.old) (sweep.new, cells.new.rows, behind table_of table.new) book.old.items book.new.items result }
{
    match table {
        Some(place) => {
            let marks = &mut **place;
            session_events::sweep_step(weather, book, sweep, cells, &mut marks.table)
        }
        None => {
            let mut none = Table::new(alloc);
            session_events::sweep_step(weather, book, sweep, cells, &mut none)
        }
    }
}

pub(crate) fn sweep_open_among(
    lent: &mut Lent<'_>,
    book: &mut Book,
    node: NodeNo,
    txn: TxnId,
) -> Result<(), Stopped>
    requires { HasAll (seen lent.old) (Event.SweepOpen node txn) }
    ensures { (fate : Fate) → Makes (lent_effect (seen lent.old) (Event.SweepOpen node txn) fate) (seen lent.old) (seen lent.new) book.old.items book.new.items result }
{
    sweep_open_to(book, &mut lent.janitor, &lent.node, node, txn)
}

pub(crate) fn sweep_step_among(
    alloc: Global,
    lent: &mut Lent<'_>,
    weather: &mut OneFate,
    book: &mut Book,
) -> Result<(), Stopped>
    requires all { HasAll (seen lent.old) Event.SweepStep }
    requires can { CanMake (filled (seen lent.old)) Event.SweepStep }
    requires fate { weather.old.fate ≡ fate_of (seen lent.old) (asked_of (seen lent.old) Event.SweepStep) }
    ensures { Makes (lent_effect (seen lent.old) Event.SweepStep weather.old.fate) (seen lent.old) (seen lent.new) book.old.items book.new.items result }
{
    sweep_step_to(
        alloc,
        weather,
        book,
        &mut lent.janitor,
        &mut lent.cells,
        &mut lent.table,
    )
}
