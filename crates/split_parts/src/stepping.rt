// The steps of a lent session, made of the lent parts themselves.
ghost use Rattle.std.specs.FinMap as map;
ghost use Rattle.std.specs.Prelude.{◌≡◌, ◌<◌, IfSome, None, []};
ghost use Rattle.machine.specs.Calls.{KeepsShadowNext, MayStep};
ghost use Rattle.machine.specs.Events.Step.{next_of, step_asks, step_on, work_of};
ghost use Rattle.system_parts.specs.SessionSteps.{handed_commit};
ghost use Rattle.event_parts.specs.Made.{fate_ahead, Makes};
ghost use Rattle.cluster_core.specs.Required.{CanMake};
ghost use Rattle.split_parts.specs.Acts.{asked_of};
ghost use Rattle.split_parts.specs.Direct.{HasAll, lent_effect, StepsOfSession, on_both, on_table_too};
ghost use Rattle.split_parts.specs.Parts.{behind, cells_of, fate_of, filled, lent_pairs, lent_rows, seen, session_of, table_of};

use crate::Lent;
use crate::parts::{CellsPart, SessionPart, TablePart};
use cell_store::Cells;
use commit_table::Table;
use event_parts::{Client, Stopped};
use history_book::Book;
use machine::Event;
use port_io::OneFate;
use stamp_base::SessionNo;
use std::alloc::Global;

/// A step of a lent session, by the stores that are lent; one that is not is empty.
fn step_to(
    alloc: Global,
    weather: &mut OneFate,
    book: &mut Book,
    own: &mut Option<&mut SessionPart>,
    cells: &mut Option<&mut CellsPart>,
    table: &mut Option<&mut TablePart>,
    session: SessionNo,
) -> Result<(), Stopped>
    requires { IfSome (behind session_of own.old) (λ own. MayStep own.client → handed_commit own.client.entry ≡ None → KeepsShadowNext (next_of (work_of own.client)) (lent_rows [] (behind cells_of cells.old))) }
    ensures { StepsOfSession (λ c rows pairs. step_on session (fate_ahead (step_asks c) (λ store n. weather.old.fate)) c rows pairs) (behind session_of own.old) (behind cells_of cells.old) (behind table_of table.old) (behind session_of own.new) (behind cells_of cells.new) (behind table_of table.new) book.old.items book.new.items result }
{
    match own {
        Some(place) => {
            let part = &mut **place;
            step_own(
                alloc,
                weather,
                book,
                &mut part.client,
                cells,
                table,
                session,
            )
        }
        None => Ok(()),
    }
}

fn step_own(
    alloc: Global,
    weather: &mut OneFate,
    book: &mut Book,
    client: &mut Client,
    cells: &mut Option<&mut CellsPart>,
    table: &mut Option<&mut TablePart>,
    session: SessionNo,
) -> Result<(), Stopped>
    requires { MayStep client.old → handed_commit client.old.entry ≡ None → KeepsShadowNext (next_of (work_of client.old)) (lent_rows [] (behind cells_of cells.old)) }
    ensures { Makes (on_both (behind cells_of cells.old) (behind table_of table.old) (step_on session (fate_ahead (step_asks client.old) (λ store n. weather.old.fate)) client.old (lent_rows [] (behind cells_of cells.old)) (lent_pairs map.empty (behind table_of table.old))))
        (client.old, behind cells_of cells.old, behind table_of table.old) (client.new, behind cells_of cells.new, behind table_of table.new) book.old.items book.new.items result }
{
    match cells {
        Some(place) => {
            let rows = &mut **place;
            step_cells(
                alloc,
                weather,
                book,
                client,
                &mut rows.cells,
                table,
                session,
            )
        }
        None => {
            let mut none = Cells::new(alloc);
            step_cells(alloc, weather, book, client, &mut none, table, session)
        }
    }
}

fn step_cells(
    alloc: Global,
    weather: &mut OneFate,
    book: &mut Book,
    client: &mut Client,
    cells: &mut Cells,
    table: &mut Option<&mut TablePart>,
    session: SessionNo,
) -> Result<(), Stopped>
    requires { MayStep client.old → handed_commit client.old.entry ≡ None → KeepsShadowNext (next_of (work_of client.old)) cells.old.rows }
    ensures { Makes (on_table_too (behind table_of table.old) (step_on session (fate_ahead (step_asks client.old) (λ store n. weather.old.fate)) client.old cells.old.rows (lent_pairs map.empty (behind table_of table.old))))
        (client.old, cells.old.rows, behind table_of table.old) (client.new, cells.new.rows, behind table_of table.new) book.old.items book.new.items result }
{
    match table {
        Some(place) => {
            let marks = &mut **place;
            session_events::step(weather, book, client, cells, &mut marks.table, session)
        }
        None => {
            let mut none = Table::new(alloc);
            session_events::step(weather, book, client, cells, &mut none, session)
        }
    }
}

pub(crate) fn step_among(
    alloc: Global,
    lent: &mut Lent<'_>,
    weather: &mut OneFate,
    book: &mut Book,
    session: SessionNo,
) -> Result<(), Stopped>
    requires all { HasAll (seen lent.old) (Event.Step session) }
    requires can { CanMake (filled (seen lent.old)) (Event.Step session) }
    requires fate { weather.old.fate ≡ fate_of (seen lent.old) (asked_of (seen lent.old) (Event.Step session)) }
    ensures { Makes (lent_effect (seen lent.old) (Event.Step session) weather.old.fate) (seen lent.old) (seen lent.new) book.old.items book.new.items result }
{
    let mut own = lent.take_session(session.index());
    let made = step_to(
        alloc,
        weather,
        book,
        &mut own,
        &mut lent.cells,
        &mut lent.table,
        session,
    );
    lent.put_session(session.index(), own);
    made
}
