// The events of a lent session at the lent cells.
ghost use Rattle.std.specs.FinMap as map;
ghost use Rattle.std.specs.Prelude.{◌≡◌, ◌<◌, IfSome, None};
ghost use Rattle.machine.specs.Events.Write.{write_refused, write_on};
ghost use Rattle.event_parts.specs.Made.{Makes};
ghost use Rattle.machine.specs.Events.Fetch.{fetch_on};
ghost use Rattle.stamp_base.specs.Setups.{numbers_of};
ghost use Rattle.machine.specs.Events.Heal.{heal_on, offer_of};
ghost use Rattle.system_parts.specs.Rows.{HasOnly, IsBare};
ghost use Rattle.cluster_core.specs.Required.{CanMake};
ghost use Rattle.split_parts.specs.Direct.{HasAll, lent_effect, MakesOfCells, on_rows};
ghost use Rattle.split_parts.specs.Parts.{behind, cells_of, filled, seen, session_of};

use crate::Lent;
use crate::parts::{CellsPart, SessionPart};
use cell_store::Cells;
use event_parts::{Client, Stopped};
use history_book::Book;
use machine::Event;
use port_io::OneFate;
use stamp_base::{KeyNo, SessionNo, Setup, Value};

/// A write of a lent session to the lent cells.
fn write_to(
    weather: &mut OneFate,
    book: &mut Book,
    own: &mut Option<&mut SessionPart>,
    cells: &mut Option<&mut CellsPart>,
    session: SessionNo,
    key: KeyNo,
    value: Value,
) -> Result<(), Stopped>
    requires { IfSome (behind session_of own.old) (λ own. IfSome (behind cells_of cells.old) (λ part. write_refused own.client key ≡ None → IfSome own.client.entry.start (λ start. IsBare part.rows key start))) }
    ensures { MakesOfCells (λ c rows. write_on session key value weather.old.fate c rows) (behind session_of own.old) (behind cells_of cells.old) (behind session_of own.new) (behind cells_of cells.new) book.old.items book.new.items result }
{
    match (own, cells) {
        (Some(place), Some(rows)) => {
            let part = &mut **place;
            let rows = &mut **rows;
            session_events::write(
                weather,
                book,
                &mut part.client,
                &mut rows.cells,
                session,
                key,
                value,
            )
        }
        _ => Ok(()),
    }
}

fn fetch_to(
    weather: &mut OneFate,
    book: &mut Book,
    own: &mut Option<&mut SessionPart>,
    cells: &mut Option<&mut CellsPart>,
    setup: &Setup,
    session: SessionNo,
    key: KeyNo,
) -> Result<(), Stopped>
    ensures { MakesOfCells (λ c rows. on_rows rows (fetch_on (numbers_of setup.now) session key weather.old.fate c rows)) (behind session_of own.old) (behind cells_of cells.old) (behind session_of own.new) (behind cells_of cells.new) book.old.items book.new.items result }
{
    match (own, cells) {
        (Some(place), Some(rows)) => {
            let part = &mut **place;
            let rows = &mut **rows;
            session_events::fetch(
                weather,
                book,
                &mut part.client,
                &rows.cells,
                setup,
                session,
                key,
            )
        }
        _ => Ok(()),
    }
}

/// The shadow is set, whatever the commit table has.
fn heal_rows(
    weather: &mut OneFate,
    book: &mut Book,
    client: &mut Client,
    cells: &mut Cells,
    session: SessionNo,
) -> Result<(), Stopped>
    requires { IfSome (offer_of client.old) (λ offer. HasOnly cells.old.rows offer.0 offer.1 offer.2) }
    ensures { Makes (heal_on session weather.old.fate client.old cells.old.rows map.empty)
        (client.old, cells.old.rows) (client.new, cells.new.rows) book.old.items book.new.items result }
{
    session_events::heal(weather, book, client, cells, session)
}

fn heal_to(
    weather: &mut OneFate,
    book: &mut Book,
    own: &mut Option<&mut SessionPart>,
    cells: &mut Option<&mut CellsPart>,
    session: SessionNo,
) -> Result<(), Stopped>
    requires { IfSome (behind session_of own.old) (λ own. IfSome (behind cells_of cells.old) (λ part. IfSome (offer_of own.client) (λ offer. HasOnly part.rows offer.0 offer.1 offer.2))) }
    ensures { MakesOfCells (λ c rows. heal_on session weather.old.fate c rows map.empty) (behind session_of own.old) (behind cells_of cells.old) (behind session_of own.new) (behind cells_of cells.new) book.old.items book.new.items result }
{
    match (own, cells) {
        (Some(place), Some(rows)) => {
            let part = &mut **place;
            let rows = &mut **rows;
            heal_rows(weather, book, &mut part.client, &mut rows.cells, session)
        }
        _ => Ok(()),
    }
}

/// A write among the lent parts.
pub(crate) fn write_among(
    lent: &mut Lent<'_>,
    weather: &mut OneFate,
    book: &mut Book,
    session: SessionNo,
    key: KeyNo,
    value: Value,
) -> Result<(), Stopped>
    requires all { HasAll (seen lent.old) (Event.Write session key value) }
    requires can { CanMake (filled (seen lent.old)) (Event.Write session key value) }
    ensures { Makes (lent_effect (seen lent.old) (Event.Write session key value) weather.old.fate) (seen lent.old) (seen lent.new) book.old.items book.new.items result }
{
    let mut own = lent.take_session(session.index());
    let made = write_to(
        weather,
        book,
        &mut own,
        &mut lent.cells,
        session,
        key,
        value,
    );
    lent.put_session(session.index(), own);
    made
}

pub(crate) fn fetch_among(
    lent: &mut Lent<'_>,
    weather: &mut OneFate,
    book: &mut Book,
    session: SessionNo,
    key: KeyNo,
) -> Result<(), Stopped>
    requires { HasAll (seen lent.old) (Event.Fetch session key) }
    ensures { Makes (lent_effect (seen lent.old) (Event.Fetch session key) weather.old.fate) (seen lent.old) (seen lent.new) book.old.items book.new.items result }
{
    let setup = lent.setup();
    let mut own = lent.take_session(session.index());
    let made = fetch_to(
        weather,
        book,
        &mut own,
        &mut lent.cells,
        &setup,
        session,
        key,
    );
    lent.put_session(session.index(), own);
    made
}

pub(crate) fn heal_among(
    lent: &mut Lent<'_>,
    weather: &mut OneFate,
    book: &mut Book,
    session: SessionNo,
) -> Result<(), Stopped>
    requires all { HasAll (seen lent.old) (Event.Heal session) }
    requires can { CanMake (filled (seen lent.old)) (Event.Heal session) }
    ensures { Makes (lent_effect (seen lent.old) (Event.Heal session) weather.old.fate) (seen lent.old) (seen lent.new) book.old.items book.new.items result }
{
    let mut own = lent.take_session(session.index());
    let made = heal_to(weather, book, &mut own, &mut lent.cells, session);
    lent.put_session(session.index(), own);
    made
}
