// The events of a lent session alone.
ghost use Rattle.std.specs.Prelude.{◌<◌, None};
ghost use Rattle.machine.specs.Events.Abort.{abort_on};
ghost use Rattle.machine.specs.Events.Vanish.{vanish_on};
ghost use Rattle.event_parts.specs.Made.{Makes};
ghost use Rattle.port_io.specs.declared.weather.Fate.{Fate};
ghost use Rattle.split_parts.specs.Direct.{HasAll, lent_effect, MakesOfSession};
ghost use Rattle.split_parts.specs.Parts.{behind, seen, session_of};

use crate::Lent;
use crate::parts::SessionPart;
use event_parts::Stopped;
use history_book::Book;
use machine::Event;
use stamp_base::SessionNo;

/// The event of a session alone.
fn abort_of(
    book: &mut Book,
    own: &mut Option<&mut SessionPart>,
    session: SessionNo,
) -> Result<(), Stopped>
    ensures { MakesOfSession (λ c. abort_on session c) (behind session_of own.old) (behind session_of own.new) book.old.items book.new.items result }
{
    match own {
        Some(place) => {
            let part = &mut **place;
            session_events::abort(book, &mut part.client, session)
        }
        None => Ok(()),
    }
}

fn vanish_of(
    book: &mut Book,
    own: &mut Option<&mut SessionPart>,
    session: SessionNo,
) -> Result<(), Stopped>
    ensures { MakesOfSession (λ c. vanish_on session c) (behind session_of own.old) (behind session_of own.new) book.old.items book.new.items result }
{
    match own {
        Some(place) => {
            let part = &mut **place;
            session_events::vanish(book, &mut part.client, session)
        }
        None => Ok(()),
    }
}

pub(crate) fn abort_among(
    lent: &mut Lent<'_>,
    book: &mut Book,
    session: SessionNo,
) -> Result<(), Stopped>
    requires all { HasAll (seen lent.old) (Event.Abort session) }
    ensures { (fate : Fate) → Makes (lent_effect (seen lent.old) (Event.Abort session) fate) (seen lent.old) (seen lent.new) book.old.items book.new.items result }
{
    let mut own = lent.take_session(session.index());
    let made = abort_of(book, &mut own, session);
    lent.put_session(session.index(), own);
    made
}

pub(crate) fn vanish_among(
    lent: &mut Lent<'_>,
    book: &mut Book,
    session: SessionNo,
) -> Result<(), Stopped>
    requires all { HasAll (seen lent.old) (Event.Vanish session) }
    ensures { (fate : Fate) → Makes (lent_effect (seen lent.old) (Event.Vanish session) fate) (seen lent.old) (seen lent.new) book.old.items book.new.items result }
{
    let mut own = lent.take_session(session.index());
    let made = vanish_of(book, &mut own, session);
    lent.put_session(session.index(), own);
    made
}
