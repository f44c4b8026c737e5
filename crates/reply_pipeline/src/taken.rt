// A ticket that was taken from the queue, and what becomes of it.
ghost use Rattle.std.specs.Prelude.{◌≡◌, true, IsSomeAnd};
ghost use Rattle.stamp_base.specs.declared.stage.Stage.TheVariants.{Request};
ghost use Rattle.history_book.specs.declared.item.Actor.TheVariants.{Session};
ghost use Rattle.stage_queues.specs.declared.spot.Row.TheVariants.{Actors};
ghost use Rattle.stage_queues.specs.Places.{place_of};
ghost use Rattle.stage_queues.specs.Spots.{spot, whom};
ghost use Rattle.reply_pipeline.specs.Requesting.{ticket_of};
ghost use Rattle.reply_pipeline.specs.Serving.{ends};
ghost use Rattle.reply_pipeline.specs.Telling.{IsSaidFor};

use crate::desk::Loose;
use crate::ending::Ending;
use crate::said::Said;
use stage_queues::{Heard, Rung, Ticket};
use std::marker::Model;

/// A ticket whose request is neither drawn nor ended. It can't be let go: none is lost while its stage is held.
pub struct Taken {
    ticket: Ticket,
}

impl Model for Taken {
    ghost use Rattle.request_rule.specs.declared.account.Ticket.{Ticket};

    ghost Value = { Ticket };

    ghost view = { λ t. t.ticket };
}

impl Taken {
    /// A ticket was received, and the sessions know that there is room.
    pub fn of(ticket: Ticket, heard: Heard) -> Taken
        requires { heard.whom.row ≡ Actors }
        ensures { result ≡ ticket }
    {
        let _heard = heard;
        Taken { ticket }
    }

    /// The ticket.
    pub fn ticket(&self) -> Ticket
        ensures { result ≡ self.now }
    {
        self.ticket
    }

    /// Its request is drawn, and its session knows that.
    pub fn drawn(self, said: Said, loose: &Loose, heard: Heard)
        requires said { IsSaidFor Request self said }
        requires entry { IsSomeAnd loose.now.entry (λ entry. ticket_of entry ≡ self) }
        requires heard { heard.whom ≡ whom Actors (place_of (Session self.session)) 1 }
    {
        said.heeded();
        let _loose = loose;
        let _heard = heard;
        let Taken { ticket: _ticket } = self;
    }

    /// Its request has ended, or is not there any more, and its session was woken.
    pub fn ended(self, said: Said, rung: Rung)
        requires said { IsSaidFor Request self said }
        requires ends { ends said.step ≡ true }
        requires rung { rung.spot ≡ spot Actors (place_of (Session self.session)) }
    {
        said.heeded();
        let _rung = rung;
        let Taken { ticket: _ticket } = self;
    }

    /// The stage ends before that.
    pub fn left(self, ending: Ending) -> Ending {
        let Taken { ticket: _ticket } = self;
        ending
    }
}

/// The ticket that is left, if one is, stays so where the stage ends.
pub fn leave(left: Option<Taken>, ending: Ending) -> Ending {
    match left {
        Some(ticket) => ticket.left(ending),
        None => ending,
    }
}
