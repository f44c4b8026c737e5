ghost use Rattle.std.specs.Prelude.{◌≡◌};
ghost use Rattle.turn_rules.specs.Seats as seats;
ghost use Rattle.turn_rules.specs.Carried.{none_held, is_held, with_stage};

use command_semantics::{Interruption, Point, follows};
use history_book::{Actor, Item};
use script_data::Verb;
use stamp_base::Stage;

/// How far an actor has come with its lines.
#[derive(Clone, Copy, Debug, PartialEq, Eq)]
pub struct Seat {
    /// The actor.
    pub actor: Actor,
    /// So many of the actor's lines are passed.
    pub place: usize,
    /// Where the run of its present line stands.
    pub point: Point,
    /// The last ask of the session was made, and no later line has waited for its answer.
    pub unawaited: bool,
}

impl Seat {
    /// Before the actor's first line.
    pub fn first(actor: Actor) -> Seat
        ensures { result ≡ seats.first_seat actor }
    {
        Seat {
            actor,
            place: 0,
            point: Point::Opens,
            unawaited: false,
        }
    }

    /// Goes on after an event of the present line, by how the event stopped, if it did, and by whether it asked.
    pub fn go_on(&mut self, verb: &Verb, halt: Option<Interruption>, asked: bool)
        ensures { self.new ≡ seats.gone_on verb.now halt asked self.old }
    {
        self.point = follows(verb, self.point, halt);
        self.unawaited = self.unawaited || asked;
    }
}

/// Whether an ask stands among the items.
pub fn was_asked(items: &[Item]) -> bool
    ensures { result ≡ seats.was_asked items.now }
{
    items.iter().any(is_ask)
}

fn is_ask(item: &Item) -> bool
    ensures { result ≡ seats.is_ask item.now }
{
    matches!(item, Item::AskBegin { .. } | Item::AskCommit { .. })
}

/// Which stages of a node are held.
#[derive(Clone, Copy, Debug, PartialEq, Eq)]
pub struct Holds {
    /// Whether the request stage is.
    pub request: bool,
    /// Whether the persist stage is.
    pub persist: bool,
    /// Whether the reply stage is.
    pub reply: bool,
}

impl Holds {
    /// No stage is.
    pub fn none() -> Holds
        ensures { result ≡ none_held }
    {
        Holds {
            request: false,
            persist: false,
            reply: false,
        }
    }

    /// Whether the stage is held.
    pub fn is_held(&self, stage: Stage) -> bool
        ensures { result ≡ is_held self.now stage }
    {
        match stage {
            Stage::Request => self.request,
            Stage::Persist => self.persist,
            Stage::Reply => self.reply,
        }
    }

    /// Holds the stage, or frees it.
    pub fn set(&mut self, stage: Stage, held: bool)
        ensures { self.new ≡ with_stage self.old stage held }
    {
        match stage {
            Stage::Request => self.request = held,
            Stage::Persist => self.persist = held,
            Stage::Reply => self.reply = held,
        }
    }
}
