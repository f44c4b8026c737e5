// The event with which a line opens.
ghost use Rattle.std.specs.Prelude.{◌≡◌, ◌≤◌, List, IfSome, is_some};
ghost use Rattle.script_data.specs.Ticks.{tick_of};
ghost use Rattle.command_semantics.specs.Answers.{has_opening};
ghost use Rattle.split_stores.specs.declared.seat.Entry.{Entry};
ghost use Rattle.split_stores.specs.Logs.{CanRise, rise_of};
ghost use Rattle.log_refinement.specs.Follows as follows;
ghost use Rattle.split_driver.specs.Runs.{CanOpen};

use history_book::{Actor, Note};
use script_data::{Target, Verb};
use split_stores::Event;
use stamp_base::{NodeNo, SessionNo};

/// The first event of a line of a form that has an opening item; none of another form.
pub fn first_event(actor: Actor, verb: &Verb) -> Option<Event>
    ensures value { result ≡ follows.first_event actor verb.now }
    ensures own { has_opening actor verb.now ≡ is_some result }
    ensures rises { (entries : List Entry) → CanOpen verb.now entries → IfSome result (λ e. CanRise e entries) }
    ensures tick { IfSome result (λ e. rise_of e ≤ tick_of verb.now) }
{
    match actor {
        Actor::Clock => clock_first(verb),
        Actor::Node(node) => node_first(node, verb),
        Actor::Session(session) => session_first(session, verb),
        Actor::Janitor => noted(actor, verb),
    }
}

fn clock_first(verb: &Verb) -> Option<Event>
    ensures value { result ≡ follows.first_event Actor.Clock verb.now }
    ensures own { has_opening Actor.Clock verb.now ≡ is_some result }
    ensures rises { (entries : List Entry) → CanOpen verb.now entries → IfSome result (λ e. CanRise e entries) }
    ensures tick { IfSome result (λ e. rise_of e ≤ tick_of verb.now) }
{
    match verb {
        Verb::Tick { by } => Some(Event::Tick { by: *by }),
        _ => noted(Actor::Clock, verb),
    }
}

fn node_first(node: NodeNo, verb: &Verb) -> Option<Event>
    ensures value { result ≡ follows.node_first node verb.now }
    ensures own { has_opening (Actor.Node node) verb.now ≡ is_some result }
    ensures rises { (entries : List Entry) → IfSome result (λ e. CanRise e entries) }
    ensures tick { IfSome result (λ e. rise_of e ≡ 0) }
{
    let actor = Actor::Node(node);
    match *verb {
        Verb::Take => Some(Event::Take { node }),
        Verb::Renew => Some(Event::Renew { node }),
        Verb::Crash => Some(Event::Crash { node }),
        Verb::Hold { stage } => Some(Event::Note {
            actor,
            note: Note::Hold(stage),
        }),
        Verb::Free { stage } => Some(Event::Note {
            actor,
            note: Note::Free(stage),
        }),
        _ => noted(actor, verb),
    }
}

fn session_first(session: SessionNo, verb: &Verb) -> Option<Event>
    ensures value { result ≡ follows.session_first session verb.now }
    ensures own { has_opening (Actor.Session session) verb.now ≡ is_some result }
    ensures rises { (entries : List Entry) → IfSome result (λ e. CanRise e entries) }
    ensures tick { IfSome result (λ e. rise_of e ≡ 0) }
{
    match *verb {
        Verb::Begin { target } => Some(Event::AskBegin { session, target }),
        Verb::AskBegin { node } => Some(Event::AskBegin {
            session,
            target: Target::Node(node),
        }),
        Verb::Commit { target } | Verb::Submit { target } => {
            Some(Event::AskCommit { session, target })
        }
        Verb::AskCommit { node } => Some(Event::AskCommit {
            session,
            target: Target::Node(node),
        }),
        Verb::Write { key, value } => Some(Event::Write {
            session,
            key,
            value,
        }),
        Verb::Read { key } | Verb::Fetch { key } => Some(Event::Fetch { session, key }),
        Verb::Vanish => Some(Event::Vanish { session }),
        _ => noted(Actor::Session(session), verb),
    }
}

/// An actor of any kind may post a name or await one.
fn noted(actor: Actor, verb: &Verb) -> Option<Event>
    ensures value { result ≡ follows.noted actor verb.now }
    ensures rises { (entries : List Entry) → IfSome result (λ e. CanRise e entries) }
    ensures tick { IfSome result (λ e. rise_of e ≡ 0) }
{
    match *verb {
        Verb::Post { name } => Some(Event::Note {
            actor,
            note: Note::Post(name),
        }),
        Verb::Await { name } => Some(Event::Note {
            actor,
            note: Note::Await(name),
        }),
        _ => None,
    }
}
