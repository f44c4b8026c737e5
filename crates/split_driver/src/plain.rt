// The event with which a line opens that has no opening item.
ghost use Rattle.std.specs.Prelude.{◌≡◌, List, IfSome};
ghost use Rattle.split_stores.specs.declared.seat.Entry.{Entry};
ghost use Rattle.split_stores.specs.Logs.{CanRise, rise_of};
ghost use Rattle.log_refinement.specs.Follows as follows;

use history_book::Actor;
use script_data::Verb;
use split_stores::Event;
use stamp_base::{NodeNo, SessionNo};

/// The first event of a line of a form that has no opening item; none of another form, and none of a collect, which begins with the
/// event that its request is waiting for.
pub(crate) fn plain_event(actor: Actor, verb: &Verb) -> Option<Event>
    ensures value { result ≡ follows.plain_event actor verb.now }
    ensures rises { (entries : List Entry) → IfSome result (λ e. CanRise e entries) }
    ensures tick { IfSome result (λ e. rise_of e ≡ 0) }
{
    match actor {
        Actor::Clock => None,
        Actor::Node(node) => node_plain(node, verb),
        Actor::Session(session) => session_plain(session, verb),
        Actor::Janitor => janitor_plain(verb),
    }
}

fn node_plain(node: NodeNo, verb: &Verb) -> Option<Event>
    ensures value { result ≡ follows.node_plain node verb.now }
    ensures rises { (entries : List Entry) → IfSome result (λ e. CanRise e entries) }
    ensures tick { IfSome result (λ e. rise_of e ≡ 0) }
{
    match *verb {
        Verb::Extend => Some(Event::Extend { node }),
        Verb::Accept { session } => Some(Event::Accept { node, session }),
        Verb::Decide { session } => Some(Event::Decide { node, session }),
        Verb::Put { session } => Some(Event::Put { node, session }),
        Verb::Answer { session } => Some(Event::Answer { node, session }),
        _ => None,
    }
}

fn session_plain(session: SessionNo, verb: &Verb) -> Option<Event>
    ensures value { result ≡ follows.session_plain session verb.now }
    ensures rises { (entries : List Entry) → IfSome result (λ e. CanRise e entries) }
    ensures tick { IfSome result (λ e. rise_of e ≡ 0) }
{
    match verb {
        Verb::Abort => Some(Event::Abort { session }),
        Verb::Heal => Some(Event::Heal { session }),
        Verb::Step | Verb::Finish => Some(Event::Step { session }),
        _ => None,
    }
}

fn janitor_plain(verb: &Verb) -> Option<Event>
    ensures value { result ≡ follows.janitor_plain verb.now }
    ensures rises { (entries : List Entry) → IfSome result (λ e. CanRise e entries) }
    ensures tick { IfSome result (λ e. rise_of e ≡ 0) }
{
    match *verb {
        Verb::Sweep { node, txn } | Verb::OpenSweep { node, txn } => {
            Some(Event::SweepOpen { node, txn })
        }
        Verb::Step | Verb::Finish => Some(Event::SweepStep),
        _ => None,
    }
}
