// The events of a script, made one after the other: a commit, and a reader that waits for it.
ghost use Rattle.std.specs.Prelude.{◌≡◌, ◌≤◌};
ghost use Rattle.split_stores.specs.Logs.{CanRise};

use history_book::{Actor, Note};
use script_data::Target;
use split_stores::{ActorSeat, Event, Made, OpenPartGate, Split};
use stamp_base::{KeyNo, Name, NodeNo, SessionNo, Value};
use std::alloc::Global;
use std::sync::Wait;

/// Makes the event. False where it was not done.
fn makes<R: Wait>(rt: &R, alloc: Global, split: &Split, seat: &mut ActorSeat, event: Event) -> bool
    requires word { seat.old.word ≡ split.now.id }
    requires rises { CanRise event seat.old.entries }
    ensures { seat.new.word ≡ split.now.id }
{
    match split.make(rt, alloc, seat, event, &OpenPartGate) {
        Made::Did => true,
        _ => false,
    }
}

/// The clock rises by so much. False where it was not done.
fn rises<R: Wait>(rt: &R, alloc: Global, split: &Split, seat: &mut ActorSeat, by: u64) -> bool
    requires word { seat.old.word ≡ split.now.id }
    requires by { (1 ≤ by) × (by ≤ 1000000) }
    ensures { seat.new.word ≡ split.now.id }
{
    seat.risen() < 1_000_000 && makes(rt, alloc, split, seat, Event::Tick { by })
}

/// By how much the clock has risen by two ticks and a note between them, as the seat tells. None where one of these was not done.
pub fn risen_twice<R: Wait>(
    rt: &R,
    alloc: Global,
    split: &Split,
    seat: &mut ActorSeat,
) -> Option<u64>
    requires { seat.old.word ≡ split.now.id }
{
    let noted = Event::Note {
        actor: Actor::Clock,
        note: Note::Post(Name::new("p1".as_bytes())?),
    };
    if rises(rt, alloc, split, seat, 12)
        && makes(rt, alloc, split, seat, noted)
        && rises(rt, alloc, split, seat, 30)
    {
        return Some(seat.risen());
    }
    None
}

/// One actor posts a name for which the other waits.
fn tells<R: Wait>(
    rt: &R,
    alloc: Global,
    split: &Split,
    seat: &mut ActorSeat,
    from: Actor,
    to: Actor,
    name: &str,
) -> bool
    requires { seat.old.word ≡ split.now.id }
    ensures { seat.new.word ≡ split.now.id }
{
    let Some(name) = Name::new(name.as_bytes()) else {
        return false;
    };
    let post = Event::Note {
        actor: from,
        note: Note::Post(name),
    };
    let awaits = Event::Note {
        actor: to,
        note: Note::Await(name),
    };
    makes(rt, alloc, split, seat, post) && makes(rt, alloc, split, seat, awaits)
}

fn begins<R: Wait>(
    rt: &R,
    alloc: Global,
    split: &Split,
    seat: &mut ActorSeat,
    session: SessionNo,
) -> bool
    requires { seat.old.word ≡ split.now.id }
    ensures { seat.new.word ≡ split.now.id }
{
    let node = NodeNo::FIRST;
    let target = Target::Node(node);
    makes(rt, alloc, split, seat, Event::AskBegin { session, target })
        && makes(rt, alloc, split, seat, Event::Accept { node, session })
        && makes(rt, alloc, split, seat, Event::Decide { node, session })
        && makes(rt, alloc, split, seat, Event::Answer { node, session })
}

/// The session writes the first key and commits, with its two steps of completion.
fn commits<R: Wait>(
    rt: &R,
    alloc: Global,
    split: &Split,
    seat: &mut ActorSeat,
    session: SessionNo,
    value: Value,
) -> bool
    requires { seat.old.word ≡ split.now.id }
    ensures { seat.new.word ≡ split.now.id }
{
    let (node, key) = (NodeNo::FIRST, KeyNo::FIRST);
    let target = Target::Node(node);
    makes(
        rt,
        alloc,
        split,
        seat,
        Event::Write {
            session,
            key,
            value,
        },
    ) && makes(rt, alloc, split, seat, Event::AskCommit { session, target })
        && makes(rt, alloc, split, seat, Event::Accept { node, session })
        && makes(rt, alloc, split, seat, Event::Decide { node, session })
        && makes(rt, alloc, split, seat, Event::Put { node, session })
        && makes(rt, alloc, split, seat, Event::Answer { node, session })
        && makes(rt, alloc, split, seat, Event::Step { session })
        && makes(rt, alloc, split, seat, Event::Step { session })
}

/// A session waits until the writer tells it, begins, and reads the first key.
fn reads<R: Wait>(
    rt: &R,
    alloc: Global,
    split: &Split,
    seat: &mut ActorSeat,
    writer: SessionNo,
    session: SessionNo,
) -> bool
    requires { seat.old.word ≡ split.now.id }
    ensures { seat.new.word ≡ split.now.id }
{
    let key = KeyNo::FIRST;
    tells(
        rt,
        alloc,
        split,
        seat,
        Actor::Session(writer),
        Actor::Session(session),
        "p2",
    ) && begins(rt, alloc, split, seat, session)
        && makes(rt, alloc, split, seat, Event::Fetch { session, key })
}

/// The node takes over and tells a session, which begins, writes and commits.
fn takes_and_commits<R: Wait>(
    rt: &R,
    alloc: Global,
    split: &Split,
    seat: &mut ActorSeat,
    session: SessionNo,
    value: Value,
) -> bool
    requires { seat.old.word ≡ split.now.id }
    ensures { seat.new.word ≡ split.now.id }
{
    let node = NodeNo::FIRST;
    makes(rt, alloc, split, seat, Event::Take { node })
        && tells(
            rt,
            alloc,
            split,
            seat,
            Actor::Node(node),
            Actor::Session(session),
            "p1",
        )
        && begins(rt, alloc, split, seat, session)
        && commits(rt, alloc, split, seat, session, value)
}

/// A session commits, and another reads what it wrote. False where one of the events was not done.
pub fn read_behind<R: Wait>(rt: &R, alloc: Global, split: &Split, seat: &mut ActorSeat) -> bool
    requires { seat.old.word ≡ split.now.id }
    ensures { seat.new.word ≡ split.now.id }
{
    let writer = SessionNo::FIRST;
    let Some(reader) = SessionNo::new(1) else {
        return false;
    };
    let Some(value) = Value::new("v".as_bytes()) else {
        return false;
    };
    takes_and_commits(rt, alloc, split, seat, writer, value)
        && reads(rt, alloc, split, seat, writer, reader)
}
