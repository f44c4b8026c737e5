// Making one event of a script run.
ghost use Rattle.std.specs.Prelude.{◌≡◌, ◌+◌, ◌<◌, ◌≤◌, IfOk, IfSome, IsOk, OnOk, Some, true, false, drop, length, option_map, slice_index_or, slice_set, vec_len};
ghost use Rattle.std.specs.Vec.{vec_capacity};
ghost use Rattle.session_script.specs.PostedNames.{is_posted, names_after, posts, with_name};
ghost use Rattle.turn_rules.specs.Carried.{event_of};
ghost use Rattle.turn_rules.specs.Lawful.{IsFree, IsInPlace, stage_of};
ghost use Rattle.cluster_core.specs.Served.{NeverLacksIf, most_reserved};
ghost use Rattle.run_board.specs.Run.{reached_by};
ghost use Rattle.run_board.specs.Making.{Makes, halted, is_told, finds_no_stamp, lacking_after, cleared, serves};

use crate::ScriptRun;
use crate::marks::note_stage;
use crate::seated::{go_on, pass_touched};
use command_semantics::{Interruption, refused};
use history_book::Item;
use machine::Event;
use planned_cluster::Stopped;
use session_script::PostedNames;
use stamp_base::{NoMemory, NodeNo};
use turn_rules::{
    Turn, own_turns_are_told, quiet_turns_change_nothing, stage_turns_are_told, was_asked,
};

impl ScriptRun {
    /// Makes the event of a turn that may be made. A turn whose event appends nothing is not told, and leaves all as it was. A turn
    /// that serves a request takes no memory.
    pub(crate) fn make(&mut self, turn: Turn, event: &Event) -> Result<(), Stopped>
        requires event { event_of self.old.script (reached_by self.old) turn ≡ Some event.now }
        requires free { IsFree (reached_by self.old).held (stage_of turn) }
        requires in_place { IsInPlace (reached_by self.old).played.state turn }
        ensures made { Makes self.old turn event.now result self.new }
        ensures served { NeverLacksIf (serves turn) result }
    {
        own_turns_are_told();
        stage_turns_are_told();
        quiet_turns_change_nothing();
        let spare = self.planned.cluster.spare();
        let Ok(name) = make_room(&mut self.turns, &mut self.names, spare, &turn, event) else {
            return Err(Stopped::NoMemory);
        };
        let before = self.planned.cluster.history().len();
        let answer = self.planned.make(event);
        let Some(halt) = halted(&answer) else {
            return answer;
        };
        let items = since(self.planned.cluster.history(), before);
        if !is_told(event, items) {
            note_lack(&mut self.lacking, &turn, halt);
            return answer;
        }
        let asked = was_asked(items);
        self.names.add(name);
        note_stage(&mut self.held, event);
        go_on(&mut self.seated, &turn, halt, asked);
        pass_touched(
            &self.planned,
            self.script.leads.as_slice(),
            &mut self.seated,
            &turn,
        );
        clear_lacks(&mut self.lacking);
        self.turns.push_reserved(turn);
        note_lack(&mut self.lacking, &turn, halt);
        answer
    }
}

/// Room for the turn, and for the name that the event posts, which is given. A turn that serves a request takes no memory.
fn make_room(
    turns: &mut Vec<Turn>,
    names: &mut PostedNames,
    spare: usize,
    turn: &Turn,
    event: &Event,
) -> Result<Option<Vec<u8>>, NoMemory>
    requires { vec_len turns.old + spare ≤ vec_capacity turns.old }
    ensures turns { turns.new.items ≡ turns.old.items }
    ensures names { names.new.names ≡ names.old.names }
    ensures kept { vec_len turns.new + spare ≤ vec_capacity turns.new }
    ensures room { OnOk result (serves turn.now ≡ false → vec_len turns.new + spare + most_reserved event.now + 1 ≤ vec_capacity turns.new) }
    ensures free { serves turn.now ≡ true → posts event.now ≡ false → IsOk result }
    ensures posting { IfOk result (λ name. IfSome name (λ n. 0 < names.new.room)) }
    ensures name { IfOk result (λ name. with_name names.old.names (option_map (λ n. n.items) name) ≡ names_after names.old.names event.now) }
    ensures absent { IfOk result (λ name. IfSome name (λ n. is_posted names.new.names n.items ≡ false)) }
{
    reserve_turns(turns, spare, turn, event)?;
    names.make_room(event)
}

/// Room for the turn beside that for what is kept for requests in flight, and for as much as an accept will keep for its request.
/// A turn that serves a request has its room there.
fn reserve_turns(
    turns: &mut Vec<Turn>,
    spare: usize,
    turn: &Turn,
    event: &Event,
) -> Result<(), NoMemory>
    requires { vec_len turns.old + spare ≤ vec_capacity turns.old }
    ensures turns { turns.new.items ≡ turns.old.items }
    ensures kept { vec_len turns.new + spare ≤ vec_capacity turns.new }
    ensures room { OnOk result (serves turn.now ≡ false → vec_len turns.new + spare + most_reserved event.now + 1 ≤ vec_capacity turns.new) }
    ensures free { serves turn.now ≡ true → IsOk result }
{
    if serves(turn) {
        return Ok(());
    }
    let both = spare.checked_add(most_reserved(event) + 1).ok_or(NoMemory)?;
    turns.reserve(both)?;
    Ok(())
}

/// Whether the turn serves a request that was accepted.
fn serves(turn: &Turn) -> bool
    ensures { result ≡ serves turn.now }
{
    matches!(
        turn,
        Turn::Decide { .. } | Turn::Put { .. } | Turn::Answer { .. }
    )
}

/// How many items an event may reserve for a request.
fn most_reserved(event: &Event) -> usize
    ensures value { result ≡ most_reserved event.now }
    ensures few { result ≤ 5 }
{
    match event {
        Event::Accept { .. } => 5,
        _ => 0,
    }
}

/// The items of a history from this place on.
pub(crate) fn since(items: &[Item], before: usize) -> &[Item]
    requires { before ≤ length items.now }
    ensures { result.now ≡ drop before items.now }
{
    &items[before..]
}

/// How an event stopped, if it was made.
fn halted(answer: &Result<(), Stopped>) -> Option<Option<Interruption>>
    ensures { result ≡ halted answer.now }
{
    match answer {
        Ok(()) => Some(None),
        Err(Stopped::Refused(cause)) => Some(Some(refused(cause))),
        Err(Stopped::StoreFault(_)) => Some(Some(Interruption::Faulted)),
        Err(Stopped::NoMemory) => None,
    }
}

/// An event that appends nothing is not told, unless it opens a sweep.
fn is_told(event: &Event, items: &[Item]) -> bool
    ensures { result ≡ is_told event.now items.now }
{
    match event {
        Event::SweepOpen { .. } => true,
        _ => !items.is_empty(),
    }
}

/// Notes that a decision of the node has found no stamp.
fn note_lack(lacking: &mut Vec<bool>, turn: &Turn, halt: Option<Interruption>)
    ensures { lacking.new.items ≡ lacking_after lacking.old.items turn.now halt }
{
    let Turn::Decide { node, .. } = turn else {
        return;
    };
    if finds_no_stamp(&halt) {
        set_lack(lacking, *node);
    }
}

fn finds_no_stamp(halt: &Option<Interruption>) -> bool
    ensures { result ≡ finds_no_stamp halt.now }
{
    matches!(halt, Some(Interruption::NoStamp))
}

fn set_lack(lacking: &mut Vec<bool>, node: NodeNo)
    ensures { lacking.new.items ≡ slice_set lacking.old.items node true }
{
    let number = node.index();
    if number < lacking.len() {
        lacking[number] = true;
    }
}

/// Whether the node's last decision found no stamp.
pub(crate) fn is_lacking(lacking: &[bool], node: &NodeNo) -> bool
    ensures { result ≡ slice_index_or lacking.now node.now false }
{
    match lacking.get(node.index()) {
        Some(lacks) => *lacks,
        None => false,
    }
}

/// No node is noted to lack stamps.
fn clear_lacks(lacking: &mut Vec<bool>)
    ensures { lacking.new.items ≡ cleared lacking.old.items }
{
    for number in 0..lacking.len() {
        lacking[number] = false;
    }
}
