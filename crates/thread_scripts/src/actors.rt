// Actors with lines, and the parts of a ledger for them.
ghost use Rattle.std.specs.Prelude.{◌≡◌, ◌+◌, ◌<◌, ◌≤◌, IfOk, OnOk, vec_len};
ghost use Rattle.stamp_base.specs.Ranges.{IsNode, IsSession};
ghost use Rattle.history_book.specs.declared.item.Actor.TheVariants.{Node, Session};
ghost use Rattle.session_script.specs.Script.{data_of};
ghost use Rattle.thread_steps.specs.Done.{parts_for};
ghost use Rattle.thread_scripts.specs.Actors.{has_lines, with_actor, actors_of};

use history_book::Actor;
use session_script::Script;
use stamp_base::{NoMemory, NodeNo, SessionNo};
use std::alloc::Global;

/// The actors with lines, in the order clock, janitor, nodes, sessions. NoMemory where memory is refused.
pub fn actors_with_lines(alloc: Global, script: &Script) -> Result<Vec<Actor>, NoMemory>
    ensures actors { IfOk result (λ actors. actors.items ≡ actors_of (data_of script.now)) }
    ensures few { IfOk result (λ actors. vec_len actors ≤ 26) }
{
    let mut actors = Vec::new(alloc);
    add_actor(script, &Actor::Clock, &mut actors)?;
    add_actor(script, &Actor::Janitor, &mut actors)?;
    for node in 0..script.setup.nodes {
        add_node(script, node, &mut actors)?;
    }
    for session in 0..SessionNo::COUNT as u64 {
        add_session(script, session, &mut actors)?;
    }
    Ok(actors)
}

/// So many parts a ledger has for the script's actors with lines; it has one where there is no such actor. NoMemory where memory is
/// refused.
pub fn parts_of(alloc: Global, script: &Script) -> Result<u64, NoMemory>
    ensures parts { IfOk result (λ n. n ≡ parts_for (actors_of (data_of script.now))) }
    ensures some { IfOk result (λ n. 0 < n) }
{
    let actors = actors_with_lines(alloc, script)?;
    Ok(parts_for(actors.as_slice()))
}

fn parts_for(actors: &[Actor]) -> u64
    ensures parts { result ≡ parts_for actors.now }
    ensures some { 0 < result }
{
    if actors.is_empty() {
        1
    } else {
        actors.len() as u64
    }
}

fn add_node(script: &Script, node: u64, actors: &mut Vec<Actor>) -> Result<(), NoMemory>
    requires { IsNode node }
    ensures added { OnOk result (actors.new.items ≡ with_actor (data_of script.now) (Node node) actors.old.items) }
    ensures one { OnOk result (vec_len actors.new ≤ vec_len actors.old + 1) }
{
    match NodeNo::new(node) {
        Some(node) => add_actor(script, &Actor::Node(node), actors),
        None => Ok(()),
    }
}

fn add_session(script: &Script, session: u64, actors: &mut Vec<Actor>) -> Result<(), NoMemory>
    requires { IsSession session }
    ensures added { OnOk result (actors.new.items ≡ with_actor (data_of script.now) (Session session) actors.old.items) }
    ensures one { OnOk result (vec_len actors.new ≤ vec_len actors.old + 1) }
{
    match SessionNo::new(session) {
        Some(session) => add_actor(script, &Actor::Session(session), actors),
        None => Ok(()),
    }
}

/// The actor behind the others, if it has lines.
fn add_actor(script: &Script, actor: &Actor, actors: &mut Vec<Actor>) -> Result<(), NoMemory>
    ensures added { OnOk result (actors.new.items ≡ with_actor (data_of script.now) actor.now actors.old.items) }
    ensures one { OnOk result (vec_len actors.new ≤ vec_len actors.old + 1) }
{
    if has_lines(script, actor) {
        actors.extend_from_slice(&[*actor])?;
    }
    Ok(())
}

fn has_lines(script: &Script, actor: &Actor) -> bool
    ensures { result ≡ has_lines (data_of script.now) actor.now }
{
    script.lines.iter().any(|line| line.actor == *actor)
}
