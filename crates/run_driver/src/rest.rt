// What the threads have left undone, made by this thread. Nothing is left but where a thread could not be made.
ghost use Rattle.std.specs.Prelude.{◌≡◌, ◌+◌, length, false, IfOk, OnOk};
ghost use Rattle.session_script.specs.Script.{data_of};
ghost use Rattle.run_driver.specs.Rounds.{steps_before, AreStill, IsWhole};
ghost use Rattle.run_driver.specs.Runs.{RunsTo};

use crate::round::{Round, ask, carry_on};
use cluster_core::Cluster;
use run_board::Board;
use stamp_base::{NoMemory, NodeNo, SessionNo, Setup, Stage};
use std::sync::Wait;
use std::sync::ledger::Ledger;
use std::thread::Parker;
use thread_steps::{ActorShare, ActorSteps, Steps};
use turn_rules::Turn;

/// What the board gives once nothing is left. NoMemory where memory is refused.
pub fn finish<L: Ledger, R: Wait>(
    rt: &R,
    setup: &Setup,
    board: Board<L>,
    shares: Vec<ActorShare<L>>,
) -> Result<(Cluster, Vec<Turn>), NoMemory>
    ensures { IfOk result (λ r. RunsTo (data_of board.script) r.0.history r.1.items) }
{
    let mut board = board;
    let mut shares = shares;
    for _ in rt.forever() {
        match board.finish(shares) {
            Ok(made) => return Ok(made),
            Err((again, rest)) => {
                board = again;
                shares = rest;
            }
        }
        let round = make_rest(rt, setup, &board, shares.as_mut_slice())?;
        if !round.made() {
            wait_for_ever(rt, setup, shares.as_slice(), &round);
        }
    }
    unreachable!()
}

// Nobody is there who makes what is waited for: all were asked, nothing was made, and no share came up.
fn wait_for_ever<L: Ledger, R: Wait>(rt: &R, setup: &Setup, shares: &[ActorShare<L>], round: &Round)
    requires whole { IsWhole setup.now.nodes (length shares.now) round.now }
    requires nothing { round.now.made ≡ false }
{
    let (_setup, _shares, _round) = (setup, shares, round);
    let parker = Parker::new();
    for _ in rt.forever() {
        parker.park(rt);
    }
}

// Every turn that may be made now: each actor goes as far as it can, and then each stage of each node is asked for a step for each
// session.
fn make_rest<L: Ledger, R: Wait, B: Steps + ActorSteps<L>>(
    rt: &R,
    setup: &Setup,
    board: &B,
    shares: &mut [ActorShare<L>],
) -> Result<Round, NoMemory>
    ensures whole { IfOk result (IsWhole setup.now.nodes (length shares.old)) }
    ensures risen { IfOk result (λ round. round.made ≡ false → AreStill shares.old shares.new) }
    ensures all { length shares.new ≡ length shares.old }
{
    let mut round = Round::none();
    for place in 0..shares.len() {
        let stands = carry_on(rt, board, setup.nodes, &mut shares[place])?;
        round.add_actor(&shares[place], stands);
    }
    for number in 0..setup.nodes {
        match NodeNo::new(number) {
            Some(node) => serve_node(rt, board, node, &mut round)?,
            None => unreachable!(),
        }
    }
    Ok(round)
}

// A step of each stage of the node for each session.
fn serve_node<R: Wait, B: Steps>(
    rt: &R,
    board: &B,
    node: NodeNo,
    round: &mut Round,
) -> Result<(), NoMemory>
    requires { round.old.steps ≡ steps_before node 0 }
    ensures steps { OnOk result (round.new.steps ≡ steps_before (node + 1) 0) }
    ensures actors { round.new.actors ≡ round.old.actors }
    ensures made { round.new.made ≡ false → round.old.made ≡ false }
{
    for number in 0..SessionNo::COUNT as u64 {
        match SessionNo::new(number) {
            Some(session) => serve_session(rt, board, node, session, round)?,
            None => unreachable!(),
        }
    }
    Ok(())
}

fn serve_session<R: Wait, B: Steps>(
    rt: &R,
    board: &B,
    node: NodeNo,
    session: SessionNo,
    round: &mut Round,
) -> Result<(), NoMemory>
    requires { round.old.steps ≡ steps_before node session }
    ensures steps { OnOk result (round.new.steps ≡ steps_before node (session + 1)) }
    ensures actors { round.new.actors ≡ round.old.actors }
    ensures made { round.new.made ≡ false → round.old.made ≡ false }
{
    round.add_step(ask(rt, board, node, session, Stage::Request)?);
    round.add_step(ask(rt, board, node, session, Stage::Persist)?);
    round.add_step(ask(rt, board, node, session, Stage::Reply)?);
    Ok(())
}
