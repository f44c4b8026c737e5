// The lines of an actor, carried out over split stores.
ghost use Rattle.std.specs.Prelude.{◌≡◌, ◌≤◌, [], IfErr, OnOk, length};
ghost use Rattle.stamp_base.specs.declared.limits.TheConstants.{LINE_LIMIT};
ghost use Rattle.log_refinement.specs.Follows.{FollowsLines, FollowsSome};
ghost use Rattle.split_driver.specs.Runs.{RiseInBounds, TellsDrawn};

use crate::account::Account;
use crate::player::Player;
use crate::{PlayStop, Posting};
use history_book::Actor;
use script_data::Line;
use split_stores::{ActorSeat, PartGate, Split};
use std::alloc::Global;
use std::sync::Wait;

/// Carries out those of a script's lines that are the actor's, one after the other, each to its end; an `await` waits until its
/// name is posted. What is logged follows these lines, and a front of them where the actor stops before the end. Then all that wait
/// are woken, and stop too. That the lines come to an end is not promised. It stops as a PlayStop says.
pub fn play_lines<R: Wait, G: PartGate>(
    rt: &R,
    alloc: Global,
    split: &Split,
    posting: &Posting,
    seat: &mut ActorSeat,
    actor: Actor,
    lines: &[Line],
    gate: &G,
) -> Result<(), PlayStop>
    requires word { seat.old.word ≡ split.now.id }
    requires fresh { seat.old.entries ≡ [] }
    requires few { length lines.now ≤ LINE_LIMIT }
    requires ticks { RiseInBounds lines.now }
    ensures word { seat.new.word ≡ seat.old.word }
    ensures follows { OnOk result (FollowsLines lines.now actor seat.new.entries) }
    ensures front { FollowsSome lines.now actor seat.new.entries }
    ensures spent { IfErr result (TellsDrawn seat.new.entries) }
{
    let player = Player {
        rt,
        alloc,
        split,
        posting,
        gate,
        actor,
    };
    let mut account = Account::new(alloc);
    let played = player.play_all(seat, &mut account, lines);
    if played.is_err() {
        posting.close(rt);
    }
    played
}
