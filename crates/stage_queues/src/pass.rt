ghost use Rattle.std.specs.Prelude.{◌≡◌, ◌+◌, ◌≤◌, ◌^◌};
ghost use Rattle.stage_queues.specs.Passes.{IsPassOf, IsJoined, TellsAll};

use crate::node_pass::NodePass;
use crate::queues::Queues;
use std::marker::Model;

/// The right of one thread to use the queues. It counts the batches that the thread holds.
#[derive(Drop)]
pub struct StagePass {
    pub(crate) worker: u64,
    pub(crate) held: u64,
    pub(crate) nodes: Vec<NodePass>,
}

impl Model for StagePass {
    ghost use Rattle.stage_queues.specs.Passes.{StageAccount};

    ghost Value = { StageAccount };

    ghost view = { λ p. record { worker = p.worker; held = p.held; nodes = p.nodes.items } };
}

impl StagePass {
    /// For a persist worker's pass, the number of the worker at its node, from 0 on; for every other pass 0.
    pub fn worker(&self) -> u64
        ensures { result ≡ self.now.worker }
    {
        self.worker
    }

    /// How many batches were taken from a pool or received, and neither sent nor given back.
    pub fn held(&self) -> u64
        ensures { result ≡ self.now.held }
    {
        self.held
    }

    /// Joins two passes to one, which has what both have put and taken and holds what both hold.
    pub fn join(self, queues: &Queues, other: StagePass) -> StagePass
        requires queues { IsPassOf queues.now self × IsPassOf queues.now other }
        requires held { self.held + other.held ≤ 2 ^ 32 }
        ensures joined { IsJoined self other result }
        ensures queues { IsPassOf queues.now result }
        ensures tells { TellsAll result }
    {
        let mut mine = self.nodes;
        let mut theirs = other.nodes;
        queues.join_nodes(&mut mine, &mut theirs);
        StagePass {
            worker: 0,
            held: self.held + other.held,
            nodes: mine,
        }
    }
}
