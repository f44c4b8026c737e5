ghost use Rattle.std.specs.Prelude.{◌≡◌, ◌+◌, ◌-◌, ◌<◌, ◌∷◌, ◌++◌, true, List, [], length, replicate, map, vec_len, All, IfOk, OnOk};
ghost use Rattle.std.specs.List.{range_with_len};
ghost use Rattle.queue_passes.specs.Holds.{holds, whole};
ghost use Rattle.request_rule.specs.Accounts.{request_account};
ghost use Rattle.batch_rule.specs.Accounts.{batch_account, first_account as first_batches};
ghost use Rattle.settled_rule.specs.Accounts.{settled_account, first_account as first_settled};
ghost use Rattle.stage_queues.specs.NodePasses.{nothing};
ghost use Rattle.stage_queues.specs.Opening.{opened_passes, node_passes, session_passes, stage_pass, worker_pass, HasRoom, IsNew};
ghost use Rattle.stage_queues.specs.Halfway.{IsOpening, AreRoots};
ghost use Rattle.stage_queues.specs.Plan.{NodeRings, AreNumbered};

use crate::batch_queue::BatchQueue;
use crate::bell::Watchers;
use crate::buffers::Buffers;
use crate::gathering::AtWork;
use crate::node::NodeQueues;
use crate::node_pass::NodePass;
use crate::pass::StagePass;
use crate::queues::Queues;
use crate::request_queue::RequestQueue;
use crate::settled_queue::SettledQueue;
use crate::sizes::{REQUEST_ROOM, Sizes};
use crate::spot::Row;
use crate::waiting::{ACTORS, places};
use batch_rule::{BatchPass, BatchRing};
use request_rule::{RequestPass, RequestRing};
use settled_rule::{SettledPass, SettledRing};
use stamp_base::{NoMemory, Setup};
use std::alloc::Global;
use std::sync::Mutex;
use std::sync::atomic::AtomicBool;

/// The first passes of a node's rings, of which all others are made.
#[derive(Drop)]
pub struct Roots {
    requests: RequestPass,
    batches: BatchPass,
    settled: SettledPass,
}

/// The queues and passes of the nodes that are opened so far.
#[derive(Drop)]
pub struct Opening {
    queues: Vec<NodeQueues>,
    passes: Vec<StagePass>,
    sessions: Vec<StagePass>,
}

impl Queues {
    /// The queues of a setup's nodes, and all passes: node by node that of the request stage, of each persist worker and of the
    /// reply stage, and then so many for threads of sessions, each of which reaches the request queue of every node. All memory of
    /// the queues, pools and passes is taken here. NoMemory where memory is refused.
    pub fn open(
        alloc: Global,
        setup: &Setup,
        senders: usize,
    ) -> Result<(Queues, Vec<StagePass>), NoMemory>
        ensures nodes { IfOk result (λ opened. length opened.0.nodes ≡ setup.now.nodes) }
        ensures numbered { IfOk result (λ opened. AreNumbered opened.0.nodes) }
        ensures buffers { IfOk result (λ opened. opened.0.buffers ≡ setup.now.workers + 2) }
        ensures direct { IfOk result (λ opened. opened.0.direct ≡ setup.now.direct) }
        ensures room { IfOk result (λ opened. All (HasRoom opened.0.buffers) opened.0.nodes) }
        ensures passes { IfOk result (λ opened. opened.1.items ≡ opened_passes setup.now.nodes setup.now.workers senders opened.0.nodes) }
        ensures new { IfOk result (λ opened. All (IsNew opened.0) opened.1.items) }
    {
        let sizes = Sizes::of(setup, senders);
        let mut opening = Opening::start(alloc, &sizes)?;
        for _node in 0..sizes.nodes {
            opening.add_node(alloc, &sizes)?;
        }
        opening.finish(alloc, &sizes)
    }
}

impl Opening {
    fn start(alloc: Global, sizes: &Sizes) -> Result<Opening, NoMemory>
        ensures opening { IfOk result (IsOpening sizes.now) }
        ensures none { IfOk result (λ opening. vec_len opening.queues ≡ 0) }
    {
        Ok(Opening {
            queues: Vec::with_capacity(alloc, sizes.nodes)?,
            passes: Vec::new(alloc),
            sessions: unreached(alloc, sizes)?,
        })
    }

    /// Opens the queues of the next node, and makes the passes of its stages and what the sessions' passes have at it.
    fn add_node(&mut self, alloc: Global, sizes: &Sizes) -> Result<(), NoMemory>
        requires opening { IsOpening sizes.now self.old }
        requires left { vec_len self.old.queues < sizes.now.nodes }
        ensures opening { OnOk result (IsOpening sizes.now self.new) }
        ensures more { OnOk result (vec_len self.new.queues ≡ vec_len self.old.queues + 1) }
    {
        let node = self.queues.len();
        let (queues, mut roots) = open_node(alloc, node, sizes)?;
        reach(&queues, &mut roots.requests, &mut self.sessions)?;
        let mut passes = stage_passes(alloc, sizes, &queues, roots)?;
        self.passes.append(&mut passes)?;
        self.queues.push(queues)?;
        Ok(())
    }

    fn finish(self, alloc: Global, sizes: &Sizes) -> Result<(Queues, Vec<StagePass>), NoMemory>
        requires opening { IsOpening sizes.now self }
        requires whole { vec_len self.queues ≡ sizes.now.nodes }
        ensures new { IfOk result (λ opened. All (IsNew opened.0) opened.1.items) }
        ensures numbered { IfOk result (λ opened. AreNumbered opened.0.nodes) }
        ensures room { IfOk result (λ opened. All (HasRoom opened.0.buffers) opened.0.nodes) }
        ensures queues { IfOk result (λ opened. (opened.0.nodes ≡ self.queues.items) × (opened.0.buffers ≡ sizes.now.workers + 2) × (opened.0.direct ≡ sizes.now.direct)) }
        ensures passes { IfOk result (λ opened. opened.1.items ≡ opened_passes sizes.now.nodes sizes.now.workers sizes.now.senders self.queues.items) }
    {
        let mut passes = self.passes;
        let mut sessions = self.sessions;
        passes.append(&mut sessions)?;
        let queues = Queues {
            nodes: self.queues,
            buffers: sizes.workers + 2,
            direct: sizes.direct,
            actors: places(alloc, Row::Actors, ACTORS)?,
            at_work: AtWork::all(sizes.senders),
            closed: AtomicBool::new(false),
            watchers: Watchers::none(),
        };
        Ok((queues, passes))
    }
}

/// A node's queues and pool, and the first passes of its rings.
fn open_node(alloc: Global, node: usize, sizes: &Sizes) -> Result<(NodeQueues, Roots), NoMemory>
    ensures node { IfOk result (λ opened. opened.0.node ≡ node) }
    ensures room { IfOk result (λ opened. HasRoom (sizes.now.workers + 2) opened.0) }
    ensures roots { IfOk result (λ opened. AreRoots 0 opened.0 opened.1) }
{
    let buffers = sizes.workers + 2;
    let (requests, first_requests) = RequestRing::open(alloc, REQUEST_ROOM)?;
    let (batches, first_batches) = BatchRing::open(alloc, buffers)?;
    let (settled, first_settled) = SettledRing::open(alloc, buffers)?;
    let pool = Buffers::open(alloc, sizes)?;
    let readers = places(alloc, Row::Workers(node), sizes.workers)?;
    let queues = NodeQueues {
        requests: RequestQueue::new(node, requests, sizes.enough()),
        batches: BatchQueue::new(node, batches, readers),
        settled: SettledQueue::new(node, settled, sizes.workers),
        buffers: Mutex::new(pool),
    };
    let roots = Roots {
        requests: first_requests,
        batches: first_batches,
        settled: first_settled,
    };
    Ok((queues, roots))
}

/// The sessions' passes before any node is opened.
fn unreached(alloc: Global, sizes: &Sizes) -> Result<Vec<StagePass>, NoMemory>
    ensures { IfOk result (λ sessions. sessions.items ≡ session_passes sizes.now.senders []) }
{
    let mut sessions = Vec::with_capacity(alloc, sizes.senders)?;
    for _sender in 0..sizes.senders {
        let nodes = Vec::with_capacity(alloc, sizes.nodes)?;
        sessions.push(StagePass {
            worker: 0,
            held: 0,
            nodes,
        })?;
    }
    Ok(sessions)
}

/// Lets each session's pass reach one node more.
fn reach(
    queues: &NodeQueues,
    root: &mut RequestPass,
    sessions: &mut Vec<StagePass>,
) -> Result<(), NoMemory>
    requires { root.old ≡ holds queues.now.requests.id (request_account true 0 [] []) }
    ensures root { OnOk result (root.new ≡ holds queues.now.requests.id (request_account true (vec_len sessions.old) [] [])) }
    ensures sessions { OnOk result ((rings : List NodeRings) → sessions.old.items ≡ session_passes (vec_len sessions.old) rings → sessions.new.items ≡ session_passes (vec_len sessions.old) (rings ++ queues.now ∷ [])) }
{
    for i in 0..sessions.len() {
        let pass = queues.requests.ring.sender(root);
        sessions[i].nodes.push(NodePass {
            requests: Some(pass),
            batches: None,
            settled: None,
        })?;
    }
    Ok(())
}

/// The passes of a node's stages.
fn stage_passes(
    alloc: Global,
    sizes: &Sizes,
    queues: &NodeQueues,
    roots: Roots,
) -> Result<Vec<StagePass>, NoMemory>
    requires node { queues.now.node < sizes.now.nodes }
    requires roots { AreRoots sizes.now.senders queues.now roots }
    ensures { IfOk result (λ passes. passes.items ≡ node_passes sizes.now.nodes sizes.now.workers sizes.now.senders queues.now) }
{
    let Roots {
        requests,
        mut batches,
        mut settled,
    } = roots;
    let mut workers = worker_passes(alloc, sizes, queues, &mut batches, &mut settled)?;
    let mut passes = Vec::with_capacity(alloc, sizes.workers + 2)?;
    let first = NodePass {
        requests: Some(requests),
        batches: Some(batches),
        settled: None,
    };
    passes.push(one_node_pass(alloc, sizes, queues, 0, first)?)?;
    passes.append(&mut workers)?;
    let last = NodePass {
        requests: None,
        batches: None,
        settled: Some(settled),
    };
    passes.push(one_node_pass(alloc, sizes, queues, 0, last)?)?;
    Ok(passes)
}

/// The passes of a node's workers, each of which gets a part of both roots.
fn worker_passes(
    alloc: Global,
    sizes: &Sizes,
    queues: &NodeQueues,
    batches: &mut BatchPass,
    settled: &mut SettledPass,
) -> Result<Vec<StagePass>, NoMemory>
    requires node { queues.now.node < sizes.now.nodes }
    requires batches { batches.old ≡ holds queues.now.batches.id first_batches }
    requires settled { settled.old ≡ holds queues.now.settled.id first_settled }
    ensures passes { IfOk result (λ passes. passes.items ≡ map (worker_pass sizes.now.nodes queues.now) (range_with_len 0 sizes.now.workers)) }
    ensures batches { OnOk result (batches.new ≡ holds queues.now.batches.id (batch_account true (whole - sizes.now.workers) [] [] [])) }
    ensures settled { OnOk result (settled.new ≡ holds queues.now.settled.id (settled_account (whole - sizes.now.workers) [] [])) }
{
    let mut passes = Vec::with_capacity(alloc, sizes.workers)?;
    for worker in 0..sizes.workers {
        let part = NodePass {
            requests: None,
            batches: Some(queues.batches.ring.worker(batches)),
            settled: Some(queues.settled.ring.further(settled)),
        };
        passes.push(one_node_pass(alloc, sizes, queues, worker, part)?)?;
    }
    Ok(passes)
}

/// A pass that has something at one node alone.
fn one_node_pass(
    alloc: Global,
    sizes: &Sizes,
    queues: &NodeQueues,
    worker: usize,
    part: NodePass,
) -> Result<StagePass, NoMemory>
    requires { queues.now.node < sizes.now.nodes }
    ensures { IfOk result (λ pass. pass ≡ stage_pass sizes.now.nodes queues.now.node worker part) }
{
    let mut nodes = nothing_each(alloc, sizes.nodes)?;
    nodes[queues.requests.node] = part;
    Ok(StagePass {
        worker: worker as u64,
        held: 0,
        nodes,
    })
}

fn nothing_each(alloc: Global, count: usize) -> Result<Vec<NodePass>, NoMemory>
    ensures { IfOk result (λ nodes. nodes.items ≡ replicate count nothing) }
{
    let mut nodes = Vec::with_capacity(alloc, count)?;
    for _node in 0..count {
        nodes.push(NodePass::nothing())?;
    }
    Ok(nodes)
}
