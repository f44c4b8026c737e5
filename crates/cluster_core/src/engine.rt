// All parts of the system with the history that led to them. It knows nothing of isolation.
ghost use Rattle.std.specs.Prelude.{◌≡◌, [], IfOk, None, replicate};
ghost use Rattle.stamp_base.specs.Setups.{numbers_of};
ghost use Rattle.machine.specs.State.{opening, client_new};
ghost use Rattle.machine.specs.Machine.{asks};
ghost use Rattle.event_parts.specs.Made.{Asks};
ghost use Rattle.cluster_core.specs.ClusterModel.{MakesStep, step_under};
ghost use Rattle.cluster_core.specs.Required.{CanMake};
ghost use Rattle.cluster_core.specs.Seen.{seen_made};
ghost use Rattle.cluster_core.specs.Served.{HasRoomFor, LeavesRoom, NeverLacksIf, is_served};

use cell_store::Cells;
use commit_table::Table;
use event_parts::{Client, Stopped};
use history_book::{Book, Item};
use invalidator::Sweep;
use machine::Event;
use master_record::Master;
use port_io::Weather;
use stamp_base::{NoMemory, SessionNo, Setup};
use std::alloc::Global;
use std::marker::Model;
use takeover_core::Post;

/// The setup, the clients, the nodes' instances, the open sweep, the stores, and the history.
#[derive(Drop)]
pub struct ClusterState {
    pub(crate) alloc: Global,
    pub(crate) setup: Setup,
    // The greatest reading that was handed in.
    pub(crate) seen: u64,
    // One for each session, by its number.
    pub(crate) clients: Vec<Client>,
    // One for each node of the setup, by its number.
    pub(crate) posts: Vec<Post>,
    pub(crate) sweep: Option<Sweep>,
    pub(crate) cells: Cells,
    pub(crate) table: Table,
    pub(crate) master: Master,
    pub(crate) book: Book,
}

impl Model for ClusterState {
    ghost use Rattle.cluster_core.specs.ClusterModel.{ClusterModel};
    ghost use Rattle.cluster_core.specs.Codes.{whole_code};

    ghost Value = { ClusterModel };

    ghost coded = { whole_code };

    ghost use Rattle.cluster_core.specs.Fields.{whole_of, IsFitted};

    ghost view = { whole_of };

    ghost invariant = { IsFitted };
}

impl ClusterState {
    /// The record is free, the stores are empty, no node has an instance, all sessions are free, and the history is empty. NoMemory
    /// where memory is refused.
    pub fn open(alloc: Global, setup: Setup) -> Result<ClusterState, NoMemory>
        ensures state { IfOk result (λ made. made.state ≡ opening (numbers_of setup)) }
        ensures history { IfOk result (λ made. made.history ≡ []) }
        ensures spare { IfOk result (λ made. made.spare ≡ 0) }
    {
        Ok(ClusterState {
            alloc,
            setup,
            seen: 0,
            clients: free_clients(alloc, setup.cache)?,
            posts: vacant_posts(alloc, setup.nodes)?,
            sweep: None,
            cells: Cells::new(alloc),
            table: Table::new(alloc),
            master: Master::free(setup.lease, setup.skew, setup.range),
            book: Book::new(alloc),
        })
    }

    /// The event is one step of the machine, as far as its calls on the parts may be made. A node that is none of the setup's has
    /// no part in the system, and nothing happens there. Refused where the machine refuses it, StoreFault where the store that it
    /// asks fails, and NoMemory where memory is refused.
    pub fn make<W: Weather>(&mut self, weather: &mut W, event: &Event) -> Result<(), Stopped>
        requires may { CanMake self.old.state event.now }
        requires room { HasRoomFor self.old event.now }
        ensures made { MakesStep (step_under (W.ahead weather.old) self.old.state event.now) self.old self.new result }
        ensures asked { Asks result (asks self.old.state event.now) (W.ahead weather.old) (W.ahead weather.new)
            (W.faults weather.old) (W.faults weather.new) }
        ensures room { LeavesRoom event.now self.old self.new result }
        ensures served { NeverLacksIf (is_served self.old.state event.now) result }
    {
        match event {
            Event::Tick { to } => self.tick(*to),
            Event::Note { actor, note } => self.note(*actor, *note),
            Event::Take { node, reading } => self.take(weather, *node, *reading),
            Event::Renew { node, reading } => self.renew(weather, *node, *reading),
            Event::Extend { node } => self.extend(weather, *node),
            Event::Crash { node } => self.crash(*node),
            Event::AskBegin { session, node } => self.ask_begin(*session, *node),
            Event::AskCommit { session, node } => self.ask_commit(*session, *node),
            Event::Accept {
                node,
                session,
                reading,
            } => self.accept(*node, *session, *reading),
            Event::Decide { node, session } => self.decide(*node, *session),
            Event::Put { node, session } => self.put(weather, *node, *session),
            Event::Answer { node, session } => self.answer(*node, *session),
            Event::Write {
                session,
                key,
                value,
            } => self.write(weather, *session, *key, *value),
            Event::Fetch { session, key } => self.fetch(weather, *session, *key),
            Event::Step { session } => self.step(weather, *session),
            Event::Heal { session } => self.heal(weather, *session),
            Event::Abort { session } => self.abort(*session),
            Event::Vanish { session } => self.vanish(*session),
            Event::SweepOpen { node, txn } => self.sweep_open(*node, *txn),
            Event::SweepStep => self.sweep_step(weather),
        }
    }

    /// The history so far.
    pub fn history(&self) -> &[Item]
        ensures { result.now ≡ self.now.history }
    {
        self.book.items()
    }

    /// For how many items more there is room that was reserved for requests.
    pub fn spare(&self) -> usize
        ensures { result ≡ self.now.spare }
    {
        self.book.spare()
    }
}

/// A free client for each session, which remembers so many decisions.
fn free_clients(alloc: Global, cache: u64) -> Result<Vec<Client>, NoMemory>
    ensures { IfOk result (λ clients. clients.items ≡ replicate 16 (client_new cache)) }
{
    let mut clients = Vec::new(alloc);
    for i in 0..SessionNo::COUNT {
        clients.push(Client::new(alloc, cache)?)?;
    }
    Ok(clients)
}

/// So many nodes without an instance.
fn vacant_posts(alloc: Global, nodes: u64) -> Result<Vec<Post>, NoMemory>
    ensures { IfOk result (λ posts. posts.items ≡ replicate nodes None) }
{
    let mut posts = Vec::new(alloc);
    for i in 0..nodes {
        posts.push(Post::vacant())?;
    }
    Ok(posts)
}

/// The greatest reading after an event that hands one in. Where memory was refused it was not handed in.
pub(crate) fn seen_after(seen: u64, reading: u64, made: &Result<(), Stopped>) -> u64
    ensures { result ≡ seen_made seen reading made.now }
{
    match made {
        Err(Stopped::NoMemory) => seen,
        _ => seen.max(reading),
    }
}
