// An engine over parts that are lent: each takes the place of the one that the engine has, and is given back by the same call
// after the event.
ghost use Rattle.std.specs.Prelude.{◌≡◌, length, slice_get, slice_index_or, Some};
ghost use Rattle.machine.specs.Events.Take.{rules_of};
ghost use Rattle.machine.specs.Machine.{with_client, with_post};

use crate::ClusterState;
use cell_store::Cells;
use commit_table::Table;
use event_parts::Client;
use history_book::Item;
use invalidator::Sweep;
use master_record::Master;
use stamp_base::{NodeNo, SessionNo};
use std::mem;
use takeover_core::Post;

impl ClusterState {
    /// The client is the session's from now on, and stands for the one that was.
    pub fn swap_client(&mut self, session: SessionNo, client: &mut Client)
        ensures state { self.new.state ≡ with_client self.old.state session client.old }
        ensures history { self.new.history ≡ self.old.history }
        ensures client { slice_get self.old.state.clients session ≡ Some client.new }
    {
        mem::swap(&mut self.clients[session.index()], client);
    }

    /// The post is the node's from now on, and stands for the one that was. Where the setup has no such node, nothing changes.
    pub fn swap_post(&mut self, node: NodeNo, post: &mut Post)
        ensures state { self.new.state ≡ with_post self.old.state node post.old }
        ensures history { self.new.history ≡ self.old.history }
        ensures post { post.new ≡ slice_index_or self.old.state.nodes node post.old }
    {
        if node.index() < self.posts.len() {
            mem::swap(&mut self.posts[node.index()], post);
        }
    }

    /// The sweep is the open one from now on, and stands for the one that was.
    pub fn swap_sweep(&mut self, sweep: &mut Option<Sweep>)
        ensures state { self.new.state ≡ record self.old.state { sweep = sweep.old } }
        ensures history { self.new.history ≡ self.old.history }
        ensures sweep { sweep.new ≡ self.old.state.sweep }
    {
        mem::swap(&mut self.sweep, sweep);
    }

    /// These are the cells from now on, and they stand for those that were.
    pub fn swap_cells(&mut self, cells: &mut Cells)
        ensures state { self.new.state ≡ record self.old.state { rows = cells.old.rows } }
        ensures history { self.new.history ≡ self.old.history }
        ensures rows { cells.new.rows ≡ self.old.state.rows }
    {
        mem::swap(&mut self.cells, cells);
    }

    /// This is the commit table from now on, and it stands for the one that was.
    pub fn swap_table(&mut self, table: &mut Table)
        ensures state { self.new.state ≡ record self.old.state { pairs = table.old.pairs } }
        ensures history { self.new.history ≡ self.old.history }
        ensures pairs { table.new.pairs ≡ self.old.state.pairs }
    {
        mem::swap(&mut self.table, table);
    }

    /// This is the master record from now on, and it stands for the one that was. It leases by the setup.
    pub fn swap_master(&mut self, master: &mut Master)
        requires { master.old.rules ≡ rules_of self.old.state.setup }
        ensures state { self.new.state ≡ record self.old.state { master = master.old.state } }
        ensures history { self.new.history ≡ self.old.history }
        ensures record { master.new.state ≡ self.old.state.master }
        ensures rules { master.new.rules ≡ master.old.rules }
    {
        mem::swap(&mut self.master, master);
    }

    /// How many sessions and how many nodes there are.
    pub fn counts(&self) -> (usize, usize)
        ensures sessions { result.0 ≡ length self.now.state.clients }
        ensures sixteen { result.0 ≡ 16 }
        ensures nodes { result.1 ≡ length self.now.state.nodes }
        ensures by_setup { result.1 ≡ self.now.state.setup.nodes }
    {
        (self.clients.len(), self.posts.len())
    }

    /// The history, without the room for further items.
    pub fn into_items(self) -> Vec<Item>
        ensures { result.items ≡ self.history }
    {
        let ClusterState { book, .. } = self;
        book.into_items()
    }
}
