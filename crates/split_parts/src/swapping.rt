// All lent parts take the place of the engine's, and the engine's theirs.
ghost use Rattle.std.specs.Prelude.{◌≡◌, IfSome, length};
ghost use Rattle.machine.specs.Events.Take.{rules_of};
ghost use Rattle.split_parts.specs.Parts.{behind, given, given_sessions, given_from, given_node, given_rows, given_pairs, given_master, janitor_of, node_of, cells_of, table_of, master_of, lent_clients, lent_nodes, lent_rows, lent_pairs, lent_master, or_else, posted_of, rest_of, seen, sessions_seen, with_lent};

use crate::Lent;
use crate::parts::{CellsPart, JanitorPart, MasterPart, NodePart, TablePart};
use cluster_core::ClusterState;

impl Lent<'_> {
    /// Each lent part and the engine's stand for each other from now on. Clock, names and counts of calls stay.
    pub(crate) fn swap(&mut self, engine: &mut ClusterState)
        requires { IfSome (seen self.old).master (λ part. part.rules ≡ rules_of engine.old.state.setup) }
        ensures state { engine.new.state ≡ with_lent engine.old.state (seen self.old) }
        ensures history { engine.new.history ≡ engine.old.history }
        ensures parts { seen self.new ≡ given_from (seen self.old) engine.old.state }
        ensures names { behind posted_of self.new.names ≡ behind posted_of self.old.names }
        ensures sessions { length engine.old.state.clients ≡ 16 }
        ensures nodes { length engine.old.state.nodes ≡ engine.old.state.setup.nodes }
    {
        let _ = engine.counts();
        self.swap_sessions(engine);
        swap_janitor(engine, &mut self.janitor);
        swap_node(engine, &mut self.node);
        swap_cells(engine, &mut self.cells);
        swap_table(engine, &mut self.table);
        swap_master(engine, &mut self.master);
    }

    fn swap_sessions(&mut self, engine: &mut ClusterState)
        ensures state { engine.new.state ≡ record engine.old.state { clients = lent_clients 16 engine.old.state.clients (sessions_seen self.old) } }
        ensures history { engine.new.history ≡ engine.old.history }
        ensures sessions { sessions_seen self.new ≡ given_sessions 16 (sessions_seen self.old) engine.old.state.clients }
        ensures rest { rest_of self.new ≡ rest_of self.old }
    {
        let _ = engine.counts();
        for number in 0..16 {
            self.swap_session(engine, number);
        }
    }
}

fn swap_janitor(engine: &mut ClusterState, part: &mut Option<&mut JanitorPart>)
    ensures state { engine.new.state ≡ record engine.old.state { sweep = or_else (behind janitor_of part.old) engine.old.state.sweep } }
    ensures history { engine.new.history ≡ engine.old.history }
    ensures part { behind janitor_of part.new ≡ given (behind janitor_of part.old) engine.old.state.sweep }
{
    if let Some(place) = part {
        let part = &mut **place;
        engine.swap_sweep(&mut part.sweep);
    }
}

fn swap_node(engine: &mut ClusterState, part: &mut Option<&mut NodePart>)
    ensures state { engine.new.state ≡ record engine.old.state { nodes = lent_nodes engine.old.state.nodes (behind node_of part.old) } }
    ensures history { engine.new.history ≡ engine.old.history }
    ensures part { behind node_of part.new ≡ given_node engine.old.state.nodes (behind node_of part.old) }
{
    if let Some(place) = part {
        let part = &mut **place;
        engine.swap_post(part.node, &mut part.post);
    }
}

fn swap_cells(engine: &mut ClusterState, part: &mut Option<&mut CellsPart>)
    ensures state { engine.new.state ≡ record engine.old.state { rows = lent_rows engine.old.state.rows (behind cells_of part.old) } }
    ensures history { engine.new.history ≡ engine.old.history }
    ensures part { behind cells_of part.new ≡ given_rows engine.old.state.rows (behind cells_of part.old) }
{
    if let Some(place) = part {
        let part = &mut **place;
        engine.swap_cells(&mut part.cells);
    }
}

fn swap_table(engine: &mut ClusterState, part: &mut Option<&mut TablePart>)
    ensures state { engine.new.state ≡ record engine.old.state { pairs = lent_pairs engine.old.state.pairs (behind table_of part.old) } }
    ensures history { engine.new.history ≡ engine.old.history }
    ensures part { behind table_of part.new ≡ given_pairs engine.old.state.pairs (behind table_of part.old) }
{
    if let Some(place) = part {
        let part = &mut **place;
        engine.swap_table(&mut part.table);
    }
}

fn swap_master(engine: &mut ClusterState, part: &mut Option<&mut MasterPart>)
    requires { IfSome (behind master_of part.old) (λ part. part.rules ≡ rules_of engine.old.state.setup) }
    ensures state { engine.new.state ≡ record engine.old.state { master = lent_master engine.old.state.master (behind master_of part.old) } }
    ensures history { engine.new.history ≡ engine.old.history }
    ensures part { behind master_of part.new ≡ given_master engine.old.state.master (behind master_of part.old) }
{
    if let Some(place) = part {
        let part = &mut **place;
        engine.swap_master(&mut part.master);
    }
}
