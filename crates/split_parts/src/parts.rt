// The parts of the system, each of which can be lent alone.
ghost use Rattle.std.specs.Prelude.{◌≡◌, [], IfOk, None, unwrap_or};
ghost use Rattle.machine.specs.State.{client_new};
ghost use Rattle.session_script.specs.PostedNames.{is_posted};
ghost use Rattle.split_parts.specs.Parts.{session_of};

use cell_store::Cells;
use commit_table::Table;
use event_parts::{Client, Stopped};
use invalidator::Sweep;
use master_record::Master;
use session_script::PostedNames;
use stamp_base::{Name, NoMemory, NodeNo, SessionNo};
use std::alloc::Global;
use takeover_core::Post;

/// A session, and which it is.
#[derive(Drop)]
pub struct SessionPart {
    pub(crate) number: SessionNo,
    pub(crate) client: Client,
    // Where its request can be looked for first. No clause says that it stands there.
    pub(crate) asked: Option<NodeNo>,
}

impl SessionPart {
    /// The session is free, and remembers so many decisions.
    pub fn new(alloc: Global, number: SessionNo, cache: u64) -> Result<SessionPart, NoMemory>
        ensures number { IfOk result (λ part. part.number ≡ number) }
        ensures client { IfOk result (λ part. part.client ≡ client_new cache) }
    {
        Ok(SessionPart {
            number,
            client: Client::new(alloc, cache)?,
            asked: None,
        })
    }

    /// Which session it is.
    pub fn number(&self) -> SessionNo
        ensures { result ≡ self.now.number }
    {
        self.number
    }

    /// The session with what it has under way.
    pub fn client(&self) -> &Client
        ensures { result.now ≡ self.now.client }
    {
        &self.client
    }

    /// The node that the session has asked last, if it has asked one.
    pub fn asked(&self) -> Option<NodeNo>
        ensures { result ≡ self.now.asked }
    {
        self.asked
    }

    /// The session has asked the node, unless it was refused.
    pub(crate) fn remember(&mut self, node: NodeNo, made: &Result<(), Stopped>)
        ensures { session_of self.new ≡ session_of self.old }
    {
        if made.is_ok() {
            self.asked = Some(node);
        }
    }
}

/// The janitor, with its sweep, if one is open.
#[derive(Drop)]
pub struct JanitorPart {
    pub(crate) sweep: Option<Sweep>,
}

impl JanitorPart {
    /// No sweep is open.
    pub fn new(_: Global) -> JanitorPart
        ensures { result.sweep ≡ None }
    {
        JanitorPart { sweep: None }
    }

    /// The sweep, if one is open.
    pub fn sweep(&self) -> &Option<Sweep>
        ensures { result.now ≡ self.now.sweep }
    {
        &self.sweep
    }
}

/// The base clock.
#[derive(Drop)]
pub struct ClockPart {
    pub(crate) base: u64,
}

impl ClockPart {
    /// The base clock stands at 0.
    pub fn new(_: Global) -> ClockPart
        ensures { result.base ≡ 0 }
    {
        ClockPart { base: 0 }
    }
}

/// A node, which it is, and the instance that it has, if it has one.
#[derive(Drop)]
pub struct NodePart {
    pub(crate) node: NodeNo,
    pub(crate) post: Post,
}

impl NodePart {
    /// The node has no instance.
    pub fn new(_: Global, node: NodeNo) -> NodePart
        ensures node { result.node ≡ node }
        ensures post { result.post ≡ None }
    {
        NodePart {
            node,
            post: Post::vacant(),
        }
    }

    /// Which node it is.
    pub fn node(&self) -> NodeNo
        ensures { result ≡ self.now.node }
    {
        self.node
    }

    /// Who holds the node's place: its instance, if it has one.
    pub fn post(&self) -> &Post
        ensures { result.now ≡ self.now.post }
    {
        &self.post
    }
}

/// The cells, and how many calls there were on them.
#[derive(Drop)]
pub struct CellsPart {
    pub(crate) cells: Cells,
    pub(crate) calls: u64,
}

impl CellsPart {
    /// No call was made so far.
    pub fn new(_: Global, cells: Cells) -> CellsPart
        ensures cells { result.cells ≡ cells }
        ensures calls { result.calls ≡ 0 }
    {
        CellsPart { cells, calls: 0 }
    }
}

/// The commit table, and how many calls there were on it.
#[derive(Drop)]
pub struct TablePart {
    pub(crate) table: Table,
    pub(crate) calls: u64,
}

impl TablePart {
    /// No call was made so far.
    pub fn new(_: Global, table: Table) -> TablePart
        ensures table { result.table ≡ table }
        ensures calls { result.calls ≡ 0 }
    {
        TablePart { table, calls: 0 }
    }
}

/// The master record, and how many calls there were on it.
#[derive(Drop)]
pub struct MasterPart {
    pub(crate) master: Master,
    pub(crate) calls: u64,
}

impl MasterPart {
    /// No call was made so far.
    pub fn new(_: Global, master: Master) -> MasterPart
        ensures master { result.master ≡ master }
        ensures calls { result.calls ≡ 0 }
    {
        MasterPart { master, calls: 0 }
    }

    /// The node that holds the record, or the first node where none does.
    pub fn holder(&self) -> NodeNo
        ensures { result ≡ unwrap_or self.now.master.state.holder 0 }
    {
        match self.master.holder() {
            Some(node) => node,
            None => NodeNo::FIRST,
        }
    }
}

/// The names that are posted.
#[derive(Drop)]
pub struct NamesPart {
    pub(crate) names: PostedNames,
}

impl NamesPart {
    /// No name is posted.
    pub fn new(alloc: Global) -> NamesPart
        ensures { result.names.names ≡ [] }
    {
        NamesPart {
            names: PostedNames::new(alloc),
        }
    }

    /// Whether the name is posted.
    pub fn contains(&self, name: &Name) -> bool
        ensures { result ≡ is_posted self.now.names.names name.now }
    {
        self.names.contains(name)
    }
}
