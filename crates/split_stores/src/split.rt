// The parts of the system, each behind a lock of its own.
ghost use Rattle.std.specs.Prelude.{◌≡◌, ◌≤◌, All, IfOk, length};
ghost use Rattle.split_stores.specs.Logs.{IsNew};
ghost use Rattle.split_parts.specs.Plans.{planned_by};

use crate::opening::{cut, free_sessions, vacant_nodes};
use crate::seat::ActorSeat;
use cell_store::Cells;
use commit_table::Table;
use master_record::Master;
use session_script::Script;
use split_parts::{
    CellsPart, ClockPart, JanitorPart, MasterPart, NamesPart, NodePart, Plan, SessionPart,
    TablePart,
};
use stamp_base::NoMemory;
use std::alloc::Global;
use std::marker::Model;
use std::sync::Mutex;
use tick_word::TickWord;

/// The parts of the system, each behind a lock of its own, what the script sets, and the word that gives ticks. A part is locked
/// before those that stand below it here.
#[derive(Drop)]
pub struct Split {
    pub(crate) sessions: Vec<Mutex<SessionPart>>,
    pub(crate) janitor: Mutex<JanitorPart>,
    pub(crate) clock: Mutex<ClockPart>,
    pub(crate) master: Mutex<MasterPart>,
    pub(crate) nodes: Vec<Mutex<NodePart>>,
    pub(crate) cells: Mutex<CellsPart>,
    pub(crate) table: Mutex<TablePart>,
    pub(crate) names: Mutex<NamesPart>,
    pub(crate) word: TickWord,
    pub(crate) actors: usize,
    pub(crate) plan: Plan,
}

impl Model for Split {
    ghost use Rattle.std.specs.Prelude.{◌≡◌, ◌≤◌, vec_len};
    ghost use Rattle.split_stores.specs.Makes.{Shared};
    ghost use Rattle.split_parts.specs.Plans.{plan_data};

    ghost Value = { Shared };

    ghost view = { λ s. record { id = s.word.id; seats = s.word.seats; plan = plan_data s.plan } };

    ghost invariant = { λ s. (s.actors ≡ s.word.seats) × (s.actors ≤ 26) × (vec_len s.sessions ≡ 16) × (vec_len s.nodes ≡ 8) };
}

impl Split {
    /// The parts at their beginning, what the script sets, and a seat for each actor. NoMemory where memory is refused.
    pub fn open(
        alloc: Global,
        script: &Script,
        actors: usize,
    ) -> Result<(Split, Vec<ActorSeat>), NoMemory>
        requires actors { (1 ≤ actors) × (actors ≤ 26) }
        ensures plan { IfOk result (λ made. made.0.plan ≡ planned_by script.now) }
        ensures seats { IfOk result (λ made. All (IsNew made.0.id) made.1.items) }
        ensures all { IfOk result (λ made. (length made.1.items ≡ actors) × (made.0.seats ≡ actors)) }
    {
        let (word, rest) = TickWord::open(alloc, actors as u64)?;
        let seats = cut(alloc, &word, rest, actors)?;
        let split = parts_of(alloc, script, word, actors)?;
        Ok((split, seats))
    }
}

/// The parts with their word.
fn parts_of(
    alloc: Global,
    script: &Script,
    word: TickWord,
    actors: usize,
) -> Result<Split, NoMemory>
    requires actors { (actors ≡ word.seats) × (actors ≤ 26) }
    ensures plan { IfOk result (λ split. split.plan ≡ planned_by script.now) }
    ensures word { IfOk result (λ split. (split.id ≡ word.id) × (split.seats ≡ word.seats)) }
{
    let setup = script.setup;
    let free = Master::free(setup.lease, setup.skew, setup.range);
    Ok(Split {
        sessions: free_sessions(alloc, setup.cache)?,
        janitor: Mutex::new(JanitorPart::new(alloc)),
        clock: Mutex::new(ClockPart::new(alloc)),
        master: Mutex::new(MasterPart::new(alloc, free)),
        nodes: vacant_nodes(alloc)?,
        cells: Mutex::new(CellsPart::new(alloc, Cells::new(alloc))),
        table: Mutex::new(TablePart::new(alloc, Table::new(alloc))),
        names: Mutex::new(NamesPart::new(alloc)),
        word,
        actors,
        plan: Plan::new(alloc, script)?,
    })
}
