use stage_queues::GivesWay;
use stamp_base::{Name, NodeNo, Stage};
use std::hint::spin_loop;
use std::sync::Wait;

/// A stage of a node.
#[derive(Clone, Copy, Debug, PartialEq, Eq)]
pub struct GatePlace {
    /// The node.
    pub node: NodeNo,
    /// Which of its stages it is.
    pub stage: Stage,
}

/// What an actor's line waits for.
#[derive(Clone, Copy, Debug, PartialEq, Eq)]
pub enum WaitsFor {
    /// That the name is posted.
    Name(Name),
    /// What becomes of its request at the node, of which this stage is held, if one is.
    Reply { node: NodeNo, held: Option<Stage> },
}

/// Is passed before each step of a stage, outside all locks. It may keep a stage waiting. And it is told how far a replay is,
/// which has no stages. All but `pass` have default bodies, and no promise rests on any of them.
pub trait Gate: Sync {
    /// Is called by the node's stage before each of its steps. It may wait.
    fn pass<R: Wait>(&self, rt: &R, place: GatePlace);

    /// So many lines of a script were carried out in file order, of all that it has. What a gate does with that is no part of
    /// any promise: by default, nothing.
    fn carried_out(&self, _lines: usize, _of: usize) {}

    /// Whether it wants to hear of lines that wait while nobody makes an event. By default, no.
    fn hears_waits(&self) -> bool {
        false
    }

    /// The line of this number waits, and nobody has made an event for two seconds. By default, it does nothing.
    fn waits(&self, _line: u64, _on: WaitsFor) {}

    /// Is called by a thread that waits, between two looks whether it was woken. By default the thread keeps its processor: beside
    /// other processes, one that gives it away may get it back only after milliseconds.
    fn give_way(&self) {
        spin_loop();
    }

    /// Whether threads may give their processors away now. By default, never.
    fn yields(&self) -> bool {
        false
    }

    /// Whether `pass` lets every step through at once, so that no step need be waited for. By default, no.
    fn stands_open(&self) -> bool {
        false
    }

    /// Whether one more thread may be started. False is as if the system refused it. By default, always.
    fn may_start_thread(&self) -> bool {
        true
    }
}

/// A gate, where a thread that waits asks how it gives way.
#[derive(Drop)]
pub struct GateWay<'a, G: Gate> {
    /// The gate that is asked.
    pub gate: &'a G,
}

impl<G: Gate> GivesWay for GateWay<'_, G> {
    fn give_way(&self) {
        self.gate.give_way();
    }
}

/// A gate that is always open, and says nothing.
pub struct OpenGate;

impl Gate for OpenGate {
    fn pass<R: Wait>(&self, _rt: &R, _place: GatePlace) {}
}
