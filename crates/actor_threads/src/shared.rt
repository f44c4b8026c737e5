use crate::awaiting::Awaiters;
use crate::marked::MarkedLines;
use master_beacon::{Beacon, Desk};
use reply_pipeline::Gate;
use stage_queues::Queues;
use stamp_base::Setup;
use std::sync::Mutex;
use std::sync::atomic::{AtomicBool, Ordering};
use thread_steps::Steps;

/// What all threads share.
#[derive(Drop)]
pub struct Shared<'a, B: Steps + Sync, G: Gate> {
    /// The script's setup.
    pub setup: Setup,
    /// All lines of the script.
    pub lines: &'a MarkedLines<'a>,
    /// The board that makes the events.
    pub board: &'a B,
    /// The queues of all nodes.
    pub queues: &'a Queues,
    /// The gate that stages pass.
    pub gate: &'a G,
    /// Sessions look at it, and nodes tell it through the desk.
    pub beacon: &'a Beacon,
    /// The publisher of who took the last term, for the node that has taken one.
    pub desk: Mutex<Desk<'a>>,
    /// Which actors wait for which name.
    pub awaiters: Awaiters,
    /// Whether memory was refused.
    pub short: AtomicBool,
}

impl<B: Steps + Sync, G: Gate> Shared<'_, B, G> {
    /// Memory was refused, so every thread ends.
    pub fn give_up(&self) {
        self.short.store(true, Ordering::SeqCst);
        self.queues.close();
    }
}
