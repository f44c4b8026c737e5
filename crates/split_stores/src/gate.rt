// What an event passes while it has its locks, and what is asked before an actor's thread is started.
use crate::Event;
use std::sync::Wait;

/// Is passed by each event while the locks of its parts are held. It may keep the event waiting.
pub trait PartGate: Sync {
    /// Is called by each event while it holds the locks of its parts. It may wait.
    fn inside<R: Wait>(&self, rt: &R, event: &Event);

    /// Whether the thread of the next actor may be started. It is asked once before each, and false refuses the thread as the
    /// system would. By default, none is refused.
    fn may_start_thread(&self) -> bool {
        true
    }
}

/// A gate that is always open.
pub struct OpenPartGate;

impl PartGate for OpenPartGate {
    fn inside<R: Wait>(&self, _rt: &R, _event: &Event) {}
}
