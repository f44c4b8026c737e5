ghost use Rattle.std.specs.Prelude.{◌≡◌, true};
ghost use Rattle.reply_pipeline.specs.Telling.{is_short};

use crate::said::Said;
use stage_queues::Queues;
use stamp_base::NoMemory;

/// Why a stage ended.
#[derive(Clone, Copy, Debug, PartialEq, Eq)]
pub enum StageEnd {
    /// The queues were closed when it would have waited.
    Closed,
    /// Memory was refused. It closed the queues.
    NoMemory,
}

/// A stage is to end: the queues were found closed, or memory was refused. Nothing else makes one.
#[derive(Drop)]
pub struct Ending {
    why: StageEnd,
}

impl Ending {
    /// An Ending where the queues are closed.
    pub fn where_closed(queues: &Queues) -> Result<(), Ending> {
        if queues.closed() {
            return Err(Ending {
                why: StageEnd::Closed,
            });
        }
        Ok(())
    }

    /// Closes the queues.
    pub fn closing(queues: &Queues) -> Ending {
        queues.close();
        Ending {
            why: StageEnd::Closed,
        }
    }

    /// The board was refused memory.
    pub fn short(said: Said) -> Ending
        requires { is_short said.step ≡ true }
    {
        said.heeded();
        Ending {
            why: StageEnd::NoMemory,
        }
    }

    /// The stage was refused memory.
    pub fn lacking(_refused: NoMemory) -> Ending {
        Ending {
            why: StageEnd::NoMemory,
        }
    }

    /// A stage that memory is refused closes the queues, so that no other waits for it.
    pub fn reached(self, queues: &Queues) -> StageEnd {
        if self.why == StageEnd::NoMemory {
            queues.close();
        }
        self.why
    }
}
