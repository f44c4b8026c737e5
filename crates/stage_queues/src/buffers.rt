ghost use Rattle.std.specs.Prelude.{◌≡◌, ◌+◌, ◌<◌, true, replicate, IfOk};

use crate::sizes::Sizes;
use batch_pool::{Batch, Pool};
use stamp_base::NoMemory;
use std::alloc::Global;

/// A pool whose batches have room for an entry.
#[derive(Drop)]
pub struct Buffers {
    /// The pool.
    pub pool: Pool,
    pub ghost have_room: { 0 < pool.room },
}

impl Buffers {
    /// A batch more than a node's workers can hold at once waits for them, and one is filled meanwhile. NoMemory where memory is
    /// refused.
    pub fn open(alloc: Global, sizes: &Sizes) -> Result<Buffers, NoMemory>
        ensures count { IfOk result (λ buffers. buffers.pool.at_home ≡ replicate (sizes.now.workers + 2) true) }
        ensures room { IfOk result (λ buffers. buffers.pool.room ≡ sizes.now.batch) }
    {
        let pool = Pool::open(alloc, sizes.workers + 2, sizes.batch)?;
        Ok(Buffers { pool })
    }

    /// A batch comes home. Who has asked for one is looked up after that.
    pub fn give(&mut self, batch: Batch) -> Home {
        self.pool.give(batch);
        Home { given: true }
    }
}

/// A batch was given home, and who has asked for one is not looked up yet. It can't be let go.
pub struct Home {
    given: bool,
}

impl Home {
    /// Who has asked is looked up now.
    pub fn told(self) {
        let Home { given: _given } = self;
    }
}
