ghost use Rattle.std.specs.Prelude.{◌≡◌, ◌+◌, ◌<◌, true, Some, length, slice_get};
ghost use Rattle.stamp_base.specs.declared.stage.Stage.TheVariants.{Persist, Reply};
ghost use Rattle.history_book.specs.declared.item.Actor.TheVariants.{Session};
ghost use Rattle.stage_queues.specs.declared.spot.Row.TheVariants.{Actors};
ghost use Rattle.stage_queues.specs.Places.{place_of};
ghost use Rattle.stage_queues.specs.Spots.{spot};
ghost use Rattle.reply_pipeline.specs.Telling.{counted, puts_nothing, IsSaidOf};

use crate::said::Said;
use batch_pool::Entry;
use persist_batches::Numbered;
use stage_queues::{Queues, Rung};
use stamp_base::Stage;

/// With how many entries of a batch a stage is through, from the first on.
#[derive(Drop)]
pub struct Told {
    stage: Stage,
    number: u64,
    count: usize,
}

impl Told {
    /// With none.
    pub fn none(stage: Stage, batch: &Numbered) -> Told
        ensures { result ≡ counted stage batch.now.number 0 }
    {
        Told {
            stage,
            number: batch.number,
            count: 0,
        }
    }

    /// With the next one, of which the board has said so.
    pub fn add(&mut self, batch: &Numbered, entry: &Entry, said: Said)
        requires stage { self.old.stage ≡ Persist }
        requires number { batch.now.number ≡ self.old.number }
        requires within { self.old.count < length batch.now.batch.entries }
        requires next { slice_get batch.now.batch.entries self.old.count ≡ Some entry.now }
        requires said { IsSaidOf self.old.stage entry.now said }
        ensures { self.new ≡ counted self.old.stage self.old.number (self.old.count + 1) }
    {
        said.heeded();
        self.go_on(batch);
    }

    /// With the next one, of which the board has said so, and whose session was woken.
    pub fn answer(&mut self, batch: &Numbered, entry: &Entry, said: Said, rung: Rung)
        requires stage { self.old.stage ≡ Reply }
        requires number { batch.now.number ≡ self.old.number }
        requires within { self.old.count < length batch.now.batch.entries }
        requires next { slice_get batch.now.batch.entries self.old.count ≡ Some entry.now }
        requires said { IsSaidOf self.old.stage entry.now said }
        requires rung { rung.spot ≡ spot Actors (place_of (Session entry.now.session)) }
        ensures { self.new ≡ counted self.old.stage self.old.number (self.old.count + 1) }
    {
        said.heeded();
        let _rung = rung;
        self.go_on(batch);
    }

    /// With the next one, which is no commit, or one that its session places, so that a persist worker has nothing to ask.
    pub fn pass_over(&mut self, queues: &Queues, batch: &Numbered, entry: &Entry)
        requires number { batch.now.number ≡ self.old.number }
        requires within { self.old.count < length batch.now.batch.entries }
        requires next { slice_get batch.now.batch.entries self.old.count ≡ Some entry.now }
        requires stage { self.old.stage ≡ Persist }
        requires nothing { puts_nothing queues.now.direct entry.now ≡ true }
        ensures { self.new ≡ counted self.old.stage self.old.number (self.old.count + 1) }
    {
        let _queues = queues;
        self.go_on(batch);
    }

    fn go_on(&mut self, batch: &Numbered)
        requires { self.old.count < length batch.now.batch.entries }
        ensures { self.new ≡ counted self.old.stage self.old.number (self.old.count + 1) }
    {
        if self.count < batch.batch.entries().len() {
            self.count += 1;
        }
    }
}
