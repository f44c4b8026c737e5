// Marks of places.
ghost use Rattle.std.specs.Prelude.{◌≡◌, vec_len, IfOk};

use stamp_base::NoMemory;
use std::alloc::Global;

/// For each place whether it is marked.
#[derive(Drop)]
pub struct Marks {
    /// For each place, counted from 0, whether it is marked.
    pub each: Vec<bool>,
}

impl Marks {
    ghost use Rattle.si_judge.specs.Marks.{IsMarked, KeepsMarks};

    /// Marks for so many places, of which none is marked. NoMemory where memory is refused.
    pub fn new(alloc: Global, places: usize) -> Result<Marks, NoMemory>
        ensures { IfOk result (λ marks. vec_len marks.each ≡ places) }
    {
        Ok(Marks {
            each: vec![in alloc; false; places]?,
        })
    }

    /// Marks the place. Past the end, nothing changes.
    pub fn mark(&mut self, place: usize)
        ensures marked { IsMarked self.new place }
        ensures kept { KeepsMarks self.old self.new }
    {
        if place < self.each.len() {
            self.each[place] = true;
        }
    }
}
