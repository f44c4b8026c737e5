ghost use Rattle.std.specs.Prelude.{◌≡◌, ◌+◌, ◌<◌, ◌≤◌, ◌^◌, All, IfOk, length, map, sum_by, vec_len};
ghost use Rattle.thread_steps.specs.Done.{all_done, caught_up, parts_for, first_cursor, fresh};

use crate::cursor::{Cursor, first_cursors, move_up};
use crate::share::{ActorShare, cut, gather};
use history_book::Actor;
use stamp_base::NoMemory;
use std::alloc::Global;
use std::marker::Model;
use std::sync::ledger::{Blank, Book, Ledger, Share};

/// The cursors of the actors, and the book of what they count in all.
#[derive(Drop)]
pub struct Cursors<L: Ledger> {
    cursors: Vec<Cursor>,
    book: Book<L>,
    // What no actor has: one part where there is no actor.
    rest: Share<L>,
}

impl<L: Ledger> Model for Cursors<L> {
    ghost use Rattle.std.specs.Prelude.{◌≡◌, ◌+◌, List, length};
    ghost use Rattle.thread_steps.specs.declared.cursor.Cursor.{Cursor};
    ghost use Rattle.thread_steps.specs.Done.{all_done, AreFew};

    ghost Value = { List Cursor };

    ghost view = { λ c. c.cursors.items };

    ghost invariant = { λ c.
        AreFew c.cursors.items
        × (c.book.total ≡ all_done c.cursors.items)
        × (c.rest.amount ≡ 0)
        × (c.rest.parts + length c.cursors.items ≡ L.parts) };
}

impl<L: Ledger> Cursors<L> {
    /// One cursor and one share for each actor, and no line is done. The blank has as many parts, or one where there is no actor.
    /// NoMemory where memory is refused.
    pub fn open(
        alloc: Global,
        actors: &[Actor],
        blank: Blank,
    ) -> Result<(Cursors<L>, Vec<ActorShare<L>>), NoMemory>
        requires name { blank.name ≡ L.name }
        requires of_blank { blank.parts ≡ L.parts }
        requires parts { L.parts ≡ parts_for actors.now }
        requires few { length actors.now < 2 ^ 32 }
        ensures cursors { IfOk result (λ r. r.0 ≡ map first_cursor actors.now) }
        ensures shares { IfOk result (λ r. r.1.items ≡ map fresh actors.now) }
    {
        let (book, mut rest) = blank.open::<L>();
        let cursors = first_cursors(alloc, actors)?;
        let shares = cut(alloc, actors, &mut rest)?;
        Ok((
            Cursors {
                cursors,
                book,
                rest,
            },
            shares,
        ))
    }

    /// How many lines of each actor are done.
    pub fn as_slice(&self) -> &[Cursor]
        ensures { result.now ≡ self.now }
    {
        self.cursors.as_slice()
    }

    /// The cursor of the share's actor comes up to the place, and the share counts as much more.
    pub fn catch_up(&mut self, mine: &mut ActorShare<L>, place: u64)
        requires behind { All (λ cursor. cursor.actor ≡ mine.old.actor → cursor.done ≤ place) self.old }
        requires small { place < 2 ^ 32 }
        ensures cursors { self.new ≡ caught_up mine.old.actor place self.old }
        ensures actor { mine.new.actor ≡ mine.old.actor }
        ensures aim { mine.new.aim ≡ mine.old.aim }
        ensures rises { mine.old.amount ≤ mine.new.amount }
        ensures counted { mine.new.amount + all_done self.old ≡ mine.old.amount + all_done self.new }
    {
        let actor = mine.actor();
        let more = move_up(&mut self.cursors, &actor, place);
        mine.count(&mut self.book, more);
    }

    /// Where all shares are handed in, they count in all what the cursors count.
    pub fn audit(self, shares: Vec<ActorShare<L>>)
        requires { vec_len shares ≡ length self }
        ensures { sum_by (λ s. s.amount) shares.items ≡ all_done self }
    {
        let Cursors { mut book, rest, .. } = self;
        let mut all = gather(rest, shares);
        book.audit(&mut all);
    }
}
