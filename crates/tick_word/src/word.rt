ghost use Rattle.std.specs.Prelude.{◌≡◌, ◌<◌, ◌≤◌, ◌+◌, ◌-◌, ◌++◌, ◌∷◌, [], IfOk, length};
ghost use Rattle.tick_word.specs.declared.word.TheConstants.{PART_LIMIT};
ghost use Rattle.tick_word.specs.Rule.{AllUpTo, seat_limit};
ghost use Rattle.tick_word.specs.Seats.{seated, AreTicks};

use crate::rule::{Cut, Draw, Together, Word, WordSeat};
use stamp_base::NoMemory;
use std::alloc::Global;
use std::marker::Model;

/// So many ticks can be drawn through one handle, 2^40, so that no word ever overflows.
pub const SEAT_LIMIT: u64 = 1_099_511_627_776;

/// A word has at most so many parts, each a thread's right to draw.
pub const PART_LIMIT: u64 = 65_536;

/// A word from which any number of threads draw ticks, each by one `fetch_add`.
#[derive(Drop)]
pub struct TickWord {
    table: Word,
}

impl Model for TickWord {
    ghost use Rattle.std.specs.Prelude.{◌≡◌};
    ghost use Rattle.tick_word.specs.Seats.{Ticks};

    ghost Value = { Ticks };

    ghost view = { λ w. record { id = w.table.shared.table_id; seats = w.table.shared.key } };

    ghost invariant = { λ w. (w.table.shared.table_id.words ≡ 1) × (w.table.shared.table_id.slots ≡ 0) };
}

/// The right to draw ticks, in one part for each thread, with the ticks that were drawn through it.
#[derive(Drop)]
pub struct TickHandle {
    seat: WordSeat,
}

impl Model for TickHandle {
    ghost use Rattle.std.specs.Prelude.{◌≡◌, []};
    ghost use Rattle.tick_word.specs.Seats.{Seated, seated};

    ghost Value = { Seated };

    ghost view = { λ s. seated s.seat.table_id s.seat.me.0.parts s.seat.me.0.drawn };

    ghost invariant = { λ s. s.seat.me.1 ≡ [] };
}

impl TickWord {
    /// A word of which nothing was drawn, and a handle with all its parts, at most `PART_LIMIT`. NoMemory where memory is refused.
    pub fn open(alloc: Global, seats: u64) -> Result<(TickWord, TickHandle), NoMemory>
        requires { seats ≤ PART_LIMIT }
        ensures word { IfOk result (λ made. made.0.seats ≡ seats) }
        ensures seat { IfOk result (λ made. made.1 ≡ seated made.0.id seats []) }
    {
        let (table, seat) = Word::of_words(alloc, &[0], &seats)?;
        Ok((TickWord { table }, TickHandle { seat }))
    }

    /// A handle with one part, which a handle that has drawn nothing gives away.
    pub fn split(&self, seat: &mut TickHandle) -> TickHandle
        requires word { seat.old.word ≡ self.now.id }
        requires parts { (0 < seat.old.parts) × (seat.old.drawn ≡ []) }
        ensures left { seat.new ≡ seated self.now.id (seat.old.parts - 1) [] }
        ensures made { result ≡ seated self.now.id 1 [] }
    {
        TickHandle {
            seat: self.table.shared.split_seat::<Cut>(&mut seat.seat),
        }
    }

    /// Draws the next tick: no other draw gives it, and it is above all that the handle has drawn. A handle draws at most
    /// `SEAT_LIMIT` ticks.
    pub fn draw(&self, seat: &mut TickHandle) -> u64
        requires word { seat.old.word ≡ self.now.id }
        requires parts { seat.old.parts ≡ 1 }
        requires room { length seat.old.drawn < seat_limit }
        ensures drawn { seat.new ≡ seated self.now.id 1 (seat.old.drawn ++ result ∷ []) }
        ensures above { (0 < result) × AllUpTo (result - 1) seat.old.drawn }
    {
        self.table.shared.fetch_add::<Draw>(&mut seat.seat, 0, 1) + 1
    }

    /// Two handles become one, which has drawn what both have.
    pub fn join(&self, seat: TickHandle, other: TickHandle) -> TickHandle
        requires { (seat.word ≡ self.now.id) × (other.word ≡ self.now.id) }
        ensures { result ≡ seated self.now.id (seat.parts + other.parts) (seat.drawn ++ other.drawn) }
    {
        let TickHandle { seat: mut mine } = seat;
        let TickHandle { seat: theirs } = other;
        self.table.shared.join_seat::<Together>(&mut mine, theirs);
        TickHandle { seat: mine }
    }

    /// The last tick. The handle, which has every part, has drawn all ticks from 1 to it, each once.
    pub fn close(self, seat: TickHandle) -> u64
        requires word { seat.word ≡ self.id }
        requires parts { seat.parts ≡ self.seats }
        ensures { AreTicks result seat.drawn }
    {
        let TickWord { table } = self;
        let TickHandle { seat: all } = seat;
        let closed = table.close_with(all);
        let last = closed.word(0);
        closed.free();
        last
    }
}
