// The rule of a tick word, and what each step does to a view.
use atomic_table::{Join, Play, Seat, Split, Table, TableRule};
use std::alloc::Global;
use std::collections::LinkedList;

/// What a handle has drawn, and its parts of the right to know all that was drawn. No value of it is made.
pub struct TickView {
    /// How many parts it has.
    pub parts: u64,
    /// The numbers that it drew.
    pub drawn: LinkedList<u64>,
}

/// The number that was drawn last, under the rule; 0 before the first.
pub type Word = Table<u64, TickView, u64, Drawn, Global>;

/// A handle's seat at the word, with its view.
pub type WordSeat = Seat<u64, TickView>;

/// All handles together have drawn the numbers from 1 to the word's, each once. The key is the number of parts.
pub struct Drawn;

impl TableRule<u64, TickView, u64> for Drawn {
    ghost use Rattle.tick_word.specs.Rule.{AreDrawn, first_view};

    ghost holds = { AreDrawn };

    ghost first = { first_view };
}

/// A tick is drawn.
pub struct Draw;

impl Play<u64, TickView> for Draw {
    ghost use Rattle.tick_word.specs.Rule.{Draws};

    ghost then = { λ step old found new. Draws old found new };
}

/// A handle with one part is cut off.
pub struct Cut;

impl Split<TickView> for Cut {
    ghost use Rattle.tick_word.specs.Rule.{parted, one_part};

    ghost left = { parted };

    ghost right = { λ v. one_part };
}

/// Two handles become one.
pub struct Together;

impl Join<TickView> for Together {
    ghost use Rattle.tick_word.specs.Rule.{joined, spent};

    ghost both = { joined };

    ghost spent = { spent };
}
