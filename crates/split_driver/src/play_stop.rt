// Why lines are carried out no further.
use stamp_base::NoMemory;

/// Why an actor's lines were not carried out to their end.
#[derive(Clone, Copy, Debug, PartialEq, Eq)]
pub enum PlayStop {
    /// Memory was refused.
    NoMemory,
    /// The actor's seat has drawn all its ticks, so many.
    Spent { drawn: u64 },
    /// The parts of an event did not agree, or the log does not show the end of a line of which nothing is under way.
    GaveUp,
    /// The actor awaited a name, and another stopped before it posted it.
    Closed,
}

impl From<NoMemory> for PlayStop {
    ghost use Rattle.std.specs.Prelude.{◌≡◌};
    ghost use Rattle.split_driver.specs.declared.play_stop.PlayStop.TheVariants.{NoMemory};

    ghost from_gives = { λ _ e. e ≡ NoMemory };

    fn from(_: NoMemory) -> PlayStop {
        PlayStop::NoMemory
    }
}
