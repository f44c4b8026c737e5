// Why a script was not carried out over split stores.
use history_book::Item;
use split_stores::SettleStop;
use stamp_base::NoMemory;

/// Why a script was not carried out over split stores.
#[derive(Clone, Copy, Debug, PartialEq, Eq)]
pub enum SplitStop {
    /// At this tick, the first, an entry kept something else than comes of its event; with the first pair of items that differ,
    /// None where a list has ended.
    Torn {
        tick: u64,
        kept: Option<Item>,
        replayed: Option<Item>,
    },
    /// An actor has drawn all its ticks, so many.
    Spent {
        drawn: u64,
    },
    /// Memory was refused.
    NoMemory,
}

impl From<NoMemory> for SplitStop {
    ghost use Rattle.std.specs.Prelude.{◌≡◌};
    ghost use Rattle.split_driver.specs.declared.stop.SplitStop.TheVariants.{NoMemory};

    ghost from_gives = { λ _ e. e ≡ NoMemory };

    fn from(_: NoMemory) -> SplitStop {
        SplitStop::NoMemory
    }
}
