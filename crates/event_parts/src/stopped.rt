use history_book::Cause;
use stamp_base::{NoMemory, Store};
use std::alloc::AllocError;

/// Why an event was not made, or not in full.
#[derive(Clone, Copy, Debug, PartialEq, Eq)]
pub enum Stopped {
    /// The event was refused.
    Refused(Cause),
    /// The event's call on the store failed.
    StoreFault(Store),
    /// Memory was refused. All is as before the event.
    NoMemory,
}

impl From<NoMemory> for Stopped {
    ghost use Rattle.std.specs.Prelude.{◌≡◌};
    ghost use Rattle.event_parts.specs.declared.stopped.Stopped.TheVariants.{NoMemory};

    ghost from_gives = { λ _ e. e ≡ NoMemory };

    fn from(_: NoMemory) -> Stopped {
        Stopped::NoMemory
    }
}

impl From<AllocError> for Stopped {
    ghost use Rattle.std.specs.Prelude.{◌≡◌};
    ghost use Rattle.event_parts.specs.declared.stopped.Stopped.TheVariants.{NoMemory};

    ghost from_gives = { λ _ e. e ≡ NoMemory };

    fn from(_: AllocError) -> Stopped {
        Stopped::NoMemory
    }
}
