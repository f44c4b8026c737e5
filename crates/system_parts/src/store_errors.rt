ghost use Rattle.std.specs.Prelude.{◌≡◌, ◌↔◌, IfOk, IsOk};

use port_io::Fate;
use stamp_base::NoMemory;
use std::alloc::{AllocError, AllocFailed};

/// A store call was answered by a failure. It took effect when it was made, or never will.
#[derive(Clone, Copy, Debug, PartialEq, Eq)]
pub struct StoreFault;

/// The answer of a store call of this fate. A fault exactly where the call did not work.
pub fn answered_under<T: Drop>(fate: Fate, value: T) -> Result<T, StoreFault>
    ensures answer { IsOk result ↔ (fate ≡ Fate.Works) }
    ensures value { IfOk result (λ given. given ≡ value) }
{
    if fate.works() {
        Ok(value)
    } else {
        Err(StoreFault)
    }
}

/// Why a store call that takes memory gave no answer.
#[derive(Clone, Copy, Debug, PartialEq, Eq)]
pub enum StoreError {
    /// The store failed. The call took effect when it was made, or never will.
    StoreFault,
    /// Memory was refused. The store is as before, and its weather was not asked.
    NoMemory,
}

impl From<StoreFault> for StoreError {
    ghost use Rattle.system_parts.specs.declared.store_errors.StoreError.TheVariants.{StoreFault};

    ghost from_gives = { λ _ e. e ≡ StoreFault };

    fn from(_: StoreFault) -> StoreError {
        StoreError::StoreFault
    }
}

impl From<NoMemory> for StoreError {
    ghost use Rattle.system_parts.specs.declared.store_errors.StoreError.TheVariants.{NoMemory};

    ghost from_gives = { λ _ e. e ≡ NoMemory };

    fn from(_: NoMemory) -> StoreError {
        StoreError::NoMemory
    }
}

impl From<AllocError> for StoreError {
    ghost use Rattle.system_parts.specs.declared.store_errors.StoreError.TheVariants.{NoMemory};

    ghost from_gives = { λ _ e. e ≡ NoMemory };

    fn from(_: AllocError) -> StoreError {
        StoreError::NoMemory
    }
}

impl<T: Drop> From<AllocFailed<T>> for StoreError {
    ghost use Rattle.system_parts.specs.declared.store_errors.StoreError.TheVariants.{NoMemory};

    ghost from_gives = { λ _ e. e ≡ NoMemory };

    fn from(_: AllocFailed<T>) -> StoreError {
        StoreError::NoMemory
    }
}
