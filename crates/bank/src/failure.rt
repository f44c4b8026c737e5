use stamp_base::NoMemory;
use std::io;

/// Why the bank could not go on.
#[derive(Clone, Copy, Debug, PartialEq, Eq)]
pub enum Failure {
    /// The cluster refused an event. Its history tells why.
    Refused,
    /// The call of an event on the store failed.
    Fault,
    /// A reading would be behind an earlier one by more than the skew.
    Unsteady,
    /// The store holds what no teller wrote, or a balance is too low.
    Balance,
    NoMemory,
    /// Standard output failed.
    Output,
}

impl From<NoMemory> for Failure {
    ghost from_gives = { λ _ _. Unit {0} };

    fn from(_: NoMemory) -> Failure {
        Failure::NoMemory
    }
}

impl From<io::Error> for Failure {
    ghost from_gives = { λ _ _. Unit {0} };

    fn from(_: io::Error) -> Failure {
        Failure::Output
    }
}
