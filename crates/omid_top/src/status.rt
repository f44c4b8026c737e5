/// How a call of the program ended.
#[derive(Clone, Copy, Debug, PartialEq, Eq)]
pub struct Status {
    /// The status, as the process ends with it.
    pub code: u8,
}

impl Status {
    /// All was done, and what was to be written was written.
    pub const DONE: Status = Status { code: 0 };
    /// The words are no command.
    pub const USAGE: Status = Status { code: 2 };
    /// The bytes are no script, or no history.
    pub const BAD_INPUT: Status = Status { code: 3 };
    /// The source failed.
    pub const SOURCE_FAILED: Status = Status { code: 4 };
    /// The sink failed.
    pub const SINK_FAILED: Status = Status { code: 5 };
    /// Memory was refused.
    pub const NO_MEMORY: Status = Status { code: 6 };
    /// The history that was audited is not isolated, or not serial where that was asked.
    pub const NOT_ISOLATED: Status = Status { code: 7 };
    /// Over split stores something else was kept of an event than comes of it.
    pub const TORN: Status = Status { code: 8 };
    /// Over split stores an actor has drawn all its ticks.
    pub const SPENT: Status = Status { code: 9 };
}
