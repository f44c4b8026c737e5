// How a call of the program ended, as the program `omid` says it.

/// All was done.
pub const DONE: u8 = 0;
/// The words are no command.
pub const USAGE: u8 = 2;
/// The bytes are no history.
pub const BAD_INPUT: u8 = 3;
/// The source failed.
pub const SOURCE_FAILED: u8 = 4;
/// The sink failed.
pub const SINK_FAILED: u8 = 5;
/// Memory was refused.
pub const NO_MEMORY: u8 = 6;
/// The history is not isolated.
pub const NOT_ISOLATED: u8 = 7;
