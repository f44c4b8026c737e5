// How a call of the program ended, as the program `omid` says it.

/// The trace is as asked, or the words asked for help.
pub const DONE: u8 = 0;
/// The words are no command.
pub const USAGE: u8 = 2;
/// The bytes are no trace that can be judged.
pub const BAD_INPUT: u8 = 3;
/// The source failed.
pub const SOURCE_FAILED: u8 = 4;
/// The sink failed.
pub const SINK_FAILED: u8 = 5;
/// Memory was refused.
pub const NO_MEMORY: u8 = 6;
/// The trace is not as asked.
pub const REFUSED: u8 = 7;
/// The trace does not decide whether it is.
pub const UNDECIDED: u8 = 8;
/// The trace is as asked, and no history can tell it.
pub const UNFIT: u8 = 9;
