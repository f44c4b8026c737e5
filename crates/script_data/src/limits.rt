/// The most faults that a script plans.
pub const FAULT_LIMIT: usize = 32;
