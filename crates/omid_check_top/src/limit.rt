/// How many bytes a trace has at most.
pub const TRACE_LIMIT: usize = 1_073_741_824;
