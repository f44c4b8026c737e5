// What a thread does between two looks at what it waits for.
use std::hint::spin_loop;

/// How a thread that looks whether it was woken lets others go first.
pub trait GivesWay {
    /// Is called between two looks. By default the processor is kept: beside other processes a thread that gives it away may get it
    /// back only after milliseconds.
    fn give_way(&self) {
        spin_loop();
    }
}

/// Keeps its processor.
#[derive(Clone, Copy, Debug, PartialEq, Eq)]
pub struct KeepsProcessor;

impl GivesWay for KeepsProcessor {}
