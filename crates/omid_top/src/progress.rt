// Showing how far a replay is, and what the lines of a run wait for that goes on no more.
use crate::waiting::show_wait;
use crate::yields::Yields;
use replay_driver::Progress;
use run_driver::{Gate, GatePlace, WaitsFor};
use std::io::{IsTerminal, Stderr};
use std::sync::Wait;
use std::time::Clock;

/// More lines than a script has that is carried out before a line of progress could be read.
const LONG: usize = 10_000;

/// How often progress is shown of one script, at most.
const TIMES: usize = 100;

/// The program's gate: it is always open, and shows on standard error how far the replay of a long script is, and what the lines of
/// a run wait for while nobody makes an event, where that is a terminal. Nobody hears of what standard error does not take. Threads
/// that wait give their processors away only while that is short, by the clock.
#[derive(Drop)]
pub struct ShowingGate<'a, C: Clock + Sync> {
    clock: &'a C,
    yields: Yields,
    terminal: Option<Stderr>,
}

impl<'a, C: Clock + Sync> ShowingGate<'a, C> {
    /// A gate that reads this clock, and shows on standard error only where that is a terminal.
    pub fn new(clock: &'a C, errors: Stderr) -> ShowingGate<'a, C> {
        ShowingGate {
            clock,
            yields: Yields::new(clock),
            terminal: if errors.is_terminal() {
                Some(errors)
            } else {
                None
            },
        }
    }
}

impl<C: Clock + Sync> Gate for ShowingGate<'_, C> {
    fn pass<R: Wait>(&self, _rt: &R, _place: GatePlace) {}

    fn carried_out(&self, lines: usize, of: usize) {
        if let Some(errors) = &self.terminal {
            if is_shown(lines, of) {
                show(errors, lines, of);
            }
        }
    }

    fn stands_open(&self) -> bool {
        true
    }

    fn hears_waits(&self) -> bool {
        self.terminal.is_some()
    }

    fn waits(&self, line: u64, on: WaitsFor) {
        if let Some(errors) = &self.terminal {
            show_wait(errors, line, on);
        }
    }

    fn give_way(&self) {
        self.yields.give_way(self.clock);
    }

    fn yields(&self) -> bool {
        self.yields.may(self.clock)
    }
}

/// A gate, where a replay wants to know whom it tells how far it is.
#[derive(Drop)]
pub(crate) struct TellsGate<'a, G: Gate> {
    pub gate: &'a G,
}

impl<'a, G: Gate> Progress for TellsGate<'a, G> {
    fn carried_out(&self, lines: usize, of: usize) {
        self.gate.carried_out(lines, of);
    }
}

/// Whether progress is shown behind so many lines.
fn is_shown(lines: usize, of: usize) -> bool {
    of > LONG && (lines == of || lines % of.div_ceil(TIMES) == 0)
}

/// Writes over the line that was shown before, and ends it behind the last line of the script.
fn show(errors: &Stderr, lines: usize, of: usize) {
    let end = if lines == of { "\n" } else { "" };
    let _ = print!(errors; "\romid: {lines} of {of} lines{end}");
}
