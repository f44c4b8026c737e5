// Progress: a gate that wants to know how far a replay is hears of each line once.
use crate::ports::{call, open_sink, open_source};
use omid_top::{Gate, GatePlace};
use std::alloc::{AllocError, Global};
use std::sync::Wait;
use std::sync::atomic::{AtomicUsize, Ordering};
use std::test::Fail;
use std::thread::Threads;

/// The commands, their input, and how many lines are carried out for them.
static COUNTS: [(&[&str], &str, usize); 6] = [
    (
        &["replay"],
        "# one write\na take\n\ns0 begin a\ns0 write k0 v\ns0 commit a\n",
        4,
    ),
    (&["replay", "summary"], "clock tick 12\n", 1),
    (&["replay"], "", 0),
    (&["replay"], "a take\na fly\n", 0),
    (&["audit"], "tick 12\n", 0),
    (&["storm", "1"], "", 7),
];

/// Behind a function, a proof that goes over the rows does not look into their texts.
fn counts() -> &'static [(&'static [&'static str], &'static str, usize)] {
    &COUNTS
}

/// Counts how often it was told something, and keeps what it was told last.
#[derive(Drop)]
struct CountingGate {
    calls: AtomicUsize,
    lines: AtomicUsize,
    of: AtomicUsize,
}

impl Gate for CountingGate {
    fn pass<R: Wait>(&self, _rt: &R, _place: GatePlace) {}

    fn carried_out(&self, lines: usize, of: usize) {
        self.calls.fetch_add(1, Ordering::SeqCst);
        self.lines.store(lines, Ordering::SeqCst);
        self.of.store(of, Ordering::SeqCst);
    }
}

impl CountingGate {
    fn new() -> CountingGate {
        CountingGate {
            calls: AtomicUsize::new(0),
            lines: AtomicUsize::new(0),
            of: AtomicUsize::new(0),
        }
    }

    /// How often it was told something, the number of lines that it was told last, and of how many.
    fn told(&self) -> [usize; 3] {
        [
            self.calls.load(Ordering::SeqCst),
            self.lines.load(Ordering::SeqCst),
            self.of.load(Ordering::SeqCst),
        ]
    }
}

/// What is told while the program carries out the words.
fn told_for<R: Threads + Wait + Sync>(
    rt: &R,
    alloc: Global,
    names: &[&str],
    input: &str,
) -> Result<[usize; 3], AllocError> {
    let mut source = open_source(alloc, input.as_bytes(), &[])?;
    let mut sink = open_sink(alloc, 65_536, &[])?;
    let gate = CountingGate::new();
    call(rt, alloc, names, &mut source, &mut sink, &gate)?;
    Ok(gate.told())
}

#[test]
fn each_line_is_told_once(rt: HostRuntime) -> Result<(), Fail> {
    for (words, input, lines) in counts() {
        let told = told_for(&rt, rt.alloc(), words, input)?;
        assert_eq!(rt; told, [*lines, *lines, *lines], "{input}");
    }
    Ok(())
}
