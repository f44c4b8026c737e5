// Whether the committed writers of each key take turns, in the order of the items. Then no two of them overlap.
ghost use Rattle.std.specs.Prelude.{◌≡◌, ◌<◌, length, vec_len, IfOk, Decides};
ghost use Rattle.si_judge.specs.Follows.{MayFollow};
ghost use Rattle.si_judge.specs.Turns.{IsTold};

use crate::commits::Commits;
use history_book::Item;
use stamp_base::{KeyNo, NoMemory, Stamp};
use std::alloc::Global;

/// A committed transaction.
#[derive(Clone, Copy)]
pub struct Writer {
    start: Stamp,
    commit: Stamp,
}

/// What is known of the committed writers of each key, of some first items.
#[derive(Drop)]
pub struct Turns {
    /// The last writer of each key.
    last: Vec<Option<Writer>>,
    /// Whether each writer started after the commit of the one before it.
    pub apart: bool,
}

/// What is known of the writers of all items. NoMemory where memory is refused.
pub fn turns_of(alloc: Global, items: &[Item], commits: &Commits) -> Result<Turns, NoMemory>
    ensures { IfOk result (λ turns. IsTold items.now (length items.now) commits.now turns) }
{
    let mut turns = Turns::new(alloc)?;
    for place in 0..items.len() {
        turns.pass(commits, &items[place]);
    }
    Ok(turns)
}

impl Turns {
    ghost use Rattle.si_judge.specs.Turns.{IsTurn, IsNext};

    fn new(alloc: Global) -> Result<Turns, NoMemory>
        ensures { IfOk result (λ turns. vec_len turns.last ≡ 4096) }
    {
        Ok(Turns {
            last: vec![in alloc; None; 4096]?,
            apart: true,
        })
    }

    fn pass(&mut self, commits: &Commits, item: &Item)
        requires { vec_len self.old.last ≡ 4096 }
        ensures each { vec_len self.new.last ≡ 4096 }
        ensures turn { IsTurn commits.now self.old self.new item.now }
    {
        match item {
            Item::Write { start, key, .. } => match commits.get(&start.value()) {
                Some(commit) => self.enter(
                    *key,
                    Writer {
                        start: *start,
                        commit: commit.stamp,
                    },
                ),
                None => {}
            },
            _ => {}
        }
    }

    fn enter(&mut self, key: KeyNo, writer: Writer)
        requires { vec_len self.old.last ≡ 4096 }
        ensures each { vec_len self.new.last ≡ 4096 }
        ensures next { IsNext self.old self.new key writer }
    {
        let place = place_of(key);
        let follows = may_follow(&self.last[place], &writer);
        self.last[place] = Some(writer);
        self.apart = self.apart && follows;
    }
}

/// Whether the writer is the last one, or started after its commit.
fn may_follow(last: &Option<Writer>, writer: &Writer) -> bool
    ensures { Decides result (MayFollow last.now writer.now) }
{
    match last {
        None => writer.start < writer.commit,
        Some(before) => {
            writer.start < writer.commit
                && (before.commit < writer.start
                    || (before.start == writer.start && before.commit == writer.commit))
        }
    }
}

/// The key's place in a table of all keys, below 4,096.
pub fn place_of(key: KeyNo) -> usize
    ensures place { result ≡ key }
    ensures range { result < 4096 }
{
    key.value() as usize
}
