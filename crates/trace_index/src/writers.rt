// Who wrote each value at each key.
ghost use Rattle.std.specs.Prelude.{◌≡◌, [], Ok};
ghost use Rattle.trace_index.specs.Versions.{writers_from};
ghost use Rattle.trace_index.specs.Blames.{Leaves, Makes};

use crate::fault::{Fault, Unclear};
use crate::said::Said;
use indexmap::IndexMap;
use std::alloc::Global;
use std::marker::Model;
use trace_reading::Operation;

/// The transaction that wrote each value at each key.
#[derive(Drop)]
pub struct Writers {
    by: IndexMap<(u64, u64), usize>,
}

impl Model for Writers {
    ghost use Rattle.trace_index.specs.Versions as versions;

    ghost Value = { versions.Writers };

    ghost view = { λ w. w.by.entries };
}

impl Writers {
    ghost use Rattle.trace_index.specs.Versions.{unless_written, writer_of, writer_step, written};

    /// Of no operations.
    fn new(alloc: Global) -> Writers
        ensures { result ≡ [] }
    {
        Writers {
            by: IndexMap::new(alloc),
        }
    }

    /// The transaction that wrote the value at the key.
    pub fn of(&self, key: u64, value: u64) -> Option<usize>
        ensures { result ≡ writer_of self.now key value }
    {
        self.by.get(&(key, value)).copied()
    }

    /// Notes what the operation writes.
    fn note(&mut self, said: &Said) -> Result<(), Fault>
        ensures { Leaves (writer_step self.old said.now.txn said.now.member said.now.operation) self.new result }
    {
        match said.operation {
            Operation::Read { .. } | Operation::ReadList { .. } => Ok(()),
            Operation::Write { key, value, .. } | Operation::Append { key, value } => {
                self.add(said.txn, said.member, key, value)
            }
        }
    }

    fn add(&mut self, txn: usize, member: u64, key: u64, value: u64) -> Result<(), Fault>
        ensures { Leaves (written self.old txn member key value) self.new result }
    {
        match self.of(key, value) {
            Some(_) => Err(Fault::At {
                txn,
                member,
                key,
                value,
                what: Unclear::WrittenTwice,
            }),
            None => self.insert(txn, key, value),
        }
    }

    fn insert(&mut self, txn: usize, key: u64, value: u64) -> Result<(), Fault>
        ensures { Leaves (unless_written self.old txn 0 key value None) self.new result }
    {
        self.by.insert((key, value), txn)?;
        Ok(())
    }
}

/// The writers of the operations. At, with the first that writes a value a second time at a key; NoMemory where memory is refused.
pub fn writers_of(alloc: Global, said: &[Said]) -> Result<Writers, Fault>
    ensures { Makes (writers_from [] said.now) result }
{
    let mut writers = Writers::new(alloc);
    match add_all(&mut writers, said) {
        Ok(()) => Ok(writers),
        Err(fault) => Err(fault),
    }
}

fn add_all(writers: &mut Writers, said: &[Said]) -> Result<(), Fault>
    ensures { Leaves (writers_from writers.old said.now) writers.new result }
{
    for one in said {
        writers.note(one)?;
    }
    Ok(())
}
