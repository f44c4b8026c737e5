// Which keys have lists, and which single values.
ghost use Rattle.std.specs.Prelude.{◌≡◌, [], Ok};
ghost use Rattle.trace_index.specs.Blames.{Leaves, Makes};
ghost use Rattle.trace_index.specs.Uses.{is_same, uses_from};

use crate::fault::{Fault, Unclear};
use crate::said::Said;
use indexmap::IndexMap;
use std::alloc::Global;
use std::marker::Model;
use trace_reading::Operation;

/// What a key has.
#[derive(Clone, Copy, Debug, PartialEq, Eq)]
pub enum Use {
    /// Lists.
    OfLists,
    /// Single values.
    OfValues,
}

/// What each key has.
#[derive(Drop)]
pub struct Uses {
    by: IndexMap<u64, Use>,
}

impl Model for Uses {
    ghost use Rattle.trace_index.specs.Uses as uses;

    ghost Value = { uses.Uses };

    ghost view = { λ u. u.by.entries };
}

impl Uses {
    ghost use Rattle.std.specs.Map.{lookup};
    ghost use Rattle.std.specs.Prelude.{nat_eq, None};
    ghost use Rattle.trace_index.specs.Uses.{read_used, unless_used, use_step, used};

    fn of(&self, key: u64) -> Option<Use>
        ensures { result ≡ lookup (nat_eq key) self.now }
    {
        self.by.get(&key).copied()
    }

    /// Notes what the operation's key has.
    fn note(&mut self, said: &Said) -> Result<(), Fault>
        ensures { Leaves (use_step self.old said.now.txn said.now.member said.now.operation) self.new result }
    {
        let txn = said.txn;
        let member = said.member;
        match said.operation {
            Operation::Read { key, answer, .. } => self.add_read(txn, member, key, answer),
            Operation::Write { key, .. } => self.add(txn, member, key, Use::OfValues),
            Operation::ReadList { key, .. } | Operation::Append { key, .. } => {
                self.add(txn, member, key, Use::OfLists)
            }
        }
    }

    fn add_read(
        &mut self,
        txn: usize,
        member: u64,
        key: u64,
        answer: Option<u64>,
    ) -> Result<(), Fault>
        ensures { Leaves (read_used self.old txn member key answer) self.new result }
    {
        match answer {
            None => Ok(()),
            Some(_) => self.add(txn, member, key, Use::OfValues),
        }
    }

    fn add(&mut self, txn: usize, member: u64, key: u64, what: Use) -> Result<(), Fault>
        ensures { Leaves (used self.old txn member key what) self.new result }
    {
        match self.of(key) {
            None => self.insert(txn, key, what),
            Some(other) => {
                if is_same(what, other) {
                    return Ok(());
                }
                Err(Fault::At {
                    txn,
                    member,
                    key,
                    value: 0,
                    what: Unclear::BothWays,
                })
            }
        }
    }

    fn insert(&mut self, txn: usize, key: u64, what: Use) -> Result<(), Fault>
        ensures { Leaves (unless_used self.old txn 0 key what None) self.new result }
    {
        self.by.insert(key, what)?;
        Ok(())
    }
}

fn is_same(one: Use, other: Use) -> bool
    ensures { result ≡ is_same one other }
{
    match one {
        Use::OfLists => match other {
            Use::OfLists => true,
            Use::OfValues => false,
        },
        Use::OfValues => match other {
            Use::OfLists => false,
            Use::OfValues => true,
        },
    }
}

/// What each key of the operations has. At, with the first that has a list where single values were before, or the other way round;
/// NoMemory where memory is refused.
pub fn uses_of(alloc: Global, said: &[Said]) -> Result<Uses, Fault>
    ensures { Makes (uses_from [] said.now) result }
{
    let mut uses = Uses {
        by: IndexMap::new(alloc),
    };
    match add_all(&mut uses, said) {
        Ok(()) => Ok(uses),
        Err(fault) => Err(fault),
    }
}

fn add_all(uses: &mut Uses, said: &[Said]) -> Result<(), Fault>
    ensures { Leaves (uses_from uses.old said.now) uses.new result }
{
    for one in said {
        uses.note(one)?;
    }
    Ok(())
}
