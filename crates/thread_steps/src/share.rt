ghost use Rattle.std.specs.Prelude.{◌≡◌, ◌+◌, ◌<◌, ◌≤◌, ◌^◌, length, map, IfOk, sum_by, vec_len};
ghost use Rattle.thread_steps.specs.Done.{fresh, aimed_at};

use history_book::Actor;
use stamp_base::{NoMemory, NodeNo};
use std::alloc::Global;
use std::marker::Model;
use std::sync::ledger::{Book, Ledger, Share};

/// The right of one actor to do its lines, which counts those that were done through it.
#[derive(Drop)]
pub struct ActorShare<L: Ledger> {
    actor: Actor,
    done: u64,
    aim: NodeNo,
    part: Share<L>,
}

impl<L: Ledger> Model for ActorShare<L> {
    ghost use Rattle.std.specs.Prelude.{◌≡◌};
    ghost use Rattle.thread_steps.specs.Done.{Done};

    ghost Value = { Done };

    ghost view = { λ s. record { actor = s.actor; amount = s.part.amount; aim = s.aim } };

    ghost invariant = { λ s. (s.part.parts ≡ 1) × (s.done ≡ s.part.amount) };
}

impl<L: Ledger> ActorShare<L> {
    /// The actor whose share it is.
    pub fn actor(&self) -> Actor
        ensures { result ≡ self.now.actor }
    {
        self.actor
    }

    /// How many lines were done through it.
    pub fn done(&self) -> u64
        ensures { result ≡ self.now.amount }
    {
        self.done
    }

    /// At which node it is aimed: a new share at the first.
    pub fn aimed(&self) -> NodeNo
        ensures { result ≡ self.now.aim }
    {
        self.aim
    }

    /// Aims it at the node: the one that its actor's next line asks which names the master.
    pub fn aim(&mut self, node: NodeNo)
        ensures { self.new ≡ aimed_at node self.old }
    {
        self.aim = node;
    }

    fn new(actor: Actor, part: Share<L>) -> ActorShare<L>
        requires { (part.parts ≡ 1) × (part.amount ≡ 0) }
        ensures { result ≡ fresh actor }
    {
        ActorShare {
            actor,
            done: 0,
            aim: NodeNo::FIRST,
            part,
        }
    }

    /// So many lines more, in the share and in the book. An amount is at most the book's total.
    pub(crate) fn count(&mut self, book: &mut Book<L>, more: u64)
        requires { book.old.total + more < 2 ^ 64 }
        ensures actor { self.new.actor ≡ self.old.actor }
        ensures aim { self.new.aim ≡ self.old.aim }
        ensures amount { self.new.amount ≡ self.old.amount + more }
        ensures total { book.new.total ≡ book.old.total + more }
    {
        book.audit(&mut self.part);
        book.add(&mut self.part, more);
        self.done += more;
    }

    fn into_part(self) -> Share<L>
        ensures { (result.parts ≡ 1) × (result.amount ≡ self.amount) }
    {
        self.part
    }
}

/// One share for each actor, with one part each.
pub(crate) fn cut<L: Ledger>(
    alloc: Global,
    actors: &[Actor],
    all: &mut Share<L>,
) -> Result<Vec<ActorShare<L>>, NoMemory>
    requires parts { length actors.now ≤ all.old.parts }
    requires amount { all.old.amount ≡ 0 }
    ensures shares { IfOk result (λ shares. shares.items ≡ map fresh actors.now) }
    ensures parts { IfOk result (λ _. all.new.parts + length actors.now ≡ all.old.parts) }
    ensures amount { IfOk result (λ _. all.new.amount ≡ 0) }
{
    let mut shares = Vec::with_capacity(alloc, actors.len())?;
    for actor in actors {
        let part = all.split_off(1, 0);
        shares.push(ActorShare::new(*actor, part))?;
    }
    Ok(shares)
}

/// All shares as one, with what no actor has.
pub(crate) fn gather<L: Ledger>(mut all: Share<L>, mut shares: Vec<ActorShare<L>>) -> Share<L>
    ensures parts { result.parts ≡ all.parts + vec_len shares }
    ensures amount { result.amount ≡ all.amount + sum_by (λ s. s.amount) shares.items }
{
    while let Some(share) = shares.pop() {
        all.merge(share.into_part());
    }
    all
}
