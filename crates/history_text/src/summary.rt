ghost use Rattle.std.specs.Prelude.{◌≡◌, ◌-◌, ◌^◌};
ghost use Rattle.history_text.specs.Summary.{summary_of, summary_text, one_more, IsUpTo};

use crate::line::LineBuf;
use history_book::{Cause, Item};

/// How many items of a history tell what.
#[derive(Clone, Copy, Debug, PartialEq, Eq)]
pub struct Summary {
    /// How many transactions began.
    pub transactions: usize,
    /// How many of them were told that they committed.
    pub committed: usize,
    /// How many commits were refused for a conflict.
    pub conflict: usize,
    /// How many commits were refused since what their keys might conflict with was forgotten.
    pub hidden: usize,
    /// How many refusals have another cause.
    pub other: usize,
    /// How many items there are.
    pub items: usize,
}

impl Summary {
    /// The summary of no items.
    const EMPTY: Summary = Summary {
        transactions: 0,
        committed: 0,
        conflict: 0,
        hidden: 0,
        other: 0,
        items: 0,
    };

    /// The summary of a history.
    pub fn of(items: &[Item]) -> Summary
        ensures { result ≡ summary_of items.now }
    {
        let mut summary = Summary::EMPTY;
        for item in items {
            summary.count(item);
        }
        summary
    }

    /// Counts one more item.
    #[tactic(auto, unfolding(crate::specs::Summary::is_begin, crate::specs::Summary::is_committed, crate::specs::Summary::is_conflict, crate::specs::Summary::is_hidden, crate::specs::Summary::is_refused_else))]
    fn count(&mut self, item: &Item)
        requires { IsUpTo (2 ^ 64 - 2) self.old }
        ensures { self.new ≡ one_more self.old item.now }
    {
        match item {
            Item::Begin { .. } => self.transactions += 1,
            Item::Committed { .. } => self.committed += 1,
            Item::Refused { cause, .. } => match cause {
                Cause::Conflict { .. } => self.conflict += 1,
                Cause::Hidden { .. } => self.hidden += 1,
                _ => self.other += 1,
            },
            _ => {}
        }
        self.items += 1;
    }

    /// Leaves the summary's line in the buffer, and nothing else.
    pub fn print(&self, line: &mut LineBuf)
        ensures { line.new ≡ summary_text self.now }
    {
        line.set_text(b"transactions=");
        line.push_number(self.transactions as u64);
        line.push_field(b" committed=", self.committed as u64);
        line.push_field(b" conflict=", self.conflict as u64);
        line.push_field(b" hidden=", self.hidden as u64);
        line.push_field(b" other=", self.other as u64);
        line.push_field(b" items=", self.items as u64);
        line.push_text(b"\n");
    }
}
