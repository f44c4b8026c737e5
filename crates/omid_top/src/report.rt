// What an audit reports of a history, and the line that says it.
ghost use Rattle.std.specs.Prelude.{◌≡◌, ◌≤◌, length};
ghost use Rattle.omid_top.specs.Audit.{broken_text, report_status, report_text, rule_text};

use crate::Status;
use history_text::LineBuf;
use si_judge::Rule;

/// What an audit found.
#[derive(Clone, Copy, Debug, PartialEq, Eq)]
pub enum Report {
    /// The history is as asked: snapshot isolated, and serial too where that was asked. It has so many items.
    Isolated {
        items: usize,
    },
    /// The first rule that is broken, and the numbers of two items that break it, counted from 1.
    Broken {
        rule: Rule,
        first: usize,
        second: usize,
    },
    /// The history is isolated and not serial: the numbers of a read and of a placed commit that crosses it, counted from 1.
    Crossed {
        read: usize,
        placed: usize,
    },
    /// The number of the first line that is no item, counted from 1, and 0 where there are too many bytes.
    NotAnItem {
        line: u64,
    },
}

impl Report {
    /// The status that goes with the report.
    pub fn status(&self) -> Status
        ensures { result.code ≡ report_status self.now }
    {
        match self {
            Report::Isolated { .. } => Status::DONE,
            Report::Broken { .. } | Report::Crossed { .. } => Status::NOT_ISOLATED,
            Report::NotAnItem { .. } => Status::BAD_INPUT,
        }
    }

    /// Leaves the report's line in the buffer.
    pub fn print(&self, line: &mut LineBuf)
        ensures { line.new ≡ report_text self.now }
    {
        match self {
            Report::Isolated { items } => {
                line.set_text(b"isolated items=");
                line.push_number(*items as u64);
                line.push_text(b"\n");
            }
            Report::Broken {
                rule,
                first,
                second,
            } => set_broken(line, rule_word(*rule), *first, *second),
            Report::Crossed { read, placed } => set_broken(line, b"serial", *read, *placed),
            Report::NotAnItem { line: number } => {
                line.set_text(b"history line ");
                line.push_number(*number);
                line.push_text(b": not an item");
                line.push_text(b"\n");
            }
        }
    }
}

/// Leaves the line in the buffer that names a broken rule and the two items that break it.
fn set_broken(line: &mut LineBuf, word: &[u8], first: usize, second: usize)
    requires { length word.now ≤ 7 }
    ensures { line.new ≡ broken_text word.now first second }
{
    line.set_text(b"not isolated: ");
    line.push_text(word);
    line.push_text(b" ");
    line.push_number(first as u64);
    line.push_text(b" ");
    line.push_number(second as u64);
    line.push_text(b"\n");
}

fn rule_word(rule: Rule) -> &'static [u8]
    ensures word { result.now ≡ rule_text rule }
    ensures room { length result.now ≤ 7 }
{
    match rule {
        Rule::Stamped => b"stamped",
        Rule::Apart => b"apart",
        Rule::Read => b"read",
        Rule::Fresh => b"fresh",
    }
}
