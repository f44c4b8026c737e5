// Why a line is no item.
ghost use Rattle.std.specs.Prelude.{◌≡◌, ◌++◌, OnOk};
ghost use Rattle.line_reasons.specs.Reasons.{fault_text, member_text, missing_text, plain_text};

use crate::wants::{Wants, wants_words};
use history_view::Text;
use stamp_base::NoMemory;

/// Why a line is no item.
#[derive(Clone, Copy)]
pub enum LineFault {
    // Of a line of text.
    /// The line ends in a carriage return.
    CarriageReturn,
    /// A byte of it is neither visible nor a blank.
    Unseen,
    /// A blank stands at its front or end, or behind another.
    LooseBlank,
    /// It is an object, in a history whose first line is none.
    Mixed,
    /// It ends behind the key that was read.
    NoAnswer,
    /// More stands behind its members.
    TooLong,

    // Of a line of JSON.
    /// It is no text of JSON.
    NoJson,
    /// It is JSON, and no object.
    NoObject,
    /// It has no member `kind` that is a text.
    NoKind,
    /// It has more members than its kind.
    TooMany,

    // Of both.
    /// No items are of its kind.
    UnknownKind,
    /// The member of this name is not there, or not in its place.
    Missing { name: &'static str },
    /// What the member of this name says is not what it wants.
    Member { name: &'static str, wants: Wants },
    /// None of these was found.
    Other,
}

/// Adds the fault as a line of words, and nothing where none was found.
pub fn print_fault(text: &mut Text, fault: LineFault) -> Result<(), NoMemory>
    ensures { OnOk result (text.new ≡ text.old ++ fault_text fault) }
{
    match fault {
        LineFault::Missing { name } => print_missing(text, name.as_bytes()),
        LineFault::Member { name, wants } => print_member(text, name.as_bytes(), wants),
        LineFault::Other => Ok(()),
        _ => text.push(plain_words(fault)),
    }
}

fn print_missing(text: &mut Text, name: &[u8]) -> Result<(), NoMemory>
    ensures { OnOk result (text.new ≡ text.old ++ missing_text name.now) }
{
    text.push(b"    member `")?;
    text.push(name)?;
    text.push(b"` is missing\n")
}

fn print_member(text: &mut Text, name: &[u8], wants: Wants) -> Result<(), NoMemory>
    ensures { OnOk result (text.new ≡ text.old ++ member_text name.now wants) }
{
    text.push(b"    member `")?;
    text.push(name)?;
    text.push(b"`: ")?;
    text.push(wants_words(wants))?;
    text.push(b"\n")
}

/// The line of a fault that names no member.
fn plain_words(fault: LineFault) -> &'static [u8]
    ensures { result.now ≡ plain_text fault }
{
    match fault {
        LineFault::CarriageReturn => b"    it ends in a carriage return\n",
        LineFault::Unseen => b"    a byte of it is neither visible nor a blank\n",
        LineFault::LooseBlank => b"    a blank stands at its front or end, or behind another\n",
        LineFault::Mixed => b"    it is an object, and the history's first line is not\n",
        LineFault::NoAnswer => b"    a read ends in `none`, or in `from=` and a value\n",
        LineFault::TooLong => b"    more stands behind its members\n",
        LineFault::NoJson => b"    it is no JSON, as the history's first line is\n",
        LineFault::NoObject => b"    it is no object, as the history's first line is\n",
        LineFault::NoKind => b"    member `kind`: the kind of an item\n",
        LineFault::TooMany => b"    it has more members than its kind\n",
        LineFault::UnknownKind => b"    there is no such kind of item\n",
        _ => b"",
    }
}
