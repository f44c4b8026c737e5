// Whether a text is a value of what a member wants.
ghost use Rattle.std.specs.Prelude.{◌≡◌, ◌++◌, IfOk, IsFalse};
ghost use Rattle.line_reasons.specs.Wants.{IsNoValue};
ghost use Rattle.line_reasons.specs.Samples.{after_it, before_it};

use crate::wants::Wants;
use history_reading::read_item;
use stamp_base::NoMemory;
use std::alloc::Global;

/// Whether the text is a value of what is wanted: whether a line that has it, and is right in all else, is an item's. NoMemory
/// where memory is refused.
pub fn is_value(alloc: Global, wants: Wants, said: &[u8]) -> Result<bool, NoMemory>
    ensures { IfOk result (λ is. IsFalse is → IsNoValue wants said.now) }
{
    let line = sample_of(alloc, wants, said)?;
    Ok(read_item(&line).is_some())
}

fn sample_of(alloc: Global, wants: Wants, said: &[u8]) -> Result<Vec<u8>, NoMemory>
    ensures { IfOk result (λ line. line.items ≡ before_it wants ++ said.now ++ after_it wants) }
{
    let mut line = Vec::with_capacity(alloc, 128)?;
    line.extend_from_slice(before_it(wants))?;
    line.extend_from_slice(said)?;
    line.extend_from_slice(after_it(wants))?;
    Ok(line)
}

fn before_it(wants: Wants) -> &'static [u8]
    ensures { result.now ≡ before_it wants }
{
    match wants {
        Wants::Number => b"tick ",
        Wants::Term => b"crash a term=",
        Wants::Stamp => b"mark clock start=",
        Wants::Node => b"crash ",
        Wants::Session => b"vanish ",
        Wants::Key => b"write s0 start=1 ",
        Wants::Value => b"write s0 start=1 k0 ",
        Wants::Ending => b"end s0 start=1 ",
        Wants::Actor => b"mark ",
        Wants::Note => b"note clock ",
        Wants::Name => b"note clock post ",
        Wants::Stage => b"note clock hold ",
        Wants::Step => b"step clock ",
        Wants::Cause => b"refused clock ",
        Wants::Store => b"fault clock ",
    }
}

fn after_it(wants: Wants) -> &'static [u8]
    ensures { result.now ≡ after_it wants }
{
    match wants {
        Wants::Node => b" term=1",
        Wants::Key => b" v",
        Wants::Actor => b" start=1",
        Wants::Note => b" request",
        _ => b"",
    }
}
