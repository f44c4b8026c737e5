// Names that lines await and post.
ghost use Rattle.std.specs.Prelude.{IfErr, List};
ghost use Rattle.split_stores.specs.declared.seat.Entry.{Entry};
ghost use Rattle.split_driver.specs.Runs.{TellsDrawn};

use crate::{PlayStop, Posting};
use script_data::Verb;
use split_stores::Split;
use stamp_base::Name;
use std::sync::Wait;

/// Waits until the name is posted that the line awaits, if it awaits one.
pub(crate) fn wait_for<R: Wait>(
    rt: &R,
    split: &Split,
    posting: &Posting,
    verb: &Verb,
) -> Result<(), PlayStop>
    ensures { (entries : List Entry) → IfErr result (TellsDrawn entries) }
{
    match verb {
        Verb::Await { name } => wait_for_name(rt, split, posting, name),
        _ => Ok(()),
    }
}

// A post between the count and the look at the names has raised the count, so that nothing is waited for then.
fn wait_for_name<R: Wait>(
    rt: &R,
    split: &Split,
    posting: &Posting,
    name: &Name,
) -> Result<(), PlayStop>
    ensures { (entries : List Entry) → IfErr result (TellsDrawn entries) }
{
    for _ in rt.forever() {
        let seen = posting.count(rt);
        if split.posted(rt, name) {
            return Ok(());
        }
        match seen {
            Some(count) => posting.wait_past(rt, count),
            None => return Err(PlayStop::Closed),
        }
    }
    unreachable!()
}

/// Wakes those that wait for the name that the line posts, if it posts one.
pub(crate) fn tell<R: Wait>(rt: &R, posting: &Posting, verb: &Verb) {
    if let Verb::Post { .. } = verb {
        posting.post(rt);
    }
}
