// The least pair that the plain walk finds, on histories whose places are found by hand.
use history_book::Item;
use isolation_rules::{Pair, Rule, plain_pair};
use stamp_base::{KeyNo, NodeNo, SessionNo, Stamp, Value};
use std::process::Abort;
use std::test::Fail;

fn begin(session: SessionNo, start: u64) -> Result<Item, Fail> {
    let start = Stamp::new(start).ok_or("a start")?;
    Ok(Item::Begin { session, start })
}

fn write(start: u64) -> Result<Item, Fail> {
    Ok(Item::Write {
        session: SessionNo::FIRST,
        start: Stamp::new(start).ok_or("a start")?,
        key: KeyNo::FIRST,
        value: Value::new(b"v").ok_or("a value")?,
    })
}

fn placed(start: u64, commit: u64) -> Result<Item, Fail> {
    let start = Stamp::new(start).ok_or("a start")?;
    let commit = Stamp::new(commit).ok_or("a commit")?;
    Ok(Item::Placed { start, commit })
}

fn read_of_nothing(start: u64) -> Result<Item, Fail> {
    Ok(Item::Read {
        session: SessionNo::LAST,
        start: Stamp::new(start).ok_or("a start")?,
        key: KeyNo::FIRST,
        answer: None,
    })
}

// Commits and reads are judged only where the stamps are in order.
fn least_pair(rule: Rule, items: &[Item]) -> Option<Pair> {
    match plain_pair(Rule::Stamped, items) {
        Some(pair) => Some(pair),
        None => plain_pair(rule, items),
    }
}

// Places are counted from 0.
fn assert_least(rt: &impl Abort, rule: Rule, want: Option<(usize, usize)>, items: &[Item]) {
    let places = match least_pair(rule, items) {
        Some(pair) => Some((pair.first, pair.second)),
        None => None,
    };
    assert_eq!(rt; places, want, "of {items:?}");
}

// The first item alone breaks no rule.
#[test]
fn least_pairs(rt: HostRuntime) -> Result<(), Fail> {
    let (session, other) = (SessionNo::FIRST, SessionNo::LAST);
    let begun_twice = [begin(session, 1)?, begin(other, 1)?];
    assert_least(&rt, Rule::Stamped, Some((0, 1)), &begun_twice);
    assert_least(&rt, Rule::Stamped, None, &begun_twice[..1]);
    let both_placed = [write(1)?, write(2)?, placed(1, 3)?, placed(2, 4)?];
    assert_least(&rt, Rule::Apart, Some((2, 3)), &both_placed);
    assert_least(&rt, Rule::Apart, None, &both_placed[..1]);
    let missed = [write(1)?, placed(1, 3)?, read_of_nothing(5)?];
    assert_least(&rt, Rule::Read, Some((2, 0)), &missed);
    assert_least(&rt, Rule::Read, None, &missed[..1]);
    let ask = Item::AskBegin {
        session,
        node: NodeNo::FIRST,
    };
    let stale = [placed(1, 3)?, ask, begin(session, 2)?];
    assert_least(&rt, Rule::Fresh, Some((0, 2)), &stale);
    assert_least(&rt, Rule::Fresh, None, &stale[..1]);
    Ok(())
}
