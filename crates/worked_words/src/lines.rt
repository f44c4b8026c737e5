// Each kind of line, step and cause, read and printed again, and lines that are almost one.
use history_book::Item;
use history_reading::{read_item, texts_differ};
use history_text::{LineBuf, print_item};
use stamp_base::{NodeNo, SessionNo, Stamp, Term};
use std::test::Fail;

/// A line of each kind, of each step and of each cause.
static LINES: [&str; 67] = [
    "take a reading=0 term=1 epoch=0 until=10 ceiling=100",
    "renew a reading=5 term=1 until=15",
    "extend a term=1 ceiling=200",
    "crash a term=1",
    "tick 12",
    "ask-begin s1 a",
    "ask-commit s1 a start=1",
    "accept s1 a term=1 reading=0",
    "draw s1 a term=1 start=1",
    "draw s1 a term=1 start=1 commit=2",
    "placed start=1 commit=2",
    "begin s1 start=1",
    "write s1 start=1 k0 v",
    "read s1 start=3 k0 none",
    "read s1 start=3 k0 from=1 v",
    "committed s1 start=1 commit=2",
    "end s1 start=1 read-only",
    "end s1 start=1 aborted",
    "end s1 start=1 dead",
    "vanish s1",
    "note s1 post p",
    "note s1 await p",
    "note a hold persist",
    "note a free persist",
    "note clock hold request",
    "note janitor free reply",
    "mark s1 start=1",
    "fault s1 cells",
    "fault a table",
    "fault a master",
    "step janitor fetch k0 cells=2",
    "step janitor get 1 absent",
    "step janitor get 1 invalid",
    "step janitor get 1 committed=2",
    "step janitor mark 1 invalid",
    "step janitor mark 1 committed=2",
    "step janitor look k0 1 none",
    "step janitor look k0 1 gone",
    "step janitor look k0 1 commit=2",
    "step janitor shadow k0 1 2",
    "step janitor remove 1",
    "step janitor erase k0 1",
    "step janitor keys 1 count=2",
    "step janitor put 1 invalid",
    "step s0 handed 1 2",
    "refused s1 conflict key=k0 by=3",
    "refused s1 hidden key=k0 water=3",
    "refused s1 old-epoch start=1 epoch=100",
    "refused s1 expired reading=10 until=10",
    "refused s1 replaced found=2",
    "refused s1 spent ceiling=100",
    "refused s1 no-stamp last=2",
    "refused s1 invalid start=1",
    "refused s1 open start=1",
    "refused s1 crashed node=a term=1",
    "refused s1 not-yet commit=2",
    "refused s1 no-request session=s0",
    "refused s1 no-oracle node=b",
    "refused s1 full in-flight=64",
    "refused s1 early reading=11 until=10",
    "refused s1 holding term=1",
    "refused s1 no-transaction",
    "refused s1 busy",
    "refused s1 too-many-keys",
    "refused s1 gone",
    "refused s1 idle",
    "refused s1 undecided start=5 epoch=0",
];

/// Behind a function, a proof that goes over the lines does not look into their texts.
fn lines() -> &'static [&'static str] {
    &LINES
}

/// Whether the line is an item's, and the item's line is the same.
fn is_itself(line: &str) -> bool {
    let mut printed = LineBuf::new();
    match read_item(line.as_bytes()) {
        Some(item) => print_item(&item, &mut printed),
        None => return false,
    }
    printed.as_slice().strip_suffix(b"\n") == Some(line.as_bytes())
}

#[test]
fn each_line_is_read_and_printed_again(rt: HostRuntime) -> Result<(), Fail> {
    for line in lines() {
        assert!(rt; is_itself(line), "{line}");
    }
    Ok(())
}

/// Whether the item is what the line is read as.
fn is_line(item: Item, line: &str) -> bool {
    read_item(line.as_bytes()) == Some(item)
}

#[test]
fn numbers_stand_where_they_belong(rt: HostRuntime) {
    let term = Term::FIRST;
    let take = Item::Take {
        node: NodeNo::LAST,
        reading: 2,
        term,
        epoch: 3,
        until: 4,
        ceiling: 5,
    };
    assert!(rt; is_line(take, "take h reading=2 term=1 epoch=3 until=4 ceiling=5"));
    let draw = Item::Draw {
        session: SessionNo::LAST,
        node: NodeNo::LAST,
        term,
        start: Stamp::FIRST,
        commit: Some(Stamp::LAST),
    };
    assert!(rt; is_line(draw, "draw s15 h term=1 start=1 commit=4611686018427387904"));
    assert!(rt; is_line(Item::Tick { to: u64::MAX }, "tick 18446744073709551615"));
}

static ALMOST: [&str; 25] = [
    "",
    "tick",
    "tick ",
    "tick 01",
    "tick 18446744073709551616",
    "tick 12 ",
    "tick 12 1",
    " tick 12",
    "tick  12",
    "Tick 12",
    "take i reading=0 term=1 epoch=0 until=10 ceiling=100",
    "take a reading=0 term=0 epoch=0 until=10 ceiling=100",
    "take a term=1 reading=0 epoch=0 until=10 ceiling=100",
    "begin s16 start=1",
    "begin s1 start=0",
    "begin s1 start=4611686018427387905",
    "write s1 start=1 k4096 v",
    "write s1 start=1 k0 ",
    "write s1 start=1 k0 v w",
    "read s1 start=3 k0 from=1",
    "draw s1 a term=1 start=1 commit=",
    "note s1 post p_1",
    "refused s1 conflict key=0 by=3",
    "step s1 put 1 committed=2",
    "step s1 handed 1 commit=2",
];

fn almost() -> &'static [&'static str] {
    &ALMOST
}

#[test]
fn almost_lines_are_no_items(rt: HostRuntime) {
    for line in almost() {
        assert!(rt; read_item(line.as_bytes()).is_none(), "{line}");
    }
    assert!(rt; read_item(b"tick 12\n").is_none());
    texts_differ();
}
