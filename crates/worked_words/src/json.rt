// Each kind of item both ways, lines that are written otherwise, and lines that are almost one.
use history_json::{from_line, printed_line, read_history, to_line};
use history_reading::{HistoryFault, read_item};
use stamp_base::NoMemory;
use std::alloc::Global;
use std::test::Fail;

/// Lines of text, and the same items in JSON.
static LINES: [(&str, &str); 41] = [
    ("tick 12", "{\"kind\":\"tick\",\"to\":12}"),
    (
        "note s1 post p",
        "{\"actor\":\"s1\",\"kind\":\"note\",\"name\":\"p\",\"note\":\"post\"}",
    ),
    (
        "note s1 await p",
        "{\"actor\":\"s1\",\"kind\":\"note\",\"name\":\"p\",\"note\":\"await\"}",
    ),
    (
        "note a hold persist",
        "{\"actor\":\"a\",\"kind\":\"note\",\"name\":\"persist\",\"note\":\"hold\"}",
    ),
    (
        "note janitor free reply",
        "{\"actor\":\"janitor\",\"kind\":\"note\",\"name\":\"reply\",\"note\":\"free\"}",
    ),
    (
        "take a reading=0 term=1 epoch=0 until=10 ceiling=100",
        "{\"ceiling\":100,\"epoch\":0,\"kind\":\"take\",\"node\":\"a\",\"reading\":0,\"term\":1,\"until\":10}",
    ),
    (
        "renew a reading=5 term=1 until=15",
        "{\"kind\":\"renew\",\"node\":\"a\",\"reading\":5,\"term\":1,\"until\":15}",
    ),
    (
        "extend h term=1 ceiling=200",
        "{\"ceiling\":200,\"kind\":\"extend\",\"node\":\"h\",\"term\":1}",
    ),
    (
        "ask-begin s0 a",
        "{\"kind\":\"ask-begin\",\"node\":\"a\",\"session\":\"s0\"}",
    ),
    (
        "ask-commit s1 b start=1",
        "{\"kind\":\"ask-commit\",\"node\":\"b\",\"session\":\"s1\",\"start\":1}",
    ),
    (
        "accept s1 c term=1 reading=0",
        "{\"kind\":\"accept\",\"node\":\"c\",\"reading\":0,\"session\":\"s1\",\"term\":1}",
    ),
    (
        "draw s1 d term=1 start=1",
        "{\"kind\":\"draw\",\"node\":\"d\",\"session\":\"s1\",\"start\":1,\"term\":1}",
    ),
    (
        "draw s1 e term=1 start=1 commit=2",
        "{\"commit\":2,\"kind\":\"draw\",\"node\":\"e\",\"session\":\"s1\",\"start\":1,\"term\":1}",
    ),
    (
        "begin s0 start=1",
        "{\"kind\":\"begin\",\"session\":\"s0\",\"start\":1}",
    ),
    (
        "write s1 start=1 k0 a\"b\\c",
        "{\"key\":\"k0\",\"kind\":\"write\",\"session\":\"s1\",\"start\":1,\"value\":\"a\\\"b\\\\c\"}",
    ),
    (
        "read s1 start=3 k0 none",
        "{\"key\":\"k0\",\"kind\":\"read\",\"session\":\"s1\",\"start\":3}",
    ),
    (
        "read s1 start=3 k0 from=1 v",
        "{\"from\":1,\"key\":\"k0\",\"kind\":\"read\",\"session\":\"s1\",\"start\":3,\"value\":\"v\"}",
    ),
    (
        "placed start=1 commit=2",
        "{\"commit\":2,\"kind\":\"placed\",\"start\":1}",
    ),
    (
        "committed s15 start=1 commit=4611686018427387904",
        "{\"commit\":4611686018427387904,\"kind\":\"committed\",\"session\":\"s15\",\"start\":1}",
    ),
    (
        "mark janitor start=1",
        "{\"actor\":\"janitor\",\"kind\":\"mark\",\"start\":1}",
    ),
    (
        "step s0 shadow k0 1 2",
        "{\"actor\":\"s0\",\"kind\":\"step\",\"text\":\"shadow k0 1 2\"}",
    ),
    (
        "step s0 fetch k4095 cells=2",
        "{\"actor\":\"s0\",\"kind\":\"step\",\"text\":\"fetch k4095 cells=2\"}",
    ),
    (
        "step s2 get 1 absent",
        "{\"actor\":\"s2\",\"kind\":\"step\",\"text\":\"get 1 absent\"}",
    ),
    (
        "step s2 mark 1 committed=2",
        "{\"actor\":\"s2\",\"kind\":\"step\",\"text\":\"mark 1 committed=2\"}",
    ),
    (
        "step s2 look k0 1 gone",
        "{\"actor\":\"s2\",\"kind\":\"step\",\"text\":\"look k0 1 gone\"}",
    ),
    (
        "step s2 remove 1",
        "{\"actor\":\"s2\",\"kind\":\"step\",\"text\":\"remove 1\"}",
    ),
    (
        "step s2 erase k0 1",
        "{\"actor\":\"s2\",\"kind\":\"step\",\"text\":\"erase k0 1\"}",
    ),
    (
        "step janitor keys 1 count=2",
        "{\"actor\":\"janitor\",\"kind\":\"step\",\"text\":\"keys 1 count=2\"}",
    ),
    (
        "step f put 1 invalid",
        "{\"actor\":\"f\",\"kind\":\"step\",\"text\":\"put 1 invalid\"}",
    ),
    (
        "step s0 handed 1 2",
        "{\"actor\":\"s0\",\"kind\":\"step\",\"text\":\"handed 1 2\"}",
    ),
    (
        "end s1 start=1 read-only",
        "{\"how\":\"read-only\",\"kind\":\"end\",\"session\":\"s1\",\"start\":1}",
    ),
    (
        "end s1 start=1 aborted",
        "{\"how\":\"aborted\",\"kind\":\"end\",\"session\":\"s1\",\"start\":1}",
    ),
    (
        "end s1 start=1 dead",
        "{\"how\":\"dead\",\"kind\":\"end\",\"session\":\"s1\",\"start\":1}",
    ),
    (
        "refused s1 conflict key=k0 by=3",
        "{\"actor\":\"s1\",\"kind\":\"refused\",\"text\":\"conflict key=k0 by=3\"}",
    ),
    (
        "refused g crashed node=g term=1",
        "{\"actor\":\"g\",\"kind\":\"refused\",\"text\":\"crashed node=g term=1\"}",
    ),
    (
        "refused clock busy",
        "{\"actor\":\"clock\",\"kind\":\"refused\",\"text\":\"busy\"}",
    ),
    (
        "fault s1 cells",
        "{\"actor\":\"s1\",\"kind\":\"fault\",\"store\":\"cells\"}",
    ),
    (
        "fault a table",
        "{\"actor\":\"a\",\"kind\":\"fault\",\"store\":\"table\"}",
    ),
    (
        "fault a master",
        "{\"actor\":\"a\",\"kind\":\"fault\",\"store\":\"master\"}",
    ),
    (
        "crash a term=18446744073709551615",
        "{\"kind\":\"crash\",\"node\":\"a\",\"term\":18446744073709551615}",
    ),
    ("vanish s1", "{\"kind\":\"vanish\",\"session\":\"s1\"}"),
];

/// Behind a function, a proof that goes over the rows does not look into their texts.
fn lines() -> &'static [(&'static str, &'static str)] {
    &LINES
}

/// Whether the bytes are the line of the item that the text is.
fn reads_as(alloc: Global, json: &[u8], text: &str) -> Result<bool, NoMemory> {
    match from_line(alloc, json) {
        Ok(Some(found)) => match read_item(text.as_bytes()) {
            Some(item) => Ok(found == item),
            None => Ok(false),
        },
        Ok(None) => Ok(false),
        Err(NoMemory) => Err(NoMemory),
    }
}

/// Whether the item that the text is is written as this line, alone and in a history.
fn is_written(alloc: Global, text: &str, json: &str) -> Result<bool, NoMemory> {
    let Some(item) = read_item(text.as_bytes()) else {
        return Ok(false);
    };
    let line = to_line(alloc, &item)?;
    let printed = printed_line(alloc, &item)?;
    let whole = match printed.as_bytes() {
        [body @ .., b'\n'] => body == json.as_bytes(),
        _ => false,
    };
    Ok(whole && line.as_bytes() == json.as_bytes())
}

#[test]
fn each_line_is_written_and_read(rt: HostRuntime) -> Result<(), Fail> {
    for (text, json) in lines() {
        assert!(rt; is_written(rt.alloc(), text, json)?);
        assert!(rt; reads_as(rt.alloc(), json.as_bytes(), text)?);
    }
    Ok(())
}

/// Lines with blanks, escapes, another order or a repeated member, and the same items in text. Some differ from the
/// line that is printed in one place alone.
static FREE: [(&str, &str); 12] = [
    (
        " { \"start\" : 1 ,\t\"session\":\"s0\", \"kind\":\"begin\" } \r",
        "begin s0 start=1",
    ),
    (
        "{\"kind\":\"begin\",\"session\":\"s0\",\"start\":1,\"start\":2}",
        "begin s0 start=2",
    ),
    (
        "{\"kind\":\"b\\u0065gin\",\"session\":\"\\u00730\",\"start\":1}",
        "begin s0 start=1",
    ),
    (
        "{\"k\\u0065y\":\"k0\",\"kind\":\"write\",\"session\":\"s0\",\"start\":1,\"value\":\"a\\/b\"}",
        "write s0 start=1 k0 a/b",
    ),
    (
        "{\"kind\":\"begin\",\"session\":\"s0\",\"start\": 1}",
        "begin s0 start=1",
    ),
    (
        "{\"kind\":\"begin\",\"session\":\"s0\",\"start\":1} ",
        "begin s0 start=1",
    ),
    (
        "{\"kind\":\"begin\",\"start\":1,\"session\":\"s0\"}",
        "begin s0 start=1",
    ),
    (
        "{\"kind\":\"begin\",\"session\":\"s1\",\"session\":\"s0\",\"start\":1}",
        "begin s0 start=1",
    ),
    (
        "{\"kind\":\"tick\",\"kind\":\"begin\",\"session\":\"s0\",\"start\":1}",
        "begin s0 start=1",
    ),
    (
        "{\"key\":\"k0\",\"kind\":\"write\",\"session\":\"s0\",\"start\":1,\"value\":\"\\u0061\"}",
        "write s0 start=1 k0 a",
    ),
    (
        "{\"commit\":2,\"kind\":\"placed\",\"start\":1,\"commit\":3}",
        "placed start=1 commit=3",
    ),
    (
        "{\"from\":1,\"key\":\"k0\",\"kind\":\"read\",\"session\":\"s1\",\"value\":\"v\",\"start\":3}",
        "read s1 start=3 k0 from=1 v",
    ),
];

fn free() -> &'static [(&'static str, &'static str)] {
    &FREE
}

#[test]
fn blanks_escapes_and_order_are_free(rt: HostRuntime) -> Result<(), Fail> {
    for (json, text) in free() {
        assert!(rt; reads_as(rt.alloc(), json.as_bytes(), text)?);
    }
    Ok(())
}

static BROKEN: [&str; 59] = [
    "",
    "{",
    "{}",
    "[]",
    "null",
    "\"begin\"",
    "1",
    "{\"kind\":\"begin\",\"session\":\"s0\",\"start\":1,\"term\":1}",
    "{\"kind\":\"begin\",\"session\":\"s0\"}",
    "{\"session\":\"s0\",\"start\":1}",
    "{\"kind\":\"begin\",\"session\":\"s0\",\"start\":2.0}",
    "{\"kind\":\"begin\",\"session\":\"s0\",\"start\":1e0}",
    "{\"kind\":\"begin\",\"session\":\"s0\",\"start\":01}",
    "{\"kind\":\"tick\",\"to\":-0}",
    "{\"kind\":\"tick\",\"to\":-1}",
    "{\"kind\":\"tick\",\"to\":18446744073709551616}",
    "{\"kind\":\"tick\",\"to\":\"12\"}",
    "{\"kind\":\"tick\",\"to\":null}",
    "{\"kind\":\"tick\",\"to\":12} x",
    "{\"kind\":\"tick\",\"to\":12}{\"kind\":\"tick\",\"to\":12}",
    "{\"kind\":\"tick\",\"to\":12,}",
    "{\"kind\":\"tock\",\"to\":12}",
    "{\"kind\":[\"tick\"],\"to\":12}",
    "{\"Kind\":\"tick\",\"to\":12}",
    "{\"commit\":null,\"kind\":\"draw\",\"node\":\"a\",\"session\":\"s1\",\"start\":1,\"term\":1}",
    "{\"from\":1,\"key\":\"k0\",\"kind\":\"read\",\"session\":\"s1\",\"start\":3}",
    "{\"key\":\"k0\",\"kind\":\"read\",\"session\":\"s1\",\"start\":3,\"value\":\"v\"}",
    "{\"key\":\"k0\",\"kind\":\"read\",\"session\":\"s1\",\"start\":3,\"value\":null}",
    "{\"kind\":\"begin\",\"session\":\"s16\",\"start\":1}",
    "{\"kind\":\"begin\",\"session\":\"0\",\"start\":1}",
    "{\"kind\":\"begin\",\"session\":0,\"start\":1}",
    "{\"kind\":\"begin\",\"session\":\"s0\",\"start\":0}",
    "{\"kind\":\"begin\",\"session\":\"s0\",\"start\":4611686018427387905}",
    "{\"kind\":\"crash\",\"node\":\"i\",\"term\":1}",
    "{\"kind\":\"crash\",\"node\":\"a\",\"term\":0}",
    "{\"key\":\"k4096\",\"kind\":\"write\",\"session\":\"s0\",\"start\":1,\"value\":\"v\"}",
    "{\"key\":\"k0\",\"kind\":\"write\",\"session\":\"s0\",\"start\":1,\"value\":\"\"}",
    "{\"key\":\"k0\",\"kind\":\"write\",\"session\":\"s0\",\"start\":1,\"value\":\"a b\"}",
    "{\"key\":\"k0\",\"kind\":\"write\",\"session\":\"s0\",\"start\":1,\"value\":1}",
    "{\"actor\":\"s0\",\"kind\":\"note\",\"name\":\"p_1\",\"note\":\"post\"}",
    "{\"actor\":\"s0\",\"kind\":\"note\",\"name\":\"persist\",\"note\":\"keep\"}",
    "{\"actor\":\"s0 post\",\"kind\":\"note\",\"name\":\"\",\"note\":\"p\"}",
    "{\"actor\":\"s0 fetch\",\"kind\":\"step\",\"text\":\"k0 cells=2\"}",
    "{\"actor\":\"s0\",\"kind\":\"step\",\"text\":\"shadow k0 1\"}",
    "{\"actor\":\"s0\",\"kind\":\"refused\",\"text\":\"conflict key=0 by=3\"}",
    "{\"how\":\"done\",\"kind\":\"end\",\"session\":\"s1\",\"start\":1}",
    "{\"actor\":\"a\",\"kind\":\"fault\",\"store\":\"disk\"}",
    "tick 12",
    "{\"key\":\"k0\",\"kind\":\"write\",\"session\":\"s0\",\"start\":1,\"value\":\"aaaaaaaaaaaaaaaaaaaaaaaaaaaaaaaaaaaaaaaaaaaaaaaaaaaaaaaaaaaaaaaaaaaaaaaaaaaaaaaaaaaaaaaaaaaaaaaaaaaaaaaaaaaaaaaaaaaaaaaaaaaaaaaaaaaaaaaaaaaaaaaaaaaaaaaaaaaaaaaaaaaaaaaaaaaaaaaaaaaaaaaaaaaaaaaaaaaaaaaaaaaaaaaaaaaaaaaaaaaaaaaaaaaaaaaaaaaaaaaa\"}",
    "{\"kind\":\"tick\",\"to\":012}",
    "{\"kind\":\"tick\",\"to\":}",
    "{\"kind\":\"tick\",\"to\":12",
    "{\"kind\":\"tick\",\"to\":12]",
    "{\"kind\":\"tick\",\"to\":12}}",
    "{\"kind\":\"tick\",\"to\":12,\"to\":\"12\"}",
    "{\"\":1,\"kind\":\"tick\",\"to\":12}",
    "{\"commit\":2,\"kind\":\"begin\",\"session\":\"s0\",\"start\":1}",
    "{\"kind\":\"begin\",\"session\":\"s01\",\"start\":1}",
    "{\"key\":\"k0\",\"kind\":\"write\",\"session\":\"s0\",\"start\":1,\"value\":\"a\"b\"}",
];

fn broken() -> &'static [&'static str] {
    &BROKEN
}

fn is_no_item(alloc: Global, line: &[u8]) -> Result<bool, NoMemory> {
    match from_line(alloc, line) {
        Ok(Some(_)) => Ok(false),
        Ok(None) => Ok(true),
        Err(NoMemory) => Err(NoMemory),
    }
}

#[test]
fn broken_lines_are_no_items(rt: HostRuntime) -> Result<(), Fail> {
    for line in broken() {
        assert!(rt; is_no_item(rt.alloc(), line.as_bytes())?);
    }
    assert!(rt; is_no_item(rt.alloc(), b"{\"kind\":\"tick\",\"to\":\xff}")?);
    Ok(())
}

/// Whether the bytes are a history of two items, both as the text says.
fn has_twice(alloc: Global, bytes: &[u8], text: &str) -> bool {
    let Some(item) = read_item(text.as_bytes()) else {
        return false;
    };
    match read_history(alloc, bytes) {
        Ok(items) => items.len() == 2 && items.iter().all(|found| *found == item),
        Err(_) => false,
    }
}

fn is_empty(alloc: Global, bytes: &[u8]) -> bool {
    match read_history(alloc, bytes) {
        Ok(items) => items.is_empty(),
        Err(_) => false,
    }
}

/// Whether the bytes are a history whose line of this number is the first bad one.
fn is_bad_at(alloc: Global, bytes: &[u8], line: u64) -> bool {
    match read_history(alloc, bytes) {
        Err(HistoryFault::At { line: found }) => found == line,
        _ => false,
    }
}

const BEGIN: &str = "begin s0 start=1";

/// Histories with a bad line, and its number.
static BAD: [(&str, u64); 5] = [
    (
        "{\"kind\":\"begin\",\"session\":\"s0\",\"start\":1}\nbegin s1 start=2\n",
        2,
    ),
    (
        "{\"kind\":\"begin\",\"session\":\"s0\",\"start\":1}\n{\"kind\":\"begin\",\"session\":\"s1\",\"start\":2.0}\n",
        2,
    ),
    (
        "begin s0 start=1\n\n{\"kind\":\"begin\",\"session\":\"s1\",\"start\":2}\n",
        3,
    ),
    (" {\"kind\":\"begin\",\"session\":\"s0\",\"start\":1}\n", 1),
    (
        "{\"kind\":\"begin\",\"session\":\"s0\",\"start\":1}\n \n",
        2,
    ),
];

fn bad() -> &'static [(&'static str, u64)] {
    &BAD
}

#[test]
fn histories_are_of_one_format(rt: HostRuntime) -> Result<(), Fail> {
    let json =
        b"\n{\"kind\":\"begin\",\"session\":\"s0\",\"start\":1}\r\n\n{\"session\":\"s0\",\"start\":1,\"kind\":\"begin\"}";
    assert!(rt; has_twice(rt.alloc(), json, BEGIN));
    assert!(rt; has_twice(rt.alloc(), b"begin s0 start=1\n\nbegin s0 start=1\n", BEGIN));
    for (text, line) in bad() {
        assert!(rt; is_bad_at(rt.alloc(), text.as_bytes(), *line));
    }
    assert!(rt; is_empty(rt.alloc(), b"\n\n"));
    Ok(())
}
