// Each command once with ample memory, what is no history and no command, and a source and a sink that fail.
use crate::status;
use crate::view::view;
use port_io::{MemSink, MemSource};
use std::alloc::{AllocError, Global};
use std::process::Abort;
use std::test::Fail;

const REFUSED: &str = "ask-commit s0 a start=1\nmark s1 start=1\nrefused s0 invalid start=1\n";

const REFUSED_TOLD: &str = "isolated: 0 transactions began, 0 committed
3: refused s0 invalid start=1
    a reader or a sweep had marked the transaction before its commit was placed
    shown by 2: mark s1 start=1
";

const LOST: &str = "begin s0 start=1
begin s1 start=2
write s0 start=1 k0 a
write s1 start=2 k0 b
placed start=1 commit=3
placed start=2 commit=4
";

const LOST_TOLD: &str = "not isolated: apart 5 6
    both wrote k0, and neither committed before the other began
    3: write s0 start=1 k0 a
    4: write s1 start=2 k0 b
    5: placed start=1 commit=3
    6: placed start=2 commit=4
    right: one of the two commits refused
";

const USAGE: &str =
    "usage: omid_view picture [brief] [FROM TO] | breach [strict] | explain [strict] | page [strict]\n";

/// The bars of the items 2 and 3 of `LOST`, behind that of the first.
const PART: &str =
    "<g class='committed'><title>before: begin s0 start=1</title><rect x='82' y='67' width='53' height='22' rx='7'/></g>
<g class='committed'><title>2: begin s1 start=2</title><rect x='89' y='113' width='46' height='22' rx='7'/></g>
";

/// The second ringed sign of the breach in `LOST`.
const RINGED: &str =
    "<g class='done'><title>6: placed start=2 commit=4</title><g class='ring'><circle cx='416' cy='78' r='13'/></g>";

/// What the page of `LOST` has between its head and what is told, and the first line of that.
const PAGED: &str = "<script id=items type=text/plain>
begin s0 start=1
begin s1 start=2
write s0 start=1 k0 a
write s1 start=2 k0 b
placed start=1 commit=3
placed start=2 commit=4
</script>
<script id=bars type=text/plain>
1 4 committed
2 5 committed
</script>
<script id=told type=text/plain>
not isolated: apart 5 6
";

fn bytes_of(alloc: Global, text: &str) -> Result<Vec<u8>, AllocError> {
    let mut bytes = Vec::new(alloc);
    bytes.extend_from_slice(text.as_bytes())?;
    Ok(bytes)
}

fn words_of(alloc: Global, text: &str) -> Result<Vec<String>, AllocError> {
    let mut words = Vec::new(alloc);
    for word in text.split(' ') {
        words.push(word.to_string(alloc)?)?;
    }
    Ok(words)
}

/// The status of a call, and what the sink has then. The reads and writes of these numbers fail.
fn called(
    alloc: Global,
    words: &str,
    history: &str,
    failing: (u64, u64),
) -> Result<(u8, Vec<u8>), Fail> {
    let words = words_of(alloc, words)?;
    let mut source = MemSource::new(bytes_of(alloc, history)?, vec![in alloc; failing.0; 1]?);
    let mut sink = MemSink::open(alloc, 60_000, vec![in alloc; failing.1; 1]?)?;
    let code = view(alloc, &words, &mut source, &mut sink);
    let mut held = Vec::new(alloc);
    held.extend_from_slice(sink.bytes())?;
    Ok((code, held))
}

#[test]
fn tells_what_the_words_name(rt: HostRuntime) -> Result<(), Fail> {
    for (words, history, status, told) in [
        ("explain", REFUSED, status::DONE, REFUSED_TOLD),
        ("explain", LOST, status::NOT_ISOLATED, LOST_TOLD),
        (
            "explain",
            "begin s0\n",
            status::BAD_INPUT,
            "history line 1: not an item\n    member `start` is missing\n",
        ),
        (
            "explain",
            "\n{\"kind\":\"tick\",\"to\":\"1\"}\n",
            status::BAD_INPUT,
            "history line 2: not an item\n    member `to`: a whole number below 18446744073709551616, with no zero in front\n",
        ),
        (
            "picture",
            "begin s0\n",
            status::BAD_INPUT,
            "history line 1: not an item\n",
        ),
        ("picture 0 5", LOST, status::USAGE, USAGE),
        ("picture 1 05", LOST, status::USAGE, USAGE),
    ] {
        let (code, held) = called(rt.alloc(), words, history, (0, 0))?;
        assert_eq!(rt; code, status);
        assert_eq!(rt; str::from_utf8(held.as_slice()), Ok(told));
    }
    Ok(())
}

#[test]
fn draws_a_part(rt: HostRuntime) -> Result<(), Fail> {
    let (code, held) = called(rt.alloc(), "picture 2 3", LOST, (0, 0))?;
    assert_eq!(rt; code, status::DONE);
    let text = str::from_utf8(held.as_slice())?;
    assert!(rt; text.contains(PART));
    Ok(())
}

#[test]
fn draws_a_breach(rt: HostRuntime) -> Result<(), Fail> {
    let (code, held) = called(rt.alloc(), "breach", LOST, (0, 0))?;
    assert_eq!(rt; code, status::NOT_ISOLATED);
    let text = str::from_utf8(held.as_slice())?;
    assert!(rt; text.contains(RINGED));
    Ok(())
}

#[test]
fn writes_a_page(rt: HostRuntime) -> Result<(), Fail> {
    for (words, history, status, part) in [
        ("page", LOST, status::NOT_ISOLATED, PAGED),
        ("page", REFUSED, status::DONE, REFUSED_TOLD),
        // The session has another transaction before the first one's commit is placed.
        (
            "page",
            "begin s0 start=1\nbegin s0 start=2\nplaced start=1 commit=3\n",
            status::DONE,
            "\n1 2 committed\n2 1 open\n",
        ),
        (
            "page strict",
            "write s0 start=1 k0 </script>&\n",
            status::DONE,
            "write s0 start=1 k0 &lt;/script>&amp;\n</script>\n",
        ),
    ] {
        let (code, held) = called(rt.alloc(), words, history, (0, 0))?;
        assert_eq!(rt; code, status);
        let text = str::from_utf8(held.as_slice())?;
        assert!(rt; text.contains(part));
    }
    Ok(())
}

#[test]
fn a_fault_ends_it(rt: HostRuntime) -> Result<(), Fail> {
    let (code, held) = called(rt.alloc(), "explain", LOST, (1, 0))?;
    assert_eq!(rt; (code, held.len()), (status::SOURCE_FAILED, 0));
    let (code, held) = called(rt.alloc(), "explain", LOST, (0, 1))?;
    assert_eq!(rt; (code, held.len()), (status::SINK_FAILED, 0));
    Ok(())
}
