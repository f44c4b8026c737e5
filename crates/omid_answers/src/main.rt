//! What `omid` answers to a replay, an audit and a script with a bad line, over bytes in memory: one stored run shows them all, as
//! both compilers build it. `omid` itself has a stored run too, on threads, by its own standard input and output.
#![tactic(auto)]

use std::io;
use worked_rows::answer_of;

/// A commit and a reader, in file order.
const REPLAYED: &str = "\
a take
s0 begin a
s0 write k0 v
s0 commit a
s1 begin a
s1 read k0
s1 commit a
";

/// Two commits of one key, neither of which is below the start of the other.
const AUDITED: &str = "\
ask-begin s0 a
begin s0 start=1
ask-begin s1 a
begin s1 start=2
write s0 start=1 k0 p
write s1 start=2 k0 q
placed start=1 commit=3
placed start=2 commit=4
";

/// The second line names a node that is none.
const WITH_A_BAD_LINE: &str = "\
a take
s1 begin z
";

const CALLS: [(&str, &str); 3] = [
    ("replay", REPLAYED),
    ("audit", AUDITED),
    ("replay", WITH_A_BAD_LINE),
];

/// Of each call its word and its status, and then what was written.
fn main(rt: HostRuntime) -> io::Result<()> {
    for (word, script) in CALLS {
        let (written, status) = answer_of(&rt, rt.alloc(), &[word], script.as_bytes())?;
        println!(rt; "{word} {status}")?;
        if let Ok(text) = str::from_utf8(written.as_slice()) {
            print!(rt; "{text}")?;
        }
    }
    Ok(())
}
