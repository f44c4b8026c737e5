// Histories as JSON, byte for byte.

/// What is written of the plain path.
pub const PLAIN_JSON: &str =
    r#"{"ceiling":100,"epoch":0,"kind":"take","node":"a","reading":0,"term":1,"until":10}
{"kind":"ask-begin","node":"a","session":"s0"}
{"kind":"accept","node":"a","reading":0,"session":"s0","term":1}
{"kind":"draw","node":"a","session":"s0","start":1,"term":1}
{"kind":"begin","session":"s0","start":1}
{"key":"k0","kind":"write","session":"s0","start":1,"value":"v"}
{"kind":"ask-commit","node":"a","session":"s0","start":1}
{"kind":"accept","node":"a","reading":0,"session":"s0","term":1}
{"commit":2,"kind":"draw","node":"a","session":"s0","start":1,"term":1}
{"commit":2,"kind":"placed","start":1}
{"commit":2,"kind":"committed","session":"s0","start":1}
{"actor":"s0","kind":"step","text":"shadow k0 1 2"}
{"actor":"s0","kind":"step","text":"remove 1"}
{"kind":"ask-begin","node":"a","session":"s1"}
{"kind":"accept","node":"a","reading":0,"session":"s1","term":1}
{"kind":"draw","node":"a","session":"s1","start":3,"term":1}
{"kind":"begin","session":"s1","start":3}
{"actor":"s1","kind":"step","text":"fetch k0 cells=1"}
{"from":1,"key":"k0","kind":"read","session":"s1","start":3,"value":"v"}
{"how":"read-only","kind":"end","session":"s1","start":3}
"#;

/// A script whose history has items of all kinds.
pub const EACH_KIND: &str = "\
fault cells 5 unchanged
s0 post p
s1 await p
a hold persist
a free persist
a take
clock tick 5
a renew
a extend
s0 begin a
s0 write k0 v
s0 commit a
s1 begin a
s1 read k0
s1 read k1
s1 commit a
s2 begin a
s2 write k1 w
s2 begin a
s2 write k2 x
s2 submit a
a crash
s2 finish
s2 vanish
";

pub const EACH_KIND_JSON: &str = r#"{"actor":"s0","kind":"note","name":"p","note":"post"}
{"actor":"s1","kind":"note","name":"p","note":"await"}
{"actor":"a","kind":"note","name":"persist","note":"hold"}
{"actor":"a","kind":"note","name":"persist","note":"free"}
{"ceiling":100,"epoch":0,"kind":"take","node":"a","reading":0,"term":1,"until":10}
{"kind":"tick","to":5}
{"kind":"renew","node":"a","reading":5,"term":1,"until":15}
{"ceiling":200,"kind":"extend","node":"a","term":1}
{"kind":"ask-begin","node":"a","session":"s0"}
{"kind":"accept","node":"a","reading":5,"session":"s0","term":1}
{"kind":"draw","node":"a","session":"s0","start":1,"term":1}
{"kind":"begin","session":"s0","start":1}
{"key":"k0","kind":"write","session":"s0","start":1,"value":"v"}
{"kind":"ask-commit","node":"a","session":"s0","start":1}
{"kind":"accept","node":"a","reading":5,"session":"s0","term":1}
{"commit":2,"kind":"draw","node":"a","session":"s0","start":1,"term":1}
{"commit":2,"kind":"placed","start":1}
{"commit":2,"kind":"committed","session":"s0","start":1}
{"actor":"s0","kind":"step","text":"shadow k0 1 2"}
{"actor":"s0","kind":"step","text":"remove 1"}
{"kind":"ask-begin","node":"a","session":"s1"}
{"kind":"accept","node":"a","reading":5,"session":"s1","term":1}
{"kind":"draw","node":"a","session":"s1","start":3,"term":1}
{"kind":"begin","session":"s1","start":3}
{"actor":"s1","kind":"step","text":"fetch k0 cells=1"}
{"from":1,"key":"k0","kind":"read","session":"s1","start":3,"value":"v"}
{"actor":"s1","kind":"step","text":"fetch k1 cells=0"}
{"key":"k1","kind":"read","session":"s1","start":3}
{"how":"read-only","kind":"end","session":"s1","start":3}
{"kind":"ask-begin","node":"a","session":"s2"}
{"kind":"accept","node":"a","reading":5,"session":"s2","term":1}
{"kind":"draw","node":"a","session":"s2","start":4,"term":1}
{"kind":"begin","session":"s2","start":4}
{"actor":"s2","kind":"fault","store":"cells"}
{"how":"aborted","kind":"end","session":"s2","start":4}
{"actor":"s2","kind":"step","text":"erase k1 4"}
{"kind":"ask-begin","node":"a","session":"s2"}
{"kind":"accept","node":"a","reading":5,"session":"s2","term":1}
{"kind":"draw","node":"a","session":"s2","start":5,"term":1}
{"kind":"begin","session":"s2","start":5}
{"key":"k2","kind":"write","session":"s2","start":5,"value":"x"}
{"kind":"ask-commit","node":"a","session":"s2","start":5}
{"kind":"accept","node":"a","reading":5,"session":"s2","term":1}
{"commit":6,"kind":"draw","node":"a","session":"s2","start":5,"term":1}
{"kind":"crash","node":"a","term":1}
{"actor":"s2","kind":"refused","text":"open start=5"}
{"actor":"s2","kind":"step","text":"look k2 5 none"}
{"actor":"s2","kind":"step","text":"get 5 absent"}
{"actor":"s2","kind":"mark","start":5}
{"actor":"s2","kind":"step","text":"look k2 5 none"}
{"how":"dead","kind":"end","session":"s2","start":5}
{"actor":"s2","kind":"step","text":"erase k2 5"}
{"kind":"vanish","session":"s2"}
"#;
