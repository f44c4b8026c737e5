// Each constructor at the ends of its range, and a list of keys that fills up.
use stamp_base::{
    KeyList, KeyNo, Name, NoMemory, NodeNo, SessionNo, Setup, Stamp, Term, TooManyKeys, Value,
};
use std::alloc::AllocError;
use std::test::Fail;

#[test]
fn numbers_end_where_they_should(rt: HostRuntime) {
    assert!(rt; Stamp::new(0).is_none());
    assert!(rt; Stamp::new(1).is_some());
    assert!(rt; Stamp::new(4611686018427387904).is_some());
    assert!(rt; Stamp::new(4611686018427387905).is_none());
    assert!(rt; Term::new(0).is_none());
    assert!(rt; NodeNo::new(7).is_some());
    assert!(rt; NodeNo::new(8).is_none());
    assert!(rt; SessionNo::new(15).is_some());
    assert!(rt; SessionNo::new(16).is_none());
    assert!(rt; KeyNo::new(4095).is_some());
    assert!(rt; KeyNo::new(4096).is_none());
}

#[test]
fn texts_end_where_they_should(rt: HostRuntime) {
    assert!(rt; Value::new(b"").is_none());
    assert!(rt; Value::new(&[b'~'; 64]).is_some());
    assert!(rt; Value::new(&[b'~'; 65]).is_none());
    assert!(rt; Value::new(b"a b").is_none());
    assert!(rt; Name::new(b"p-1Z").is_some());
    assert!(rt; Name::new(b"p_1").is_none());
    assert!(rt; Name::new(&[b'a'; 17]).is_none());
}

#[test]
fn keys_fill_up(rt: HostRuntime) -> Result<(), Fail> {
    let mut keys = KeyList::empty();
    for n in 0..64 {
        let key = KeyNo::new(n).ok_or("a key")?;
        assert!(rt; keys.push(key).is_ok());
    }
    assert_eq!(rt; keys.as_slice().len(), 64);
    let more = KeyNo::new(64).ok_or("a key")?;
    assert_eq!(rt; keys.push(more), Err(TooManyKeys));
    assert!(rt; keys.push(KeyNo::FIRST).is_ok());
    assert_eq!(rt; keys.as_slice().len(), 64);
    Ok(())
}

#[test]
fn defaults_are_those_of_a_script(rt: HostRuntime) {
    let setup = Setup::default();
    assert_eq!(rt;
        (setup.nodes, setup.lease, setup.skew, setup.range),
        (2, 10, 2, 100)
    );
    assert_eq!(rt; (setup.buckets, setup.width, setup.slots), (64, 4, 64));
    assert_eq!(rt; NoMemory::from(AllocError), NoMemory);
}
