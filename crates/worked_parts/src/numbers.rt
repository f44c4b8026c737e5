// Stamps, keys and values of the other files' tests.
use stamp_base::{KeyList, KeyNo, Stamp, Value};

/// A stamp, which is the last where the number is none.
pub fn stamp(number: u64) -> Stamp {
    Stamp::new(number).unwrap_or(Stamp::LAST)
}

/// A key, which is the last where the number is none.
pub fn key(number: u64) -> KeyNo {
    KeyNo::new(number).unwrap_or(KeyNo::LAST)
}

/// The keys of these numbers.
pub fn keys(numbers: &[u64]) -> KeyList {
    let mut keys = KeyList::empty();
    for number in numbers {
        let _ = keys.push(key(*number));
    }
    keys
}

pub fn value(bytes: &[u8]) -> Option<Value> {
    Value::new(bytes)
}

// Each number that the tests use is one.
#[test]
fn numbers_are_kept(rt: HostRuntime) {
    assert_eq!(rt; stamp(14_995).value(), 14_995);
    assert_eq!(rt; key(64).value(), 64);
    assert_eq!(rt; keys(&[4, 0, 12, 5]).as_slice().len(), 4);
}
