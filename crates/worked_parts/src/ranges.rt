// Stamps out of a range.
use epoch_clock::Range;
use stamp_base::Stamp;

#[test]
fn stamps_rise_by_one(rt: HostRuntime) {
    let mut range = Range::new(5, 6);
    assert_eq!(rt; range.draw(), Stamp::new(6));
    assert_eq!(rt; range.draw(), None);
    range.widen(8);
    assert_eq!(rt; range.draw(), Stamp::new(7));
    assert_eq!(rt; (range.last(), range.ceiling()), (7, 8));
}

#[test]
fn the_last_stamp_is_the_greatest(rt: HostRuntime) {
    let mut range = Range::new(Stamp::GREATEST - 1, Stamp::GREATEST);
    assert_eq!(rt; range.draw(), Some(Stamp::LAST));
    assert_eq!(rt; range.draw(), None);
}
