// A lease, and steady readings.
use lease_keeper::{Expired, Lease, is_steady, steady_readings_go_on};

#[test]
fn leases(rt: HostRuntime) {
    let mut lease = Lease::new(10);
    let expired = Expired {
        reading: 10,
        until: 10,
    };
    assert_eq!(rt; lease.check(9), Ok(()));
    assert_eq!(rt; lease.check(10), Err(expired));
    lease.renewed(8);
    assert_eq!(rt; lease.check(9), Ok(()));
    lease.renewed(12);
    assert_eq!(rt; lease.check(11), Ok(()));
}

#[test]
fn readings(rt: HostRuntime) {
    assert!(rt; is_steady(7, 5, 2));
    assert!(rt; !is_steady(8, 5, 2));
    assert!(rt; is_steady(u64::MAX, u64::MAX, u64::MAX));
    steady_readings_go_on();
}
