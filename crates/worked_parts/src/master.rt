// Each step once in calm weather, both failures, and the refusals at their limits.
use master_record::{ExtendRefused, Grant, Master, RenewRefused, TakeRefused};
use port_io::{CalmWeather, Fate, OneFate};
use stamp_base::{NodeNo, Stamp, Term};

const FIRST_GRANT: Grant = Grant {
    term: Term::FIRST,
    epoch: 0,
    until: 15,
    ceiling: 100,
};

#[test]
fn each_step_once(rt: HostRuntime) {
    let mut calm = CalmWeather::new();
    let mut master = Master::free(10, 2, 100);
    assert_eq!(rt; master.grant_at(5), Ok(FIRST_GRANT));
    let told = master.take(&mut calm, NodeNo::LAST, 5);
    assert_eq!(rt; told, Ok(FIRST_GRANT));
    assert_eq!(rt; master.renewal_at(Term::FIRST, 9), Ok(19));
    assert_eq!(rt; master.renew(&mut calm, Term::FIRST, 9), Ok(19));
    assert_eq!(rt; master.extension_of(Term::FIRST), Ok(200));
    assert_eq!(rt; master.extend(&mut calm, Term::FIRST), Ok(200));
    assert_eq!(rt; master.holder(), Some(NodeNo::LAST));
    assert_eq!(rt;
        (master.term(), master.until(), master.ceiling()),
        (1, 19, 200)
    );
}

#[test]
fn faults_hide_what_was_done(rt: HostRuntime) {
    let mut master = Master::free(10, 2, 100);
    let mut applied = OneFate::new(Fate::FailsApplied);
    let told = master.take(&mut applied, NodeNo::FIRST, 5);
    assert_eq!(rt; told, Err(TakeRefused::StoreFault));
    assert_eq!(rt; master.ceiling(), 100);
    let mut unchanged = OneFate::new(Fate::FailsUnchanged);
    let told = master.renew(&mut unchanged, Term::FIRST, 90);
    assert_eq!(rt; told, Err(RenewRefused::StoreFault));
    assert_eq!(rt; master.until(), 15);
}

// One range reaches the last stamp.
#[test]
fn refusals_at_their_limits(rt: HostRuntime) {
    let mut calm = CalmWeather::new();
    let mut master = Master::free(10, 2, Stamp::GREATEST);
    let told = master.renew(&mut calm, Term::FIRST, 0);
    assert_eq!(rt; told, Err(RenewRefused::Replaced { found: 0 }));
    assert!(rt; master.take(&mut calm, NodeNo::FIRST, 0).is_ok());
    let ceiling = Stamp::GREATEST;
    let told = master.extend(&mut calm, Term::FIRST);
    assert_eq!(rt; told, Err(ExtendRefused::Spent { ceiling }));
    let early = TakeRefused::Early {
        reading: 11,
        until: 10,
    };
    assert_eq!(rt; master.grant_at(11), Err(early));
    assert_eq!(rt; master.grant_at(12), Err(TakeRefused::Spent { ceiling }));
}
