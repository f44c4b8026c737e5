// Each event of a cluster with ample memory, and the items that it appends.
use crate::making::{
    begins, commits, draws, fetches, is_done, renews, steps, submits, sweeps, takes,
};
use crate::texts::{ends_with, tells};
use cluster_core::Cluster;
use history_book::{Actor, Note};
use port_io::CalmWeather;
use stamp_base::{Name, NodeNo, SessionNo, Setup, TxnId};
use std::alloc::Global;
use std::test::Fail;
use system_parts::Place;
use worked_texts::commits::PLAIN_HISTORY;

const NODE: NodeNo = NodeNo::FIRST;

const WRITER: SessionNo = SessionNo::FIRST;

fn opened(alloc: Global) -> Result<Cluster, Fail> {
    Ok(Cluster::open(alloc, Setup::default())?)
}

/// A second session.
fn reader() -> Result<SessionNo, Fail> {
    Ok(SessionNo::new(1).ok_or("a session")?)
}

/// A commit completes, by its shadow and the removal of its record.
fn completes(cluster: &mut Cluster) -> bool {
    steps(cluster, WRITER) && steps(cluster, WRITER)
}

/// A transaction reads the first key, and ends without a write.
fn reads_and_ends(cluster: &mut Cluster, session: SessionNo) -> bool {
    begins(cluster, session, NODE)
        && fetches(cluster, session)
        && is_done(cluster.ask_commit(session, NODE))
}

#[test]
fn the_plain_path(rt: HostRuntime) -> Result<(), Fail> {
    let mut cluster = opened(rt.alloc())?;
    assert!(rt; commits(&mut cluster, WRITER, NODE));
    assert!(rt; completes(&mut cluster));
    assert!(rt; reads_and_ends(&mut cluster, reader()?));
    assert!(rt; tells(rt.alloc(), &cluster, PLAIN_HISTORY)?);
    Ok(())
}

#[test]
fn a_tick_and_a_note(rt: HostRuntime) -> Result<(), Fail> {
    let mut cluster = opened(rt.alloc())?;
    let name = Name::new(b"p1").ok_or("a name")?;
    assert!(rt; is_done(cluster.tick(12)));
    assert!(rt; is_done(cluster.note(Actor::Session(WRITER), Note::Post(name))));
    assert!(rt; tells(rt.alloc(), &cluster, "tick 12\nnote s0 post p1\n")?);
    Ok(())
}

/// A node takes the record, renews its lease, has its range extended and crashes.
fn serves_and_crashes(cluster: &mut Cluster) -> bool {
    takes(cluster, NODE, 0)
        && renews(cluster, NODE, 5)
        && is_done(cluster.extend(&mut CalmWeather::new(), NODE))
        && is_done(cluster.crash(NODE))
}

#[test]
fn a_node_from_its_take_to_its_crash(rt: HostRuntime) -> Result<(), Fail> {
    let mut cluster = opened(rt.alloc())?;
    assert!(rt; serves_and_crashes(&mut cluster));
    let history = "\
take a reading=0 term=1 epoch=0 until=10 ceiling=100
renew a reading=5 term=1 until=15
extend a term=1 ceiling=200
crash a term=1
";
    assert!(rt; tells(rt.alloc(), &cluster, history)?);
    Ok(())
}

/// A session ends its transaction without a commit, and vanishes.
fn gives_up(cluster: &mut Cluster) -> bool {
    takes(cluster, NODE, 0)
        && begins(cluster, WRITER, NODE)
        && is_done(cluster.abort(WRITER))
        && is_done(cluster.vanish(WRITER))
}

#[test]
fn a_session_that_gives_up(rt: HostRuntime) -> Result<(), Fail> {
    let mut cluster = opened(rt.alloc())?;
    assert!(rt; gives_up(&mut cluster));
    let end = "begin s0 start=1\nend s0 start=1 aborted\nvanish s0\n";
    assert!(rt; ends_with(rt.alloc(), &cluster, end)?);
    Ok(())
}

/// A transaction reads what is committed and not complete, and sets the shadow.
fn reads_and_heals(cluster: &mut Cluster, session: SessionNo) -> bool {
    begins(cluster, session, NODE)
        && fetches(cluster, session)
        && steps(cluster, session)
        && is_done(cluster.heal(&mut CalmWeather::new(), session))
}

#[test]
fn a_reader_that_heals(rt: HostRuntime) -> Result<(), Fail> {
    let mut cluster = opened(rt.alloc())?;
    assert!(rt; commits(&mut cluster, WRITER, NODE));
    assert!(rt; reads_and_heals(&mut cluster, reader()?));
    let end = "\
step s1 fetch k0 cells=1
step s1 get 1 committed=2
read s1 start=3 k0 from=1 v
step s1 shadow k0 1 2
";
    assert!(rt; ends_with(rt.alloc(), &cluster, end)?);
    Ok(())
}

/// The janitor completes the first transaction.
fn is_swept(cluster: &mut Cluster) -> bool {
    let opened = is_done(cluster.sweep_open(NODE, TxnId::FIRST));
    for _ in 0..4 {
        if !sweeps(cluster) {
            return false;
        }
    }
    opened
}

#[test]
fn a_janitor_that_sweeps(rt: HostRuntime) -> Result<(), Fail> {
    let mut cluster = opened(rt.alloc())?;
    assert!(rt; commits(&mut cluster, WRITER, NODE));
    assert!(rt; is_swept(&mut cluster));
    let end = "\
step janitor get 1 committed=2
step janitor keys 1 count=1
step janitor shadow k0 1 2
step janitor remove 1
";
    assert!(rt; ends_with(rt.alloc(), &cluster, end)?);
    Ok(())
}

// Asked alone, a begin is no commit; a commit that is drawn stands at its node.
#[test]
fn what_is_in_flight_is_told(rt: HostRuntime) -> Result<(), Fail> {
    let mut cluster = opened(rt.alloc())?;
    assert_eq!(rt; cluster.place(WRITER), None);
    assert!(rt; draws(&mut cluster, WRITER, NODE));
    assert_eq!(rt; cluster.place(WRITER), Some((NODE, Place::Drawn)));
    assert!(rt; cluster.asks_commit(WRITER));
    let reader = reader()?;
    assert!(rt; is_done(cluster.ask_begin(reader, NODE)));
    assert_eq!(rt; cluster.place(reader), Some((NODE, Place::Asked)));
    assert!(rt; !cluster.asks_commit(reader));
    Ok(())
}
