// The events of a cluster under a weather in which no call fails, each by its method. Each tells whether it was done.
use cluster_core::{Cluster, Stopped};
use port_io::CalmWeather;
use stamp_base::{KeyNo, NodeNo, SessionNo, Value};

/// The greatest reading that a cluster takes.
const LAST_READING: u64 = 2_305_843_009_213_693_952;

pub fn is_done(made: Result<(), Stopped>) -> bool {
    match made {
        Ok(()) => true,
        Err(_) => false,
    }
}

pub fn takes(cluster: &mut Cluster, node: NodeNo, reading: u64) -> bool {
    if reading < cluster.seen() || reading > LAST_READING {
        return false;
    }
    is_done(cluster.take(&mut CalmWeather::new(), node, reading))
}

pub fn renews(cluster: &mut Cluster, node: NodeNo, reading: u64) -> bool {
    if reading < cluster.seen() || reading > LAST_READING {
        return false;
    }
    is_done(cluster.renew(&mut CalmWeather::new(), node, reading))
}

/// At the greatest reading so far.
fn accepts(cluster: &mut Cluster, node: NodeNo, session: SessionNo) -> bool {
    let reading = cluster.seen();
    if reading > LAST_READING {
        return false;
    }
    is_done(cluster.accept(node, session, reading))
}

pub fn steps(cluster: &mut Cluster, session: SessionNo) -> bool {
    is_done(cluster.step(&mut CalmWeather::new(), session))
}

pub fn sweeps(cluster: &mut Cluster) -> bool {
    is_done(cluster.sweep_step(&mut CalmWeather::new()))
}

pub fn fetches(cluster: &mut Cluster, session: SessionNo) -> bool {
    is_done(cluster.fetch(&mut CalmWeather::new(), session, KeyNo::FIRST))
}

/// A begin, from its ask to its answer.
pub fn begins(cluster: &mut Cluster, session: SessionNo, node: NodeNo) -> bool {
    is_done(cluster.ask_begin(session, node))
        && accepts(cluster, node, session)
        && is_done(cluster.decide(node, session))
        && is_done(cluster.answer(node, session))
}

/// The session writes `v` at the first key.
pub fn writes(cluster: &mut Cluster, session: SessionNo) -> bool {
    match Value::new(b"v") {
        Some(value) => {
            let mut calm = CalmWeather::new();
            is_done(cluster.write(&mut calm, session, KeyNo::FIRST, value))
        }
        None => false,
    }
}

/// A commit, up to the draw of its stamp.
pub fn submits(cluster: &mut Cluster, session: SessionNo, node: NodeNo) -> bool {
    is_done(cluster.ask_commit(session, node))
        && accepts(cluster, node, session)
        && is_done(cluster.decide(node, session))
}

/// A commit that was drawn is placed and answered.
pub fn places(cluster: &mut Cluster, session: SessionNo, node: NodeNo) -> bool {
    is_done(cluster.put(&mut CalmWeather::new(), node, session))
        && is_done(cluster.answer(node, session))
}

/// The node takes the record, and the session begins, writes and submits.
pub fn draws(cluster: &mut Cluster, session: SessionNo, node: NodeNo) -> bool {
    takes(cluster, node, 0)
        && begins(cluster, session, node)
        && writes(cluster, session)
        && submits(cluster, session, node)
}

/// The same, and the commit is placed and answered, and not complete.
pub fn commits(cluster: &mut Cluster, session: SessionNo, node: NodeNo) -> bool {
    draws(cluster, session, node) && places(cluster, session, node)
}
