use stamp_base::{KeyList, SessionNo, Stamp};

/// What a session asks of an oracle's instance.
#[derive(Clone, Copy, Debug, PartialEq, Eq)]
pub enum Request {
    /// A start is wanted.
    Begin {
        session: SessionNo,
    },
    /// The transaction of that start is to commit what it wrote.
    Commit {
        session: SessionNo,
        start: Stamp,
        keys: KeyList,
    },
}

/// Where a request stands.
#[derive(Clone, Copy, Debug, PartialEq, Eq)]
pub enum Place {
    /// It waits for a reading below the end of the lease.
    Asked,
    /// It waits for its stamp.
    Accepted,
    /// It has its stamp. A commit waits for its record, which the oracle places.
    Drawn,
    /// A commit waits for its answer.
    Settled,
}

/// How the placing of a commit's record ended.
#[derive(Clone, Copy, Debug, PartialEq, Eq)]
pub enum Settled {
    /// The record stands.
    Placed,
    /// A mark stood in its place.
    Invalid,
    /// The store failed. The record was placed at its own step, or never will be.
    Faulted,
}

/// How far a request has come, with what was drawn for it.
#[derive(Clone, Copy, Debug, PartialEq, Eq)]
pub enum Progress {
    /// It was asked, and waits to be accepted.
    Asked,
    /// It was accepted, and waits for its stamp.
    Accepted,
    /// The stamp is the start of a begin, or the commit.
    Drawn { stamp: Stamp },
    /// The placing of the commit's record has ended.
    Settled { commit: Stamp, how: Settled },
    /// The commit is drawn, and its session places it once it is answered.
    Handed { commit: Stamp },
}

/// A request that an instance holds.
#[derive(Clone, Copy, Debug, PartialEq, Eq)]
pub struct Held {
    /// The request.
    pub request: Request,
    /// How far it has come.
    pub progress: Progress,
    /// Whether its session was told that no stamp is left.
    pub told_no_stamp: bool,
    /// Whether its session was told to wait for an earlier commit.
    pub told_not_yet: bool,
}

/// The stamp that a decision drew.
#[derive(Clone, Copy, Debug, PartialEq, Eq)]
pub enum Decided {
    /// The start of a begin.
    Started(Stamp),
    /// The commit of a commit.
    Drawn(Stamp),
}

/// What a session is told at the end of its request.
#[derive(Clone, Copy, Debug, PartialEq, Eq)]
pub enum Reply {
    /// The transaction has this start, and reads by this epoch.
    Begun { start: Stamp, epoch: u64 },
    /// The commit is placed.
    Committed { commit: Stamp },
    /// The transaction was marked, and cannot commit.
    Invalid,
    /// It is not known whether the commit was placed.
    Open,
    /// The commit is drawn, and the session is to place its record itself.
    Handed { commit: Stamp },
}
