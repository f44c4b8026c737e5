// The recalls of a read: what its session keeps of the cells that it comes to, one after the other.
ghost use Rattle.std.specs.Prelude.{◌≡◌, ◌<◌, true};
ghost use Rattle.system_parts.specs.KeyRead.{is_recall, next_of, reading_left};
ghost use Rattle.event_parts.specs.Recalling.{ShowsNext, remembers, recalls_left};

use client_txn::Session;
use reader_resolve::{Next, ReadRun};
use stamp_base::TxnId;

/// Recalls, for as long as a recall is next. The read then asks, or has its answer, which is what is next.
pub(crate) fn recall_all(session: &mut Session, run: &mut ReadRun, next: Next) -> Next
    requires recalls { run.old.recalls ≡ is_recall next }
    requires shows { ShowsNext run.old.reading next }
    ensures session { session.new ≡ record session.old { cache = (remembers session.old.cache run.old.reading next).1 } }
    ensures run { run.new.reading ≡ reading_left (remembers session.old.cache run.old.reading next).0 }
    ensures learnt { run.new.learnt ≡ run.old.learnt }
    ensures next { result ≡ next_of (remembers session.old.cache run.old.reading next).0 }
{
    let mut next = next;
    while let Next::Recall(txn) = next {
        next = recall(session, run, txn);
    }
    next
}

/// Recalls the cell that the read has come to.
fn recall(session: &mut Session, run: &mut ReadRun, txn: TxnId) -> Next
    requires recalls { run.old.recalls ≡ true }
    requires shows { ShowsNext run.old.reading (Next.Recall txn) }
    ensures entry { session.new.entry ≡ session.old.entry }
    ensures comes { remembers session.new.cache run.new.reading result ≡ remembers session.old.cache run.old.reading (Next.Recall txn) }
    ensures recalls { run.new.recalls ≡ is_recall result }
    ensures shows { ShowsNext run.new.reading result }
    ensures learnt { run.new.learnt ≡ run.old.learnt }
    ensures fewer { recalls_left run.new.reading result < recalls_left run.old.reading (Next.Recall txn) }
{
    let known = session.known(txn);
    run.recalled(known)
}
