// The event of the machine that an event of the parts stands for.
ghost use Rattle.std.specs.Prelude.{◌≡◌, ◌≤◌, ◌^◌, All};
ghost use Rattle.split_parts.specs.Acts.{timed_at};
ghost use Rattle.split_parts.specs.Agrees.{ClockAllows};
ghost use Rattle.split_parts.specs.Parts.{node_for, reading_of};

use crate::Event;
use machine::Event as TimedEvent;
use script_data::Target;
use stamp_base::NodeNo;

/// The event of the machine at this base clock: a tick goes up to the base clock with its rise, a reading is the base clock with the
/// node's lead, and an ask of the master is one of this node.
pub fn timed(base: u64, leads: &[u64], master: NodeNo, event: &Event) -> TimedEvent
    requires clock { ClockAllows base event.now }
    requires leads { All (λ lead. lead ≤ 2 ^ 60) leads.now }
    ensures { result ≡ timed_at base leads.now master event.now }
{
    match *event {
        Event::Tick { by } => TimedEvent::Tick { to: base + by },
        Event::Note { actor, note } => TimedEvent::Note { actor, note },
        Event::Take { node } => TimedEvent::Take {
            node,
            reading: reading_of(base, leads, node),
        },
        Event::Renew { node } => TimedEvent::Renew {
            node,
            reading: reading_of(base, leads, node),
        },
        Event::Extend { node } => TimedEvent::Extend { node },
        Event::Crash { node } => TimedEvent::Crash { node },
        Event::AskBegin { session, target } => TimedEvent::AskBegin {
            session,
            node: node_for(master, target),
        },
        Event::AskCommit { session, target } => TimedEvent::AskCommit {
            session,
            node: node_for(master, target),
        },
        Event::Accept { node, session } => TimedEvent::Accept {
            node,
            session,
            reading: reading_of(base, leads, node),
        },
        Event::Decide { node, session } => TimedEvent::Decide { node, session },
        Event::Put { node, session } => TimedEvent::Put { node, session },
        Event::Answer { node, session } => TimedEvent::Answer { node, session },
        Event::Write {
            session,
            key,
            value,
        } => TimedEvent::Write {
            session,
            key,
            value,
        },
        Event::Fetch { session, key } => TimedEvent::Fetch { session, key },
        Event::Step { session } => TimedEvent::Step { session },
        Event::Heal { session } => TimedEvent::Heal { session },
        Event::Abort { session } => TimedEvent::Abort { session },
        Event::Vanish { session } => TimedEvent::Vanish { session },
        Event::SweepOpen { node, txn } => TimedEvent::SweepOpen { node, txn },
        Event::SweepStep => TimedEvent::SweepStep,
    }
}

/// The node of the target, where this one is the master.
pub(crate) fn node_for(master: NodeNo, target: Target) -> NodeNo
    ensures { result ≡ node_for master target }
{
    match target {
        Target::Node(node) => node,
        Target::Master => master,
    }
}

/// What the node's clock shows.
fn reading_of(base: u64, leads: &[u64], node: NodeNo) -> u64
    requires base { base ≤ 2 ^ 60 }
    requires leads { All (λ lead. lead ≤ 2 ^ 60) leads.now }
    ensures { result ≡ reading_of base leads.now node }
{
    let place = node.value() as usize;
    let lead = if place < leads.len() { leads[place] } else { 0 };
    base + lead
}
