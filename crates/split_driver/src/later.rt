// The events behind a line's first.
ghost use Rattle.std.specs.Prelude.{◌≡◌};
ghost use Rattle.split_driver.specs.Runs.{later_of};

use machine::Event as TimedEvent;
use split_stores::Event;

/// The event of the parts: as the machine's, but without what the clock tells. None of an event with which a line opens.
pub(crate) fn later_event(event: &TimedEvent) -> Option<Event>
    ensures { result ≡ later_of event.now }
{
    match *event {
        TimedEvent::Extend { node } => Some(Event::Extend { node }),
        TimedEvent::Accept { node, session, .. } => Some(Event::Accept { node, session }),
        TimedEvent::Decide { node, session } => Some(Event::Decide { node, session }),
        TimedEvent::Put { node, session } => Some(Event::Put { node, session }),
        TimedEvent::Answer { node, session } => Some(Event::Answer { node, session }),
        TimedEvent::Step { session } => Some(Event::Step { session }),
        TimedEvent::SweepStep => Some(Event::SweepStep),
        _ => None,
    }
}
