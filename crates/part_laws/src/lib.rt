//! Why parts that are lent one by one are one system: an event of lent parts is the event of the whole machine, on these parts
//! and on nothing else. And why parts of a state that is reached agree.
#![tactic(auto)]

ghost use Rattle.part_laws.specs.Local.{EventsAreLocal, ActsAreSteps, OthersStay};
ghost use Rattle.part_laws.specs.Reached.{ReachedPartsAgree, WrittenKeysAreHeld};

mod worked;

pub use worked::{parts_of_a_state, parts_of_no_state, parts_of_two_states};

/// Where the parts that an event has to do with are those of a state, the event is one of these parts alone: it asks the same
/// store, and whatever the fate of that call it appends the same items and stops in the same way. The next state has in their
/// place what the event leaves of them, and all else as before, but for the greatest reading, which no event reads. The state
/// need not be one that is reached, and its form may be any.
pub fn events_are_local()
    ensures { EventsAreLocal }
{}

/// So what `act` of split_parts makes of parts of a state is the whole machine's step, under the fate that is planned for the
/// store call.
pub fn acts_are_steps()
    ensures { ActsAreSteps }
{}

/// And parts of which none is lent to the event are parts of the state as before.
pub fn others_stay()
    ensures { OthersStay }
{}

/// Parts of a state that is reached agree, whatever the event, where clock and calls are far from the ends of the numbers: what
/// the event's calls require is there.
pub fn reached_parts_agree()
    ensures { ReachedPartsAgree }
{}

/// A commit that a node holds asks for the keys that its transaction wrote, from the ask to the answer.
pub fn written_keys_are_held()
    ensures { WrittenKeysAreHeld }
{}
