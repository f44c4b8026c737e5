// The store that an event of a node asks, told before the event is made.
ghost use Rattle.std.specs.Prelude.{◌≡◌};
ghost use Rattle.machine.specs.Readers.{held_at};
ghost use Rattle.machine.specs.Events.Take.{take_asks};
ghost use Rattle.machine.specs.Events.Renew.{renew_asks};
ghost use Rattle.machine.specs.Events.Put.{to_place as to_place_of, put_asks};

use crate::putting::to_place;
use stamp_base::{SessionNo, Stamp, Store};
use takeover_core::Post;

/// The store that a take at the node asks: none where the node has an instance.
pub fn take_store(post: &Post) -> Option<Store>
    ensures { result ≡ take_asks post.now }
{
    match &post.instance {
        Some(_) => None,
        None => Some(Store::Master),
    }
}

/// The store that a renewal or an extension by the node asks: none where the node has no instance.
pub fn record_store(post: &Post) -> Option<Store>
    ensures { result ≡ renew_asks post.now }
{
    match &post.instance {
        Some(_) => Some(Store::Master),
        None => None,
    }
}

/// The store that a put of the session's commit asks: none where the node has no such commit to place.
pub fn put_store(post: &Post, session: SessionNo) -> Option<Store>
    ensures { result ≡ put_asks session post.now }
{
    match &post.instance {
        Some(instance) => match to_place(&instance.held(session)) {
            Some(_) => Some(Store::Table),
            None => None,
        },
        None => None,
    }
}

/// The start and the commit that the node is to place for the session.
pub fn commit_to_place(post: &Post, session: SessionNo) -> Option<(Stamp, Stamp)>
    ensures { result ≡ to_place_of (held_at post.now session) }
{
    match &post.instance {
        Some(instance) => to_place(&instance.held(session)),
        None => None,
    }
}
